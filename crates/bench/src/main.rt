// The bench: reads a frame file from standard input and prints its map. One byte more than it takes is enough to see that a file is too long.

#![tactic(auto)]

ghost use Rattle.std.specs.Prelude.{◌≤◌, length, IfOk};

use std::io;
use std::io::{Read, Write};

// Reads until the file is full or the input ends, and answers how many bytes it put at its start.
fn read_full(input: &mut impl Read, file: &mut [u8]) -> io::Result<usize>
    ensures { IfOk result (λ n. n ≤ length file.new) }
{
    let mut done = 0;
    while done < file.len() {
        let n = input.read(&mut file[done..])?;
        if n == 0 {
            break;
        }
        done += n;
    }
    Ok(done)
}

fn map_input(rt: &(impl Input + Print), file: &mut [u8]) -> io::Result<()> {
    let n = read_full(&mut rt.reader(), file)?;
    let mut text = [0u8; 6400];
    let k = bench_printout::text_of(&file[..n], &mut text);
    io::writer(rt).write_all(&text[..k])
}

fn main(rt: HostRuntime) -> io::Result<()> {
    let mut file = [0u8; 4609];
    map_input(&rt, &mut file)
}
