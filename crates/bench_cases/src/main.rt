// Many frame files through the bench's map: for each a line with its number, then what the bench prints of it.

#![tactic(auto)]

use replay::word_at;
use std::io;
use std::io::Write;
use std::rt::Files;

fn print_case(rt: &impl Print, k: u64) -> io::Result<()> {
    println!(rt; "case {k}")
}

fn print_file(rt: &impl Print, file: &[u8]) -> io::Result<()> {
    let mut text = [0u8; 6400];
    let k = bench_printout::text_of(file, &mut text);
    io::writer(rt).write_all(&text[..k])
}

// A case is its length in bytes, then the bytes filled up to whole words. A length that does not fit the list ends the program.
fn map_cases(rt: &impl Print, list: &[u8]) -> io::Result<()> {
    let words = list.len() / 8;
    let mut k: u64 = 0;
    let mut a: usize = 0;
    while a < words {
        let length = word_at(list, a);
        if length > 80000 {
            return Ok(());
        }
        let from = 8 * a + 8;
        let end = from + length as usize;
        if end > list.len() {
            return Ok(());
        }
        print_case(rt, k)?;
        print_file(rt, &list[from..end])?;
        k = std::num::wrapping_add_u64(k, 1);
        a = a + 1 + (length as usize + 7) / 8;
    }
    Ok(())
}

fn map_list(rt: &(impl Files + Print), list: &mut [u8]) -> io::Result<()> {
    let n = replay::load(rt, b"files.words", list);
    map_cases(rt, &list[..n])
}

fn main(rt: HostRuntime) -> io::Result<()> {
    let mut list = vec![in rt.alloc(); 0u8; 524288]?;
    map_list(&rt, &mut list)
}
