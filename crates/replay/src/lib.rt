// What every replay program shares: the words of a list, the areas that are compared with them, the tally of what was compared, and its printing.

#![tactic(auto)]

pub mod areas;
pub mod cases;

ghost use Rattle.std.specs.Prelude.{◌≡◌, ◌+◌, ◌≤◌, length, take, IfOk};
ghost use Rattle.io.specs.Counts.{IsPrefixLen};
ghost use Rattle.laws.specs.Joined.{written};
ghost use Rattle.text.specs.Text.{Puts};
ghost use Rattle.replay.specs.Replay.{word_of, tallied, no_tally, Unread};
ghost use Rattle.replay.specs.Line.{counts_text, first_text, tallied_text};

use std::fs::File;
use std::io::{Read, Write};
use std::rt::Files;
use text::{put, put_decimal};

// How a replay went so far.
#[derive(Debug, Clone, Copy, PartialEq, Eq)]
pub struct Tally {
    // how many cases were compared
    pub cases: u64,
    // how many of them differed
    pub wrong: u64,
    // the number of the first that did, from 0
    pub first: u64,
}

impl Tally {
    pub fn new() -> Tally
        ensures { result ≡ no_tally }
    {
        Tally {
            cases: 0,
            wrong: 0,
            first: 0,
        }
    }

    // One case more, which came out right or not.
    pub fn with(self, right: bool) -> Tally
        ensures { result ≡ tallied self right }
    {
        let cases = std::num::wrapping_add_u64(self.cases, 1);
        if right {
            return Tally {
                cases: cases,
                wrong: self.wrong,
                first: self.first,
            };
        }
        if self.wrong == 0 {
            return Tally {
                cases: cases,
                wrong: 1,
                first: self.cases,
            };
        }
        Tally {
            cases: cases,
            wrong: std::num::wrapping_add_u64(self.wrong, 1),
            first: self.first,
        }
    }
}

// Word i of a list; 0 past its end.
pub fn word_at(list: &[u8], i: usize) -> u64
    ensures { result ≡ word_of list.now i }
{
    if i < list.len() / 8 {
        return little::word(list, i * 8);
    }
    0
}

// Reads into the list what is open, and closes it. Where nothing could be opened: 0, and the list is as it was.
fn read_open<F: Read + Drop>(opened: std::io::Result<F>, list: &mut [u8]) -> usize
    ensures prefix_len { IsPrefixLen result list.new }
    ensures unread { Unread opened result list.old list.new }
{
    match opened {
        Err(_) => 0,
        Ok(mut file) => read_full(&mut file, list),
    }
}

// Reads until the list is full, the file ends or a read fails; answers how many bytes it put at the start of the list.
fn read_full(file: &mut impl Read, list: &mut [u8]) -> usize
    ensures { IsPrefixLen result list.new }
{
    let mut done = 0;
    while done < list.len() {
        match file.read(&mut list[done..]) {
            Ok(0) => break,
            Ok(n) => done += n,
            Err(_) => break,
        }
    }
    done
}

// Reads the file into the list, and answers how many bytes it has; 0 where it cannot be read.
pub fn load(rt: &impl Files, path: &[u8], list: &mut [u8]) -> usize
    ensures { IsPrefixLen result list.new }
{
    match std::str::from_utf8(path) {
        Ok(name) => read_open(File::open(rt, name), list),
        Err(_) => 0,
    }
}

// ---- the line of a tally

// How many bytes of the name are shown.
fn shown(name: &[u8]) -> usize
    ensures prefix_len { IsPrefixLen result name.now }
    ensures upper_bound { result ≤ 64 }
    ensures name_value { take result name.now ≡ take 64 name.now }
{
    if name.len() < 64 {
        return name.len();
    }
    64
}

fn put_counts(out: &mut [u8], at: usize, cases: u64, wrong: u64) -> usize
    requires { at + 56 ≤ length out.old }
    ensures puts { Puts (counts_text cases wrong) at out.old result out.new }
    ensures upper_bound { result ≤ at + 56 }
{
    let a = put(out, at, b": ");
    let b = put_decimal(out, a, cases);
    let c = put(out, b, b" cases, ");
    let d = put_decimal(out, c, wrong);
    put(out, d, b" wrong")
}

fn put_first(out: &mut [u8], at: usize, wrong: u64, first: u64) -> usize
    requires { at + 41 ≤ length out.old }
    ensures { Puts (first_text wrong first) at out.old result out.new }
{
    if wrong == 0 {
        return put(out, at, b"\n");
    }
    let a = put(out, at, b", the first is case ");
    let b = put_decimal(out, a, first);
    put(out, b, b"\n")
}

fn put_tally(out: &mut [u8], name: &[u8], t: Tally) -> usize
    requires { 200 ≤ length out.old }
    ensures { Puts (tallied_text name.now t) 0 out.old result out.new }
{
    let n = shown(name);
    let a = put(out, 0, &name[..n]);
    let b = put_counts(out, a, t.cases, t.wrong);
    put_first(out, b, t.wrong, t.first)
}

// The name, the cases and how many of them are wrong, as a line at the start of `out`; answers how many bytes it has.
pub fn tally_text(name: &[u8], t: Tally, out: &mut [u8; 200]) -> usize
    ensures prefix_len { IsPrefixLen result out.new }
    ensures value { result ≡ length (tallied_text name.now t) }
    ensures out_after { out.new ≡ written (tallied_text name.now t) 0 out.old }
{
    put_tally(out, name, t)
}

// Prints that line, and answers how many bytes it has, or why it could not be written whole.
pub fn print(rt: &impl Print, name: &[u8], t: Tally) -> std::io::Result<usize>
    ensures { IfOk result (λ n. n ≡ length (tallied_text name.now t)) }
{
    let mut out = [0u8; 200];
    let n = tally_text(name, t, &mut out);
    std::io::writer(rt).write_all(&out[..n])?;
    Ok(n)
}
