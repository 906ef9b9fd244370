// What settings and records say, as plain words: how long the areas must be; state, iterations and units done.

#![tactic(auto)]

ghost use Rattle.std.specs.Prelude.{◌≡◌, ◌<◌, ◌≤◌, ◌^◌, length};
ghost use Rattle.tree_node.specs.Node.{Axes};
ghost use Rattle.run_record.specs.Record.{GoodSettings};
ghost use Rattle.record_words.specs.RecordWords.{worded};
ghost use Rattle.desk_record.specs.Records.{lengths_put, host_sizes, said_of};

use laws::DEEPEST;
use record_words::{run_fine, settings_fine, settings_of};
use refusal::number;
use run_record::Settings;
use run_record::faults::{is_tree, settings_fault, sizes_of};

// ---- sizes

// 2^c.
fn corners(c: usize) -> usize
    requires { Axes c }
    ensures { result ≡ 2 ^ c }
{
    if c == 1 {
        return 2;
    }
    if c == 2 {
        return 4;
    }
    8
}

// How long the areas of good settings must be.
fn put_sizes(words: &mut [u64], s: Settings)
    requires { (7 ≤ length words.old) × GoodSettings s }
    ensures { words.new ≡ lengths_put s words.old }
{
    let z = sizes_of(s);
    words[0] = z.cells as u64;
    words[4] = z.forces as u64;
    words[5] = s.n as u64;
    let m = s.method;
    if is_tree(m) {
        words[1] = z.links as u64;
        words[2] = z.links as u64;
        words[3] = (s.n + 1) as u64;
        words[6] = (1 + DEEPEST * corners(s.c) * (s.n - 1)) as u64;
        return;
    }
    words[1] = z.square as u64;
    words[2] = 0;
    words[3] = 0;
    words[6] = 0;
}

// How long the areas must be, in seven words. Answers 0, or 21, 12, or the number that 1 to 10 would give; then nothing is changed.
pub fn host_sizes(settings: &[u64], sizes: &mut [u64]) -> u32
    ensures { worded result sizes.new ≡ host_sizes settings.now sizes.old }
{
    if !settings_fine(settings) {
        return 21;
    }
    if sizes.len() < 7 {
        return 12;
    }
    let s = settings_of(settings);
    let k = number(settings_fault(s));
    if k != 0 {
        return k as u32;
    }
    put_sizes(sizes, s);
    0
}

// ---- what a record says

// Word i of a record, or another number where the words are no record.
fn said(record: &[u64], i: usize, other: u64) -> u64
    requires { i < 14 }
    ensures { result ≡ said_of i other «record».now }
{
    if !run_fine(record) {
        return other;
    }
    record[i]
}

// 0 running, 1 stopped, 2 finished; 3 where the words are no record.
pub fn host_state(record: &[u64]) -> u64
    ensures { result ≡ said_of 9 3 «record».now }
{
    said(record, 9, 3)
}

// Iterations done; 0 where the words are no record.
pub fn host_iterations(record: &[u64]) -> u64
    ensures { result ≡ said_of 10 0 «record».now }
{
    said(record, 10, 0)
}

// Units done in all; 0 where the words are no record.
pub fn host_units(record: &[u64]) -> u64
    ensures { result ≡ said_of 12 0 «record».now }
{
    said(record, 12, 0)
}
