// Writes the neighbour lists of a Barnes-Hut run as records of 16 bytes, or tells why not.

#![tactic(auto)]

ghost use Rattle.std.specs.Prelude.{◌≡◌, true, ◌+◌, ◌*◌, ◌≤◌, length};
ghost use Rattle.laws.specs.Area.{num};
ghost use Rattle.laws.specs.Joined.{joined, written};
ghost use Rattle.tree_node.specs.Arena.{nodes_of};
ghost use Rattle.run_entry.specs.Entry.{is_fine};
ghost use Rattle.parked.specs.Parked.{stored_of};
ghost use Rattle.partner_write.specs.Write.{link_record, link_at, lists_into, listing, lists_tested, written_lists, lists_fault_number, ListsLie, WriteRoom};

use little::{put_half_word, put_word};
use refusal::Numbered;
use run_entry::{Fault, Lengths};
use tree_node::Cell;
use words_entry::words_fault;

// Why no lists are written.
#[derive(Clone, Copy, Debug, PartialEq, Eq)]
pub enum ListsFault {
    // 17: an exact run has no lists
    NoLists,
    // 12: the target is below the records needed
    Short,
    // what the entry tests found
    Bad(Fault),
}

impl Numbered for ListsFault {
    ghost number_of = { lists_fault_number };

    fn number(self) -> u8 {
        match self {
            ListsFault::NoLists => 17,
            ListsFault::Short => 12,
            ListsFault::Bad(f) => f.number(),
        }
    }
}

// Writes a record from byte a on.
fn put_link(target: &mut [u8], a: usize, from: u64, to: u64, weight: u64)
    requires { a + 16 ≤ length target.old }
    ensures { target.new ≡ written (link_record from to weight) a target.old }
{
    put_half_word(target, a, from);
    put_half_word(target, a + 4, to);
    put_word(target, a + 8, weight);
}

// Writes the list of one frame: the k links from place a on.
fn put_list(target: &mut [u8], weights: &[u64], indices: &[u32], from: u64, a: usize, k: usize)
    requires { (a + k ≤ length weights.now) × (a + k ≤ length indices.now) × (16 * (a + k) ≤ length target.old) }
    ensures { target.new ≡ written (joined (link_at weights.now indices.now from a) k) (16 * a) target.old }
{
    for t in 0..k {
        let p = a + t;
        let to = indices[p] as u64;
        put_link(target, 16 * p, from, to, weights[p]);
    }
}

// Writes the lists of n frames.
fn put_lists(target: &mut [u8], weights: &[u64], indices: &[u32], offsets: &[u32], n: usize)
    requires { ListsLie n weights.now indices.now offsets.now × (16 * num offsets.now n ≤ length target.old) }
    ensures { target.new ≡ lists_into n weights.now indices.now offsets.now target.old }
{
    for i in 0..n {
        let a = offsets[i] as usize;
        let e = offsets[i + 1] as usize;
        put_list(target, weights, indices, i as u64, a, e - a);
    }
}

// Once the entry tests have found a fault or none: refuses, or writes the records and tells how many.
fn write_tested(
    fault: Result<(), Fault>,
    words: &[u64],
    affinities: &[u64],
    indices: &[u32],
    offsets: &[u32],
    target: &mut [u8],
) -> Result<usize, ListsFault>
    requires { is_fine fault ≡ true → WriteRoom words.now affinities.now indices.now offsets.now }
    ensures { listing result target.new ≡ lists_tested fault words.now affinities.now indices.now offsets.now target.old }
{
    if let Err(f) = fault {
        return Err(ListsFault::Bad(f));
    }
    if words[3] != 1 {
        return Err(ListsFault::NoLists);
    }
    let n = words[0] as usize;
    let links = offsets[n] as usize;
    if target.len() < 16 * links {
        return Err(ListsFault::Short);
    }
    put_lists(target, affinities, indices, offsets, n);
    Ok(links)
}

// The lists of the run, with any words and any areas, written to the target, and how many records that takes.
pub fn write_lists(
    words: &[u64],
    positions: &[u64],
    increments: &[u64],
    gains: &[u64],
    affinities: &[u64],
    indices: &[u32],
    offsets: &[u32],
    forces: usize,
    cells: &[Cell],
    target: &mut [u8],
) -> Result<usize, ListsFault>
    ensures { listing result target.new ≡ written_lists (stored_of words.now positions.now increments.now gains.now affinities.now indices.now offsets.now) forces (nodes_of cells.now) target.old }
{
    let l = Lengths {
        positions: positions.len(),
        increments: increments.len(),
        gains: gains.len(),
        affinities: affinities.len(),
        forces,
    };
    let t = words_fault(words, l, indices, offsets, cells);
    let a = write_tested(t, words, affinities, indices, offsets, target);
    a
}
