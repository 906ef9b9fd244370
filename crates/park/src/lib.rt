// Writes a run into records, or tells why not.

#![tactic(auto)]

ghost use Rattle.std.specs.Prelude.{◌≡◌, true, ◌*◌, ◌<◌, ◌≤◌, length};
ghost use Rattle.laws.specs.Domain.{most_components, most_frames};
ghost use Rattle.tree_node.specs.Arena.{nodes_of};
ghost use Rattle.run_entry.specs.Entry.{is_fine};
ghost use Rattle.parked.specs.Parked.{stored_of, links_in, layout_in, StoredRoom};
ghost use Rattle.park.specs.Park.{calm_all, calm_state, parking, parked_into, park_tested, park_of, park_fault_number, LayoutRoom, ParkRoom};

use elementary::limits::is_calm;
use elementary::words::value_of;
use little::put_word;
use parked::{Layout, layout_of, parked_word};
use refusal::Numbered;
use run_entry::{Fault, Lengths};
use tree_node::Cell;
use words_entry::words_fault;

// Why a run is not written.
#[derive(Clone, Copy, Debug, PartialEq, Eq)]
pub enum ParkFault {
    // 17: a unit of an iteration is done, and the iteration is not
    Inside,
    // 15: a position, increment or gain that it bars
    Barred,
    // 12: the target is below the records needed
    Short,
    // what the entry tests found
    Bad(Fault),
}

impl Numbered for ParkFault {
    ghost number_of = { park_fault_number };

    fn number(self) -> u8 {
        match self {
            ParkFault::Inside => 17,
            ParkFault::Barred => 15,
            ParkFault::Short => 12,
            ParkFault::Bad(f) => f.number(),
        }
    }
}

// Whether 15 bars none of the first m values.
fn is_calm_area(area: &[u64], m: usize) -> bool
    requires { m ≤ length area.now }
    ensures { result ≡ calm_all area.now m }
{
    for i in 0..m {
        if !is_calm(value_of(area[i])) {
            return false;
        }
    }
    true
}

// Whether it bars none of the positions, increments and gains.
fn is_calm_state(m: usize, positions: &[u64], increments: &[u64], gains: &[u64]) -> bool
    requires { (m ≤ length positions.now) × (m ≤ length increments.now) × (m ≤ length gains.now) }
    ensures { result ≡ calm_state m positions.now increments.now gains.now }
{
    if !is_calm_area(positions, m) {
        return false;
    }
    if !is_calm_area(increments, m) {
        return false;
    }
    is_calm_area(gains, m)
}

// How many links are listed.
fn links_in(tree: bool, n: usize, offsets: &[u32]) -> usize
    requires { tree ≡ true → n < length offsets.now }
    ensures { result ≡ links_in tree n offsets.now }
{
    if tree {
        return offsets[n] as usize;
    }
    0
}

// How the run with these words and offsets lies.
fn layout_in(words: &[u64], offsets: &[u32]) -> Layout
    requires { LayoutRoom words.now offsets.now }
    ensures { result ≡ layout_in words.now offsets.now }
{
    let tree = words[3] == 1;
    let n = words[0] as usize;
    let links = links_in(tree, n, offsets);
    layout_of(tree, n, words[2] as usize, links)
}

// Writes each word of the file.
fn put_words(
    words: &[u64],
    positions: &[u64],
    increments: &[u64],
    gains: &[u64],
    affinities: &[u64],
    indices: &[u32],
    offsets: &[u32],
    l: Layout,
    target: &mut [u8],
)
    requires { StoredRoom l (stored_of words.now positions.now increments.now gains.now affinities.now indices.now offsets.now) × (8 * l.end ≤ length target.old) }
    ensures { target.new ≡ parked_into l (stored_of words.now positions.now increments.now gains.now affinities.now indices.now offsets.now) target.old }
{
    for w in 0..l.end {
        let v = parked_word(
            words, positions, increments, gains, affinities, indices, offsets, l, w,
        );
        put_word(target, 8 * w, v);
    }
}

// Once the entry tests have found a fault or none: refuses, or writes the records and tells how many.
fn put_tested(
    fault: Result<(), Fault>,
    words: &[u64],
    positions: &[u64],
    increments: &[u64],
    gains: &[u64],
    affinities: &[u64],
    indices: &[u32],
    offsets: &[u32],
    target: &mut [u8],
) -> Result<usize, ParkFault>
    requires { is_fine fault ≡ true → ParkRoom (stored_of words.now positions.now increments.now gains.now affinities.now indices.now offsets.now) }
    ensures { parking result target.new ≡ park_tested fault (stored_of words.now positions.now increments.now gains.now affinities.now indices.now offsets.now) target.old }
{
    if let Err(f) = fault {
        return Err(ParkFault::Bad(f));
    }
    if words[11] != 0 {
        return Err(ParkFault::Inside);
    }
    let l = layout_in(words, offsets);
    if !is_calm_state(l.cells, positions, increments, gains) {
        return Err(ParkFault::Barred);
    }
    if target.len() < 8 * l.end {
        return Err(ParkFault::Short);
    }
    put_words(
        words, positions, increments, gains, affinities, indices, offsets, l, target,
    );
    Ok(l.end / 4)
}

// The run, with any words and any areas, written to the target as a file of its own, and how many records that takes.
pub fn park(
    words: &[u64],
    positions: &[u64],
    increments: &[u64],
    gains: &[u64],
    affinities: &[u64],
    indices: &[u32],
    offsets: &[u32],
    forces: usize,
    cells: &[Cell],
    target: &mut [u8],
) -> Result<usize, ParkFault>
    ensures { parking result target.new ≡ park_of (stored_of words.now positions.now increments.now gains.now affinities.now indices.now offsets.now) forces (nodes_of cells.now) target.old }
{
    let l = Lengths {
        positions: positions.len(),
        increments: increments.len(),
        gains: gains.len(),
        affinities: affinities.len(),
        forces,
    };
    let t = words_fault(words, l, indices, offsets, cells);
    let a = put_tested(
        t, words, positions, increments, gains, affinities, indices, offsets, target,
    );
    a
}
