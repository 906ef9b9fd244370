// The entry tests of a work call: the record, the areas, the contents, in this order.

#![tactic(auto)]

ghost use Rattle.std.specs.Prelude.{◌≡◌, not, ◌+◌, ◌-◌, ◌≤◌, ◌<◌, length};
ghost use Rattle.laws.specs.Domain.{most_frames};
ghost use Rattle.laws.specs.Loops.{first};
ghost use Rattle.tree_node.specs.Node.{Axes};
ghost use Rattle.tree_node.specs.Arena.{nodes_of};
ghost use Rattle.run_record.specs.Record.{GoodSettings, sizes_of};
ghost use Rattle.run_entry.specs.declared.Fault.TheVariants.{Settings};
ghost use Rattle.run_entry.specs.Entry.{offset_fine, index_fine, tree_fits, areas_fit, fault_number, unsound_fault, record_fault, lists_fault, fault_before_tree, fault_at, ContentsRoom};

use refusal::{Numbered, Refusal};
use run_record::counters::counters_ok;
use run_record::faults::{is_tree, settings_fault, sizes_of};
use run_record::{Run, Settings};
use tree::Unsound;
use tree::wellformed::tree_ok;
use tree_node::Cell;

// What the entry tests find wrong, a case for each kind of fault.
#[derive(Clone, Copy, Debug, PartialEq, Eq)]
pub enum Fault {
    // with what 1 to 10 would say
    Settings(Refusal),
    Counters,
    Areas,
    // the frame whose list's end is bad, 0 for a bad start
    Offsets(usize),
    // the place of the first index that names no frame
    Index(usize),
    // the lowest faulty node, 0 where the number in use is bad
    Tree(usize),
}

// The number of a fault, which says what to look at: 12 for an area, 21 to 25 for all else that the entry tests find.
impl Numbered for Fault {
    ghost number_of = { fault_number };

    fn number(self) -> u8 {
        match self {
            Fault::Settings(_) => 21,
            Fault::Counters => 22,
            Fault::Areas => 12,
            Fault::Offsets(_) => 23,
            Fault::Index(_) => 24,
            Fault::Tree(_) => 25,
        }
    }
}

impl From<Refusal> for Fault {
    ghost from_gives = { λ r f. f ≡ Settings r };

    fn from(r: Refusal) -> Fault {
        Fault::Settings(r)
    }
}

// A faulty tree is told by its lowest faulty node; 0 where the number in use is bad.
impl From<Unsound> for Fault {
    ghost from_gives = { λ u f. f ≡ unsound_fault u };

    fn from(u: Unsound) -> Fault {
        match u {
            Unsound::Used => Fault::Tree(0),
            Unsound::Count(i) => Fault::Tree(i),
            Unsound::Point(i) => Fault::Tree(i),
            Unsound::Block(i) => Fault::Tree(i),
        }
    }
}

// How many values each area of values has.
#[derive(Clone, Copy)]
pub struct Lengths {
    pub positions: usize,
    pub increments: usize,
    pub gains: usize,
    pub affinities: usize,
    pub forces: usize,
}

fn offset_fine(offsets: &[u32], most: usize, i: usize) -> bool
    requires { i < length offsets.now }
    ensures { result ≡ offset_fine offsets.now most i }
{
    if i == 0 {
        return offsets[i] == 0;
    }
    offsets[i - 1] <= offsets[i] && offsets[i] as usize <= most
}

// The first bad offset of n.
fn first_offset(offsets: &[u32], most: usize, n: usize) -> usize
    requires { n ≤ length offsets.now }
    ensures { result ≡ first (λ i. not (offset_fine offsets.now most i)) n }
{
    for i in 0..n {
        if !offset_fine(offsets, most, i) {
            return i;
        }
    }
    n
}

fn index_fine(indices: &[u32], n: usize, i: usize) -> bool
    requires { i < length indices.now }
    ensures { result ≡ index_fine indices.now n i }
{
    (indices[i] as usize) < n
}

// The first bad index of count.
fn first_index(indices: &[u32], n: usize, count: usize) -> usize
    requires { count ≤ length indices.now }
    ensures { result ≡ first (λ i. not (index_fine indices.now n i)) count }
{
    for i in 0..count {
        if !index_fine(indices, n, i) {
            return i;
        }
    }
    count
}

fn tree_fits(n: usize, links: usize, a: usize, x: usize, o: usize, nodes: usize) -> bool
    requires { n ≤ most_frames }
    ensures { result ≡ tree_fits n links a x o nodes }
{
    if a < links || x < links || o < n + 1 {
        return false;
    }
    1 <= nodes
}

// No area is too short: of values by their lengths, with so many indices, offsets and nodes.
pub fn areas_fit(s: Settings, l: Lengths, indices: usize, offsets: usize, nodes: usize) -> bool
    requires { GoodSettings s }
    ensures { result ≡ areas_fit s l.positions l.increments l.gains l.affinities indices offsets l.forces nodes }
{
    let z = sizes_of(s);
    if l.positions < z.cells || l.increments < z.cells || l.gains < z.cells || l.forces < z.forces {
        return false;
    }
    if is_tree(s.method) {
        return tree_fits(s.n, z.links, l.affinities, indices, offsets, nodes);
    }
    z.square <= l.affinities
}

// A Barnes-Hut run's offsets and indices.
fn lists_fault(r: Run, indices: &[u32], offsets: &[u32]) -> Result<(), Fault>
    requires { ContentsRoom r (length indices.now) (length offsets.now) }
    ensures { result ≡ lists_fault r indices.now offsets.now }
{
    let s = r.settings;
    let z = sizes_of(s);
    let n = s.n;
    let o = first_offset(offsets, z.links, n + 1);
    if o < n + 1 {
        return Err(Fault::Offsets(before(o)));
    }
    let count = offsets[n] as usize;
    let x = first_index(indices, n, count);
    if x < count {
        return Err(Fault::Index(x));
    }
    Ok(())
}

// One less, and 0 for 0.
fn before(i: usize) -> usize
    ensures { result ≡ i - 1 }
{
    if i == 0 {
        return 0;
    }
    i - 1
}

// Settings and counters.
fn record_fault(r: Run) -> Result<(), Fault>
    ensures { result ≡ record_fault r }
{
    settings_fault(r.settings)?;
    if !counters_ok(r) {
        return Err(Fault::Counters);
    }
    Ok(())
}

// All but the nodes, of which there are so many: the record, the areas by their lengths, the lists.
fn early_fault(
    r: Run,
    l: Lengths,
    indices: &[u32],
    offsets: &[u32],
    nodes: usize,
) -> Result<(), Fault>
    ensures { result ≡ fault_before_tree r l.positions l.increments l.gains l.affinities l.forces indices.now offsets.now nodes }
{
    record_fault(r)?;
    if !areas_fit(r.settings, l, indices.len(), offsets.len(), nodes) {
        return Err(Fault::Areas);
    }
    if !is_tree(r.settings.method) {
        return Ok(());
    }
    lists_fault(r, indices, offsets)
}

// The record, the areas (of values by their lengths), the contents. The nodes are tested between an iteration's box and its finish.
pub fn fault_at(
    r: Run,
    l: Lengths,
    indices: &[u32],
    offsets: &[u32],
    cells: &[Cell],
) -> Result<(), Fault>
    ensures { result ≡ fault_at r l.positions l.increments l.gains l.affinities l.forces indices.now offsets.now (nodes_of cells.now) }
{
    early_fault(r, l, indices, offsets, cells.len())?;
    let s = r.settings;
    if is_tree(s.method) && r.phase != 0 {
        tree_ok(cells, r.used, s.n, s.c)?;
    }
    Ok(())
}
