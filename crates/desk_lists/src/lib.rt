// Writing the neighbour lists of a run, with record and answer as plain words. Areas of values are lent by their bits.

#![tactic(auto)]

ghost use Rattle.std.specs.Prelude.{◌≡◌, length};
ghost use Rattle.tree_node.specs.Arena.{nodes_of};
ghost use Rattle.parked.specs.Parked.{stored_of};
ghost use Rattle.desk_lists.specs.HostLists.{lists_told, host_listed, host_lists};

use fault_words::fault_value;
use partner_write::{ListsFault, write_lists};
use record_words::told::put_told;
use tree_node::Cell;

// The records, or the place that comes with the refusal.
fn lists_told(p: Result<usize, ListsFault>) -> u64
    ensures { result ≡ lists_told p }
{
    match p {
        Ok(k) => k as u64,
        Err(ListsFault::Bad(f)) => fault_value(f),
        Err(ListsFault::NoLists | ListsFault::Short) => 0,
    }
}

// Writes the lists of the run into records. Answers 0, or the number of the refusal; then the target is not changed.
pub fn host_lists(
    words: &[u64],
    positions: &[u64],
    increments: &[u64],
    gains: &[u64],
    affinities: &[u64],
    indices: &[u32],
    offsets: &[u32],
    forces: &[f64],
    cells: &[Cell],
    target: &mut [u8],
    answer: &mut [u64],
) -> u32
    ensures { host_listed result target.new answer.new
        ≡ host_lists
        (stored_of
        words.now
        positions.now
        increments.now
        gains.now
        affinities.now
        indices.now
        offsets.now)
        (length forces.now)
        (nodes_of cells.now)
        target.old
        answer.old }
{
    if answer.len() == 0 {
        return 12;
    }
    let p = write_lists(
        words,
        positions,
        increments,
        gains,
        affinities,
        indices,
        offsets,
        forces.len(),
        cells,
        target,
    );
    put_told(answer, p, lists_told(p))
}
