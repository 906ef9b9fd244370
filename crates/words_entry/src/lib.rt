// The entry tests of a work call where the record is lent as words.

#![tactic(auto)]

ghost use Rattle.std.specs.Prelude.{◌≡◌};
ghost use Rattle.tree_node.specs.Arena.{nodes_of};
ghost use Rattle.words_entry.specs.WordsEntry.{words_fault};

use fault_words::unread_fault;
use record_words::{run_fine, run_of};
use run_entry::{Fault, Lengths, fault_at};
use tree_node::Cell;

// What is told of the words, or what the tests find: of areas of values by their lengths.
pub fn words_fault(
    words: &[u64],
    l: Lengths,
    indices: &[u32],
    offsets: &[u32],
    cells: &[Cell],
) -> Result<(), Fault>
    ensures { result ≡ words_fault words.now l.positions l.increments l.gains l.affinities l.forces indices.now offsets.now (nodes_of cells.now) }
{
    if run_fine(words) {
        return fault_at(run_of(words), l, indices, offsets, cells);
    }
    Err(unread_fault(words))
}
