// Writing lists with the arena by value: it lends it from a local.
ghost use Rattle.std.specs.Prelude.{◌≡◌, ◌≤◌, take};
ghost use Rattle.tree_node.specs.Arena.{nodes_of};
ghost use Rattle.parked.specs.Parked.{stored_of};
ghost use Rattle.partner_write.specs.Write.{listing, written_lists};

use partner_write::ListsFault;
use tree_node::Cell;

// The call that is lent the first k cells.
pub(crate) fn lists_in(
    words: &[u64],
    positions: &[u64],
    increments: &[u64],
    gains: &[u64],
    affinities: &[u64],
    indices: &[u32],
    offsets: &[u32],
    forces: usize,
    cells: [Cell; 4],
    k: usize,
    target: &mut [u8],
) -> Result<usize, ListsFault>
    requires { k ≤ 4 }
    ensures { listing result target.new
        ≡ written_lists (stored_of
        words.now
        positions.now
        increments.now
        gains.now
        affinities.now
        indices.now
        offsets.now)
        forces
        (nodes_of (take k cells))
        target.old }
{
    let own = cells;
    let a = partner_write::write_lists(
        words,
        positions,
        increments,
        gains,
        affinities,
        indices,
        offsets,
        forces,
        &own[..k],
        target,
    );
    a
}
