// Parking with the arena by value: it lends it from a local.
ghost use Rattle.std.specs.Prelude.{◌≡◌, ◌≤◌, take};
ghost use Rattle.tree_node.specs.Arena.{nodes_of};
ghost use Rattle.parked.specs.Parked.{stored_of};
ghost use Rattle.park.specs.Park.{parking, park_of};

use park::ParkFault;
use tree_node::Cell;

// The call that is lent the first k cells.
pub(crate) fn park_in(
    words: &[u64],
    positions: &[u64],
    increments: &[u64],
    gains: &[u64],
    affinities: &[u64],
    indices: &[u32],
    offsets: &[u32],
    forces: usize,
    cells: [Cell; 4],
    k: usize,
    target: &mut [u8],
) -> Result<usize, ParkFault>
    requires { k ≤ 4 }
    ensures { parking result target.new
        ≡ park_of (stored_of
        words.now
        positions.now
        increments.now
        gains.now
        affinities.now
        indices.now
        offsets.now)
        forces
        (nodes_of (take k cells))
        target.old }
{
    let own = cells;
    let a = park::park(
        words,
        positions,
        increments,
        gains,
        affinities,
        indices,
        offsets,
        forces,
        &own[..k],
        target,
    );
    a
}
