// Handing out with the arena by value: it lends it from a local.
ghost use Rattle.std.specs.Prelude.{◌≡◌, ◌≤◌, take};
ghost use Rattle.run_entry.specs.State.{memory};
ghost use Rattle.hand_out.specs.HandOut.{handing, handed_out};

use hand_out::HandFault;
use tree_node::Cell;

// The call that is lent the first k cells.
pub(crate) fn hand_in(
    words: &[u64],
    positions: &[f64],
    increments: &[f64],
    gains: &[f64],
    affinities: &[f64],
    indices: &[u32],
    offsets: &[u32],
    forces: &[f64],
    cells: [Cell; 4],
    k: usize,
    order: &mut [u32],
    gaps: &mut [u64],
) -> Result<usize, HandFault>
    requires { k ≤ 4 }
    ensures { handing result order.new gaps.new
        ≡ handed_out words.now
        (memory
        positions.now
        increments.now
        gains.now
        affinities.now
        indices.now
        offsets.now
        forces.now
        (take k cells))
        order.old
        gaps.old }
{
    let own = cells;
    let a = hand_out::hand_out(
        words,
        positions,
        increments,
        gains,
        affinities,
        indices,
        offsets,
        forces,
        &own[..k],
        order,
        gaps,
    );
    a
}
