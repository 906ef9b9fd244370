// The forces unit of a point, in the first cells of an arena that is lent whole.
ghost use Rattle.std.specs.Prelude.{◌≡◌, ◌+◌, ◌*◌, ◌<◌, ◌≤◌, length};
ghost use Rattle.laws.specs.Domain.{most_frames};
ghost use Rattle.tree_node.specs.Node.{Axes};
ghost use Rattle.gradient.specs.Forces.{Linked, forces_of};
ghost use Rattle.replay_arena.specs.Fronts.{front, Walkable};

use gradient::forces::{Lists, point_forces};
use gradient_pairs::exact::Map;
use tree_node::Cell;

// Point i, in the tree that lies in the first k cells.
pub(crate) fn forces_in(
    cells: &[Cell; 512],
    k: usize,
    used: usize,
    map: Map,
    lists: Lists,
    i: usize,
    exaggeration: f64,
    angle: f64,
    forces: &mut [f64],
)
    requires { (Axes map.c)
        × (i < map.n)
        × (map.n ≤ most_frames)
        × (map.n * map.c ≤ length map.positions.now)
        × (map.n * (2 * map.c + 1) ≤ length forces.old)
        × (k ≤ 512)
        × (Walkable k used map.c cells.now)
        × Linked map.n lists.weights.now lists.indices.now lists.offsets.now i }
    ensures { forces.new
        ≡ forces_of exaggeration angle map.entry.c
        map.entry.positions.now
        lists.entry.weights.now
        lists.entry.indices.now
        lists.entry.offsets.now
        used
        (front k cells.now)
        i
        forces.old }
{
    point_forces(
        &cells[..k],
        used,
        map,
        lists,
        i,
        exaggeration,
        angle,
        forces,
    );
}
