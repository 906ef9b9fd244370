// A point's forces in a Barnes-Hut run: attraction over its list, repulsion and share from the tree.
ghost use Rattle.std.specs.Prelude.{◌≡◌, true, ◌+◌, ◌*◌, ◌<◌, ◌≤◌, length};
ghost use Rattle.laws.specs.Domain.{most_frames, most_word};
ghost use Rattle.tree_node.specs.Node.{Axes};
ghost use Rattle.tree_node.specs.Arena.{nodes_of};
ghost use Rattle.tree.specs.Insert.{tree, shaped};
ghost use Rattle.gradient.specs.Forces.{Linked, eye_of, forces_of};

use crate::pulls::place_forces;
use gradient_pairs::exact::Map;
use tree_node::Cell;
use tree_node::cells::point;
use tree_walk::{Eye, repulsive_force};

// The links of a Barnes-Hut run: their weights and the frames that they name, and at which place each frame's list begins.
#[derive(Clone, Copy)]
pub struct Lists<'a> {
    pub weights: &'a [f64],
    pub indices: &'a [u32],
    pub offsets: &'a [u32],
}

// With what eye point i looks at the tree.
pub(crate) fn eye_of(map: Map, i: usize, angle: f64) -> Eye
    requires { (Axes map.c) × (i < map.n) × (map.n ≤ most_frames) × (map.n * map.c ≤ length map.positions.now) }
    ensures { result ≡ eye_of angle map.entry.c map.entry.positions.now i }
{
    Eye {
        p: point(map.positions, i, map.c),
        theta2: angle * angle,
        q: i as u32,
        c: map.c,
    }
}

// The forces unit of point i.
pub fn point_forces(
    cells: &[Cell],
    used: usize,
    map: Map,
    lists: Lists,
    i: usize,
    exaggeration: f64,
    angle: f64,
    forces: &mut [f64],
)
    requires { (Axes map.c) × (i < map.n) × (map.n ≤ most_frames)
        × (map.n * map.c ≤ length map.positions.now) × (map.n * (2 * map.c + 1) ≤ length forces.old)
        × (0 < used) × (used ≤ length (nodes_of cells.now)) × (used ≤ most_word)
        × (shaped map.c (tree used (nodes_of cells.now)) ≡ true)
        × Linked map.n lists.weights.now lists.indices.now lists.offsets.now i }
    ensures { forces.new
        ≡ forces_of exaggeration angle map.entry.c
        map.entry.positions.now
        lists.entry.weights.now
        lists.entry.indices.now
        lists.entry.offsets.now
        used
        (nodes_of cells.now)
        i
        forces.old }
{
    let eye = eye_of(map, i, angle);
    let acc = repulsive_force(cells, used, eye);
    place_forces(map, lists, i, exaggeration, acc, forces);
}
