// The root, planted over all points.
ghost use Rattle.std.specs.Prelude.{◌≡◌, ◌*◌, ◌<◌, ◌≤◌, length, set};
ghost use Rattle.tree_node.specs.Node.{Axes};
ghost use Rattle.tree_node.specs.Arena.{nodes_of};
ghost use Rattle.tree_bounds.specs.Bounds.{box_of};

use tree_bounds::bounding_box;
use tree_node::Cell;
use tree_node::arena::store;

// Node 0 becomes the root over n points; the other nodes stay.
pub fn plant(cells: &mut [Cell], positions: &[f64], n: usize, c: usize)
    requires { (Axes c) × (n * c ≤ length positions.now) × (0 < length cells.old) }
    ensures { nodes_of cells.new ≡ set (nodes_of cells.old) 0 (box_of positions.now n c) }
{
    let root = bounding_box(positions, n, c);
    store(cells, 0, root);
}
