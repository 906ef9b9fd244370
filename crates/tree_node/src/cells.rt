// The coordinates of a point, and an empty cell.
ghost use Rattle.std.specs.Prelude.{◌≡◌, ◌+◌, ◌*◌, ◌≤◌, length};
ghost use Rattle.tree_node.specs.Node.{Axes, point_of, fresh_of};

use crate::Node;

// The coordinates of point j.
pub fn point(positions: &[f64], j: usize, c: usize) -> [f64; 3]
    requires { (Axes c) × (j * c + c ≤ length positions.now) }
    ensures { result ≡ point_of positions.now c j }
{
    let a = j * c;
    if c == 1 {
        return [positions[a], 0.0, 0.0];
    }
    if c == 2 {
        return [positions[a], positions[a + 1], 0.0];
    }
    [positions[a], positions[a + 1], positions[a + 2]]
}

// An empty leaf with that cell.
pub fn fresh(centre: [f64; 3], half: [f64; 3]) -> Node
    ensures { result ≡ fresh_of centre half }
{
    Node {
        centre,
        half,
        mass: [0.0; 3],
        count: 0,
        first: 0,
        leaf: None,
    }
}
