// Where a point goes, and the cells of a node's children.

#![tactic(auto)]

ghost use Rattle.std.specs.Prelude.{◌≡◌, ◌<◌, ◌≤◌};
ghost use Rattle.tree_node.specs.Node.{Axes};
ghost use Rattle.tree_children.specs.Children.{bit_of, child_index, moved_of, child_half, child_centre, cell_of};

use tree_node::Node;
use tree_node::cells::fresh;

// The bit of component d: set where the coordinate is above the centre.
fn bit(z: f64, x: f64, d: usize) -> usize
    requires { d < 3 }
    ensures { (result ≡ bit_of z x d) × (result ≤ 4) }
{
    if x > z {
        return 1 << d;
    }
    0
}

// The number of the child that p goes to.
pub fn child_index(z: [f64; 3], p: [f64; 3], c: usize) -> usize
    requires { Axes c }
    ensures { result ≡ child_index c z p }
{
    let x = bit(z[0], p[0], 0);
    if c == 1 {
        return x;
    }
    let y = x + bit(z[1], p[1], 1);
    if c == 2 {
        return y;
    }
    y + bit(z[2], p[2], 2)
}

// One component of the centre of child b.
fn moved(z: f64, h: f64, b: usize, d: usize) -> f64
    requires { d < 3 }
    ensures { result ≡ moved_of z h b d }
{
    if (b >> d) % 2 == 1 {
        return z + h / 2.0;
    }
    z - h / 2.0
}

// Half the width in each component.
pub fn child_half(h: [f64; 3], c: usize) -> [f64; 3]
    requires { Axes c }
    ensures { result ≡ child_half c h }
{
    let x = h[0] / 2.0;
    if c == 1 {
        return [x, 0.0, 0.0];
    }
    let y = h[1] / 2.0;
    if c == 2 {
        return [x, y, 0.0];
    }
    [x, y, h[2] / 2.0]
}

// The middle of child b.
pub fn child_centre(z: [f64; 3], h: [f64; 3], b: usize, c: usize) -> [f64; 3]
    requires { Axes c }
    ensures { result ≡ child_centre c z h b }
{
    let x = moved(z[0], h[0], b, 0);
    if c == 1 {
        return [x, 0.0, 0.0];
    }
    let y = moved(z[1], h[1], b, 1);
    if c == 2 {
        return [x, y, 0.0];
    }
    [x, y, moved(z[2], h[2], b, 2)]
}

// Child b of a split: an empty leaf.
pub fn cell(v: Node, b: usize, c: usize) -> Node
    requires { Axes c }
    ensures { result ≡ cell_of c v b }
{
    fresh(child_centre(v.centre, v.half, b, c), child_half(v.half, c))
}
