// What the contents test asks of one node, and which part of it a faulty node breaks.

#![tactic(auto)]

ghost use Rattle.std.specs.Prelude.{◌≡◌};
ghost use Rattle.tree_node.specs.Node.{Axes};
ghost use Rattle.tree_contents.specs.Contents.{point_ok, block_ok, node_ok, node_fault};

use tree_node::Node;

// Why the nodes in use are not well formed.
#[derive(Clone, Copy, Debug, PartialEq, Eq)]
pub enum Unsound {
    // the number in use is 0 or above the arena
    Used,
    // the lowest faulty node, whose count is above the number of points
    Count(usize),
    // .. or which holds a point that there is not
    Point(usize),
    // .. or whose children do not lie wholly above it among the nodes in use
    Block(usize),
}

fn point_ok(l: Option<u32>, n: usize) -> bool
    ensures { result ≡ point_ok n l }
{
    match l {
        None => true,
        Some(o) => (o as usize) < n,
    }
}

// No children, or a block of them wholly above node i and among the nodes in use.
fn block_ok(first: u32, c: usize, used: usize, i: usize) -> bool
    requires { Axes c }
    ensures { result ≡ block_ok c used i first }
{
    let f = first as usize;
    f == 0 || f > i && f + (1 << c) <= used
}

// Whether node i is well formed for n points.
pub fn node_ok(v: Node, n: usize, c: usize, used: usize, i: usize) -> bool
    requires { Axes c }
    ensures { result ≡ node_ok n n c used i v }
{
    v.count as usize <= n && point_ok(v.leaf, n) && block_ok(v.first, c, used, i)
}

// Which part of the rule a faulty node breaks first.
pub fn fault(v: Node, n: usize, i: usize) -> Unsound
    ensures { result ≡ node_fault n i v }
{
    if v.count as usize > n {
        return Unsound::Count(i);
    }
    if point_ok(v.leaf, n) {
        return Unsound::Block(i);
    }
    Unsound::Point(i)
}
