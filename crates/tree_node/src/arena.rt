// The arena, a lent slice of cells; `load` and `store` read and write a node.
ghost use Rattle.std.specs.Prelude.{◌≡◌, ◌<◌, ◌≤◌, min, length, set};
ghost use Rattle.laws.specs.Domain.{most_word};
ghost use Rattle.tree_node.specs.Arena.{leaf_word, node_of, laid_of, nodes_of, node_at, nameable};

use crate::{Cell, Node};
use laws::MOST_WORD;

// The node that lies in a cell.
impl From<Cell> for Node {
    ghost from_gives = { λ x v. v ≡ node_of x };

    fn from(x: Cell) -> Node {
        let (centre, half, mass) = (x.centre, x.half, x.mass);
        Node {
            centre,
            half,
            mass,
            count: x.count,
            first: x.first,
            leaf: x.leaf.checked_sub(1),
        }
    }
}

// The cell in which a node lies.
fn lay_node(v: Node) -> Cell
    requires { leaf_word v.leaf ≤ most_word }
    ensures { result ≡ laid_of v }
{
    let (centre, half, mass) = (v.centre, v.half, v.mass);
    let leaf = match v.leaf {
        None => 0,
        Some(p) => p + 1,
    };
    Cell {
        centre,
        half,
        mass,
        count: v.count,
        first: v.first,
        leaf,
    }
}

// How many of so many cells a word can name.
pub fn nameable_of(cells: usize) -> usize
    ensures { result ≡ nameable cells }
{
    cells.min(MOST_WORD)
}

// The node in cell i.
pub fn load(cells: &[Cell], i: usize) -> Node
    requires { i < length cells.now }
    ensures { result ≡ node_at (nodes_of cells.now) i }
{
    Node::from(cells[i])
}

// A node into cell i.
pub fn store(cells: &mut [Cell], i: usize, v: Node)
    requires { (i < length cells.old) × (leaf_word v.leaf ≤ most_word) }
    ensures { nodes_of cells.new ≡ set (nodes_of cells.old) i v }
{
    cells[i] = lay_node(v);
}
