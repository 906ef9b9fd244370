// The contents test: are the nodes in use what a force walk and an insertion may rely on?
ghost use Rattle.std.specs.Prelude.{◌≡◌, length};
ghost use Rattle.tree_node.specs.Node.{Axes};
ghost use Rattle.tree_node.specs.Arena.{nodes_of};
ghost use Rattle.tree.specs.Insert.{tree};
ghost use Rattle.tree.specs.Contents.{contents_of};

use tree_contents::{Unsound, fault, node_ok};
use tree_node::Cell;
use tree_node::arena::{load, nameable_of};

// Whether the nodes in use are well formed for n points, or the lowest faulty one.
pub fn tree_ok(cells: &[Cell], used: usize, n: usize, c: usize) -> Result<(), Unsound>
    requires { Axes c }
    ensures { result ≡ contents_of n c (tree used (nodes_of cells.now)) }
{
    if used == 0 || used > nameable_of(cells.len()) {
        return Err(Unsound::Used);
    }
    for i in 0..used {
        let v = load(cells, i);
        if !node_ok(v, n, c, used, i) {
            return Err(fault(v, n, i));
        }
    }
    Ok(())
}
