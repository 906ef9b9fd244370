// An arena by value, for the programs that replay lists: 512 cells, of which the first k are lent to a function of the tree.
// A function that lends takes the arena by value too, so that its callers lend nothing.

#![tactic(auto)]

pub mod marks;

ghost use Rattle.std.specs.Prelude.{◌≡◌, ◌*◌, ◌<◌, ◌≤◌, true, false, length, slice_set};
ghost use Rattle.laws.specs.Domain.{most_word};
ghost use Rattle.tree_node.specs.Node.{Axes};
ghost use Rattle.tree_node.specs.Arena.{nodes_of};
ghost use Rattle.tree_bounds.specs.Bounds.{box_of};
ghost use Rattle.tree_walk.specs.Repel.{repelled};
ghost use Rattle.tree.specs.Insert.{tree, insert_of};
ghost use Rattle.replay_arena.specs.Fronts.{front, behind, fine_of, Walkable, put_of, told_by, nothing_put};

use tree::Inserted;
use tree::insertion::insert;
use tree::root::plant;
use tree::wellformed::tree_ok;
use tree_bodies::Acc;
use tree_node::Cell;
use tree_walk::{Eye, repulsive_force};

// What became of a point that was to go in.
#[derive(Clone, Copy)]
pub struct Put {
    pub cells: [Cell; 512],
    // the nodes that it needs are not there, and nothing has changed
    pub full: bool,
    // nodes in use
    pub used: usize,
}

pub fn put_of(a: Inserted, cells: [Cell; 512]) -> Put
    ensures { result ≡ put_of a cells }
{
    Put {
        cells,
        full: a.full,
        used: a.used,
    }
}

// The root over n points into cell 0.
pub fn plant_in(cells: [Cell; 512], k: usize, positions: &[f64], n: usize, c: usize) -> [Cell; 512]
    requires { (Axes c) × (n * c ≤ length positions.now) × (0 < k) × (k ≤ 512) }
    ensures { nodes_of result ≡ slice_set (nodes_of cells) 0 (box_of positions.now n c) }
{
    let mut own = cells;
    plant(&mut own[..k], positions, n, c);
    own
}

// Whether the first k cells, of which `used` are in use, are well formed for n points.
pub fn fine_in(cells: [Cell; 512], k: usize, used: usize, n: usize, c: usize) -> bool
    requires { (Axes c) × (k ≤ 512) }
    ensures { result ≡ fine_of k used n c cells }
{
    tree_ok(&cells[..k], used, n, c).is_ok()
}

// Point j goes into the tree in the first k cells, or finds no room there; the cells behind stay.
pub fn put_in(
    cells: [Cell; 512],
    k: usize,
    positions: &[f64],
    n: usize,
    used: usize,
    j: u32,
    c: usize,
) -> Put
    requires { (Axes c) × (k ≤ 512) × (n * c ≤ length positions.now) × (j < n) × (n < most_word) × (fine_of k used n c cells ≡ true) }
    ensures { (told_by k result ≡ insert_of positions.now c j (tree used (front k cells))) × (behind k result.cells ≡ behind k cells) }
{
    let mut own = cells;
    let a = insert(&mut own[..k], positions, n, used, j, c);
    let p = put_of(a, own);
    p
}

// The same with the contents test first: an arena that is not well formed takes nothing, and says that no node is used.
pub fn put_tested(
    cells: [Cell; 512],
    k: usize,
    positions: &[f64],
    n: usize,
    used: usize,
    j: u32,
    c: usize,
) -> Put
    requires { (Axes c) × (k ≤ 512) × (n * c ≤ length positions.now) × (j < n) × (n < most_word) }
    ensures { (fine_of k used n c cells ≡ true
        → told_by k result ≡ insert_of positions.now c j (tree used (front k cells)))
        × (fine_of k used n c cells ≡ false → result ≡ nothing_put cells)
        × (behind k result.cells ≡ behind k cells) }
{
    if !fine_in(cells, k, used, n, c) {
        return Put {
            cells,
            full: true,
            used: 0,
        };
    }
    put_in(cells, k, positions, n, used, j, c)
}

// The repulsion of the tree in the first k cells on the point that looks.
pub fn force_in(cells: [Cell; 512], k: usize, used: usize, eye: Eye) -> Acc
    requires { (Axes eye.c) × (k ≤ 512) × Walkable k used eye.c cells }
    ensures { result ≡ repelled used eye.c eye.q eye.p eye.theta2 (front k cells) }
{
    let own = cells;
    let r = repulsive_force(&own[..k], used, eye);
    r
}
