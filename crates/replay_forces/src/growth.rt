// The tree over all points, one point after the other.
ghost use Rattle.std.specs.Prelude.{◌*◌, ◌≤◌, length};
ghost use Rattle.tree_node.specs.Node.{Axes};

use replay_arena::{plant_in, put_tested};
use tree_node::Cell;

// An arena, and the nodes in use; 0 where a point had no room.
#[derive(Clone, Copy)]
pub(crate) struct Grown {
    pub(crate) cells: [Cell; 512],
    pub(crate) used: usize,
}

// The points go into a tree of one node; past one that finds no room none goes in.
fn put_all(cells: [Cell; 512], positions: &[f64], n: u32, c: usize) -> Grown
    requires { (Axes c) × (n * c ≤ length positions.now) × (n ≤ 64) }
{
    let mut own = cells;
    let mut used = 1;
    for j in 0..n {
        let p = put_tested(own, 512, positions, n as usize, used, j, c);
        let new = p.cells;
        own = new;
        if p.full {
            return Grown {
                cells: own,
                used: 0,
            };
        }
        used = p.used;
    }
    Grown { cells: own, used }
}

// The box over n points, and then the points.
pub(crate) fn grow(cells: [Cell; 512], positions: &[f64], n: u32, c: usize) -> Grown
    requires { (Axes c) × (n * c ≤ length positions.now) × (n ≤ 64) }
{
    let planted = plant_in(cells, 512, positions, n as usize, c);
    put_all(planted, positions, n, c)
}
