// Building a tree in an arena, one point after the other, until a point is refused.
ghost use Rattle.std.specs.Prelude.{◌*◌, ◌≤◌, length};
ghost use Rattle.tree_node.specs.Node.{Axes};

use replay_arena::marks::same_cells;
use replay_arena::{plant_in, put_tested};
use tree_node::Cell;

// What became of the points.
#[derive(Clone, Copy)]
pub(crate) struct Grown {
    pub(crate) cells: [Cell; 512],
    // nodes in use
    pub(crate) used: usize,
    // a point was refused
    pub(crate) full: bool,
    // that point; else the one that took the last node
    pub(crate) last: u32,
    // the refusal left the arena as it was
    pub(crate) kept: bool,
}

// Whether an arena in which a nodes are used is the one in which b were, in all its cells.
fn unchanged(cells: [Cell; 512], old: [Cell; 512], a: usize, b: usize) -> bool {
    a == b && same_cells(cells, old)
}

// The points go into a tree of one node in the first k cells.
fn put_all(cells: [Cell; 512], k: usize, positions: &[f64], n: u32, c: usize) -> Grown
    requires { (Axes c) × (k ≤ 512) × (n * c ≤ length positions.now) × (n ≤ 64) }
{
    let mut old = cells;
    let mut used = 1;
    let mut last = 0;
    for j in 0..n {
        let p = put_tested(old, k, positions, n as usize, used, j, c);
        let new = p.cells;
        if p.full {
            return Grown {
                cells: new,
                used: p.used,
                full: true,
                last: j,
                kept: unchanged(new, old, p.used, used),
            };
        }
        if p.used > used {
            last = j;
        }
        used = p.used;
        old = new;
    }
    Grown {
        cells: old,
        used,
        full: false,
        last,
        kept: true,
    }
}

// The box over n points, and then the points, in the first k cells; there is no tree without a node.
pub(crate) fn grow(cells: [Cell; 512], k: usize, positions: &[f64], n: u32, c: usize) -> Grown
    requires { (Axes c) × (k ≤ 512) × (n * c ≤ length positions.now) × (n ≤ 64) }
{
    if k == 0 {
        return Grown {
            cells,
            used: 0,
            full: true,
            last: 0,
            kept: false,
        };
    }
    let planted = plant_in(cells, k, positions, n as usize, c);
    put_all(planted, k, positions, n, c)
}
