// The force walks: each point's force and share at each angle.
ghost use Rattle.std.specs.Prelude.{◌≡◌, ◌*◌, ◌<◌, ◌≤◌, length};
ghost use Rattle.tree_node.specs.Node.{Axes};

use crate::compare::{product, same_three};
use replay::word_at;
use replay_arena::{fine_in, force_in};
use tree_bodies::Acc;
use tree_node::Cell;
use tree_node::cells::point;
use tree_walk::Eye;

// The angles in the order of the list.
fn angle(t: usize) -> f64 {
    match t {
        0 => 0.0,
        1 => 0.3,
        2 => 0.5,
        _ => 0.99,
    }
}

// With what eye point q looks at the tree.
fn eye_of(positions: &[f64], n: usize, c: usize, q: u32, w: f64) -> Eye
    requires { (Axes c) × (q < n) × (n * c ≤ length positions.now) }
    ensures { result.c ≡ c }
{
    let p = point(positions, q as usize, c);
    Eye {
        p,
        theta2: w * w,
        q,
        c,
    }
}

// Force and share, which the list has from word a on.
fn same_force(r: Acc, list: &[u8], a: usize, c: usize) -> bool
    requires { (Axes c) × (a ≤ 300000) }
{
    let force = r.neg;
    same_three(force, list, a, c) && elementary::bits_of(r.sum) == word_at(list, a + c)
}

// The same for every point and angle; none in an arena that is not well formed.
pub(crate) fn same_forces(
    cells: [Cell; 512],
    used: usize,
    positions: &[f64],
    n: u32,
    c: usize,
    list: &[u8],
    a: usize,
) -> bool
    requires { (Axes c) × (n ≤ 64) × (n * c ≤ length positions.now) × (a ≤ 200000) }
{
    if !fine_in(cells, 512, used, n as usize, c) {
        return false;
    }
    for k in 0..4 * n {
        let w = angle((k % 4) as usize);
        let eye = eye_of(positions, n as usize, c, k / 4, w);
        let r = force_in(cells, 512, used, eye);
        if !same_force(r, list, a + product(k as usize, c + 1), c) {
            return false;
        }
    }
    true
}
