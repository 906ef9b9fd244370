// A point's way down the tree, by value: what the loops of an insertion do between one node and the next.
ghost use Rattle.std.specs.Prelude.{◌≡◌, ◌+◌, ◌-◌, ◌*◌, ◌<◌, ◌≤◌, ◌^◌, length};
ghost use Rattle.laws.specs.Domain.{deepest, most_word};
ghost use Rattle.tree_node.specs.Node.{Axes};
ghost use Rattle.tree.specs.Insert.{splits_of, leaf_needs};
ghost use Rattle.tree.specs.Ways.{LeafIn, MetAsks, ample, probing_of, probed_of, met_of, entering_of, sunk_of};

use crate::{Probe, Split, Step, Way};
use laws::DEEPEST;
use tree_children::{child_centre, child_half, child_index};
use tree_node::Node;
use tree_node::arena::nameable_of;
use tree_node::cells::point;
use tree_turns::turn;

// The splits of a leaf that holds a point q when p comes, at a depth.
fn splits(z0: [f64; 3], h0: [f64; 3], q: [f64; 3], p: [f64; 3], c: usize, depth: usize) -> usize
    requires { Axes c }
    ensures { (result ≡ splits_of (deepest - depth) c z0 h0 q p) × (result ≤ deepest) }
{
    let mut z = z0;
    let mut h = h0;
    let mut n: usize = 0;
    for d in depth..DEEPEST {
        let k = child_index(z, p, c);
        let o = child_index(z, q, c);
        n += 1;
        if o != k {
            return n;
        }
        let y = child_centre(z, h, k, c);
        let g = child_half(h, c);
        z = y;
        h = g;
    }
    n
}

// ---- the dry descent

// Whether an arena of so many cells has room for whatever a point may need.
fn is_ample(cells: usize, used: usize, c: usize) -> bool
    requires { (Axes c) × (used + deepest * 2 ^ c < 2 ^ 64) }
    ensures { result ≡ ample cells used c }
{
    used + DEEPEST * (1 << c) <= nameable_of(cells)
}

// Before the root. In an ample arena it ends there.
pub(crate) fn probing(positions: &[f64], cells: usize, used: usize, j: u32, c: usize) -> Probe
    requires { (Axes c) × (j * c + c ≤ length positions.now) × (used + deepest * 2 ^ c < 2 ^ 64) }
    ensures { result ≡ probing_of positions.now cells used j c }
{
    let p = point(positions, j as usize, c);
    let ended = is_ample(cells, used, c);
    Probe {
        p,
        c,
        depth: 0,
        node: 0,
        ended,
        more: 0,
    }
}

// The nodes that a leaf needs.
fn leaf_needs(positions: &[f64], s: Probe, v: Node) -> usize
    requires { (Axes s.c) × LeafIn (length positions.now) s.c v.leaf }
    ensures { result ≡ leaf_needs positions.now s.c s.p s.depth v v.leaf }
{
    let Some(o) = v.leaf else {
        return 0;
    };
    let q = point(positions, o as usize, s.c);
    splits(v.centre, v.half, q, s.p, s.c, s.depth) * (1 << s.c)
}

// Node v is reached.
pub(crate) fn probed(positions: &[f64], s: Probe, v: Node) -> Probe
    requires { (Axes s.c) × (s.depth + 1 < 2 ^ 64) × LeafIn (length positions.now) s.c v.leaf }
    ensures { result ≡ probed_of positions.now s v }
{
    if v.first == 0 {
        return Probe {
            ended: true,
            more: leaf_needs(positions, s, v),
            ..s
        };
    }
    Probe {
        depth: s.depth + 1,
        node: v.first as usize + child_index(v.centre, s.p, s.c),
        ended: false,
        more: 0,
        ..s
    }
}

// ---- a level

// Node v meets the point.
pub(crate) fn met(positions: &[f64], w: Way, v: Node) -> Split
    requires { MetAsks (length positions.now) w v }
    ensures { result ≡ met_of positions.now w v }
{
    let out = turn(v, w.p, w.j, w.c, w.depth, w.used as u32);
    let q = point(positions, out.old as usize, w.c);
    Split { out, q, c: w.c }
}

// ---- the descent

// Before the root, in an arena of so many cells, of which the point needs some more.
pub(crate) fn entering(
    positions: &[f64],
    cells: usize,
    used: usize,
    more: usize,
    j: u32,
    c: usize,
) -> Way
    requires { (Axes c) × (j * c + c ≤ length positions.now) × (used + more < 2 ^ 64) }
    ensures { result ≡ entering_of positions.now cells used more j c }
{
    let p = point(positions, j as usize, c);
    let full = nameable_of(cells) < used + more;
    Way {
        p,
        c,
        j,
        depth: 0,
        node: 0,
        used,
        full,
        ended: full,
    }
}

// A level lower.
pub(crate) fn lowered(w: Way, s: Step) -> Way
    requires { w.depth + 1 < 2 ^ 64 }
    ensures { result ≡ sunk_of w s }
{
    Way {
        depth: w.depth + 1,
        node: s.next,
        used: s.used,
        ended: s.last,
        ..w
    }
}
