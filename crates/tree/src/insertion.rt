// Insertion of a point: where its nodes might not be there a dry descent counts them, then the point goes down level by level.
ghost use Rattle.std.specs.Prelude.{◌≡◌, true, ◌+◌, ◌*◌, ◌<◌, ◌≤◌, length};
ghost use Rattle.laws.specs.Domain.{most_word};
ghost use Rattle.tree_node.specs.Node.{Axes};
ghost use Rattle.tree_node.specs.Arena.{nodes_of, node_at};
ghost use Rattle.tree.specs.Insert.{tree, subdivided, level_at, insert_of, insertion, growable};
ghost use Rattle.tree.specs.Ways.{LevelAsks, way_turn, dry_needs};

use crate::ways::{entering, lowered, met, probed, probing};
use crate::{Inserted, Split, Step, Way};
use tree_node::Cell;
use tree_node::arena::{load, store};
use tree_turns::child;

// Makes the children of a split node.
pub(crate) fn subdivide(cells: &mut [Cell], s: Split)
    requires { (Axes s.c) × (s.out.old < most_word) × (s.out.node.first + s.out.fresh ≤ length cells.old) }
    ensures { nodes_of cells.new ≡ subdivided s.c s.out.node s.out.old s.q s.out.fresh (nodes_of cells.old) }
{
    let v = s.out.node;
    for b in 0..s.out.fresh {
        store(
            cells,
            v.first as usize + b,
            child(v, s.out.old, s.q, b, s.c),
        );
    }
}

// One level of the insertion of a point.
pub(crate) fn level(cells: &mut [Cell], positions: &[f64], w: Way) -> Step
    requires { LevelAsks w (length positions.now) (nodes_of cells.old) }
    ensures { (tree result.used (nodes_of cells.new)
        ≡ level_at
        positions.now
        w.c
        w.p
        w.j
        w.depth
        w.node
        (tree w.used (nodes_of cells.old)))
        × (result.next ≡ (way_turn w (node_at (nodes_of cells.old) w.node)).next)
        × (result.last ≡ (way_turn w (node_at (nodes_of cells.old) w.node)).last) }
{
    let v = load(cells, w.node);
    let s = met(positions, w, v);
    store(cells, w.node, s.out.node);
    subdivide(cells, s);
    Step {
        used: w.used + s.out.fresh,
        next: s.out.next,
        last: s.out.last,
    }
}

// How many nodes point j needs; in an ample arena they are not counted.
pub(crate) fn needs(
    cells: &[Cell],
    positions: &[f64],
    n: usize,
    used: usize,
    j: u32,
    c: usize,
) -> usize
    requires { (Axes c) × (0 < used) × (used ≤ length cells.now) × (n * c ≤ length positions.now) × (j < n) × (growable n c (tree used (nodes_of cells.now)) ≡ true) }
    ensures { result ≡ dry_needs positions.now c j (tree used (nodes_of cells.now)) }
{
    let mut p = probing(positions, cells.len(), used, j, c);
    while !p.ended {
        let v = load(cells, p.node);
        p = probed(positions, p, v);
    }
    p.more
}

// Point j goes in, or the nodes that it needs are not there and nothing changes.
pub fn insert(
    cells: &mut [Cell],
    positions: &[f64],
    n: usize,
    used: usize,
    j: u32,
    c: usize,
) -> Inserted
    requires { (Axes c) × (0 < used) × (used ≤ length cells.old) × (n * c ≤ length positions.now) × (j < n) × (n ≤ most_word) × (growable n c (tree used (nodes_of cells.old)) ≡ true) }
    ensures { insertion result.full (tree result.used (nodes_of cells.new)) ≡ insert_of positions.now c j (tree used (nodes_of cells.old)) }
{
    let more = needs(cells, positions, n, used, j, c);
    let mut w = entering(positions, cells.len(), used, more, j, c);
    while !w.ended {
        let s = level(cells, positions, w);
        w = lowered(w, s);
    }
    Inserted {
        full: w.full,
        used: w.used,
    }
}
