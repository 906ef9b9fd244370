// The force walk, rule 4 of the scope paper: what the tree does to one point.
// The walk is a loop. What it has still to come back to stands on a stack of 32 levels, and where an arena is deeper, `deeper` walks what lies below.

#![tactic(auto)]

ghost use Rattle.std.specs.Prelude.{◌≡◌, ◌-◌, ◌<◌, ◌≤◌, length};
ghost use Rattle.laws.specs.Domain.{most_word};
ghost use Rattle.tree_node.specs.Node.{Axes};
ghost use Rattle.tree_node.specs.Arena.{nodes_of};
ghost use Rattle.tree_walk.specs.Repel.{Blocks, walked_over, repelled};

use crate::turns::{resumed, short_turn, standing, turn};
use tree_bodies::Acc;
use tree_node::Cell;

mod turns;

// Who looks.
#[derive(Clone, Copy)]
pub struct Eye {
    // the coordinates of the point; components from c up are not looked at
    pub p: [f64; 3],
    // the squared angle below which a node acts as one body
    pub theta2: f64,
    // the number of the point
    pub q: u32,
    // the components of the tree
    pub c: usize,
}

// Where a walk stands.
#[derive(Clone, Copy)]
pub struct Spot {
    // what has been gathered
    pub acc: Acc,
    // the cell to look at, one of those before `end`; where it is not before it, the walk is done
    pub at: u32,
    pub end: u32,
    // how many levels are on the stack
    pub level: usize,
    // where deep < stop, the cells between them come first, and the stack has no room for that
    pub deep: u32,
    pub stop: u32,
}

// The walks from the cells from `from` up to `to`, one after the other. Its stack has 256 levels, and for what is deeper still it calls itself.
fn deeper(cells: &[Cell], used: usize, eye: Eye, from: u32, to: u32, acc: Acc) -> Acc
    requires { (Axes eye.c) × (to ≤ used) × (used ≤ length cells.now) × (used ≤ most_word) × Blocks used eye.c (nodes_of cells.now) }
    ensures { result ≡ walked_over used eye.c eye.q eye.p eye.theta2 (nodes_of cells.now) from (to - from) acc }
{
    let mut stack = [0; 512];
    let mut s = standing(acc, from, to, 0);
    while s.at < s.end {
        let v = cells[s.at as usize];
        let t = turn(&mut stack, 256, v, s, eye, eye.c);
        if t.deep < t.stop {
            let a = deeper(cells, used, eye, t.deep, t.stop, t.acc);
            s = resumed(t, a);
        } else {
            s = t;
        }
    }
    s.acc
}

// The same with 32 levels: it does not call itself, and its stack is short enough to be filled in place.
fn walk(cells: &[Cell], used: usize, eye: Eye, from: u32, to: u32, acc: Acc) -> Acc
    requires { (Axes eye.c) × (to ≤ used) × (used ≤ length cells.now) × (used ≤ most_word) × Blocks used eye.c (nodes_of cells.now) }
    ensures { result ≡ walked_over used eye.c eye.q eye.p eye.theta2 (nodes_of cells.now) from (to - from) acc }
{
    let mut stack = [0; 64];
    let mut s = standing(acc, from, to, 0);
    while s.at < s.end {
        let v = cells[s.at as usize];
        let t = short_turn(&mut stack, v, s, eye);
        if t.deep < t.stop {
            let a = deeper(cells, used, eye, t.deep, t.stop, t.acc);
            s = resumed(t, a);
        } else {
            s = t;
        }
    }
    s.acc
}

// The repulsion on the point that looks.
pub fn repulsive_force(cells: &[Cell], used: usize, eye: Eye) -> Acc
    requires { (Axes eye.c) × (0 < used) × (used ≤ length cells.now) × (used ≤ most_word) × Blocks used eye.c (nodes_of cells.now) }
    ensures { result ≡ repelled used eye.c eye.q eye.p eye.theta2 (nodes_of cells.now) }
{
    let neg = [0.0; 3];
    walk(cells, used, eye, 0, 1, Acc { neg, sum: 0.0 })
}
