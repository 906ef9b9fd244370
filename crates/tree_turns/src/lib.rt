// A node that takes a point in, a made child, and what a level of an insertion does with its node.

#![tactic(auto)]

ghost use Rattle.std.specs.Prelude.{◌≡◌, true, ◌<◌};
ghost use Rattle.laws.specs.Domain.{most_word};
ghost use Rattle.laws.specs.Loops.{loop};
ghost use Rattle.tree_node.specs.Node.{Axes};
ghost use Rattle.tree_turns.specs.Turns.{mean_of, mass_step, absorbed, occupied, parent, child_of, out, turn_of};

use laws::DEEPEST;
use tree_children::{cell, child_index};
use tree_node::Node;

// What a level of an insertion does with its node.
#[derive(Clone, Copy)]
pub struct Out {
    // the node as it is to be stored
    pub node: Node,
    // the node to go on at
    pub next: usize,
    // how many children to make
    pub fresh: usize,
    // the point that goes down into one of them
    pub old: u32,
    // whether the point is in
    pub last: bool,
}

fn mean(cs: f64, m: f64, x: f64) -> f64
    ensures { result ≡ mean_of cs m x }
{
    m * ((cs - 1.0) / cs) + x / cs
}

// The mean of cs points in each component, the last of which is p.
fn means(cs: f64, m: [f64; 3], p: [f64; 3], c: usize) -> [f64; 3]
    requires { Axes c }
    ensures { result ≡ loop (mass_step cs p) c 0 m }
{
    let mut t = m;
    t[0] = mean(cs, t[0], p[0]);
    if c == 1 {
        return t;
    }
    t[1] = mean(cs, t[1], p[1]);
    if c == 2 {
        return t;
    }
    t[2] = mean(cs, t[2], p[2]);
    t
}

// The node with one point more.
fn absorb(v: Node, p: [f64; 3], c: usize) -> Node
    requires { (Axes c) × (v.count < most_word) }
    ensures { result ≡ absorbed c p v }
{
    let mut w = v;
    w.count += 1;
    let mass = means(w.count as f64, v.mass, p, c);
    w.mass = mass;
    w
}

// A leaf that holds point j.
fn occupy(v: Node, j: u32) -> Node
    ensures { result ≡ occupied j v }
{
    let mut w = v;
    w.leaf = Some(j);
    w
}

// A split node, whose children begin at u.
fn split(v: Node, u: u32) -> Node
    ensures { result ≡ parent u v }
{
    let mut w = v;
    w.first = u;
    w.leaf = None;
    w
}

// Child b of the split node v; the old point o goes down into one of them.
pub fn child(v: Node, o: u32, q: [f64; 3], b: usize, c: usize) -> Node
    requires { Axes c }
    ensures { result ≡ child_of c v o q b }
{
    let w = cell(v, b, c);
    if b != child_index(v.centre, q, c) {
        return w;
    }
    occupy(absorb(w, q, c), o)
}

// Point j goes no further than this node.
fn settled(v: Node, j: u32) -> Out
    ensures { result ≡ out v 0 0 j true }
{
    Out {
        node: v,
        next: 0,
        fresh: 0,
        old: j,
        last: true,
    }
}

// What becomes of a node, at a depth, when point j comes to it.
pub fn turn(v: Node, p: [f64; 3], j: u32, c: usize, depth: usize, used: u32) -> Out
    requires { (Axes c) × (v.count < most_word) }
    ensures { result ≡ turn_of c p j depth used v }
{
    let a = absorb(v, p, c);
    let k = child_index(v.centre, p, c);
    if v.first != 0 {
        return Out {
            node: a,
            next: v.first as usize + k,
            fresh: 0,
            old: j,
            last: false,
        };
    }
    let Some(o) = v.leaf else {
        return settled(occupy(a, j), j);
    };
    if depth >= DEEPEST {
        return settled(a, j);
    }
    let w = split(a, used);
    Out {
        node: w,
        next: used as usize + k,
        fresh: 1 << c,
        old: o,
        last: false,
    }
}
