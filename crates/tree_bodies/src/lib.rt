// A node as seen from a point: its distance, its width, and what it adds where it acts as one body.

#![tactic(auto)]

ghost use Rattle.std.specs.Prelude.{◌≡◌};
ghost use Rattle.laws.specs.Area.{at};
ghost use Rattle.laws.specs.Loops.{loop};
ghost use Rattle.tree_node.specs.Node.{Axes};
ghost use Rattle.tree_bodies.specs.Bodies.{gap_of, wider, width_of, push_step, body_of, role_number, leaf_kind, kind_of};

use tree_node::Node;

// The repulsion gathered so far, and the normaliser's share.
#[derive(Clone, Copy)]
pub struct Acc {
    pub neg: [f64; 3],
    pub sum: f64,
}

// What a node is to a point.
#[derive(Clone, Copy, Debug, PartialEq, Eq)]
pub enum Role {
    // it gives nothing
    Nothing,
    // it acts as one body
    Body,
    // its children are looked at
    Open,
}

// The squared distance of p from m.
pub fn gap(p: [f64; 3], m: [f64; 3], c: usize) -> f64
    requires { Axes c }
    ensures { result ≡ gap_of c (at p) (at m) }
{
    let x = p[0] - m[0];
    let s = 0.0 + x * x;
    if c == 1 {
        return s;
    }
    let y = p[1] - m[1];
    let t = s + y * y;
    if c == 2 {
        return t;
    }
    let z = p[2] - m[2];
    t + z * z
}

fn larger(w: f64, h: f64) -> f64
    ensures { result ≡ wider w h }
{
    let v = 2.0 * h;
    if v > w {
        return v;
    }
    w
}

// The largest side of a cell.
fn max_width(h: [f64; 3], c: usize) -> f64
    requires { Axes c }
    ensures { result ≡ width_of c h }
{
    let x = larger(0.0, h[0]);
    if c == 1 {
        return x;
    }
    let y = larger(x, h[1]);
    if c == 2 {
        return y;
    }
    larger(y, h[2])
}

// The repulsion so far, with a force along p - m more.
pub fn pushed(t: [f64; 3], p: [f64; 3], m: [f64; 3], force: f64, c: usize) -> [f64; 3]
    requires { Axes c }
    ensures { result ≡ loop (push_step p m force) c 0 t }
{
    let mut s = t;
    s[0] = s[0] + force * (p[0] - m[0]);
    if c == 1 {
        return s;
    }
    s[1] = s[1] + force * (p[1] - m[1]);
    if c == 2 {
        return s;
    }
    s[2] = s[2] + force * (p[2] - m[2]);
    s
}

// What a node adds that acts as one body.
pub fn body(v: Node, p: [f64; 3], c: usize, acc: Acc) -> Acc
    requires { Axes c }
    ensures { result ≡ body_of c p v acc }
{
    let m = v.mass;
    let inv = 1.0 / (1.0 + gap(p, m, c));
    let mult = v.count as f64 * inv;
    let force = mult * inv;
    let neg = pushed(acc.neg, p, m, force, c);
    Acc {
        neg,
        sum: acc.sum + mult,
    }
}

// A leaf gives nothing where it holds point q alone.
fn leaf_kind(l: Option<u32>, n: u32, q: u32) -> Role
    ensures { role_number result ≡ leaf_kind q n l }
{
    if let Some(o) = l {
        if o == q && n == 1 {
            return Role::Nothing;
        }
    }
    Role::Body
}

// What a node is to point q.
pub fn kind(v: Node, q: u32, p: [f64; 3], theta2: f64, c: usize) -> Role
    requires { Axes c }
    ensures { role_number result ≡ kind_of c q p theta2 v }
{
    if v.count == 0 {
        return Role::Nothing;
    }
    if v.first == 0 {
        return leaf_kind(v.leaf, v.count, q);
    }
    let w = max_width(v.half, c);
    if w * w < theta2 * gap(p, v.mass, c) {
        return Role::Body;
    }
    Role::Open
}
