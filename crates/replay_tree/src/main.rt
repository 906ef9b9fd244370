// Replays the lists of trees that the original built: every node, every point's force and share, and what becomes of an arena that is one node short.

#![tactic(auto)]

mod compare;
mod forces;
mod growth;
mod order;

ghost use Rattle.std.specs.Prelude.{◌≡◌, ◌*◌, ◌<◌, ◌≤◌, true, length};
ghost use Rattle.tree_node.specs.Node.{Axes};

use compare::product;
use forces::same_forces;
use growth::{Grown, grow};
use order::same_tree;
use replay::areas::{copy_words, plus};
use replay::cases::{Next, replay_cases, replay_list};
use replay::{Tally, word_at};
use replay_arena::marks::marked;
use std::io;

// Where the parts of a case begin in the list, and how large they are.
#[derive(Clone, Copy)]
struct Case {
    // components
    c: usize,
    // points
    n: u32,
    // the nodes of the original's tree
    count: usize,
    // the word where the nodes begin
    nodes: usize,
    // the word where the forces begin
    forces: usize,
}

// In an arena with room to spare: the point that took the last node, or the number of points where something differs.
fn in_all(list: &[u8], s: Case, positions: &[f64]) -> u32
    requires { (Axes s.c) × (s.n ≤ 64) × (s.n * s.c ≤ length positions.now) × (s.count ≤ 1000) × (s.nodes ≤ 200000) × (s.forces ≤ 200000) }
{
    let g = grow(marked(), 512, positions, s.n, s.c);
    if g.full || g.used != s.count {
        return s.n;
    }
    let cells = g.cells;
    if !same_tree(cells, list, s.nodes, s.count, s.c) {
        return s.n;
    }
    if !same_forces(cells, g.used, positions, s.n, s.c, list, s.forces) {
        return s.n;
    }
    g.last
}

// In an arena of count nodes, at the front of the cells; cells that are too few give nothing.
fn grow_in(positions: &[f64], n: u32, c: usize, count: usize) -> Grown
    requires { (Axes c) × (n * c ≤ length positions.now) × (n ≤ 64) }
{
    if count > 512 {
        return Grown {
            cells: marked(),
            used: 0,
            full: false,
            last: n,
            kept: false,
        };
    }
    grow(marked(), count, positions, n, c)
}

// In an arena of just the nodes that the tree needs, all points go in.
fn in_exact(positions: &[f64], n: u32, c: usize, count: usize) -> bool
    requires { (Axes c) × (n * c ≤ length positions.now) × (n ≤ 64) }
{
    let g = grow_in(positions, n, c, count);
    !g.full && g.used == count
}

// In an arena of one node less, the point that would take the last node is refused, and nothing changes; a tree of one node has no such point.
fn in_short(positions: &[f64], n: u32, c: usize, count: usize, last: u32) -> bool
    requires { (Axes c) × (n * c ≤ length positions.now) × (n ≤ 64) }
{
    if count < 2 {
        return true;
    }
    let g = grow_in(positions, n, c, count - 1);
    g.full && g.last == last && g.kept
}

// One case: the tree in an arena with room to spare, then in just enough nodes, then in one less.
fn case_right(list: &[u8], s: Case, positions: &[f64]) -> bool
    requires { (Axes s.c) × (s.n ≤ 64) × (s.n * s.c ≤ length positions.now) × (s.count ≤ 1000) × (s.nodes ≤ 200000) × (s.forces ≤ 200000) }
{
    let last = in_all(list, s, positions);
    last < s.n
        && in_exact(positions, s.n, s.c, s.count)
        && in_short(positions, s.n, s.c, s.count, last)
}

// The sizes that begin at word a are such that the case fits.
fn sizes_right(a: usize, c: usize, n: u64, room: usize) -> bool
    ensures { result ≡ true → (a ≤ 100000) × (Axes c) × (n ≤ 64) × (n * c ≤ room) }
{
    if a > 100000 {
        return false;
    }
    if c == 0 {
        return false;
    }
    if c > 3 {
        return false;
    }
    if n > 64 {
        return false;
    }
    product(n as usize, c) <= room
}

// The case from word a on, with c components and n points. A number of nodes that no case has ends the replay.
fn case_at(list: &[u8], a: usize, c: usize, n: u32) -> Next
    requires { (a ≤ 100000) × (Axes c) × (n ≤ 64) × (n * c ≤ 192) }
    ensures { (a < result.at) × (result.at ≤ 200000) }
{
    let coordinates = product(n as usize, c);
    let count = word_at(list, a + 2 + coordinates);
    if count > 1000 {
        return Next {
            right: false,
            at: 200000,
        };
    }
    let mut positions = [0.0; 192];
    copy_words(&mut positions, coordinates, list, a + 2);
    let nodes = a + 3 + coordinates;
    let forces = nodes + product(count as usize, 3 * c + 3);
    let s = Case {
        c,
        n,
        count: count as usize,
        nodes,
        forces,
    };
    Next {
        right: case_right(list, s, &positions),
        at: forces + product(4 * n as usize, c + 1),
    }
}

// The case from word a on. Numbers that no case has end the replay, and count as wrong.
fn case_in(list: &[u8], a: usize) -> Option<Next> {
    let c = word_at(list, a) as usize;
    let n = word_at(list, plus(a, 1));
    if !sizes_right(a, c, n, 192) {
        return None;
    }
    Some(case_at(list, a, c, n as u32))
}

fn cases(list: &[u8]) -> Tally {
    replay_cases(list, |a| case_in(list, a))
}

fn main(rt: HostRuntime) -> io::Result<()> {
    let mut list = [0u8; 278528];
    replay_list(
        &rt,
        b"tree_1.words",
        b"trees in 1 component",
        &mut list,
        cases,
    )?;
    replay_list(
        &rt,
        b"tree_2.words",
        b"trees in 2 components",
        &mut list,
        cases,
    )?;
    replay_list(
        &rt,
        b"tree_3.words",
        b"trees in 3 components",
        &mut list,
        cases,
    )?;
    Ok(())
}
