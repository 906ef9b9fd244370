// Barnes-Hut gradients: the normaliser and every element, out of the forces of all points.
ghost use Rattle.std.specs.Prelude.{◌≡◌, true, ◌+◌, ◌*◌, ◌<◌, ◌≤◌, length};
ghost use Rattle.tree_node.specs.Node.{Axes};
ghost use Rattle.replay_arena.specs.Fronts.{Walkable};

use crate::areas::numbers_at;
use crate::growth::grow;
use crate::lending::forces_in;
use crate::links::linked;
use gradient::element::{gradient_at, normaliser};
use gradient::forces::Lists;
use gradient_pairs::exact::Map;
use replay::areas::{floats_at, mark, plus, same_area, same_value, times, value_at};
use replay::cases::{Next, replay_cases};
use replay::{Tally, word_at};
use replay_arena::fine_in;
use replay_arena::marks::marked;
use tree_node::Cell;

// What a case begins with.
#[derive(Clone, Copy)]
pub(crate) struct Case {
    // the sizes are such as a case has
    pub(crate) good: bool,
    // points
    pub(crate) n: u32,
    // components
    pub(crate) c: usize,
    // the angle; of the divergence, Z
    pub(crate) angle: f64,
    pub(crate) exaggeration: f64,
    pub(crate) links: usize,
    // the word where the positions begin
    pub(crate) at: usize,
}

// The forces of point i; false where its list is not in order.
fn one_point(
    s: Case,
    used: usize,
    i: usize,
    map: Map,
    lists: Lists,
    cells: &[Cell; 512],
    forces: &mut [f64],
) -> bool
    requires { (Axes map.c) × (i < map.n) × (map.n ≤ 64) × (map.n * map.c ≤ length map.positions.now) × (map.n * (2 * map.c + 1) ≤ length forces.old) × Walkable 512 used map.c cells.now }
{
    if !linked(lists, map.n, i) {
        return false;
    }
    forces_in(
        cells,
        512,
        used,
        map,
        lists,
        i,
        s.exaggeration,
        s.angle,
        forces,
    );
    true
}

// The forces of every point; false where tree or list is not in order.
fn all_points(
    s: Case,
    used: usize,
    map: Map,
    lists: Lists,
    cells: &[Cell; 512],
    forces: &mut [f64],
) -> bool
    requires { (Axes map.c) × (map.n ≤ 64) × (map.n * map.c ≤ length map.positions.now) × (map.n * (2 * map.c + 1) ≤ length forces.old) }
{
    if !fine_in(*cells, 512, used, map.n, map.c) {
        return false;
    }
    for i in 0..map.n {
        if !one_point(s, used, i, map, lists, cells, forces) {
            return false;
        }
    }
    true
}

// The normaliser stands at word a, the gradient behind it.
fn same_gradient(forces: &[f64], n: usize, c: usize, m: usize, list: &[u8], a: usize) -> bool
    requires { (0 < c) × (c ≤ 8) × (m ≡ n * c) × (n * (2 * c + 1) ≤ length forces.now) }
{
    let z = normaliser(forces, n, c);
    if !same_value(z, list, a) {
        return false;
    }
    let b = plus(a, 1);
    for e in 0..m {
        if !same_value(gradient_at(false, forces, z, n, c, e), list, plus(b, e)) {
            return false;
        }
    }
    true
}

// The tree of a case, and in it the forces of every point.
fn forces_of(s: Case, positions: &[f64], lists: Lists, forces: &mut [f64]) -> bool
    requires { (Axes s.c) × (s.n ≤ 64) × (s.n * s.c ≤ length positions.now) × (s.n * (2 * s.c + 1) ≤ length forces.old) }
{
    let g = grow(marked(), positions, s.n, s.c);
    let map = Map {
        positions,
        n: s.n as usize,
        c: s.c,
    };
    all_points(s, g.used, map, lists, &g.cells, forces)
}

// The normaliser, which stands at word a, the gradient, and what lies past the forces of n points.
fn same_forces(forces: &[f64], n: usize, c: usize, m: usize, list: &[u8], a: usize) -> bool
    requires { (n ≤ 64) × (0 < c) × (c ≤ 8) × (m ≡ n * c) × (n * (2 * c + 1) ≤ length forces.now) }
{
    same_gradient(forces, n, c, m, list, a) && same_area(forces, times(n, 2 * c + 1), 0, list, a)
}

// The word behind the links of a case with m coordinates.
pub(crate) fn answer_at(s: Case, m: usize) -> usize
    requires { s.n ≤ 64 }
{
    plus(
        plus(plus(s.at, m), s.n as usize + 1),
        plus(s.links, s.links),
    )
}

// The case from its positions on: the forces go into an area of marks. Areas without room count as wrong.
fn pulls_case(list: &[u8], s: Case) -> bool
    requires { (Axes s.c) × (s.n ≤ 64) × (s.links ≤ 400) }
{
    let n = s.n as usize;
    let m = times(n, s.c);
    if m > 400 {
        return false;
    }
    if times(n, 2 * s.c + 1) > 460 {
        return false;
    }
    let b = plus(s.at, m);
    let d = plus(b, n + 1);
    let positions = floats_at::<400>(list, s.at, m);
    let offsets = numbers_at(list, b, n + 1);
    let indices = numbers_at(list, d, s.links);
    let weights = floats_at::<400>(list, plus(d, s.links), s.links);
    let mut forces = [0.0; 460];
    mark(&mut forces);
    let lists = Lists {
        weights: &weights,
        indices: &indices,
        offsets: &offsets,
    };
    if !forces_of(s, &positions, lists, &mut forces) {
        return false;
    }
    same_forces(&forces, n, s.c, m, list, answer_at(s, m))
}

// What stands at word a where the sizes are no case's: no points, and not good.
fn no_case(a: usize) -> Case
    ensures { (result.n ≤ 64) × (Axes result.c) × (result.links ≤ 400) }
{
    Case {
        good: false,
        n: 0,
        c: 1,
        angle: 0.0,
        exaggeration: 0.0,
        links: 0,
        at: a,
    }
}

// What the case from word a on begins with: n, c, angle, exaggeration, number of links.
pub(crate) fn case_at(list: &[u8], a: usize) -> Case
    ensures { (result.n ≤ 64) × (Axes result.c) × (result.links ≤ 400) }
{
    let n = word_at(list, a);
    let c = word_at(list, plus(a, 1));
    let links = word_at(list, plus(a, 4));
    if n > 64 || c == 0 || c > 3 || links > 400 {
        return no_case(a);
    }
    Case {
        good: true,
        n: n as u32,
        c: c as usize,
        angle: value_at(list, plus(a, 2)),
        exaggeration: value_at(list, plus(a, 3)),
        links: links as usize,
        at: plus(a, 5),
    }
}

// The word after a case: its normaliser and its gradient come last.
fn end_of(s: Case) -> usize
    requires { (s.n ≤ 64) × (Axes s.c) }
{
    let m = times(s.n as usize, s.c);
    plus(answer_at(s, m), m + 1)
}

// The case from word a on: sizes and numbers, positions, offsets, indices and weights, then the normaliser and the gradient.
fn one_case(list: &[u8], a: usize) -> Next {
    let s = case_at(list, a);
    if !s.good {
        return Next {
            right: false,
            at: 0,
        };
    }
    let at = end_of(s);
    let right = pulls_case(list, s);
    Next { right, at }
}

pub(crate) fn pulls_cases(list: &[u8]) -> Tally {
    replay_cases(list, |a| Some(one_case(list, a)))
}
