// The areas of a run, one word at a time: altered, and held against their digests.
ghost use Rattle.std.specs.Prelude.{◌≤◌, length};

use crate::nodes::{alter_cells, same_cells};
use replay::areas::{mark, mark_words, narrow, plus};
use replay::word_at;
use tree_node::Cell;

// The eight areas of a work call, with room for every case.
#[derive(Clone, Copy)]
pub(crate) struct Areas {
    pub(crate) positions: [f64; 132],
    pub(crate) increments: [f64; 132],
    pub(crate) gains: [f64; 132],
    pub(crate) affinities: [f64; 4100],
    pub(crate) indices: [u32; 2052],
    pub(crate) offsets: [u32; 70],
    pub(crate) forces: [f64; 324],
    pub(crate) cells: [Cell; 512],
}

// Areas in which each place holds its mark.
pub(crate) fn marked() -> Areas {
    let mut positions = [0.0; 132];
    let mut increments = [0.0; 132];
    let mut gains = [0.0; 132];
    let mut affinities = [0.0; 4100];
    let mut indices = [0u32; 2052];
    let mut offsets = [0u32; 70];
    let mut forces = [0.0; 324];
    mark(&mut positions);
    mark(&mut increments);
    mark(&mut gains);
    mark(&mut affinities);
    mark_words(&mut indices);
    mark_words(&mut offsets);
    mark(&mut forces);
    let cells = replay_arena::marks::marked();
    Areas {
        positions,
        increments,
        gains,
        affinities,
        indices,
        offsets,
        forces,
        cells,
    }
}

// The alteration at word b, if it is of this part: a place of the area takes the value.
fn alter(area: &mut [f64], list: &[u8], b: usize, part: u64) {
    if word_at(list, b) == part {
        let i = word_at(list, plus(b, 1)) as usize;
        let w = word_at(list, plus(b, 2));
        if i < area.len() {
            area[i] = elementary::value_of(w);
        }
    }
}

// The same of numbers.
fn alter_words(area: &mut [u32], list: &[u8], b: usize, part: u64) {
    if word_at(list, b) == part {
        let i = word_at(list, plus(b, 1)) as usize;
        let w = narrow(word_at(list, plus(b, 2)));
        if i < area.len() {
            area[i] = w;
        }
    }
}

// The areas with the alteration at word b made.
pub(crate) fn altered(s: Areas, list: &[u8], b: usize) -> Areas {
    let mut positions = s.positions;
    let mut increments = s.increments;
    let mut gains = s.gains;
    let mut affinities = s.affinities;
    let mut indices = s.indices;
    let mut offsets = s.offsets;
    let mut forces = s.forces;
    let old = s.cells;
    alter(&mut positions, list, b, 2);
    alter(&mut increments, list, b, 3);
    alter(&mut gains, list, b, 4);
    alter(&mut affinities, list, b, 5);
    alter_words(&mut indices, list, b, 6);
    alter_words(&mut offsets, list, b, 7);
    alter(&mut forces, list, b, 8);
    let cells = alter_cells(old, list, b, 9);
    Areas {
        positions,
        increments,
        gains,
        affinities,
        indices,
        offsets,
        forces,
        cells,
    }
}

// The digest with one word more.
pub(crate) fn more(digest: u64, word: u64) -> u64 {
    scatter::mix(digest.wrapping_add(word))
}

// As many places as word i says have the digest of word j, each word k further on; an area without room counts as wrong.
pub(crate) fn same(area: &[f64], list: &[u8], i: usize, j: usize, k: usize) -> bool {
    let m = word_at(list, plus(i, k)) as usize;
    if m > area.len() {
        return false;
    }
    let digest = area[..m]
        .iter()
        .fold(m as u64, |d, x| more(d, elementary::bits_of(*x)));
    digest == word_at(list, plus(j, k))
}

// The same of numbers.
pub(crate) fn same_words(area: &[u32], list: &[u8], i: usize, j: usize, k: usize) -> bool {
    let m = word_at(list, plus(i, k)) as usize;
    if m > area.len() {
        return false;
    }
    let digest = area[..m].iter().fold(m as u64, |d, x| more(d, *x as u64));
    digest == word_at(list, plus(j, k))
}

// The areas of values have their digests among those from word j on; the words from i on say how long they are.
fn same_values(s: Areas, list: &[u8], i: usize, j: usize) -> bool {
    let positions = s.positions;
    let increments = s.increments;
    let gains = s.gains;
    let affinities = s.affinities;
    let forces = s.forces;
    let p = same(&positions, list, i, j, 0);
    let q = same(&increments, list, i, j, 1);
    let g = same(&gains, list, i, j, 2);
    let a = same(&affinities, list, i, j, 3);
    let f = same(&forces, list, i, j, 6);
    p && q && g && a && f
}

// The areas of numbers, and the nodes.
fn same_numbers(s: Areas, list: &[u8], i: usize, j: usize) -> bool {
    let indices = s.indices;
    let offsets = s.offsets;
    let cells = s.cells;
    let x = same_words(&indices, list, i, j, 4);
    let o = same_words(&offsets, list, i, j, 5);
    let n = same_cells(cells, list, i, j, 7);
    x && o && n
}

// The eight areas have the digests from word j on; the words from i on say how long they are.
pub(crate) fn same_areas(s: Areas, list: &[u8], i: usize, j: usize) -> bool {
    same_values(s, list, i, j) && same_numbers(s, list, i, j)
}
