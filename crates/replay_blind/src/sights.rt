// A case: settings and a table, counted over rows and an answer of marks.
ghost use Rattle.std.specs.Prelude.{◌≤◌};

use desk_blind::host_blind;
use replay::areas::{floats_at, mark, mark_words, plus, same_area, same_numbers};
use replay::word_at;
use replay_areas::lengths::length_at;
use replay_areas::values::{marked, same_values, values_at};

// Whether the lengths of the four rows and the answer, which are the words from i on, are no more than there is room for.
fn rooms_fit(list: &[u8], i: usize) -> bool {
    word_at(list, i) <= 32
        && word_at(list, plus(i, 1)) <= 32
        && word_at(list, plus(i, 2)) <= 32
        && word_at(list, plus(i, 3)) <= 32
        && word_at(list, plus(i, 4)) <= 4
}

// How long the four rows and the answer are.
#[derive(Clone, Copy)]
struct Rooms {
    squares: usize,
    values: usize,
    shares: usize,
    places: usize,
    answer: usize,
}

// The five lengths from word i on.
fn rooms_at(list: &[u8], i: usize) -> Rooms
    ensures { (result.squares ≤ 32) × (result.values ≤ 32) × (result.shares ≤ 32) × (result.places ≤ 32) × (result.answer ≤ 4) }
{
    Rooms {
        squares: length_at(list, i, 32),
        values: length_at(list, plus(i, 1), 32),
        shares: length_at(list, plus(i, 2), 32),
        places: length_at(list, plus(i, 3), 32),
        answer: length_at(list, plus(i, 4), 4),
    }
}

// Areas of marks.
fn marked_row() -> [f64; 32] {
    let mut row = [0.0; 32];
    mark(&mut row);
    row
}

fn marked_places() -> [u32; 32] {
    let mut row = [0u32; 32];
    mark_words(&mut row);
    row
}

// What a call leaves: its number, the words of its answer, and the rows.
#[derive(Clone, Copy)]
struct Left {
    number: u32,
    answer: [u64; 4],
    squares: [f64; 32],
    values: [f64; 32],
    shares: [f64; 32],
    places: [u32; 32],
}

// So many settings words from word a on, and so many table values after them and their count, counted over rows so long.
fn sighted(list: &[u8], a: usize, words: usize, values: usize, m: Rooms) -> Left
    requires words_bound { (words ≤ 12) × (values ≤ 150) }
    requires squares_bound { (m.squares ≤ 32) × (m.values ≤ 32) × (m.shares ≤ 32) × (m.places ≤ 32) × (m.answer ≤ 4) }
{
    let settings = values_at(list, a);
    let table = floats_at::<150>(list, plus(plus(a, words), 1), values);
    let mut answer = marked();
    let mut squares = marked_row();
    let mut row_values = marked_row();
    let mut row_shares = marked_row();
    let mut row_indices = marked_places();
    let number = host_blind(
        &settings[..words],
        &table[..values],
        &mut squares[..m.squares],
        &mut row_values[..m.values],
        &mut row_shares[..m.shares],
        &mut row_indices[..m.places],
        &mut answer[..m.answer],
    );
    Left {
        number,
        answer,
        squares,
        values: row_values,
        shares: row_shares,
        places: row_indices,
    }
}

// All of the three rows of values are the words from i on; behind them are marks.
fn same_rows(left: Left, m: Rooms, list: &[u8], i: usize) -> bool {
    let squares = left.squares;
    let values = left.values;
    let shares = left.shares;
    let v = plus(i, m.squares);
    let h = plus(v, m.values);
    let q = same_area(&squares, 0, m.squares, list, i);
    let d = same_area(&values, 0, m.values, list, v);
    let w = same_area(&shares, 0, m.shares, list, h);
    q && d && w
}

// So are all of the indices, up to word `end`.
fn same_places(left: Left, m: Rooms, list: &[u8], i: usize, end: usize) -> bool {
    let places = left.places;
    let p = same_numbers(&places, m.places, list, i);
    p && plus(i, m.places) == end
}

// Number and answer are the words from i on, and all of the rows those after them.
fn same_left(left: Left, m: Rooms, list: &[u8], i: usize, end: usize) -> bool {
    let answer = left.answer;
    let k = left.number as u64 == word_at(list, i);
    let told = same_values(&answer, m.answer, list, plus(i, 1));
    let r = plus(plus(i, 1), m.answer);
    let x = plus(plus(plus(r, m.squares), m.values), m.shares);
    let rows = same_rows(left, m, list, r);
    let places = same_places(left, m, list, x, end);
    k && told && rows && places
}

// The case from word a on: what is told, and every place of the rows. One that asks for more room than there is, is wrong and not run.
pub(crate) fn sighted_right(list: &[u8], a: usize) -> bool {
    let s = plus(a, 1);
    if word_at(list, s) > 12 {
        return false;
    }
    let words = length_at(list, s, 12);
    let t = plus(plus(a, 2), words);
    if word_at(list, t) > 150 {
        return false;
    }
    let values = length_at(list, t, 150);
    let at = plus(plus(t, 1), values);
    if !rooms_fit(list, at) {
        return false;
    }
    let m = rooms_at(list, at);
    let left = sighted(list, plus(a, 2), words, values, m);
    same_left(
        left,
        m,
        list,
        plus(at, 5),
        plus(a, word_at(list, a) as usize),
    )
}
