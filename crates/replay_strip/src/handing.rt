// A case: the run of a list, its frames handed out to an order and gaps of marks.
ghost use Rattle.std.specs.Prelude.{◌≤◌};

use crate::lending::hand_in;
use fault_words::fault_value;
use hand_out::HandFault;
use replay::areas::{floats_at, plus, same_numbers};
use replay::word_at;
use replay_areas::empty_cells;
use replay_areas::lengths::{Lengths, Places, length_at, lengths_at, places_from};
use replay_areas::told::same_told;
use replay_areas::values::{marked_numbers, marked_values, numbers_at, record_at, same_values};

// What comes with the number: the frames, or what is told of a fault.
fn value(a: Result<usize, HandFault>) -> u64 {
    match a {
        Ok(n) => n as u64,
        Err(HandFault::Bad(f)) => fault_value(f),
        Err(_) => 0,
    }
}

// How long order and gaps are.
#[derive(Clone, Copy)]
struct Rooms {
    order: usize,
    gaps: usize,
}

// The two lengths from word i on.
fn rooms_at(list: &[u8], i: usize) -> Rooms
    ensures { (result.order ≤ 48) × (result.gaps ≤ 48) }
{
    Rooms {
        order: length_at(list, i, 48),
        gaps: length_at(list, plus(i, 1), 48),
    }
}

// What a call leaves: its answer, the order and the gaps.
#[derive(Clone, Copy)]
struct Left {
    answer: Result<usize, HandFault>,
    order: [u32; 48],
    gaps: [u64; 48],
}

// The run whose record stands from word a on, and its areas at their places: its frames handed out to order and gaps so long.
fn handed(list: &[u8], a: usize, l: Lengths, at: Places, m: Rooms) -> Left
    requires { (l.positions ≤ 48)
        × (l.increments ≤ 48)
        × (l.gains ≤ 48)
        × (l.affinities ≤ 48)
        × (l.indices ≤ 48)
        × (l.offsets ≤ 48)
        × (l.forces ≤ 96)
        × (l.nodes ≤ 4)
        × (m.order ≤ 48)
        × (m.gaps ≤ 48) }
{
    let words = record_at(list, a);
    let positions = floats_at::<48>(list, at.positions, 48);
    let increments = floats_at::<48>(list, at.increments, 48);
    let gains = floats_at::<48>(list, at.gains, 48);
    let affinities = floats_at::<48>(list, at.affinities, 48);
    let indices = numbers_at(list, at.indices);
    let offsets = numbers_at(list, at.offsets);
    let forces = [0.0; 96];
    let mut order = marked_numbers();
    let mut gaps = marked_values();
    let answer = hand_in(
        &words,
        &positions[..l.positions],
        &increments[..l.increments],
        &gains[..l.gains],
        &affinities[..l.affinities],
        &indices[..l.indices],
        &offsets[..l.offsets],
        &forces[..l.forces],
        empty_cells(),
        l.nodes,
        &mut order[..m.order],
        &mut gaps[..m.gaps],
    );
    Left {
        answer,
        order,
        gaps,
    }
}

// The whole order is the words from i on, and all gaps are those after it; behind them are marks.
fn same_along(order: [u32; 48], gaps: [u64; 48], m: Rooms, list: &[u8], i: usize) -> bool {
    same_numbers(&order, m.order, list, i) && same_values(&gaps, m.gaps, list, plus(i, m.order))
}

// The case from word a on: number and value, the whole order, all gaps, and that the case ends with them.
pub(crate) fn handed_right(list: &[u8], a: usize) -> bool {
    let l = lengths_at(list, plus(a, 15));
    let m = rooms_at(list, plus(a, 23));
    let at = places_from(l, plus(a, 25));
    let left = handed(list, plus(a, 1), l, at, m);
    let answer = left.answer;
    let order = left.order;
    let gaps = left.gaps;
    let i = plus(at.end, 2);
    let number = refusal::number(answer) as u64;
    let told = same_told(number, value(answer), list, at.end);
    let along = same_along(order, gaps, m, list, i);
    let end = plus(plus(i, m.order), m.gaps);
    let ends = end == plus(a, word_at(list, a) as usize);
    told && along && ends
}
