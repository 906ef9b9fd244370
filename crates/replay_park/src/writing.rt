// A case of writing: the run of a list, parked into a target of marks.
ghost use Rattle.std.specs.Prelude.{◌≤◌};

use crate::lending::park_in;
use fault_words::fault_value;
use park::ParkFault;
use replay::areas::plus;
use replay::word_at;
use replay_areas::bytes::{marked_target, same_target, still_marked, words_of};
use replay_areas::empty_cells;
use replay_areas::lengths::{Lengths, Places, length_at, lengths_at, places_from};
use replay_areas::told::same_told;
use replay_areas::values::{numbers_at, record_at, values_at};

// What comes with the number: the records, or what is told of a fault.
fn value(a: Result<usize, ParkFault>) -> u64 {
    match a {
        Ok(k) => k as u64,
        Err(ParkFault::Bad(f)) => fault_value(f),
        Err(ParkFault::Inside | ParkFault::Barred | ParkFault::Short) => 0,
    }
}

// What a call leaves: its answer, and the target.
#[derive(Clone, Copy)]
struct Left {
    answer: Result<usize, ParkFault>,
    target: [u8; 1408],
}

// The run whose record stands from word a on, and its areas at their places: parked into so many bytes.
fn written(list: &[u8], a: usize, l: Lengths, at: Places, bytes: usize) -> Left
    requires { (l.positions ≤ 48) × (l.increments ≤ 48) × (l.gains ≤ 48) × (l.affinities ≤ 48) × (l.indices ≤ 48) × (l.offsets ≤ 48) × (l.nodes ≤ 4) × (bytes ≤ 1408) }
{
    let words = record_at(list, a);
    let positions = values_at(list, at.positions);
    let increments = values_at(list, at.increments);
    let gains = values_at(list, at.gains);
    let affinities = values_at(list, at.affinities);
    let indices = numbers_at(list, at.indices);
    let offsets = numbers_at(list, at.offsets);
    let mut target = marked_target();
    let answer = park_in(
        &words,
        &positions[..l.positions],
        &increments[..l.increments],
        &gains[..l.gains],
        &affinities[..l.affinities],
        &indices[..l.indices],
        &offsets[..l.offsets],
        l.forces,
        empty_cells(),
        l.nodes,
        &mut target[..bytes],
    );
    Left { answer, target }
}

// The case from word a on: number and value, the whole target, and that the case ends with it.
pub(crate) fn written_right(list: &[u8], a: usize) -> bool {
    let l = lengths_at(list, plus(a, 15));
    let bytes = length_at(list, plus(a, 23), 1408);
    let at = places_from(l, plus(a, 24));
    let left = written(list, plus(a, 1), l, at, bytes);
    let answer = left.answer;
    let target = left.target;
    let from = plus(at.end, 2);
    let number = refusal::number(answer) as u64;
    let told = same_told(number, value(answer), list, at.end);
    let kept = same_target(target, bytes, list, from) && still_marked(target, bytes);
    let ends = plus(from, words_of(bytes)) == plus(a, word_at(list, a) as usize);
    told && kept && ends
}
