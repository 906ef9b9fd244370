// A case of writing: frames, written into a target of marks.
ghost use Rattle.std.specs.Prelude.{◌≤◌};

use crate::rooms::{Rooms, Spots, are_within, rooms_at, spots_from};
use crate::sides::sides_at;
use desk_monitor::host_monitor_write;
use replay::areas::plus;
use replay::word_at;
use replay_areas::bytes::{marked_target, same_target, still_marked, words_of};
use replay_areas::lengths::length_at;
use replay_areas::told::same_told;
use replay_areas::values::{numbers_at, values_at};

// What a call leaves: its number, word 0 and the target.
#[derive(Clone, Copy)]
struct Left {
    number: u32,
    value: u64,
    target: [u8; 1408],
}

// n frames whose areas stand at their places, written into so many bytes.
fn written(list: &[u8], n: usize, m: Rooms, at: Spots, bytes: usize) -> Left
    requires { (m.pictures ≤ 16) × (m.sides ≤ 16) × (m.fields ≤ 16) × (m.positions ≤ 32) × (bytes ≤ 256) }
{
    let pictures = numbers_at(list, at.pictures);
    let sides = sides_at(list, at.sides);
    let fields = sides_at(list, at.fields);
    let positions = values_at(list, at.positions);
    let mut target = marked_target();
    let mut answer = [9u64; 1];
    let number = host_monitor_write(
        n,
        &pictures[..m.pictures],
        &sides[..m.sides],
        &fields[..m.fields],
        &positions[..m.positions],
        &mut target[..bytes],
        &mut answer,
    );
    Left {
        number,
        value: answer[0],
        target,
    }
}

// What was left is listed from word i on: number and word 0, then the whole target.
fn same_left(left: Left, bytes: usize, list: &[u8], i: usize) -> bool
    requires { bytes ≤ 256 }
{
    let target = left.target;
    let told = same_told(left.number as u64, left.value, list, i);
    let first = same_target(target, bytes, list, plus(i, 2));
    told && first && still_marked(target, bytes)
}

// The case from word a on: number and word 0, the whole target, and that the case ends with it. One of more than 16 frames' room is not run.
pub(crate) fn written_right(list: &[u8], a: usize) -> bool {
    let i = plus(a, 2);
    if !are_within(list, i) || word_at(list, plus(a, 6)) > 256 {
        return false;
    }
    let m = rooms_at(list, i);
    let bytes = length_at(list, plus(a, 6), 256);
    let at = spots_from(m, plus(a, 7));
    let left = written(list, word_at(list, plus(a, 1)) as usize, m, at, bytes);
    let end = plus(plus(at.end, 2), words_of(bytes));
    let ends = end == plus(a, word_at(list, a) as usize);
    same_left(left, bytes, list, at.end) && ends
}
