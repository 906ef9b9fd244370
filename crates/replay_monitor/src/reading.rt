// A case of reading: a file, read into areas of marks.
ghost use Rattle.std.specs.Prelude.{◌≤◌};

use crate::rooms::{Rooms, Spots, are_within, rooms_at, spots_from};
use desk_monitor::host_monitor_read;
use replay::areas::{plus, same_numbers};
use replay::word_at;
use replay_areas::bytes::{bytes_at, marked_target, same_bytes, words_of};
use replay_areas::lengths::length_at;
use replay_areas::told::same_told;
use replay_areas::values::{marked_numbers, marked_values, same_values};

// What a call leaves: its number, word 0 and the areas.
#[derive(Clone, Copy)]
struct Left {
    number: u32,
    value: u64,
    pictures: [u32; 48],
    sides: [u8; 1408],
    fields: [u8; 1408],
    positions: [u64; 48],
}

// The file of so many bytes from word a on, read into areas so long.
fn read(list: &[u8], a: usize, bytes: usize, m: Rooms) -> Left
    requires { (m.pictures ≤ 16) × (m.sides ≤ 16) × (m.fields ≤ 16) × (m.positions ≤ 32) × (bytes ≤ 256) }
{
    let file = bytes_at(list, a);
    let mut pictures = marked_numbers();
    let mut sides = marked_target();
    let mut fields = marked_target();
    let mut positions = marked_values();
    let mut answer = [9u64; 1];
    let number = host_monitor_read(
        &file[..bytes],
        &mut pictures[..m.pictures],
        &mut sides[..m.sides],
        &mut fields[..m.fields],
        &mut positions[..m.positions],
        &mut answer,
    );
    Left {
        number,
        value: answer[0],
        pictures,
        sides,
        fields,
        positions,
    }
}

// The areas that were left are the words at their places; behind what was lent are marks.
fn same_left(left: Left, m: Rooms, list: &[u8], at: Spots) -> bool
    requires { (m.sides ≤ 16) × (m.fields ≤ 16) }
{
    let pictures = left.pictures;
    let sides = left.sides;
    let fields = left.fields;
    let positions = left.positions;
    let p = same_numbers(&pictures, m.pictures, list, at.pictures);
    let s = same_bytes(sides, m.sides, list, at.sides);
    let f = same_bytes(fields, m.fields, list, at.fields);
    let x = same_values(&positions, m.positions, list, at.positions);
    p && s && f && x
}

// The case from word a on, whose file has so many bytes and whose lengths stand from word i on: number and word 0, every place of all areas, and that the case ends with them.
fn case_of(list: &[u8], a: usize, bytes: usize, i: usize) -> bool
    requires { bytes ≤ 256 }
{
    let m = rooms_at(list, i);
    let at = spots_from(m, plus(i, 6));
    let left = read(list, plus(a, 2), bytes, m);
    let told = same_told(left.number as u64, left.value, list, plus(i, 4));
    let ends = at.end == plus(a, word_at(list, a) as usize);
    told && ends && same_left(left, m, list, at)
}

// The case from word a on. One of more than 16 frames' room is not run.
pub(crate) fn read_right(list: &[u8], a: usize) -> bool {
    if word_at(list, plus(a, 1)) > 256 {
        return false;
    }
    let bytes = length_at(list, plus(a, 1), 256);
    let i = plus(plus(a, 2), words_of(bytes));
    if !are_within(list, i) {
        return false;
    }
    case_of(list, a, bytes, i)
}
