// How long the areas of frames are, and where their words stand.
ghost use Rattle.std.specs.Prelude.{◌≤◌};

use replay::areas::plus;
use replay::word_at;
use replay_areas::lengths::length_at;

// How long pictures, sides, fields and positions are.
#[derive(Clone, Copy)]
pub(crate) struct Rooms {
    pub(crate) pictures: usize,
    pub(crate) sides: usize,
    pub(crate) fields: usize,
    pub(crate) positions: usize,
}

// Whether the four lengths from word i on are those of at most 16 frames.
pub(crate) fn are_within(list: &[u8], i: usize) -> bool {
    word_at(list, i) <= 16
        && word_at(list, plus(i, 1)) <= 16
        && word_at(list, plus(i, 2)) <= 16
        && word_at(list, plus(i, 3)) <= 32
}

// The four lengths from word i on.
pub(crate) fn rooms_at(list: &[u8], i: usize) -> Rooms
    ensures { (result.pictures ≤ 16) × (result.sides ≤ 16) × (result.fields ≤ 16) × (result.positions ≤ 32) }
{
    Rooms {
        pictures: length_at(list, i, 16),
        sides: length_at(list, plus(i, 1), 16),
        fields: length_at(list, plus(i, 2), 16),
        positions: length_at(list, plus(i, 3), 32),
    }
}

// Where each area's words begin, and where the words after them do.
#[derive(Clone, Copy)]
pub(crate) struct Spots {
    pub(crate) pictures: usize,
    pub(crate) sides: usize,
    pub(crate) fields: usize,
    pub(crate) positions: usize,
    pub(crate) end: usize,
}

// The areas follow each other from word a on.
pub(crate) fn spots_from(m: Rooms, a: usize) -> Spots {
    let sides = plus(a, m.pictures);
    let fields = plus(sides, m.sides);
    let positions = plus(fields, m.fields);
    Spots {
        pictures: a,
        sides,
        fields,
        positions,
        end: plus(positions, m.positions),
    }
}
