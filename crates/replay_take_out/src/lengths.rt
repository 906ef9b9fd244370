// How long the areas of a case are, and where their words begin.
ghost use Rattle.std.specs.Prelude.{◌≤◌};

use replay::areas::plus;
use replay_areas::lengths::length_at;

// How long each area is: those of the run, the table, the list of samples that go, and the old places.
#[derive(Clone, Copy)]
pub(crate) struct Lengths {
    pub(crate) positions: usize,
    pub(crate) increments: usize,
    pub(crate) gains: usize,
    pub(crate) affinities: usize,
    pub(crate) indices: usize,
    pub(crate) offsets: usize,
    pub(crate) forces: usize,
    pub(crate) nodes: usize,
    pub(crate) table: usize,
    pub(crate) gone: usize,
    pub(crate) old: usize,
}

// The eleven lengths from word i on.
pub(crate) fn lengths_at(list: &[u8], i: usize) -> Lengths
    ensures { (result.positions ≤ 96)
        × (result.increments ≤ 96)
        × (result.gains ≤ 96)
        × (result.affinities ≤ 96)
        × (result.indices ≤ 64)
        × (result.offsets ≤ 64)
        × (result.forces ≤ 96)
        × (result.nodes ≤ 4)
        × (result.table ≤ 96)
        × (result.gone ≤ 64)
        × (result.old ≤ 64) }
{
    Lengths {
        positions: length_at(list, i, 96),
        increments: length_at(list, plus(i, 1), 96),
        gains: length_at(list, plus(i, 2), 96),
        affinities: length_at(list, plus(i, 3), 96),
        indices: length_at(list, plus(i, 4), 64),
        offsets: length_at(list, plus(i, 5), 64),
        forces: length_at(list, plus(i, 6), 96),
        nodes: length_at(list, plus(i, 7), 4),
        table: length_at(list, plus(i, 8), 96),
        gone: length_at(list, plus(i, 9), 64),
        old: length_at(list, plus(i, 10), 64),
    }
}

// Where the words of each area that is listed begin, and where the words after them do.
#[derive(Clone, Copy)]
pub(crate) struct Places {
    pub(crate) positions: usize,
    pub(crate) increments: usize,
    pub(crate) gains: usize,
    pub(crate) affinities: usize,
    pub(crate) indices: usize,
    pub(crate) offsets: usize,
    pub(crate) table: usize,
    pub(crate) gone: usize,
    pub(crate) end: usize,
}

// They follow each other from word a on.
pub(crate) fn places_from(l: Lengths, a: usize) -> Places {
    let increments = plus(a, l.positions);
    let gains = plus(increments, l.increments);
    let affinities = plus(gains, l.gains);
    let indices = plus(affinities, l.affinities);
    let offsets = plus(indices, l.indices);
    let table = plus(offsets, l.offsets);
    let gone = plus(table, l.table);
    let end = plus(gone, l.gone);
    Places {
        positions: a,
        increments,
        gains,
        affinities,
        indices,
        offsets,
        table,
        gone,
        end,
    }
}
