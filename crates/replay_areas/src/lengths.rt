// How long the areas of a case are.
ghost use Rattle.std.specs.Prelude.{◌≡◌, ◌≤◌, min};
ghost use Rattle.replay.specs.Replay.{word_of};
ghost use Rattle.replay_areas.specs.Said.{places_of};

use replay::areas::plus;
use replay::word_at;

// How long each area is, from positions to nodes.
#[derive(Clone, Copy)]
pub struct Lengths {
    pub positions: usize,
    pub increments: usize,
    pub gains: usize,
    pub affinities: usize,
    pub indices: usize,
    pub offsets: usize,
    pub forces: usize,
    pub nodes: usize,
}

// The length that word i tells, but no more than most; a case of more does not end where its words do, and counts as wrong.
pub fn length_at(list: &[u8], i: usize, most: usize) -> usize
    ensures most_value { result ≡ min most (word_of list.now i) }
    ensures upper_bound { result ≤ most }
{
    most.min(word_at(list, i) as usize)
}

// The eight lengths from word i on.
pub fn lengths_at(list: &[u8], i: usize) -> Lengths
    ensures { (result.positions ≤ 48)
        × (result.increments ≤ 48)
        × (result.gains ≤ 48)
        × (result.affinities ≤ 48)
        × (result.indices ≤ 48)
        × (result.offsets ≤ 48)
        × (result.forces ≤ 96)
        × (result.nodes ≤ 4) }
{
    Lengths {
        positions: length_at(list, i, 48),
        increments: length_at(list, plus(i, 1), 48),
        gains: length_at(list, plus(i, 2), 48),
        affinities: length_at(list, plus(i, 3), 48),
        indices: length_at(list, plus(i, 4), 48),
        offsets: length_at(list, plus(i, 5), 48),
        forces: length_at(list, plus(i, 6), 96),
        nodes: length_at(list, plus(i, 7), 4),
    }
}

// Where each area's words begin, and where the words after them do.
#[derive(Clone, Copy)]
pub struct Places {
    pub positions: usize,
    pub increments: usize,
    pub gains: usize,
    pub affinities: usize,
    pub indices: usize,
    pub offsets: usize,
    pub end: usize,
}

// The areas follow each other from word a on.
pub fn places_from(l: Lengths, a: usize) -> Places
    ensures { result ≡ places_of l a }
{
    let increments = plus(a, l.positions);
    let gains = plus(increments, l.increments);
    let affinities = plus(gains, l.gains);
    let indices = plus(affinities, l.affinities);
    let offsets = plus(indices, l.indices);
    let end = plus(offsets, l.offsets);
    Places {
        positions: a,
        increments,
        gains,
        affinities,
        indices,
        offsets,
        end,
    }
}
