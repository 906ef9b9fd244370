// How much of each area a call is lent.
ghost use Rattle.std.specs.Prelude.{◌≤◌};

use replay::areas::plus;
use replay::word_at;

// How much of each area is lent.
#[derive(Clone, Copy)]
pub(crate) struct Lent {
    pub(crate) positions: usize,
    pub(crate) increments: usize,
    pub(crate) gains: usize,
    pub(crate) affinities: usize,
    pub(crate) indices: usize,
    pub(crate) offsets: usize,
    pub(crate) forces: usize,
    pub(crate) nodes: usize,
}

// The length at the k-th word behind i, but no more than most.
pub(crate) fn length_at(list: &[u8], i: usize, k: usize, most: usize) -> usize
    ensures { result ≤ most }
{
    most.min(word_at(list, plus(i, k)) as usize)
}

// The eight lengths from word i on, but no more than each area has.
pub(crate) fn lent_at(list: &[u8], i: usize) -> Lent
    ensures { (result.positions ≤ 132)
        × (result.increments ≤ 132)
        × (result.gains ≤ 132)
        × (result.affinities ≤ 4100)
        × (result.indices ≤ 2052)
        × (result.offsets ≤ 70)
        × (result.forces ≤ 324)
        × (result.nodes ≤ 512) }
{
    Lent {
        positions: length_at(list, i, 0, 132),
        increments: length_at(list, i, 1, 132),
        gains: length_at(list, i, 2, 132),
        affinities: length_at(list, i, 3, 4100),
        indices: length_at(list, i, 4, 2052),
        offsets: length_at(list, i, 5, 70),
        forces: length_at(list, i, 6, 324),
        nodes: length_at(list, i, 7, 512),
    }
}
