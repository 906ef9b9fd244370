// What a call that fills areas has to leave: the answer's two words, then, where nothing was refused, the record and the areas from positions to offsets.
ghost use Rattle.std.specs.Prelude.{◌≡◌, ◌&&◌};
ghost use Rattle.replay.specs.Areas.{same_numbers};
ghost use Rattle.replay_areas.specs.Said.{values_stand, no_lengths, zeros_of, wants_of};

use crate::lengths::{Lengths, Places, length_at, places_from};
use crate::values::same_values;
use replay::areas::{plus, same_numbers};
use replay::word_at;

// What a case wants of the areas: so many words of each, and zeros in so many forces.
#[derive(Clone, Copy)]
pub struct Wants {
    pub words: usize,
    pub lengths: Lengths,
    pub places: Places,
    pub zeros: usize,
}

// Nothing is read into areas of a file that is refused.
fn nothing() -> Lengths
    ensures { result ≡ no_lengths }
{
    Lengths {
        positions: 0,
        increments: 0,
        gains: 0,
        affinities: 0,
        indices: 0,
        offsets: 0,
        forces: 0,
        nodes: 0,
    }
}

// n · (2c + 1) of the record from word i on.
fn zeros_at(list: &[u8], i: usize) -> usize
    ensures { result ≡ zeros_of list.now i }
{
    let n = length_at(list, i, 4096);
    let c = length_at(list, plus(i, 2), 8);
    n * (2 * c + 1)
}

// The answer stands at word i: of a file that is read the record follows, and the areas.
pub fn wanted(list: &[u8], i: usize, l: Lengths) -> Wants
    ensures { result ≡ wants_of list.now i l }
{
    let r = plus(i, 2);
    if word_at(list, i) == 0 {
        return Wants {
            words: 14,
            lengths: l,
            places: places_from(l, plus(r, 14)),
            zeros: zeros_at(list, r),
        };
    }
    Wants {
        words: 0,
        lengths: nothing(),
        places: places_from(nothing(), r),
        zeros: 0,
    }
}

// The record, positions, increments and gains.
pub fn same_state(
    list: &[u8],
    w: Wants,
    r: usize,
    words: [u64; 14],
    positions: [u64; 48],
    increments: [u64; 48],
    gains: [u64; 48],
) -> bool
    ensures { result ≡ (((values_stand words w.words list.now r && values_stand positions w.lengths.positions list.now w.places.positions)
        && values_stand increments w.lengths.increments list.now w.places.increments)
        && values_stand gains w.lengths.gains list.now w.places.gains) }
{
    let l = w.lengths;
    let at = w.places;
    let record = same_values(&words, w.words, list, r);
    let p = same_values(&positions, l.positions, list, at.positions);
    let q = same_values(&increments, l.increments, list, at.increments);
    let g = same_values(&gains, l.gains, list, at.gains);
    record && p && q && g
}

// Affinities, indices and offsets.
pub fn same_lists(
    list: &[u8],
    w: Wants,
    affinities: [u64; 48],
    indices: [u32; 48],
    offsets: [u32; 48],
) -> bool
    ensures { result ≡ ((values_stand affinities w.lengths.affinities list.now w.places.affinities
        && same_numbers indices w.lengths.indices list.now w.places.indices)
        && same_numbers offsets w.lengths.offsets list.now w.places.offsets) }
{
    let l = w.lengths;
    let at = w.places;
    let v = same_values(&affinities, l.affinities, list, at.affinities);
    let x = same_numbers(&indices, l.indices, list, at.indices);
    let o = same_numbers(&offsets, l.offsets, list, at.offsets);
    v && x && o
}
