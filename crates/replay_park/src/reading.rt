// A case of reading: the file of a list, read into areas of marks and parked again.
ghost use Rattle.std.specs.Prelude.{◌≤◌, length};

use crate::forces::{marked_forces, same_forces};
use crate::lending::park_in;
use refusal::Unreadable;
use replay::areas::plus;
use replay::word_at;
use replay_areas::bytes::{bytes_at, marked_target, same_file, words_of};
use replay_areas::empty_cells;
use replay_areas::lengths::{length_at, lengths_at};
use replay_areas::told::Told;
use replay_areas::values::{marked_numbers, marked_record, marked_values};
use replay_areas::wanted::{Wants, same_lists, same_state, wanted};

// What comes with the number: the records, or the place.
fn value(a: Result<usize, Unreadable>) -> u64 {
    match a {
        Ok(k) | Err(Unreadable::Bad(k)) => k as u64,
        Err(Unreadable::Short) => 0,
    }
}

// Whether what was read is parked as the file's own bytes.
fn same_again(
    file: &[u8],
    words: &[u64],
    positions: &[u64],
    increments: &[u64],
    gains: &[u64],
    affinities: &[u64],
    indices: &[u32],
    offsets: &[u32],
    forces: usize,
    nodes: usize,
    records: u64,
) -> bool
    requires { (length file.now ≤ 1408) × (nodes ≤ 4) }
{
    let mut target = marked_target();
    let m = file.len();
    let a = park_in(
        words,
        positions,
        increments,
        gains,
        affinities,
        indices,
        offsets,
        forces,
        empty_cells(),
        nodes,
        &mut target[..m],
    );
    a.is_ok_and(|k| k as u64 == records) && same_file(file, target)
}

// Reads the file, and parks it again if it was read.
fn read_back(
    file: &[u8],
    words: &mut [u64],
    positions: &mut [u64],
    increments: &mut [u64],
    gains: &mut [u64],
    affinities: &mut [u64],
    indices: &mut [u32],
    offsets: &mut [u32],
    forces: &mut [f64],
    nodes: usize,
) -> Told
    requires { (length file.now ≤ 1408) × (nodes ≤ 4) }
{
    let a = unpark::unpark(
        file, words, positions, increments, gains, affinities, indices, offsets, forces, nodes,
    );
    let number = refusal::number(a) as u64;
    let value = value(a);
    if number != 0 {
        return Told {
            number,
            value,
            again: true,
        };
    }
    let f = forces.len();
    let again = same_again(
        file, words, positions, increments, gains, affinities, indices, offsets, f, nodes, value,
    );
    Told {
        number,
        value,
        again,
    }
}

// Affinities, indices, offsets and forces.
fn same_rest(
    list: &[u8],
    w: Wants,
    affinities: [u64; 48],
    indices: [u32; 48],
    offsets: [u32; 48],
    forces: [f64; 96],
) -> bool {
    same_lists(list, w, affinities, indices, offsets) && same_forces(&forces, w.zeros, list)
}

// The case from word a on: what is told, every place of all areas, and that the case ends with them.
pub(crate) fn read_right(list: &[u8], a: usize) -> bool {
    let bytes = length_at(list, plus(a, 1), 1408);
    let file = bytes_at(list, plus(a, 2));
    let i = plus(plus(a, 2), words_of(bytes));
    let l = lengths_at(list, i);
    let mut words = marked_record();
    let mut positions = marked_values();
    let mut increments = marked_values();
    let mut gains = marked_values();
    let mut affinities = marked_values();
    let mut indices = marked_numbers();
    let mut offsets = marked_numbers();
    let mut forces = marked_forces();
    let t = read_back(
        &file[..bytes],
        &mut words,
        &mut positions[..l.positions],
        &mut increments[..l.increments],
        &mut gains[..l.gains],
        &mut affinities[..l.affinities],
        &mut indices[..l.indices],
        &mut offsets[..l.offsets],
        &mut forces[..l.forces],
        l.nodes,
    );
    let b = plus(i, 8);
    let w = wanted(list, b, l);
    let state = same_state(list, w, plus(b, 2), words, positions, increments, gains);
    let rest = same_rest(list, w, affinities, indices, offsets, forces);
    let at = w.places;
    let ends = at.end == plus(a, word_at(list, a) as usize);
    t.same(list, b) && ends && state && rest
}
