// A case of loading: a partner's list, loaded into a record and areas of marks and written again.
ghost use Rattle.std.specs.Prelude.{◌≤◌, length};

use crate::lending::lists_in;
use desk_import::host_import;
use replay::areas::plus;
use replay::word_at;
use replay_areas::bytes::{bytes_at, marked_target, same_file, words_of};
use replay_areas::empty_cells;
use replay_areas::lengths::{length_at, lengths_at};
use replay_areas::told::Told;
use replay_areas::values::{
    marked, marked_numbers, marked_record, marked_values, record_at, same_values, values_at,
};
use replay_areas::wanted::{Wants, same_lists, same_state, wanted};

// Number and word 0 of an answer.
#[derive(Clone, Copy)]
struct Answer {
    number: u64,
    value: u64,
}

// Loads the list.
fn load(
    settings: &[u64],
    start: &[u64],
    file: &[u8],
    words: &mut [u64],
    positions: &mut [u64],
    increments: &mut [u64],
    gains: &mut [u64],
    affinities: &mut [u64],
    indices: &mut [u32],
    offsets: &mut [u32],
    forces: &mut [u64],
    nodes: usize,
) -> Answer {
    let mut answer = [9u64; 1];
    let k = host_import(
        settings,
        start,
        file,
        words,
        positions,
        increments,
        gains,
        affinities,
        indices,
        offsets,
        forces,
        nodes,
        &mut answer,
    );
    Answer {
        number: k as u64,
        value: answer[0],
    }
}

// Whether what was loaded is written as the file's own bytes.
fn same_again(
    file: &[u8],
    words: &[u64],
    positions: &[u64],
    increments: &[u64],
    gains: &[u64],
    affinities: &[u64],
    indices: &[u32],
    offsets: &[u32],
    forces: usize,
    nodes: usize,
    records: u64,
) -> bool
    requires { (length file.now ≤ 1408) × (nodes ≤ 4) }
{
    let mut target = marked_target();
    let m = file.len();
    let a = lists_in(
        words,
        positions,
        increments,
        gains,
        affinities,
        indices,
        offsets,
        forces,
        empty_cells(),
        nodes,
        &mut target[..m],
    );
    a.is_ok_and(|k| k as u64 == records) && same_file(file, target)
}

// Loads the list, and writes it again if it was loaded.
fn load_back(
    settings: &[u64],
    start: &[u64],
    file: &[u8],
    words: &mut [u64],
    positions: &mut [u64],
    increments: &mut [u64],
    gains: &mut [u64],
    affinities: &mut [u64],
    indices: &mut [u32],
    offsets: &mut [u32],
    forces: &mut [u64],
    nodes: usize,
) -> Told
    requires { (length file.now ≤ 1408) × (nodes ≤ 4) }
{
    let a = load(
        settings, start, file, words, positions, increments, gains, affinities, indices, offsets,
        forces, nodes,
    );
    if a.number != 0 {
        return Told {
            number: a.number,
            value: a.value,
            again: true,
        };
    }
    let f = forces.len();
    let again = same_again(
        file, words, positions, increments, gains, affinities, indices, offsets, f, nodes, a.value,
    );
    Told {
        number: a.number,
        value: a.value,
        again,
    }
}

// Affinities, indices, offsets and forces. The words that the zeros of the forces are held against lie past the list's end.
fn same_rest(
    list: &[u8],
    w: Wants,
    affinities: [u64; 48],
    indices: [u32; 48],
    offsets: [u32; 48],
    forces: [u64; 96],
) -> bool {
    same_lists(list, w, affinities, indices, offsets)
        && same_values(&forces, w.zeros, list, list.len())
}

// The case from word a on: what is told, every place of record and areas, and that the case ends with them.
pub(crate) fn loaded_right(list: &[u8], a: usize) -> bool {
    let settings = record_at(list, plus(a, 1));
    let r = length_at(list, plus(a, 10), 14);
    let m = length_at(list, plus(a, 11), 48);
    let bytes = length_at(list, plus(a, 12), 1408);
    let l = lengths_at(list, plus(a, 13));
    let s = plus(a, 21);
    let start = values_at(list, s);
    let i = plus(s, m);
    let file = bytes_at(list, i);
    let mut words = marked_record();
    let mut positions = marked_values();
    let mut increments = marked_values();
    let mut gains = marked_values();
    let mut affinities = marked_values();
    let mut indices = marked_numbers();
    let mut offsets = marked_numbers();
    let mut forces = marked();
    let t = load_back(
        &settings[..9],
        &start[..m],
        &file[..bytes],
        &mut words[..r],
        &mut positions[..l.positions],
        &mut increments[..l.increments],
        &mut gains[..l.gains],
        &mut affinities[..l.affinities],
        &mut indices[..l.indices],
        &mut offsets[..l.offsets],
        &mut forces[..l.forces],
        l.nodes,
    );
    let b = plus(i, words_of(bytes));
    let w = wanted(list, b, l);
    let state = same_state(list, w, plus(b, 2), words, positions, increments, gains);
    let rest = same_rest(list, w, affinities, indices, offsets, forces);
    let at = w.places;
    let ends = at.end == plus(a, word_at(list, a) as usize);
    t.same(list, b) && ends && state && rest
}
