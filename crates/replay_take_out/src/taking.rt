// A case: the run of a list, frames taken out of it, and what comes of it.
ghost use Rattle.std.specs.Prelude.{◌≤◌};

use crate::lending::take_lent;
use crate::lengths::{Lengths, Places, lengths_at, places_from};
use crate::run_areas::{bits_at, numbers_at, same_bits, same_numbers, same_values};
use fault_words::{fault_value, unread_fault};
use record_words::{put_run, run_fine, run_of};
use replay::areas::{plus, ready_at};
use replay::word_at;
use replay_areas::empty_cells;
use replay_areas::values::record_at;
use run_record::Run;
use take_out::TakeFault;

// The record as fourteen words.
fn words_of(r: Run) -> [u64; 14] {
    let mut words = [0u64; 14];
    put_run(&mut words, r);
    words
}

// Whether they are the words from a on.
fn same_record(words: [u64; 14], list: &[u8], a: usize) -> bool {
    words == record_at(list, a)
}

// What comes with the number: how many are left, or what is told of a fault; nothing where the removal is denied.
fn value(a: Result<usize, TakeFault>) -> u64 {
    match a {
        Ok(m) => m as u64,
        Err(TakeFault::Denied(_)) => 0,
        Err(TakeFault::Bad(f)) => fault_value(f),
    }
}

// What a call leaves besides areas: its answer, and the record's words.
#[derive(Clone, Copy)]
struct Told {
    answer: Result<usize, TakeFault>,
    words: [u64; 14],
}

// Number and value are the words from i on, and those of the record follow.
fn same_told(t: Told, list: &[u8], i: usize) -> bool {
    let a = t.answer;
    let words = t.words;
    let number = refusal::number(a) as u64 == word_at(list, i);
    let value = value(a) == word_at(list, plus(i, 1));
    number && value && same_record(words, list, plus(i, 2))
}

// The call with the record as words; words that are no record are told without it.
fn taken(
    words: [u64; 14],
    positions: &mut [f64],
    increments: &mut [u64],
    gains: &mut [u64],
    affinities: &mut [u64],
    indices: &mut [u32],
    offsets: &mut [u32],
    forces: &mut [f64],
    nodes: usize,
    table: &mut [u64],
    gone: &[u32],
    old: &mut [u32],
) -> Told
    requires { nodes ≤ 4 }
{
    if !run_fine(&words) {
        let answer = Err(TakeFault::Bad(unread_fault(&words)));
        return Told { answer, words };
    }
    let t = take_lent(
        run_of(&words),
        positions,
        increments,
        gains,
        affinities,
        indices,
        offsets,
        forces,
        empty_cells(),
        nodes,
        table,
        gone,
        old,
    );
    let answer = t.answer;
    let run = t.run;
    Told {
        answer,
        words: words_of(run),
    }
}

// Positions, increments, gains and affinities have their digests among those from word j on.
fn same_state(
    list: &[u8],
    l: Lengths,
    j: usize,
    positions: [f64; 96],
    increments: [u64; 96],
    gains: [u64; 96],
    affinities: [u64; 96],
) -> bool {
    let p = same_values(&positions, l.positions, list, j);
    let q = same_bits(&increments, l.increments, list, plus(j, 1));
    let g = same_bits(&gains, l.gains, list, plus(j, 2));
    let v = same_bits(&affinities, l.affinities, list, plus(j, 3));
    p && q && g && v
}

// Indices, offsets and old places.
fn same_lists(
    list: &[u8],
    l: Lengths,
    j: usize,
    indices: [u32; 64],
    offsets: [u32; 64],
    old: [u32; 64],
) -> bool {
    let x = same_numbers(&indices, l.indices, list, plus(j, 4));
    let o = same_numbers(&offsets, l.offsets, list, plus(j, 5));
    x && o && same_numbers(&old, l.old, list, plus(j, 8))
}

// Forces and table.
fn same_rest(list: &[u8], l: Lengths, j: usize, forces: [f64; 96], table: [u64; 96]) -> bool {
    let f = same_values(&forces, l.forces, list, plus(j, 6));
    f && same_bits(&table, l.table, list, plus(j, 7))
}

// The call on the run whose areas stand at their places: what is told, the record, and every place of all areas.
fn run_right(list: &[u8], l: Lengths, at: Places, words: [u64; 14]) -> bool
    requires { (l.positions ≤ 96)
        × (l.increments ≤ 96)
        × (l.gains ≤ 96)
        × (l.affinities ≤ 96)
        × (l.indices ≤ 64)
        × (l.offsets ≤ 64)
        × (l.forces ≤ 96)
        × (l.nodes ≤ 4)
        × (l.table ≤ 96)
        × (l.gone ≤ 64)
        × (l.old ≤ 64) }
{
    let mut positions = ready_at::<96>(list, at.positions, l.positions);
    let mut increments = bits_at(list, at.increments, l.increments);
    let mut gains = bits_at(list, at.gains, l.gains);
    let mut affinities = bits_at(list, at.affinities, l.affinities);
    let mut indices = numbers_at(list, at.indices, l.indices);
    let mut offsets = numbers_at(list, at.offsets, l.offsets);
    let mut forces = ready_at::<96>(list, 0, 0);
    let mut table = bits_at(list, at.table, l.table);
    let gone = numbers_at(list, at.gone, l.gone);
    let mut old = numbers_at(list, 0, 0);
    let t = taken(
        words,
        &mut positions[..l.positions],
        &mut increments[..l.increments],
        &mut gains[..l.gains],
        &mut affinities[..l.affinities],
        &mut indices[..l.indices],
        &mut offsets[..l.offsets],
        &mut forces[..l.forces],
        l.nodes,
        &mut table[..l.table],
        &gone[..l.gone],
        &mut old[..l.old],
    );
    let j = plus(at.end, 16);
    let told = same_told(t, list, at.end);
    let state = same_state(list, l, j, positions, increments, gains, affinities);
    let lists = same_lists(list, l, j, indices, offsets, old);
    let rest = same_rest(list, l, j, forces, table);
    told && state && lists && rest
}

// The case from word a on; it has to end with what is compared.
pub(crate) fn case_right(list: &[u8], a: usize) -> bool {
    let l = lengths_at(list, plus(a, 15));
    let at = places_from(l, plus(a, 26));
    let words = record_at(list, plus(a, 1));
    let ends = plus(at.end, 25) == plus(a, word_at(list, a) as usize);
    ends && run_right(list, l, at, words)
}
