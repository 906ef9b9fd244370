// The preparation of a case: marked areas, lent as far as the case says, and held against their digests.
ghost use Rattle.std.specs.Prelude.{◌≤◌, length};

use crate::fields::settings_at;
use crate::lengths::{length_at, lent_at};
use crate::run_areas::{Areas, marked, same, same_areas, same_words};
use refusal::{Refusal, number};
use replay::areas::{floats_at, mark, mark_words, plus};
use replay::word_at;
use run_record::{Run, Settings, Standing};

// How many words table and start have in the case from word a on; no more than there is room for.
fn table_length(list: &[u8], a: usize) -> usize
    ensures { result ≤ 200 }
{
    length_at(list, a, 20, 200)
}

fn start_length(list: &[u8], a: usize) -> usize
    ensures { result ≤ 200 }
{
    length_at(list, a, 21, 200)
}

// The word with the answer of the preparation of the case from word a on.
pub(crate) fn answer_place(list: &[u8], a: usize) -> usize {
    plus(
        plus(a, 22),
        plus(table_length(list, a), start_length(list, a)),
    )
}

// The two rows that a preparation is lent beside the areas.
#[derive(Clone, Copy)]
struct Rows {
    values: [f64; 68],
    indices: [u32; 68],
}

// Rows in which each place holds its mark.
fn marked_rows() -> Rows {
    let mut values = [0.0; 68];
    let mut indices = [0u32; 68];
    mark(&mut values);
    mark_words(&mut indices);
    Rows { values, indices }
}

// The rows have the last two of the digests from word j on; the words from i on say how long they are.
fn same_rows(s: Rows, list: &[u8], i: usize, j: usize) -> bool {
    let values = s.values;
    let indices = s.indices;
    let x = same(&values, list, i, j, 8);
    x && same_words(&indices, list, i, j, 9)
}

// What a preparation gives: its outcome, the areas and the rows.
#[derive(Clone, Copy)]
struct Ready {
    outcome: Result<Run, Refusal>,
    areas: Areas,
    rows: Rows,
}

// The preparation of the case from word a on, with areas and rows lent as far as it says.
fn prepared(
    list: &[u8],
    a: usize,
    s: Settings,
    table: &[f64],
    start: &[f64],
    m: Areas,
    r: Rows,
) -> Ready {
    let l = lent_at(list, plus(a, 10));
    let v = length_at(list, a, 18, 68);
    let k = length_at(list, a, 19, 68);
    let mut positions = m.positions;
    let mut increments = m.increments;
    let mut gains = m.gains;
    let mut affinities = m.affinities;
    let mut indices = m.indices;
    let mut offsets = m.offsets;
    let mut forces = m.forces;
    let cells = m.cells;
    let mut row_values = r.values;
    let mut row_indices = r.indices;
    let outcome = prepare::prepare(
        s,
        table,
        start,
        &mut positions[..l.positions],
        &mut increments[..l.increments],
        &mut gains[..l.gains],
        &mut affinities[..l.affinities],
        &mut indices[..l.indices],
        &mut offsets[..l.offsets],
        &mut forces[..l.forces],
        &mut row_values[..v],
        &mut row_indices[..k],
        l.nodes,
    );
    let areas = Areas {
        positions,
        increments,
        gains,
        affinities,
        indices,
        offsets,
        forces,
        cells,
    };
    let rows = Rows {
        values: row_values,
        indices: row_indices,
    };
    Ready {
        outcome,
        areas,
        rows,
    }
}

// What a preparation leaves: the record, the areas, the number of calls that follow, and whether all came out as listed.
#[derive(Clone, Copy)]
pub(crate) struct Begun {
    pub(crate) run: Run,
    pub(crate) areas: Areas,
    pub(crate) calls: usize,
    pub(crate) right: bool,
}

// Where a preparation was refused, this stands for the record; no call follows.
fn no_run(s: Settings) -> Run {
    Run {
        settings: s,
        standing: Standing::Running,
        done: 0,
        phase: 0,
        units: 0,
        used: 0,
    }
}

fn run_of(p: Result<Run, Refusal>, s: Settings) -> Run {
    match p {
        Err(_) => no_run(s),
        Ok(r) => r,
    }
}

// How many calls follow: none after a refusal.
fn calls_after(k: u64, list: &[u8], i: usize) -> usize
    ensures { result ≤ length list.now }
{
    if k == 0 {
        return list.len().min(word_at(list, i) as usize);
    }
    0
}

// The case from word a on: its preparation, of which the answer and all ten digests are compared.
pub(crate) fn begin(list: &[u8], a: usize) -> Begun
    ensures { result.calls ≤ length list.now }
{
    let s = settings_at(list, plus(a, 1));
    let t = table_length(list, a);
    let u = start_length(list, a);
    let table = floats_at::<200>(list, plus(a, 22), t);
    let start = floats_at::<200>(list, plus(plus(a, 22), t), u);
    let p = prepared(
        list,
        a,
        s,
        &table[..t],
        &start[..u],
        marked(),
        marked_rows(),
    );
    let outcome = p.outcome;
    let areas = p.areas;
    let rows = p.rows;
    let k = number(outcome) as u64;
    let b = answer_place(list, a);
    let i = plus(a, 10);
    let j = plus(b, 1);
    let answered = k == word_at(list, b) && same_rows(rows, list, i, j);
    let right = answered && same_areas(areas, list, i, j);
    let run = run_of(outcome, s);
    let calls = calls_after(k, list, plus(b, 11));
    Begun {
        run,
        areas,
        calls,
        right,
    }
}
