// The work calls of a case: an alteration, the areas lent as far as the call says, and what comes of it.
use crate::fields::{change_at, changed, same_answer, same_run};
use crate::lending::work_lent;
use crate::lengths::lent_at;
use crate::run_areas::{Areas, altered, same_areas};
use descent::Worked;
use replay::areas::{narrow, plus};
use replay::word_at;
use run_record::Run;

// What a call gives: its answer and the record, and the areas.
#[derive(Clone, Copy)]
struct Left {
    worked: Worked,
    areas: Areas,
}

// The call at word b, with the areas lent as far as it says.
fn worked(list: &[u8], b: usize, r: Run, s: Areas) -> Left {
    let l = lent_at(list, plus(b, 3));
    let budget = narrow(word_at(list, plus(b, 11)));
    let mut positions = s.positions;
    let mut increments = s.increments;
    let mut gains = s.gains;
    let affinities = s.affinities;
    let indices = s.indices;
    let offsets = s.offsets;
    let mut forces = s.forces;
    let old = s.cells;
    let left = work_lent(
        r,
        &mut positions[..l.positions],
        &mut increments[..l.increments],
        &mut gains[..l.gains],
        &affinities[..l.affinities],
        &indices[..l.indices],
        &offsets[..l.offsets],
        &mut forces[..l.forces],
        old,
        l.nodes,
        budget,
    );
    let run = left.run;
    let answer = left.answer;
    let cells = left.cells;
    let worked = Worked { run, answer };
    let areas = Areas {
        positions,
        increments,
        gains,
        affinities,
        indices,
        offsets,
        forces,
        cells,
    };
    Left { worked, areas }
}

// The record and the areas after a call, and whether all came out as listed.
#[derive(Clone, Copy)]
struct Called {
    run: Run,
    areas: Areas,
    right: bool,
}

// The answer and the record have the words from i on.
fn same_worked(w: Worked, list: &[u8], i: usize) -> bool {
    let answer = w.answer;
    let run = w.run;
    same_answer(answer, list, i) && same_run(run, list, plus(i, 3))
}

// The call at word b of the case from word a on: its alteration, then the call, then answer, record and digests.
fn one_call(list: &[u8], a: usize, b: usize, r: Run, s: Areas) -> Called {
    let before = changed(r, change_at(list, b));
    let t = worked(list, b, before, altered(s, list, b));
    let w = t.worked;
    let areas = t.areas;
    let run = w.run;
    let right = same_worked(w, list, plus(b, 12))
        && same_areas(areas, list, plus(a, 10), plus(b, 29));
    Called { run, areas, right }
}

// So many calls of the case from word a on, from word `first`; the case has to end with them.
pub(crate) fn all_calls(
    list: &[u8],
    a: usize,
    first: usize,
    calls: usize,
    r: Run,
    s: Areas,
) -> bool {
    let mut run = r;
    let mut areas = s;
    let mut right = true;
    let mut b = first;
    for k in 0..calls {
        let t = one_call(list, a, b, run, areas);
        run = t.run;
        areas = t.areas;
        right = right && t.right;
        b = plus(b, 37);
    }
    right && b == plus(a, word_at(list, a) as usize)
}
