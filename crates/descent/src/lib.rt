// The work call: entry tests, then units until the budget is done, one is refused or the run has ended.

#![tactic(auto)]

ghost use Rattle.std.specs.Prelude.{◌≡◌};
ghost use Rattle.run_entry.specs.State.{memory, state};
ghost use Rattle.run_budget.specs.Budget.{worked};
ghost use Rattle.descent.specs.Descent.{work, work_number};

use refusal::Numbered;
use run_budget::go_on;
pub use run_budget::{Answer, Worked};
use run_entry::{Lengths, fault_at};
use run_record::{Run, Standing};
use tree_node::Cell;

// A call with a budget: takes any record and any areas.
pub fn work(
    run: &mut Run,
    positions: &mut [f64],
    increments: &mut [f64],
    gains: &mut [f64],
    affinities: &[f64],
    indices: &[u32],
    offsets: &[u32],
    forces: &mut [f64],
    cells: &mut [Cell],
    budget: u32,
) -> Answer
    ensures { worked result (state run.new (memory
        positions.new
        increments.new
        gains.new
        affinities.now
        indices.now
        offsets.now
        forces.new
        cells.new))
        ≡ work budget (state run.old (memory
        positions.old
        increments.old
        gains.old
        affinities.now
        indices.now
        offsets.now
        forces.old
        cells.old)) }
{
    let l = Lengths {
        positions: positions.len(),
        increments: increments.len(),
        gains: gains.len(),
        affinities: affinities.len(),
        forces: forces.len(),
    };
    if let Err(f) = fault_at(*run, l, indices, offsets, cells) {
        return Answer::Bad(f);
    }
    let t = go_on(
        *run, positions, increments, gains, affinities, indices, offsets, forces, cells, budget,
    );
    *run = t.run;
    t.answer
}

// The scope paper's number of an answer; 0: it is no refusal.
pub fn number(a: Answer) -> u8
    ensures { result ≡ work_number a }
{
    match a {
        Answer::Running(_) => 0,
        Answer::Stopped(_) => 0,
        Answer::Finished(_) => 0,
        Answer::Full(_) => 14,
        Answer::Wild(_) => 15,
        Answer::Bad(f) => f.number(),
    }
}

// ---- what a record says

// Running, stopped or finished.
pub fn standing(r: Run) -> Standing
    ensures { result ≡ r.standing }
{
    r.standing
}

pub fn iterations_done(r: Run) -> usize
    ensures { result ≡ r.done }
{
    r.done
}

pub fn units_done(r: Run) -> usize
    ensures { result ≡ r.units }
{
    r.units
}
