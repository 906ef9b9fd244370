// The units of a work call: until the budget is done, one is refused or the run has ended.

#![tactic(auto)]

ghost use Rattle.std.specs.Prelude.{◌≡◌, ◌+◌, ◌<◌, ◌^◌, Err};
ghost use Rattle.run_calls.specs.Machine.{go};
ghost use Rattle.run_entry.specs.State.{memory, state};
ghost use Rattle.run_entry.specs.Entry.{Good};
ghost use Rattle.run_budget.specs.Budget.{machine, stands_of, refused_of, halted_of, worked, told, started_of, spends_on, counted_on, ended_of};

use run_entry::Fault;
use run_finish::Halt;
use run_record::counters::is_ended;
use run_record::{Run, Standing};
use run_units::one_unit;
use tree_node::Cell;

// What a work call answers, with the units done in it.
#[derive(Clone, Copy)]
pub enum Answer {
    Running(u32),
    Stopped(u32),
    Finished(u32),
    // 14: the next point needs more nodes than the arena has left
    Full(u32),
    // 15: the step would give a value that is NaN or above 2^100 in magnitude
    Wild(u32),
    // 12 or 21 to 25: what the entry tests found; no unit was tried
    Bad(Fault),
}

// The record after a call, and the answer.
#[derive(Clone, Copy)]
pub struct Worked {
    pub run: Run,
    pub answer: Answer,
}

// A call as it goes.
#[derive(Clone, Copy)]
pub struct Going {
    pub run: Run,
    // whether the last unit that was tried was done, and if not, why
    pub why: Result<(), Halt>,
    // units done in this call
    pub k: u32,
}

// How the run stands.
fn stands(s: Standing, k: u32) -> Answer
    ensures { result ≡ stands_of s k }
{
    match s {
        Standing::Running => Answer::Running(k),
        Standing::Stopped => Answer::Stopped(k),
        Standing::Finished => Answer::Finished(k),
    }
}

// Why the next unit was refused.
fn turned_down(h: Halt, k: u32) -> Answer
    ensures { result ≡ refused_of (Err h) k }
{
    match h {
        Halt::Full => Answer::Full(k),
        Halt::Wild => Answer::Wild(k),
        Halt::Over => Answer::Running(k),
    }
}

// Where a unit was not done.
fn halted(s: Standing, h: Halt, k: u32) -> Answer
    ensures { result ≡ halted_of s (Err h) k }
{
    if is_ended(s) {
        return stands(s, k);
    }
    turned_down(h, k)
}

fn started(r: Run) -> Going
    ensures { result ≡ started_of r }
{
    Going {
        run: r,
        why: Ok(()),
        k: 0,
    }
}

fn goes_on(g: Going, budget: u32) -> bool
    ensures { result ≡ spends_on g budget }
{
    g.why.is_ok() && g.k < budget
}

// A unit was tried.
fn onward(g: Going, t: Result<Run, Halt>) -> Going
    requires { g.k + 1 < 2 ^ 32 }
    ensures { result ≡ counted_on g t }
{
    match t {
        Ok(run) => Going {
            run,
            why: Ok(()),
            k: g.k + 1,
        },
        Err(h) => Going {
            run: g.run,
            why: Err(h),
            k: g.k,
        },
    }
}

// What the call leaves and answers.
fn ended(g: Going) -> Worked
    ensures { result ≡ ended_of g }
{
    let run = g.run;
    let s = run.standing;
    let answer = match g.why {
        Ok(()) => stands(s, g.k),
        Err(h) => halted(s, h, g.k),
    };
    Worked { run, answer }
}

// Units until the budget is done, one is refused or the run has ended.
pub fn go_on(
    r: Run,
    positions: &mut [f64],
    increments: &mut [f64],
    gains: &mut [f64],
    affinities: &[f64],
    indices: &[u32],
    offsets: &[u32],
    forces: &mut [f64],
    cells: &mut [Cell],
    budget: u32,
) -> Worked
    requires { Good (state r (memory positions.old increments.old gains.old affinities.now indices.now offsets.now forces.old cells.old)) }
    ensures { worked result.answer (state result.run (memory
        positions.new
        increments.new
        gains.new
        affinities.now
        indices.now
        offsets.now
        forces.new
        cells.new))
        ≡ told (go machine budget (state r (memory
        positions.old
        increments.old
        gains.old
        affinities.now
        indices.now
        offsets.now
        forces.old
        cells.old))) }
{
    let mut g = started(r);
    while goes_on(g, budget) {
        let x = g.run;
        let t = one_unit(
            x, positions, increments, gains, affinities, indices, offsets, forces, cells,
        );
        let h = onward(g, t);
        g = h;
    }
    let w = ended(g);
    w
}
