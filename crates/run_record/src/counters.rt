// The tests on the counters of a record.
ghost use Rattle.std.specs.Prelude.{◌≡◌, ◌+◌, ◌*◌, ◌<◌, ◌≤◌, eqb};
ghost use Rattle.laws.specs.Domain.{most_frames, most_iterations};
ghost use Rattle.run_record.specs.Record.{is_ended, state_fits, counters_ok, per_of, GoodSettings, most_per};
ghost use Rattle.run_record.specs.declared.Standing.TheVariants.{Stopped, Finished};

use crate::faults::{is_above, is_tree};
use crate::{Method, Run, Standing};
use laws::EARLY_ITERATIONS;

pub fn is_ended(s: Standing) -> bool
    ensures { result ≡ is_ended s }
{
    !matches!(s, Standing::Running)
}

// the units of an iteration
pub fn per(m: Method, n: usize) -> usize
    requires { n ≤ most_frames }
    ensures { result ≡ per_of m n }
{
    if is_tree(m) {
        return 2 * n + 2;
    }
    2 * n + 1
}

fn stopped_fits(done: usize, set: usize, phase: usize, least: f64) -> bool
    ensures { result ≡ state_fits Stopped done set phase least }
{
    if done <= EARLY_ITERATIONS {
        return false;
    }
    if set < done {
        return false;
    }
    if !is_above(least) {
        return false;
    }
    phase == 0
}

fn finished_fits(done: usize, set: usize, phase: usize, least: f64) -> bool
    ensures { result ≡ state_fits Finished done set phase least }
{
    done == set && phase == 0
}

pub fn state_fits(s: Standing, done: usize, set: usize, phase: usize, least: f64) -> bool
    ensures { result ≡ state_fits s done set phase least }
{
    match s {
        Standing::Running => done < set,
        Standing::Stopped => stopped_fits(done, set, phase, least),
        Standing::Finished => finished_fits(done, set, phase, least),
    }
}

fn total_fits(units: usize, done: usize, p: usize, phase: usize) -> bool
    requires { (done ≤ most_iterations) × (p ≤ most_per) × (phase < p) }
    ensures { result ≡ eqb units (done * p + phase) }
{
    units == done * p + phase
}

pub fn counters_ok(r: Run) -> bool
    requires { GoodSettings r.settings }
    ensures { result ≡ counters_ok r }
{
    let s = r.settings;
    let st = r.standing;
    if !state_fits(st, r.done, s.iterations, r.phase, s.minimum) {
        return false;
    }
    let m = s.method;
    let p = per(m, s.n);
    if p <= r.phase {
        return false;
    }
    total_fits(r.units, r.done, p, r.phase)
}
