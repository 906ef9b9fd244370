// The record where a run begins, and what a unit does to it.
ghost use Rattle.std.specs.Prelude.{◌≡◌, ◌<◌};
ghost use Rattle.run_record.specs.Record.{fresh_run, advanced_of, stops_now, standing_after, closed_of};

use crate::faults::is_above;
use crate::{Run, Settings, Standing};
use laws::EARLY_ITERATIONS;

// The record of a run that begins.
pub fn fresh_run(s: Settings) -> Run
    ensures { result ≡ fresh_run s }
{
    Run {
        settings: s,
        standing: Standing::Running,
        done: 0,
        phase: 0,
        units: 0,
        used: 0,
    }
}

// one unit more, inside an iteration
pub fn advanced(r: Run, used: usize) -> Run
    requires { (r.phase < 10000) × (r.units < 1000000000) }
    ensures { result ≡ advanced_of r used }
{
    Run {
        phase: r.phase + 1,
        units: r.units + 1,
        used,
        ..r
    }
}

fn stops_now(r: Run, norm: f64) -> bool
    ensures { result ≡ stops_now r norm }
{
    if r.done < EARLY_ITERATIONS {
        return false;
    }
    let s = r.settings;
    if !is_above(s.minimum) {
        return false;
    }
    norm < s.minimum
}

// How a run stands after an iteration more.
fn standing_after(r: Run, norm: f64) -> Standing
    requires { r.done < 100000 }
    ensures { result ≡ standing_after r norm }
{
    if stops_now(r, norm) {
        return Standing::Stopped;
    }
    if r.done + 1 == r.settings.iterations {
        return Standing::Finished;
    }
    Standing::Running
}

// the finish unit: an iteration more
pub fn closed(r: Run, norm: f64) -> Run
    requires { (r.done < 100000) × (r.units < 1000000000) }
    ensures { result ≡ closed_of r norm }
{
    Run {
        standing: standing_after(r, norm),
        done: r.done + 1,
        phase: 0,
        units: r.units + 1,
        ..r
    }
}
