// The finish of an iteration: Z, gradient, step and stop test; and why a unit is not done.

#![tactic(auto)]

ghost use Rattle.std.specs.Prelude.{◌≡◌, ◌+◌, ◌*◌, ◌≤◌, length};
ghost use Rattle.run_finish.specs.Finish.{pace_of, run_left, why_of, finish_turn, finish_unit};
ghost use Rattle.run_finish.specs.FinishRoom.{FinishRoom};

use run_plan::momentum;
use run_record::Run;
use run_record::faults::is_tree;
use run_record::progress::closed;
use step::Pace;

// Why a unit is not done; the record stays as it was.
#[derive(Clone, Copy, Debug, PartialEq, Eq)]
pub enum Halt {
    // 14: the arena has not the nodes that the point needs
    Full,
    // 15: a value would be NaN or too large
    Wild,
    // the run has ended
    Over,
}

// What the step goes by.
fn pace(r: Run, forces: &[f64]) -> Pace
    requires { (r.settings.c ≤ 8) × (r.settings.n * (2 * r.settings.c + 1) ≤ length forces.now) }
    ensures { result ≡ pace_of r forces.now }
{
    let s = r.settings;
    let m = s.method;
    if is_tree(m) {
        let z = gradient::element::normaliser(forces, s.n, s.c);
        return Pace {
            exact: false,
            z: z,
            momentum: momentum(r),
            rate: s.rate,
        };
    }
    Pace {
        exact: true,
        z: 0.0,
        momentum: momentum(r),
        rate: s.rate,
    }
}

// The finish: the step, centring, and the stop test, or refusal 15.
pub fn finish_unit(
    r: Run,
    positions: &mut [f64],
    increments: &mut [f64],
    gains: &mut [f64],
    forces: &[f64],
) -> Result<Run, Halt>
    requires { FinishRoom r (length positions.old) (length increments.old) (length gains.old) (length forces.now) }
    ensures { finish_turn (run_left r result) positions.new increments.new gains.new (why_of result)
        ≡ finish_unit r positions.old increments.old gains.old forces.now }
{
    let s = r.settings;
    let p = pace(r, forces);
    let a = step::finish(p, s.n, s.c, forces, positions, increments, gains);
    let Ok(()) = a else {
        return Err(Halt::Wild);
    };
    let norm = gradient::element::norm(p.exact, forces, p.z, s.n, s.c, s.n * s.c);
    Ok(closed(r, norm))
}
