// The finish of an iteration: gains, increments, the move and the centring, with refusal 15 before any change.

#![tactic(auto)]

ghost use Rattle.std.specs.Prelude.{◌≡◌, ◌+◌, ◌*◌, ◌<◌, ◌≤◌, length};
ghost use Rattle.laws.specs.Domain.{most_frames};
ghost use Rattle.refusal.specs.Refusal.{refusal_number, numbered};
ghost use Rattle.step_passes.specs.Passes.{paced};
ghost use Rattle.step.specs.Step.{step_outcome, finish_of};

use refusal::Refusal;
pub use step_gains::Element;
pub use step_passes::{Areas, Pace};
use step_passes::{take_means, write_moves};

// The step, centring included; 15 where a new value would be NaN or too large, and then nothing has changed.
pub fn finish(
    pace: Pace,
    n: usize,
    c: usize,
    forces: &[f64],
    positions: &mut [f64],
    increments: &mut [f64],
    gains: &mut [f64],
) -> Result<(), Refusal>
    requires { (0 < c)
        × (c ≤ 8)
        × (n ≤ most_frames)
        × (n * (2 * c + 1) ≤ length forces.now)
        × (n * c ≤ length positions.old)
        × (n * c ≤ length increments.old)
        × (n * c ≤ length gains.old) }
    ensures { step_outcome (numbered refusal_number result) positions.new increments.new gains.new
        ≡ finish_of
        (paced pace c
        forces.now
        positions.old
        increments.old
        gains.old)
        n c }
{
    let areas = Areas {
        pace,
        n,
        c,
        forces,
        positions: &*positions,
        increments: &*increments,
        gains: &*gains,
    };
    let mut sums = [0.0; 8];
    if !areas.sum_moves(&mut sums) {
        return Err(Refusal::Wild);
    }
    take_means(&mut sums, c, n as f64);
    if !areas.calm_centred(&sums) {
        return Err(Refusal::Wild);
    }
    write_moves(pace, n, c, forces, positions, increments, gains, &sums);
    Ok(())
}
