// The three passes of a step over the areas: the sums of the moved positions, the test of the centred ones, and the writing.

#![tactic(auto)]

ghost use Rattle.std.specs.Prelude.{◌≡◌, ◌&&◌, ◌+◌, ◌*◌, ◌<◌, ◌≤◌, length};
ghost use Rattle.laws.specs.Loops.{loop};
ghost use Rattle.elementary.specs.Limits.{calm};
ghost use Rattle.step_passes.specs.Passes.{AreasFit, areas_before, element_at, paced, sum_step, mean_step, calm_moves, calm_centred, position_step, increment_step, gain_step};

use step_gains::{Element, new_element};

// What a step goes by.
#[derive(Clone, Copy)]
pub struct Pace {
    // whether the forces area holds the gradients themselves
    pub exact: bool,
    // the normaliser of a Barnes-Hut run
    pub z: f64,
    pub momentum: f64,
    pub rate: f64,
}

// The areas before a step, c values for each of n frames, and what it goes by.
#[derive(Clone, Copy)]
pub struct Areas<'a> {
    pub pace: Pace,
    pub n: usize,
    pub c: usize,
    pub forces: &'a [f64],
    pub positions: &'a [f64],
    pub increments: &'a [f64],
    pub gains: &'a [f64],
}

// Whether all was calm so far, and this element's gain and increment are.
fn still_calm(sofar: bool, x: Element) -> bool
    ensures { result ≡ sofar && (calm x.gain && calm x.increment) }
{
    sofar && elementary::is_calm(x.gain) && elementary::is_calm(x.increment)
}

impl<'a> Areas<'a> {
    // Element e's new values before centring.
    pub fn element_at(self, e: usize) -> Element
        requires { (e < self.n * self.c) × AreasFit self.n self.c self.forces.now self.positions.now self.increments.now self.gains.now }
        ensures { result ≡ element_at (areas_before self.entry) e }
    {
        let g = gradient::element::gradient_at(
            self.pace.exact,
            self.forces,
            self.pace.z,
            self.n,
            self.c,
            e,
        );
        new_element(
            self.pace.momentum,
            self.pace.rate,
            g,
            self.positions[e],
            self.increments[e],
            self.gains[e],
        )
    }

    // Adds each moved position to its component's sum; false where a gain or an increment is not calm.
    pub fn sum_moves(self, sums: &mut [f64; 8]) -> bool
        requires { AreasFit self.n self.c self.forces.now self.positions.now self.increments.now self.gains.now }
        ensures { (result ≡ calm_moves (areas_before self.entry) (self.entry.n * self.entry.c))
            × (sums.new ≡ loop (sum_step (areas_before self.entry) self.entry.c) (self.entry.n * self.entry.c) 0 sums.old) }
    {
        let mut calm = true;
        for e in 0..self.n * self.c {
            let x = self.element_at(e);
            calm = still_calm(calm, x);
            let d = e % self.c;
            sums[d] = sums[d] + x.moved;
        }
        calm
    }

    // Whether each centred position is calm.
    pub fn calm_centred(self, means: &[f64; 8]) -> bool
        requires { AreasFit self.n self.c self.forces.now self.positions.now self.increments.now self.gains.now }
        ensures { result ≡ calm_centred means.now (areas_before self.entry) self.entry.c (self.entry.n * self.entry.c) }
    {
        for e in 0..self.n * self.c {
            let x = self.element_at(e);
            let d = e % self.c;
            if !elementary::is_calm(x.moved - means[d]) {
                return false;
            }
        }
        true
    }
}

// Divides the first c sums by the count.
pub fn take_means(sums: &mut [f64; 8], c: usize, count: f64)
    requires { c ≤ 8 }
    ensures { sums.new ≡ loop (mean_step count) c 0 sums.old }
{
    for d in 0..c {
        sums[d] = sums[d] / count;
    }
}

// Writes each element's centred position, increment and gain.
pub fn write_moves(
    pace: Pace,
    n: usize,
    c: usize,
    forces: &[f64],
    positions: &mut [f64],
    increments: &mut [f64],
    gains: &mut [f64],
    means: &[f64; 8],
)
    requires { AreasFit n c forces.now positions.old increments.old gains.old }
    ensures { (positions.new
        ≡ loop
        (position_step
        means.now
        (paced pace c
        forces.now
        positions.old
        increments.old
        gains.old)
        c)
        (n * c) 0
        positions.old)
        × (increments.new ≡ loop (increment_step (paced pace c forces.now positions.old increments.old gains.old)) (n * c) 0 increments.old)
        × (gains.new ≡ loop (gain_step (paced pace c forces.now positions.old increments.old gains.old)) (n * c) 0 gains.old) }
{
    for e in 0..n * c {
        let areas = Areas {
            pace,
            n,
            c,
            forces,
            positions: &*positions,
            increments: &*increments,
            gains: &*gains,
        };
        let x = areas.element_at(e);
        let d = e % c;
        positions[e] = x.moved - means[d];
        increments[e] = x.increment;
        gains[e] = x.gain;
    }
}
