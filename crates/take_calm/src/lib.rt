// The means of the positions that would be left, and whether 15 bars one of these once it is centred. Nothing is changed but the array for the means.

#![tactic(auto)]

ghost use Rattle.std.specs.Prelude.{◌≡◌, ◌+◌, ◌*◌, ◌<◌, ◌≤◌, length};
ghost use Rattle.std.specs.Float.{binary64};
ghost use Rattle.std.specs.Float.Ieee.{sub};
ghost use Rattle.laws.specs.Area.{at};
ghost use Rattle.laws.specs.Domain.{most_frames};
ghost use Rattle.laws.specs.Loops.{every, loop};
ghost use Rattle.elementary.specs.Limits.{calm};
ghost use Rattle.take_gone.specs.Gone.{survivors, Climbs};
ghost use Rattle.take_rows.specs.Rows.{average_left, Means};
ghost use Rattle.take_calm.specs.CalmLeft.{calm_left, mean_at};

use elementary::limits::is_calm;
use take_gone::is_next;

// Component d's mean over the m frames that are not in `gone`: the sum starts at +0.0 and runs by rising number.
fn mean_left(positions: &[f64], gone: &[u32], n: usize, c: usize, d: usize, m: usize) -> f64
    requires { (n ≤ most_frames) × (d < c) × (n * c ≤ length positions.now) × Climbs gone.now × (m ≡ length (survivors gone.now n)) }
    ensures { result ≡ average_left (survivors gone.now n) c positions.now d }
{
    let mut s = 0.0;
    let mut g = 0;
    for j in 0..n {
        if is_next(gone, g, j as u32) {
            g += 1;
            continue;
        }
        s = s + positions[j * c + d];
    }
    s / m as f64
}

// The means of the c components.
pub fn means_left(
    positions: &[f64],
    gone: &[u32],
    n: usize,
    c: usize,
    m: usize,
    means: &mut [f64; 8],
)
    requires { (n ≤ most_frames) × (c ≤ 8) × (n * c ≤ length positions.now) × Climbs gone.now × (m ≡ length (survivors gone.now n)) }
    ensures { means.new ≡ loop (mean_at (survivors gone.now n) c positions.now) c 0 means.old }
{
    for d in 0..c {
        means[d] = mean_left(positions, gone, n, c, d, m);
    }
}

// Whether 15 lets the c values from place a on pass, each less its mean.
fn is_calm_row(positions: &[f64], a: usize, c: usize, means: &[f64; 8]) -> bool
    requires { (c ≤ 8) × (a + c ≤ length positions.now) }
    ensures { result ≡ every (λ d. calm (sub binary64 (at positions.now (a + d)) (at means.now d))) c }
{
    for d in 0..c {
        if !is_calm(positions[a + d] - means[d]) {
            return false;
        }
    }
    true
}

// Whether it lets all centred positions pass that would be left, the means given.
fn is_calm_by(positions: &[f64], gone: &[u32], n: usize, c: usize, means: &[f64; 8]) -> bool
    requires { (n ≤ most_frames) × (c ≤ 8) × (n * c ≤ length positions.now) × Climbs gone.now × Means (survivors gone.now n) c positions.now means.now }
    ensures { result ≡ calm_left (survivors gone.now n) c positions.now }
{
    let mut g = 0;
    for j in 0..n {
        if is_next(gone, g, j as u32) {
            g += 1;
            continue;
        }
        if !is_calm_row(positions, j * c, c, means) {
            return false;
        }
    }
    true
}

// Whether 15 lets all centred positions pass of the m frames that would be left.
pub fn is_calm_left(positions: &[f64], gone: &[u32], n: usize, c: usize, m: usize) -> bool
    requires { (n ≤ most_frames) × (c ≤ 8) × (n * c ≤ length positions.now) × Climbs gone.now × (m ≡ length (survivors gone.now n)) }
    ensures { result ≡ calm_left (survivors gone.now n) c positions.now }
{
    let mut means = [0.0; 8];
    means_left(positions, gone, n, c, m, &mut means);
    is_calm_by(positions, gone, n, c, &means)
}
