// The tests on settings, by the refusals 1 to 10, and the sizes that go with good ones.
ghost use Rattle.std.specs.Prelude.{◌≡◌, ◌*◌, ◌≤◌};
ghost use Rattle.std.specs.Float.Ieee.{lt};
ghost use Rattle.laws.specs.Domain.{most_frames};
ghost use Rattle.refusal.specs.Refusal.{refusal_number, number_told};
ghost use Rattle.run_record.specs.Record.{positive, angle_fine, above_zero, is_tree, angle_fault, early_fault, late_fault, settings_fault, GoodSettings, k_of, sizes_of};

use crate::{Method, Settings, Sizes};
use laws::{MOST_AXES, MOST_COMPONENTS, MOST_FEATURES, MOST_FRAMES, MOST_ITERATIONS};
use refusal::Refusal;

// finite and above 0
pub fn is_positive(x: f64) -> bool
    ensures { result ≡ positive x }
{
    0.0 < x && x <= 1.7976931348623157e308
}

pub fn is_inside(a: f64) -> bool
    ensures { result ≡ angle_fine a }
{
    0.0 <= a && a < 1.0
}

pub fn is_below(x: f64, y: f64) -> bool
    ensures { result ≡ lt x y }
{
    x < y
}

pub fn is_above(x: f64) -> bool
    ensures { result ≡ above_zero x }
{
    0.0 < x
}

pub fn is_tree(m: Method) -> bool
    ensures { result ≡ is_tree m }
{
    matches!(m, Method::BarnesHut)
}

// refusals 1 to 6, and 7 for n or f
pub fn early_fault(s: Settings) -> Result<(), Refusal>
    ensures { number_told refusal_number result ≡ early_fault s }
{
    if s.c == 0 || MOST_COMPONENTS < s.c {
        return Err(Refusal::Components);
    }
    if !is_positive(s.perplexity) {
        return Err(Refusal::Perplexity);
    }
    if !is_positive(s.rate) {
        return Err(Refusal::Rate);
    }
    if s.iterations == 0 || MOST_ITERATIONS < s.iterations {
        return Err(Refusal::Iterations);
    }
    tree_fault(s.method, s.angle, s.c)?;
    if s.n == 0 || MOST_FRAMES < s.n || s.f == 0 || MOST_FEATURES < s.f {
        return Err(Refusal::Size);
    }
    Ok(())
}

// refusals 5 and 6
fn tree_fault(m: Method, a: f64, c: usize) -> Result<(), Refusal>
    ensures { number_told refusal_number result ≡ angle_fault m a c }
{
    if !is_tree(m) {
        return Ok(());
    }
    if !is_inside(a) {
        return Err(Refusal::Angle);
    }
    if MOST_AXES < c {
        return Err(Refusal::Axes);
    }
    Ok(())
}

// refusals 9 and 10
pub fn late_fault(s: Settings) -> Result<(), Refusal>
    requires { s.n ≤ most_frames }
    ensures { number_told refusal_number result ≡ late_fault s }
{
    if s.n == 1 {
        return Err(Refusal::Single);
    }
    if is_below(s.perplexity, s.n as f64) {
        return Ok(());
    }
    Err(Refusal::Crowd)
}

// what 1 to 10 would say of the settings alone
pub fn settings_fault(s: Settings) -> Result<(), Refusal>
    ensures { number_told refusal_number result ≡ settings_fault s }
{
    early_fault(s)?;
    late_fault(s)
}

pub fn times(a: usize, b: usize) -> usize
    requires { (a ≤ 10000) × (b ≤ 10000) }
    ensures { result ≡ a * b }
{
    a * b
}

// How many neighbours a frame has.
pub fn neighbours(s: Settings) -> usize
    requires { GoodSettings s }
    ensures { result ≡ k_of s }
{
    elementary::neighbours(s.perplexity, s.n as u64) as usize
}

// the elements that the areas must have
pub fn sizes_of(s: Settings) -> Sizes
    requires { GoodSettings s }
    ensures { result ≡ sizes_of s }
{
    let k = neighbours(s);
    let n = s.n;
    let c = s.c;
    let cells = times(n, c);
    let forces = times(n, 2 * c + 1);
    let links = times(2 * n, k);
    let square = times(n, n);
    Sizes {
        cells,
        forces,
        links,
        square,
    }
}
