// The weights of a row by blocks of 32. Each pass does one thing to a whole block, in local arrays, so that the divisions of one value do not wait for those of another. A block with an exponent that the passes do not take is weighed singly.
ghost use Rattle.std.specs.Prelude.{◌≡◌, true, ◌+◌, ◌/◌, ◌<◌, ◌≤◌, length, pos, neg_ℤ};
ghost use Rattle.std.specs.Float.Ieee.{to_unsigned};
ghost use Rattle.laws.specs.Loops.{loop, every};
ghost use Rattle.laws.specs.Area.{at, one64};
ghost use Rattle.elementary.specs.Exp.{reduced, series};
ghost use Rattle.elementary.specs.Limits.{up_to_whole};
ghost use Rattle.affinity_sigma.specs.Sigma.{weight_of, weigh_step, weighed};
ghost use Rattle.affinity_sigma.specs.Blocks.{block_size, exponent_step, in_reach, halvings_of, halving_step, FewHalvings, series_step, halved_by, halved_step};

// The weight of a frame at distance d: nothing at a distance of exactly 0.0.
fn weight(sigma: f64, d: f64) -> f64
    ensures { result ≡ weight_of sigma d }
{
    if d == 0.0 {
        return 0.0;
    }
    elementary::exponential::exp(-d / (2.0 * sigma * sigma))
}

// The weights of c distances from j on, one by one.
fn weigh_singly(distances: &[f64], j: usize, c: usize, sigma: f64, shares: &mut [f64])
    requires { (j + c ≤ length distances.now) × (j + c ≤ length shares.old) }
    ensures { shares.new ≡ loop (weigh_step distances.now sigma) c j shares.old }
{
    for t in 0..c {
        shares[j + t] = weight(sigma, distances[j + t]);
    }
}

// The exponents of c distances from j on.
fn exponents(distances: &[f64], j: usize, c: usize, sigma: f64, xs: &mut [f64; 32])
    requires { (j + c ≤ length distances.now) × (c ≤ block_size) }
    ensures { xs.new ≡ loop (exponent_step distances.now j sigma) c 0 xs.old }
{
    let v = 2.0 * sigma * sigma;
    for t in 0..c {
        xs[t] = -distances[j + t] / v;
    }
}

// Whether the passes take an exponent: from -708 to 0.
fn in_reach(x: f64) -> bool
    ensures { result ≡ in_reach x }
{
    !(x < -708.0) & (x <= 0.0)
}

// Whether the passes take all of a block.
fn all_in_reach(xs: &[f64; 32]) -> bool
    ensures { result ≡ every (λ t. in_reach (at xs.now t)) block_size }
{
    let mut all = true;
    for t in 0..32 {
        all &= in_reach(xs[t]);
    }
    all
}

// Half of the next number up from the whole part of w. Beside 2^52 a value has no fraction: a is w rounded, one more than the whole part where it is above w.
fn half_up(w: f64) -> u32
    requires { up_to_whole w 2150 }
    ensures { result ≡ (to_unsigned 64 w + 1) / 2 }
{
    let a = (w + 4503599627370496.0) - 4503599627370496.0;
    let n = a as i32 as u32;
    if a > w {
        return n / 2;
    }
    (n + 1) / 2
}

// How many logarithms of 2 an exponent is below 0, to the nearest.
fn halvings(x: f64) -> u32
    requires { in_reach x ≡ true }
    ensures { result ≡ halvings_of x }
{
    let q = x / 0.6931471805599453;
    if q < 0.0 {
        return half_up(-(q + q));
    }
    0
}

// The same of a block.
fn all_halvings(xs: &[f64; 32], us: &mut [u32; 32])
    requires { every (λ t. in_reach (at xs.now t)) block_size ≡ true }
    ensures { us.new ≡ loop (halving_step xs.now) block_size 0 us.old }
{
    for t in 0..32 {
        us[t] = halvings(xs[t]);
    }
}

// What is left of x after u logarithms of 2.
fn rest(x: f64, u: u32) -> f64
    requires { u ≤ 1021 }
    ensures { result ≡ reduced x (neg_ℤ (pos u)) }
{
    let k = (0 - u as i32) as f64;
    (x - k * 0.6931471803691238) - k * 1.9082149292705877e-10
}

// The series of exp: t = 1, then for m from 13 down to 1, t = 1 + (r / m) * t.
fn series_at(r: f64) -> f64
    ensures { result ≡ series r 13 one64 }
{
    let t13 = 1.0 + (r / 13.0) * 1.0;
    let t12 = 1.0 + (r / 12.0) * t13;
    let t11 = 1.0 + (r / 11.0) * t12;
    let t10 = 1.0 + (r / 10.0) * t11;
    let t9 = 1.0 + (r / 9.0) * t10;
    let t8 = 1.0 + (r / 8.0) * t9;
    let t7 = 1.0 + (r / 7.0) * t8;
    let t6 = 1.0 + (r / 6.0) * t7;
    let t5 = 1.0 + (r / 5.0) * t6;
    let t4 = 1.0 + (r / 4.0) * t5;
    let t3 = 1.0 + (r / 3.0) * t4;
    let t2 = 1.0 + (r / 2.0) * t3;
    1.0 + (r / 1.0) * t2
}

// The series of a block.
fn all_series(xs: &[f64; 32], us: &[u32; 32], ts: &mut [f64; 32])
    requires { FewHalvings us.now }
    ensures { ts.new ≡ loop (series_step xs.now us.now) block_size 0 ts.old }
{
    for t in 0..32 {
        ts[t] = series_at(rest(xs[t], us[t]));
    }
}

// t halved u times, and nothing at a distance of exactly 0.0.
fn halved_by(distance: f64, t: f64, u: u32) -> f64
    requires { u ≤ 1021 }
    ensures { result ≡ halved_by distance t u }
{
    if distance == 0.0 {
        return 0.0;
    }
    t * f64::from_bits((1023 - u as u64) << 52)
}

// The weights of a block into their places.
fn lay_halved(
    distances: &[f64],
    j: usize,
    c: usize,
    us: &[u32; 32],
    ts: &[f64; 32],
    shares: &mut [f64],
)
    requires { (j + c ≤ length distances.now) × (j + c ≤ length shares.old) × (c ≤ block_size) × FewHalvings us.now }
    ensures { shares.new ≡ loop (halved_step distances.now j us.now ts.now) c 0 shares.old }
{
    for t in 0..c {
        shares[j + t] = halved_by(distances[j + t], ts[t], us[t]);
    }
}

// The weights of c distances from j on.
fn weigh_block(distances: &[f64], j: usize, c: usize, sigma: f64, shares: &mut [f64])
    requires { (j + c ≤ length distances.now) × (j + c ≤ length shares.old) × (c ≤ block_size) }
    ensures { shares.new ≡ loop (weigh_step distances.now sigma) c j shares.old }
{
    let mut xs = [0.0; 32];
    let mut us = [0u32; 32];
    let mut ts = [0.0; 32];
    exponents(distances, j, c, sigma, &mut xs);
    if !all_in_reach(&xs) {
        weigh_singly(distances, j, c, sigma, shares);
        return;
    }
    all_halvings(&xs, &mut us);
    all_series(&xs, &us, &mut ts);
    lay_halved(distances, j, c, &us, &ts, shares);
}

// The weights of n distances.
pub(crate) fn weigh(distances: &[f64], n: usize, sigma: f64, shares: &mut [f64])
    requires { (n ≤ length distances.now) × (n ≤ length shares.old) }
    ensures { shares.new ≡ weighed distances.now n sigma shares.old }
{
    let mut j = 0;
    while n - j > 32 {
        weigh_block(distances, j, 32, sigma, shares);
        j += 32;
    }
    weigh_block(distances, j, n - j, sigma, shares);
}
