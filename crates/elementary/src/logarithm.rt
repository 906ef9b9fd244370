// ln: v = m·2^k with m in [1, 2), a series in (m - 1) / (m + 1), and k logarithms of 2. k may be negative, zero or positive.
ghost use Rattle.std.specs.Prelude.{◌≡◌, ◌+◌, ◌*◌, ◌^◌, ◌<◌, ◌≤◌, from_bits};
ghost use Rattle.std.specs.Float.{binary64};
ghost use Rattle.std.specs.Float.Ieee.{minus};
ghost use Rattle.elementary.specs.Ln.{odd_series, ln_at, ln_in, ln_of};

// t = 1 / 21, then for d = 19, 17 .. 1, t = 1 / d + z * t.
fn odd_series(z: f64) -> f64
    ensures { result ≡ odd_series z }
{
    let mut t = 1.0 / 21.0;
    for i in 0u32..10 {
        t = 1.0 / (19 - 2 * i) as f64 + z * t;
    }
    t
}

// The logarithm of m * 2 ^ k.
fn ln_at(m: f64, k: i64) -> f64
    ensures { result ≡ ln_at m k }
{
    let s = (m - 1.0) / (m + 1.0);
    let t = odd_series(s * s);
    let kf = std::num::nearest_i64_to_f64(k);
    kf * 0.6931471803691238 + ((2.0 * s) * t + kf * 1.9082149292705877e-10)
}

// The logarithm of m * 2 ^ (x - 1074), where m in [1, 2) has the digits t below its leading one.
#[inline(always)]
fn ln_digits(t: u64, x: u64) -> f64
    requires { (t < 2 ^ 52) × (x < 4096) }
    ensures { result ≡ ln_in (from_bits binary64 (1023 * 2 ^ 52 + t)) (minus x 1074) }
{
    let m = f64::from_bits((1023 << 52) + t);
    let k = x as i64 - 1074;
    if m > 1.4142135623730951 {
        return ln_at(m / 2.0, k + 1);
    }
    ln_at(m, k)
}

// The logarithm of the subnormal with the bits b: its leading zeros place its leading digit.
fn ln_small(b: u64) -> f64
    requires { (0 < b) × (b < 2 ^ 52) }
    ensures { result ≡ ln_of (from_bits binary64 b) }
{
    let z = u64::leading_zeros(b) - 11;
    ln_digits((b << z) - (1 << 52), (52 - z) as u64)
}

// The logarithm of the positive number with the bits b.
#[inline(always)]
fn ln_bits(b: u64) -> f64
    requires { (0 < b) × (b < 2047 * 2 ^ 52) }
    ensures { result ≡ ln_of (from_bits binary64 b) }
{
    let x = b >> 52;
    if x == 0 {
        return ln_small(b);
    }
    ln_digits(b - (x << 52), x + 51)
}

// The natural logarithm of v, as the scope paper fixes it for every v. With `ln_bits` and `ln_digits` it becomes part of each caller, so that
// a loop over logarithms divides for the series' fractions once.
#[inline(always)]
pub fn ln(v: f64) -> f64
    ensures { result ≡ ln_of v }
{
    if v.is_nan() || v <= 0.0 {
        return f64::NAN;
    }
    if v == f64::INFINITY {
        return v;
    }
    ln_bits(f64::to_bits(v))
}
