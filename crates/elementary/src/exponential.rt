// exp: x = k·ln 2 + r, a series in r, and 2^k from its bits. k is from -1075 to -1021 below -708, and from -1021 to 1023 else.
ghost use Rattle.std.specs.Prelude.{◌≡◌};
ghost use Rattle.elementary.specs.Exp.{series, power, in_exp, whole_near, at_most, exp_of};
ghost use Rattle.laws.specs.Area.{one64};

// t = 1, then for m from 13 down to 1, t = 1 + (r / m) * t.
fn taylor(r: f64) -> f64
    ensures { result ≡ series r 13 one64 }
{
    let mut t = 1.0;
    for m in (1u32..=13).rev() {
        t = 1.0 + (r / m as f64) * t;
    }
    t
}

// 2 ^ k, built from its bits.
fn power_of(k: i64) -> f64
    requires { in_exp k }
    ensures { result ≡ power k }
{
    f64::from_bits(((k + 1023) as u64) << 52)
}

// The whole number nearest to q, halves away from zero: half of the next number up from the whole part of twice its magnitude.
fn whole_near(q: f64) -> i64
    requires { at_most q 1075 }
    ensures { result ≡ whole_near q }
{
    let w = q + q;
    if q < 0.0 {
        let u = std::num::truncating_f64_to_u64(-w);
        return -(((u + 1) / 2) as i64);
    }
    let v = std::num::truncating_f64_to_u64(w);
    ((v + 1) / 2) as i64
}

// e to the power x, as the scope paper and request 2026-05 fix it for every x.
pub fn exp(x: f64) -> f64
    ensures { result ≡ exp_of x }
{
    if x.is_nan() {
        return f64::NAN;
    }
    if x < -745.0 {
        return 0.0;
    }
    if x > 709.0 {
        return f64::INFINITY;
    }
    let k = whole_near(x / 0.6931471805599453);
    let kf = std::num::nearest_i64_to_f64(k);
    let r = (x - kf * 0.6931471803691238) - kf * 1.9082149292705877e-10;
    let t = taylor(r);
    if x < -708.0 {
        return t * power_of(k + 64) * power_of(-64);
    }
    t * power_of(k)
}
