// A double in single precision and back, worked out from the bits: to nearest, ties to even, subnormals and signed zeros included.

#![tactic(auto)]

ghost use Rattle.std.specs.Prelude.{◌≡◌, ◌+◌, ◌*◌, ◌^◌, ◌<◌, ◌≤◌};
ghost use Rattle.std.specs.Float.Ieee.Nearest.{closest};
ghost use Rattle.monitor_narrow.specs.Narrow.{narrow_of, widen_of, finite_single};
ghost use Rattle.monitor_narrow.specs.Steps.{magnitude_of};

// The weight of a double's sign, and of its leading digit.
const TOP64: u64 = 0x8000000000000000;

const LEAD64: u64 = 0x10000000000000;

// The same of a single-precision value, and its least pattern that is not finite.
const TOP32: u64 = 0x80000000;

const LEAD32: u64 = 0x800000;

const INFINITE32: u64 = 0x7f800000;

// The whole number nearest to m / 2^d, at a tie the even one.
fn nearest_part(m: u64, d: u64) -> u64
    requires { (m < 2 ^ 53) × (d < 54) }
    ensures { (result ≡ closest m (2 ^ d)) × (result ≤ 2 ^ 53) }
{
    let unit = 1 << d;
    let q = m / unit;
    let twice = 2 * (m % unit);
    if twice < unit {
        return q;
    }
    if twice > unit {
        return q + 1;
    }
    q + q % 2
}

// The pattern, without its sign, for the digits m where the exponent's bits of a double are x; from INFINITE32 on it is past the largest.
fn magnitude(x: u64, m: u64) -> u64
    requires { (873 ≤ x) × (x < 2048) × (m < 2 ^ 53) }
    ensures { result ≡ magnitude_of x m }
{
    if x < 897 {
        return nearest_part(m, 926 - x);
    }
    (x - 897) * LEAD32 + nearest_part(m, 29)
}

// The bits of the double with these bits, narrowed; none where it is not finite, or rounds past the largest.
pub fn narrow(bits: u64) -> Option<u32>
    ensures { result ≡ narrow_of bits }
{
    let sign = bits / TOP64 * TOP32;
    let x = bits % TOP64 / LEAD64;
    if x < 873 {
        return Some(sign as u32);
    }
    let w = magnitude(x, LEAD64 + bits % LEAD64);
    if w < INFINITE32 {
        return Some((sign + w) as u32);
    }
    None
}

// Whether these are the bits of a finite single-precision value.
pub fn is_finite(bits: u32) -> bool
    ensures { result ≡ finite_single bits }
{
    bits as u64 % TOP32 < INFINITE32
}

// A value with the exponent's bits 0 and the sign +: t times the smallest. Its leading zeros place its leading digit.
fn raised(t: u64) -> u64
    requires { t < 2 ^ 23 }
    ensures { (result ≡ widen_of t) × (result < 2 ^ 63) }
{
    if t == 0 {
        return 0;
    }
    let z = t.leading_zeros() - 11;
    (925 - z) as u64 * LEAD64 + (t << z)
}

// The single-precision value with these bits, as a double's bits. Every NaN is written 7FF8000000000000.
pub fn widen(bits: u32) -> u64
    ensures { result ≡ widen_of bits }
{
    let b = bits as u64;
    let sign = b / TOP32 * TOP64;
    let x = b % TOP32 / LEAD32;
    let t = b % LEAD32;
    if x == 255 {
        if t == 0 {
            return sign + 2047 * LEAD64;
        }
        return 0x7ff8000000000000;
    }
    if x == 0 {
        return sign + raised(t);
    }
    sign + (896 + x) * LEAD64 + t * 0x20000000
}
