// A value as the 64 bits that stand for it, for every value: NaN is written 7FF8000000000000, and every NaN pattern is read as NaN.
ghost use Rattle.std.specs.Prelude.{◌≡◌, from_bits, to_bits};
ghost use Rattle.std.specs.Float.{binary64};

// The bits of x.
pub fn bits_of(x: f64) -> u64
    ensures { result ≡ to_bits binary64 x }
{
    if x.is_nan() {
        return 0x7ff8000000000000;
    }
    f64::to_bits(x)
}

// The value with the bits b.
pub fn value_of(b: u64) -> f64
    ensures { result ≡ from_bits binary64 b }
{
    if b % 0x8000000000000000 > 0x7ff0000000000000 {
        return f64::NAN;
    }
    f64::from_bits(b)
}
