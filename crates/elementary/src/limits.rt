// The bounds on values, and what stands for the Rust's `abs`, `max` with a constant and `ceil`.
ghost use Rattle.std.specs.Prelude.{◌≡◌, ◌*◌, ◌≤◌, true, pos, from_bits};
ghost use Rattle.std.specs.Float.Ieee.{lt, of_int};
ghost use Rattle.std.specs.Float.{binary64};
ghost use Rattle.laws.specs.Domain.{most_frames};
ghost use Rattle.elementary.specs.Limits.{abs_of, unless_above, in_domain, calm, ceil_of, neighbours_of, up_to_whole};

// x without its sign.
pub fn absolute(x: f64) -> f64
    ensures { result ≡ abs_of x }
{
    x.abs()
}

// `max` with a constant: the constant unless x is above it.
pub fn unless_above(constant: f64, x: f64) -> f64
    ensures { result ≡ unless_above constant x }
{
    if x > constant {
        return x;
    }
    constant
}

// Finite, and at most 2^20 in magnitude.
pub fn in_domain(x: f64) -> bool
    ensures { result ≡ in_domain x }
{
    -1048576.0 <= x && x <= 1048576.0
}

// No NaN, and at most 2^100 in magnitude.
pub fn is_calm(x: f64) -> bool
    ensures { result ≡ calm x }
{
    -1267650600228229401496703205376.0 <= x && x <= 1267650600228229401496703205376.0
}

// The smallest whole number that is not below q.
fn ceil_of(q: f64) -> u64
    requires { up_to_whole q (3 * most_frames) }
    ensures { result ≡ ceil_of q }
{
    let w = std::num::truncating_f64_to_u64(q);
    if std::num::nearest_u64_to_f64(w) < q {
        return w + 1;
    }
    w
}

// How many nearest neighbours a frame has: min(ceil(3 * perplexity) + 1, n - 1), at least 1.
pub fn neighbours(perplexity: f64, n: u64) -> u64
    requires { (lt (from_bits binary64 0) perplexity ≡ true) × (lt perplexity (of_int binary64 (pos n)) ≡ true) × (n ≤ most_frames) }
    ensures { result ≡ neighbours_of perplexity n }
{
    let k = ceil_of(3.0 * perplexity) + 1;
    k.min(n.saturating_sub(1)).max(1)
}
