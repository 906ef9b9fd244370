// The entropy of a row by blocks of 32, in passes as the weights are. A block with a share that is above 1, or no number, is added singly.
ghost use Rattle.std.specs.Prelude.{◌≡◌, true, ◌+◌, ◌≤◌, length};
ghost use Rattle.std.specs.Float.Ieee.{lt, le};
ghost use Rattle.laws.specs.Loops.{loop, every};
ghost use Rattle.laws.specs.Area.{at, one64};
ghost use Rattle.affinity_sigma.specs.Sigma.{tiny, term_of, entropy_step, entropy_of};
ghost use Rattle.affinity_sigma.specs.Blocks.{block_size, stand_in_of, field_of, unit_of, digits_of, power_of, digit_step, power_step, log_by, log_step, term_by, term_step};

// What a share adds to the entropy.
fn term(share: f64) -> f64
    ensures { result ≡ term_of share }
{
    if share > 1e-10 {
        return -share * elementary::logarithm::ln(share);
    }
    0.0
}

// What c shares from j on add, one by one.
fn add_singly(shares: &[f64], j: usize, c: usize, from: f64) -> f64
    requires { j + c ≤ length shares.now }
    ensures { result ≡ loop (entropy_step shares.now) c j from }
{
    let mut h = from;
    for t in 0..c {
        h = h + term(shares[j + t]);
    }
    h
}

// Whether c shares from j on are at most 1.
fn all_shares(shares: &[f64], j: usize, c: usize) -> bool
    requires { j + c ≤ length shares.now }
    ensures { result ≡ every (λ t. le (at shares.now (j + t)) one64) c }
{
    let mut all = true;
    for t in 0..c {
        all &= shares[j + t] <= 1.0;
    }
    all
}

// A share that enters the entropy, and a half for one that does not.
fn held(v: f64) -> f64
    requires { le v one64 ≡ true }
    ensures { (result ≡ stand_in_of v) × (lt tiny result ≡ true) × (le result one64 ≡ true) }
{
    if v > 1e-10 {
        return v;
    }
    0.5
}

// The field of v's exponent.
fn field_of(v: f64) -> u32
    requires { (lt tiny v ≡ true) × (le v one64 ≡ true) }
    ensures { (result ≡ field_of v) × (result ≤ 2046) }
{
    (f64::to_bits(v) >> 52) as u32
}

// The digits of v, as a value from 1 to 2.
fn unit_of(v: f64) -> f64
    requires { (lt tiny v ≡ true) × (le v one64 ≡ true) }
    ensures { result ≡ unit_of v }
{
    let b = f64::to_bits(v);
    let x = b >> 52;
    f64::from_bits((1023 << 52) + (b - (x << 52)))
}

// The digits of v, halved where they are above the root of 2.
fn digits_of(v: f64) -> f64
    requires { (lt tiny v ≡ true) × (le v one64 ≡ true) }
    ensures { result ≡ digits_of v }
{
    let m = unit_of(v);
    if m > 1.4142135623730951 {
        return m / 2.0;
    }
    m
}

// The power of 2 that goes with them.
fn power_of(v: f64) -> f64
    requires { (lt tiny v ≡ true) × (le v one64 ≡ true) }
    ensures { result ≡ power_of v }
{
    let x = field_of(v);
    let m = unit_of(v);
    if m > 1.4142135623730951 {
        return ((x + 1) as i32 - 1023) as f64;
    }
    (x as i32 - 1023) as f64
}

// The digits and powers of c shares from j on.
fn all_parts(shares: &[f64], j: usize, c: usize, ms: &mut [f64; 32], ks: &mut [f64; 32])
    requires { (j + c ≤ length shares.now) × (c ≤ block_size) × (every (λ t. le (at shares.now (j + t)) one64) c ≡ true) }
    ensures ms_after { ms.new ≡ loop (digit_step shares.now j) c 0 ms.old }
    ensures ks_after { ks.new ≡ loop (power_step shares.now j) c 0 ks.old }
{
    for t in 0..c {
        let v = held(shares[j + t]);
        ms[t] = digits_of(v);
        ks[t] = power_of(v);
    }
}

// The logarithm of m * 2 ^ k.
fn log_by(m: f64, k: f64) -> f64
    ensures { result ≡ log_by m k }
{
    let s = (m - 1.0) / (m + 1.0);
    let z = s * s;
    let t19 = 1.0 / 19.0 + z * (1.0 / 21.0);
    let t17 = 1.0 / 17.0 + z * t19;
    let t15 = 1.0 / 15.0 + z * t17;
    let t13 = 1.0 / 13.0 + z * t15;
    let t11 = 1.0 / 11.0 + z * t13;
    let t9 = 1.0 / 9.0 + z * t11;
    let t7 = 1.0 / 7.0 + z * t9;
    let t5 = 1.0 / 5.0 + z * t7;
    let t3 = 1.0 / 3.0 + z * t5;
    let t1 = 1.0 / 1.0 + z * t3;
    k * 0.6931471803691238 + ((2.0 * s) * t1 + k * 1.9082149292705877e-10)
}

// The logarithms of a block.
fn all_logs(ms: &[f64; 32], ks: &[f64; 32], ls: &mut [f64; 32])
    ensures { ls.new ≡ loop (log_step ms.now ks.now) block_size 0 ls.old }
{
    for t in 0..32 {
        ls[t] = log_by(ms[t], ks[t]);
    }
}

// What a share adds to the entropy, its logarithm given.
fn term_by(s: f64, l: f64) -> f64
    ensures { result ≡ term_by s l }
{
    if s > 1e-10 {
        return -s * l;
    }
    0.0
}

// What c shares from j on add, their logarithms given.
fn add_terms(shares: &[f64], j: usize, c: usize, ls: &[f64; 32], from: f64) -> f64
    requires { (j + c ≤ length shares.now) × (c ≤ block_size) }
    ensures { result ≡ loop (term_step shares.now j ls.now) c 0 from }
{
    let mut h = from;
    for t in 0..c {
        h = h + term_by(shares[j + t], ls[t]);
    }
    h
}

// What c shares from j on add.
fn add_block(shares: &[f64], j: usize, c: usize, from: f64) -> f64
    requires { (j + c ≤ length shares.now) × (c ≤ block_size) }
    ensures { result ≡ loop (entropy_step shares.now) c j from }
{
    if !all_shares(shares, j, c) {
        return add_singly(shares, j, c, from);
    }
    let mut ms = [0.0; 32];
    let mut ks = [0.0; 32];
    let mut ls = [0.0; 32];
    all_parts(shares, j, c, &mut ms, &mut ks);
    all_logs(&ms, &ks, &mut ls);
    add_terms(shares, j, c, &ls, from)
}

// The entropy of the first n shares, from +0.0 on.
pub(crate) fn entropy(shares: &[f64], n: usize) -> f64
    requires { n ≤ length shares.now }
    ensures { result ≡ entropy_of shares.now n }
{
    let mut h = 0.0;
    let mut j = 0;
    while n - j > 32 {
        h = add_block(shares, j, 32, h);
        j += 32;
    }
    add_block(shares, j, n - j, h)
}
