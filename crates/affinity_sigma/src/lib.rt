// The sigma search: the shares of a row of distances, with the width found by halving that gives them the perplexity asked for.

#![tactic(auto)]

ghost use Rattle.std.specs.Prelude.{◌≡◌, ◌≤◌, length};
ghost use Rattle.laws.specs.Domain.{most_frames};
ghost use Rattle.laws.specs.Loops.{loop};
ghost use Rattle.affinity_sigma.specs.Sigma.{weight_sum, divide_step, shared_by, weighed, row_of, excess, narrowed, sigma_shares, last_sum};

mod entropies;
mod weights;

// The most rounds of a search.
const MOST_ROUNDS: u32 = 50;

// What the search knows of sigma: it lies above low and below high, and is tried next.
#[derive(Clone, Copy)]
struct Bounds {
    low: f64,
    high: f64,
    sigma: f64,
}

// The sum of the first n, from +0.0 on.
fn total(shares: &[f64], n: usize) -> f64
    requires { n ≤ length shares.now }
    ensures { result ≡ weight_sum shares.now n }
{
    let mut sum = 0.0;
    for j in 0..n {
        sum = sum + shares[j];
    }
    sum
}

// The first n, each divided by a sum.
pub fn divide(shares: &mut [f64], n: usize, sum: f64)
    requires { n ≤ length shares.old }
    ensures { shares.new ≡ loop (divide_step sum) n 0 shares.old }
{
    for j in 0..n {
        shares[j] = shares[j] / sum;
    }
}

// Weights made shares: where their sum is too small, each frame gets as much as any other.
fn share_out(shares: &mut [f64], n: usize, sum: f64)
    requires { (n ≤ length shares.old) × (n ≤ most_frames) }
    ensures { shares.new ≡ shared_by sum n shares.old }
{
    if sum < 1e-8 {
        areas::fill(shares, n, 1.0 / n as f64);
        return;
    }
    divide(shares, n, sum);
}

// The row of one round: the shares that a sigma gives. The answer is the sum of the weights.
fn row_for(distances: &[f64], n: usize, sigma: f64, shares: &mut [f64]) -> f64
    requires { (n ≤ length distances.now) × (n ≤ length shares.old) × (n ≤ most_frames) }
    ensures shares_after { shares.new ≡ row_of distances.now n sigma shares.old }
    ensures value { result ≡ weight_sum (weighed distances.now n sigma shares.old) n }
{
    weights::weigh(distances, n, sigma, shares);
    let sum = total(shares, n);
    share_out(shares, n, sum);
    sum
}

// How far the perplexity of the shares is above the one asked for.
fn excess_of(shares: &[f64], n: usize, perplexity: f64) -> f64
    requires { n ≤ length shares.now }
    ensures { result ≡ excess shares.now n perplexity }
{
    elementary::exponential::exp(entropies::entropy(shares, n)) - perplexity
}

// The bounds after a round that was off by diff.
fn next(b: Bounds, diff: f64) -> Bounds
    ensures { result ≡ narrowed b diff }
{
    if diff > 0.0 {
        return Bounds {
            low: b.low,
            high: b.sigma,
            sigma: (b.sigma + b.low) / 2.0,
        };
    }
    if b.high == 1.0 / 0.0 {
        return Bounds {
            low: b.sigma,
            high: b.high,
            sigma: b.sigma * 2.0,
        };
    }
    Bounds {
        low: b.sigma,
        high: b.high,
        sigma: (b.sigma + b.high) / 2.0,
    }
}

// The shares as `binary_search_sigma` has them, and the sum of the weights of the last round: below 1e-8 the row was filled.
pub fn search_sigma(distances: &[f64], n: usize, perplexity: f64, shares: &mut [f64]) -> f64
    requires { (n ≤ length distances.now) × (n ≤ length shares.old) × (n ≤ most_frames) }
    ensures shares_after { shares.new ≡ sigma_shares distances.now n perplexity shares.old }
    ensures value { result ≡ last_sum distances.now n perplexity shares.old }
{
    let mut b = Bounds {
        low: 1e-20,
        high: 1.0 / 0.0,
        sigma: 1.0,
    };
    let mut sum = 0.0;
    for round in 0..MOST_ROUNDS {
        sum = row_for(distances, n, b.sigma, shares);
        let diff = excess_of(shares, n, perplexity);
        if elementary::limits::absolute(diff) < 1e-5 {
            break;
        }
        b = next(b, diff);
    }
    sum
}

// The shares of n distances, of the last of at most 50 rounds: the search is left once the perplexity is within 1e-5.
pub fn binary_search_sigma(distances: &[f64], n: usize, perplexity: f64, shares: &mut [f64])
    requires { (n ≤ length distances.now) × (n ≤ length shares.old) × (n ≤ most_frames) }
    ensures { shares.new ≡ sigma_shares distances.now n perplexity shares.old }
{
    search_sigma(distances, n, perplexity, shares);
}
