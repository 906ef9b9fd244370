// The starting positions: small coordinates drawn from SplitMix64, row by row.

#![tactic(auto)]

ghost use Rattle.std.specs.Prelude.{◌≡◌, ◌*◌, ◌%◌, ◌^◌, ◌<◌, ◌≤◌, length};
ghost use Rattle.refusal.specs.Refusal.{refusal_number, numbered};
ghost use Rattle.scatter.specs.Scatter.{fold_of, mix_of, coordinate_of, scattered, scatter_outcome, scatter_of};

use laws::{MOST_COMPONENTS, MOST_FRAMES};
use refusal::Refusal;

// z ^ z >> s.
fn fold(z: u64, s: u32) -> u64
    requires { s < 64 }
    ensures { result ≡ fold_of z s }
{
    z ^ (z >> s)
}

// SplitMix64's output for a state.
pub fn mix(state: u64) -> u64
    ensures { result ≡ mix_of state }
{
    let a = fold(state, 30).wrapping_mul(0xbf58476d1ce4e5b9);
    let b = fold(a, 27).wrapping_mul(0x94d049bb133111eb);
    fold(b, 31)
}

// The coordinate that an output gives: its top 53 bits as a share of 2^53, less a half, made small.
fn coordinate(z: u64) -> f64
    ensures { result ≡ coordinate_of z }
{
    ((z >> 11) as f64 / 9007199254740992.0 - 0.5) * 1e-4
}

// Writes the first m places, each from the next state.
fn random_init(positions: &mut [f64], m: usize, seed: u64)
    requires { m ≤ length positions.old }
    ensures { positions.new ≡ scattered m seed positions.old }
{
    let mut state = seed;
    for k in 0..m {
        state = state.wrapping_add(0x9e3779b97f4a7c15);
        positions[k] = coordinate(mix(state));
    }
}

// Writes n rows of c coordinates, or refuses and writes nothing.
pub fn scatter(positions: &mut [f64], n: u32, c: u32, seed: u64) -> Result<(), Refusal>
    ensures { scatter_outcome (numbered refusal_number result) positions.new ≡ scatter_of n c seed positions.old }
{
    if c == 0 || MOST_COMPONENTS < c as usize {
        return Err(Refusal::Components);
    }
    if n == 0 || MOST_FRAMES < n as usize {
        return Err(Refusal::Size);
    }
    let m = (n * c) as usize;
    if positions.len() < m {
        return Err(Refusal::Short);
    }
    random_init(positions, m, seed);
    Ok(())
}
