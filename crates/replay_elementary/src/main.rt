// Replays the lists of exp, ln, the bounds and the counts of neighbours, and prints how many cases differ.

#![tactic(auto)]

use replay::cases::replay_list;
use replay::{Tally, word_at};
use std::io;

// Cases of a value each, and of what the function makes of it.
fn value_cases<F: Fn(f64) -> f64>(list: &[u8], function: F) -> Tally
    requires { F.IsAlwaysCallable function }
{
    let n = list.len() / 16;
    let mut t = Tally::new();
    for i in 0..n {
        let y = function(elementary::value_of(word_at(list, 2 * i)));
        t = t.with(elementary::bits_of(y) == word_at(list, 2 * i + 1));
    }
    t
}

fn exp_cases(list: &[u8]) -> Tally {
    value_cases(list, elementary::exp)
}

fn ln_cases(list: &[u8]) -> Tally {
    value_cases(list, elementary::ln)
}

// Magnitude, in the domain, calm.
fn bounds_right(x: f64, magnitude: u64, domain: u64, calm: u64) -> bool {
    elementary::bits_of(elementary::absolute(x)) == magnitude
        && u64::from(elementary::in_domain(x)) == domain
        && u64::from(elementary::is_calm(x)) == calm
}

fn bounds_cases(list: &[u8]) -> Tally {
    let n = list.len() / 32;
    let mut t = Tally::new();
    for i in 0..n {
        let x = elementary::value_of(word_at(list, 4 * i));
        t = t.with(bounds_right(
            x,
            word_at(list, 4 * i + 1),
            word_at(list, 4 * i + 2),
            word_at(list, 4 * i + 3),
        ));
    }
    t
}

// A listed perplexity and n that are outside the function's domain count as wrong.
fn neighbours_right(perplexity: f64, n: u64, k: u64) -> bool {
    n <= 4096
        && perplexity > 0.0
        && perplexity < n as f64
        && elementary::neighbours(perplexity, n) == k
}

fn neighbours_cases(list: &[u8]) -> Tally {
    let n = list.len() / 24;
    let mut t = Tally::new();
    for i in 0..n {
        let perplexity = elementary::value_of(word_at(list, 3 * i));
        t = t.with(neighbours_right(
            perplexity,
            word_at(list, 3 * i + 1),
            word_at(list, 3 * i + 2),
        ));
    }
    t
}

fn main(rt: HostRuntime) -> io::Result<()> {
    let mut list = vec![in rt.alloc(); 0u8; 524288]?;
    replay_list(&rt, b"exp.words", b"exp", &mut list, exp_cases)?;
    replay_list(
        &rt,
        b"far.words",
        b"exp of far frames",
        &mut list,
        exp_cases,
    )?;
    replay_list(&rt, b"ln.words", b"ln", &mut list, ln_cases)?;
    replay_list(&rt, b"bounds.words", b"bounds", &mut list, bounds_cases)?;
    replay_list(
        &rt,
        b"neighbours.words",
        b"neighbours",
        &mut list,
        neighbours_cases,
    )?;
    Ok(())
}
