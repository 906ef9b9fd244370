// Whether a run can hold a record of a parked file after those before it: the first three records by value, the words of the areas where they lie.

#![tactic(auto)]

ghost use Rattle.std.specs.Prelude.{◌≡◌, true, cond, ◌&&◌, ◌+◌, ◌*◌, ◌≤◌, eqb, leb, length, pos};
ghost use Rattle.std.specs.Float.Ieee.{lt, of_int};
ghost use Rattle.std.specs.Float.{binary64};
ghost use Rattle.laws.specs.Domain.{most_frames, most_axes, most_components};
ghost use Rattle.laws.specs.Loops.{every};
ghost use Rattle.laws.specs.Area.{bits, zero64};
ghost use Rattle.elementary.specs.Limits.{neighbours_of, calm};
ghost use Rattle.run_record.specs.Record.{positive, angle_fine};
ghost use Rattle.little.specs.Little.{word_in};
ghost use Rattle.parked.specs.Fine.{first_fine, second_fine, third_fine, is_filling, value_fits, offset_fits, held_fits, index_fits, weight_fits, state_fine, affinity_fine, word_fine};

use elementary::limits::{is_calm, neighbours};
use elementary::words::value_of;
use laws::{MOST_AXES, MOST_COMPONENTS, MOST_FEATURES, MOST_FRAMES, MOST_ITERATIONS};
use little::word;
use parked::Layout;
use record_words::standing_of;
use run_record::counters::state_fits;
use run_record::faults::{is_below, is_inside, is_positive};

fn in_range(x: u64, low: u64, high: usize) -> bool
    ensures { result ≡ leb low x && leb x high }
{
    low <= x && x <= high as u64
}

// The most components, by method.
fn most_components(m: u64) -> usize
    ensures { result ≡ cond (eqb m 1) most_axes most_components }
{
    if m == 1 {
        return MOST_AXES;
    }
    MOST_COMPONENTS
}

// Method, frames, features, components.
#[tactic(auto, unfolding(parked::specs::Fine::first_fine))]
pub fn first_fine(m: u64, n: u64, f: u64, c: u64) -> bool
    ensures { result ≡ first_fine m n f c }
{
    m <= 1
        && in_range(n, 2, MOST_FRAMES)
        && in_range(f, 1, MOST_FEATURES)
        && in_range(c, 1, most_components(m))
}

// A perplexity is finite, above 0 and below n.
fn perplexity_fine(perplexity: u64, n: u64) -> bool
    requires { n ≤ most_frames }
    ensures { result ≡ positive (bits perplexity) && lt (bits perplexity) (of_int binary64 (pos n)) }
{
    let x = value_of(perplexity);
    is_positive(x) && is_below(x, n as f64)
}

// An angle is in [0, 1), and that of an exact run zero bits.
fn angle_fine(m: u64, angle: u64) -> bool
    ensures { result ≡ cond (eqb m 1) (angle_fine (bits angle)) (eqb angle 0) }
{
    if m == 1 {
        let x = value_of(angle);
        return is_inside(x);
    }
    angle == 0
}

// Perplexity, rate, iterations, angle.
#[tactic(auto, unfolding(parked::specs::Fine::second_fine))]
pub fn second_fine(m: u64, n: u64, perplexity: u64, rate: u64, iterations: u64, angle: u64) -> bool
    requires { n ≤ most_frames }
    ensures { result ≡ second_fine m n perplexity rate iterations angle }
{
    perplexity_fine(perplexity, n)
        && is_positive(value_of(rate))
        && in_range(iterations, 1, MOST_ITERATIONS)
        && angle_fine(m, angle)
}

// At most 2·n·k links, and of an exact run none.
fn links_fine(m: u64, n: u64, perplexity: u64, links: u64) -> bool
    requires { (n ≤ most_frames) × (lt zero64 (bits perplexity) ≡ true) × (lt (bits perplexity) (of_int binary64 (pos n)) ≡ true) }
    ensures { result ≡ cond (eqb m 1) (leb links (2 * n * neighbours_of (bits perplexity) n)) (eqb links 0) }
{
    if m == 1 {
        let x = value_of(perplexity);
        return links <= 2 * n * neighbours(x, n);
    }
    links == 0
}

// Minimum norm, iterations done, state, links.
pub fn third_fine(
    m: u64,
    n: u64,
    perplexity: u64,
    iterations: u64,
    minimum: u64,
    done: u64,
    state: u64,
    links: u64,
) -> bool
    requires { (n ≤ most_frames) × (lt zero64 (bits perplexity) ≡ true) × (lt (bits perplexity) (of_int binary64 (pos n)) ≡ true) }
    ensures { result ≡ third_fine m n perplexity iterations minimum done state links }
{
    if 2 < state {
        return false;
    }
    let s = standing_of(state);
    let x = value_of(minimum);
    if !state_fits(s, done as usize, iterations as usize, 0, x) {
        return false;
    }
    links_fine(m, n, perplexity, links)
}

// Word w is filling: zero bits.
fn is_filling(file: &[u8], w: usize) -> bool
    requires { 8 * w + 8 ≤ length file.now }
    ensures { result ≡ is_filling (word_in file.now) w }
{
    word(file, 8 * w) == 0
}

// A position, increment or gain, in an area that starts at word b, or its filling.
fn value_fits(file: &[u8], l: Layout, b: usize, w: usize) -> bool
    requires { (8 * w + 8 ≤ length file.now) × (b ≤ w) }
    ensures { result ≡ value_fits (word_in file.now) l b w }
{
    if w - b < l.cells {
        let x = value_of(word(file, 8 * w));
        return is_calm(x);
    }
    is_filling(file, w)
}

// Offset k.
fn offset_fits(file: &[u8], l: Layout, k: usize, w: usize) -> bool
    requires { (8 * w + 8 ≤ length file.now) × (1 ≤ w) }
    ensures { result ≡ offset_fits (word_in file.now) l k w }
{
    let v = word(file, 8 * w) as usize;
    if k == 0 {
        return v == 0;
    }
    if v < word(file, 8 * (w - 1)) as usize {
        return false;
    }
    if l.links < v {
        return false;
    }
    if k != l.n {
        return true;
    }
    v == l.links
}

// An offset or an affinity, or its filling.
fn held_fits(file: &[u8], l: Layout, w: usize) -> bool
    requires { (8 * w + 8 ≤ length file.now) × (1 ≤ w) × (l.affinities ≤ w) }
    ensures { result ≡ held_fits (word_in file.now) l w }
{
    let k = w - l.affinities;
    if l.held <= k {
        return is_filling(file, w);
    }
    if l.tree {
        return offset_fits(file, l, k, w);
    }
    true
}

// A listed index, or its filling.
fn index_fits(file: &[u8], l: Layout, w: usize) -> bool
    requires { (8 * w + 8 ≤ length file.now) × (l.indices ≤ w) }
    ensures { result ≡ index_fits (word_in file.now) l w }
{
    if w - l.indices < l.links {
        return (word(file, 8 * w) as usize) < l.n;
    }
    is_filling(file, w)
}

// A weight, or its filling.
fn weight_fits(file: &[u8], l: Layout, w: usize) -> bool
    requires { (8 * w + 8 ≤ length file.now) × (l.weights ≤ w) }
    ensures { result ≡ weight_fits (word_in file.now) l w }
{
    if w - l.weights < l.links {
        return true;
    }
    is_filling(file, w)
}

fn state_fine(file: &[u8], l: Layout, w: usize) -> bool
    requires { (8 * w + 8 ≤ length file.now) × (12 ≤ w) }
    ensures { result ≡ state_fine (word_in file.now) l w }
{
    if w < l.increments {
        return value_fits(file, l, 12, w);
    }
    if w < l.gains {
        return value_fits(file, l, l.increments, w);
    }
    value_fits(file, l, l.gains, w)
}

fn affinity_fine(file: &[u8], l: Layout, w: usize) -> bool
    requires { (8 * w + 8 ≤ length file.now) × (1 ≤ w) × (l.affinities ≤ w) }
    ensures { result ≡ affinity_fine (word_in file.now) l w }
{
    if w < l.indices {
        return held_fits(file, l, w);
    }
    if w < l.weights {
        return index_fits(file, l, w);
    }
    weight_fits(file, l, w)
}

// Word w, past the first three records.
fn word_fine(file: &[u8], l: Layout, w: usize) -> bool
    requires { (8 * w + 8 ≤ length file.now) × (12 ≤ w) }
    ensures { result ≡ word_fine (word_in file.now) l w }
{
    if w < l.affinities {
        return state_fine(file, l, w);
    }
    affinity_fine(file, l, w)
}

// The four words of record q, past the first three.
pub fn words_fine(file: &[u8], l: Layout, q: usize) -> bool
    requires { (32 * q + 32 ≤ length file.now) × (3 ≤ q) }
    ensures { result ≡ every (λ k. word_fine (word_in file.now) l (4 * q + k)) 4 }
{
    for k in 0..4 {
        if !word_fine(file, l, 4 * q + k) {
            return false;
        }
    }
    true
}
