// A neighbour list that another tool made: whether every record meets the rules, or the first one that does not.
// Where the pairs rise, mirrors are found by halving; where they do not, by halving in the two rising parts at the file's front, then one by one.

#![tactic(auto)]

ghost use Rattle.std.specs.Prelude.{◌≡◌, not, ◌||◌, ◌+◌, ◌-◌, ◌<◌, ◌≤◌, eqb, ltb, length};
ghost use Rattle.laws.specs.Loops.{first};
ghost use Rattle.partner.specs.Partner.{whole_links, given_links, link_from, link_to, link_weight, link_pair, turned_pair, link_fine, is_mirror, mirrored_in, mirrored, first_bad_link, PairsRise};

use elementary::words::value_of;
use little::{half_word, word};
use run_record::faults::is_positive;

// How long a record is.
pub const LINK_BYTES: usize = 16;

// The records given: a stray tail is one more.
pub fn given_links(file: &[u8]) -> usize
    ensures { result ≡ given_links file.now }
{
    file.len().div_ceil(LINK_BYTES)
}

// The frame whose link record i is.
pub fn link_from(file: &[u8], i: usize) -> u64
    requires { i < whole_links file.now }
    ensures { (result ≡ link_from file.now i) × (result < 4294967296) }
{
    half_word(file, LINK_BYTES * i)
}

// The frame that it names.
pub fn link_to(file: &[u8], i: usize) -> u64
    requires { i < whole_links file.now }
    ensures { (result ≡ link_to file.now i) × (result < 4294967296) }
{
    half_word(file, LINK_BYTES * i + 4)
}

// Its weight, by its bits.
pub fn link_weight(file: &[u8], i: usize) -> u64
    requires { i < whole_links file.now }
    ensures { result ≡ link_weight file.now i }
{
    word(file, LINK_BYTES * i + 8)
}

// The pair of record i as one number.
fn link_pair(file: &[u8], i: usize) -> u64
    requires { i < whole_links file.now }
    ensures { result ≡ link_pair file.now i }
{
    4294967296 * link_from(file, i) + link_to(file, i)
}

// The pair that the mirror of record i has.
fn turned_pair(file: &[u8], i: usize) -> u64
    requires { i < whole_links file.now }
    ensures { result ≡ turned_pair file.now i }
{
    4294967296 * link_to(file, i) + link_from(file, i)
}

// Whether the pair of record i is above that of the record before it.
fn is_raised(file: &[u8], i: usize) -> bool
    requires { i < whole_links file.now }
    ensures { result ≡ (eqb i 0 || ltb (link_pair file.now (i - 1)) (link_pair file.now i)) }
{
    i == 0 || link_pair(file, i - 1) < link_pair(file, i)
}

// Whether record i meets the rules but for its mirror: n frames, at most so many links.
#[tactic(auto, unfolding(crate::specs::Partner::link_fine))]
fn link_fine(file: &[u8], n: usize, most: usize, i: usize) -> bool
    requires { i < whole_links file.now }
    ensures { result ≡ link_fine n most file.now i }
{
    let from = link_from(file, i);
    let to = link_to(file, i);
    i < most
        && from < n as u64
        && to < n as u64
        && is_raised(file, i)
        && from != to
        && is_positive(value_of(link_weight(file, i)))
}

// The first record that does not; the number of whole records where there is none.
fn first_unfit(file: &[u8], n: usize, most: usize) -> usize
    ensures { result ≡ first (λ i. not (link_fine n most file.now i)) (whole_links file.now) }
{
    let whole = file.len() / LINK_BYTES;
    for i in 0..whole {
        if !link_fine(file, n, most, i) {
            return i;
        }
    }
    whole
}

// Whether record j is the mirror of record i.
#[tactic(auto, unfolding(crate::specs::Partner::is_mirror))]
fn is_mirror(file: &[u8], i: usize, j: usize) -> bool
    requires { (i < whole_links file.now) × (j < whole_links file.now) }
    ensures { result ≡ is_mirror file.now i j }
{
    link_from(file, j) == link_to(file, i)
        && link_to(file, j) == link_from(file, i)
        && link_weight(file, j) == link_weight(file, i)
}

// Whether one of the k records from a on, whose pairs rise, is the mirror of record i. In each turn the part that may be is halved.
fn is_met(file: &[u8], i: usize, a: usize, k: usize) -> bool
    requires { (i < whole_links file.now) × (a + k ≤ whole_links file.now) × PairsRise file.now a k }
    ensures { result ≡ mirrored_in file.now i a k }
{
    if k == 0 {
        return false;
    }
    let pair = turned_pair(file, i);
    let mut low = a;
    let mut left = k;
    while left > 1 {
        let half = left / 2;
        if link_pair(file, low + half) <= pair {
            low += half;
        }
        left -= half;
    }
    is_mirror(file, i, low)
}

// The same where they need not rise: one by one.
fn is_met_anywhere(file: &[u8], i: usize, a: usize, k: usize) -> bool
    requires { (i < whole_links file.now) × (a + k ≤ whole_links file.now) }
    ensures { result ≡ mirrored_in file.now i a k }
{
    for t in 0..k {
        if is_mirror(file, i, a + t) {
            return true;
        }
    }
    false
}

// How many pairs rise from record a on, those of the rising part that begins there.
fn rising_from(file: &[u8], a: usize) -> usize
    requires { a ≤ whole_links file.now }
    ensures { (a + result ≤ whole_links file.now) × PairsRise file.now a result }
{
    let rest = file.len() / LINK_BYTES - a;
    if rest == 0 {
        return 0;
    }
    for k in 1..rest {
        if !is_raised(file, a + k) {
            return k;
        }
    }
    rest
}

// Whether record i has a mirror: the pairs of the first e records rise, and those of the k that follow.
fn is_mirrored(file: &[u8], i: usize, e: usize, k: usize) -> bool
    requires { (i < whole_links file.now) × (e + k ≤ whole_links file.now) × PairsRise file.now 0 e × PairsRise file.now e k }
    ensures { result ≡ mirrored file.now i }
{
    is_met(file, i, 0, e)
        || is_met(file, i, e, k)
        || is_met_anywhere(file, i, e + k, file.len() / LINK_BYTES - (e + k))
}

// The first of the first d records that has none; d where each has one.
fn first_lonely(file: &[u8], d: usize, e: usize, k: usize) -> usize
    requires { (d ≤ whole_links file.now) × (e + k ≤ whole_links file.now) × PairsRise file.now 0 e × PairsRise file.now e k }
    ensures { result ≡ first (λ i. not (mirrored file.now i)) d }
{
    for i in 0..d {
        if !is_mirrored(file, i, e, k) {
            return i;
        }
    }
    d
}

// The first record at which a rule fails; the number of records, a stray tail counted, where there is none.
pub fn first_bad_link(file: &[u8], n: usize, most: usize) -> usize
    ensures { result ≡ first_bad_link n most file.now }
{
    let d = first_unfit(file, n, most);
    let e = rising_from(file, 0);
    let k = rising_from(file, e);
    first_lonely(file, d, e, k)
}
