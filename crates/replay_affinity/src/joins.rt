// Replays the lists that the original made of rows of links: offsets, links and weights of all frames.
ghost use Rattle.std.specs.Prelude.{◌≡◌, ◌+◌, ◌*◌, ◌<◌, ◌≤◌, true, length};
ghost use Rattle.affinity_lists.specs.Lists.{Rowed, Rows};

use affinity_lists::symmetrise;
use replay::areas::{mark, mark_words, plus};
use replay::cases::{Next, replay_cases};
use replay::{Tally, word_at};

// A product that is small.
fn product(n: usize, k: usize) -> usize
    requires { (n ≤ 64) × (k ≤ 64) }
    ensures { (result ≡ n * k) × (result ≤ 4096) }
{
    n * k
}

// A word as a frame's number; one that is too large becomes 0, and differs then.
fn short(x: u64) -> u32 {
    u32::try_from(x).unwrap_or(0)
}

// The first m links and their shares, divided by what all are divided by, from word a on.
fn read_links(list: &[u8], a: usize, weights: &mut [f64], indices: &mut [u32], m: usize, norm: f64)
    requires { (a ≤ 200000) × (m ≤ 10000) × (m ≤ length weights.old) × (m ≤ length indices.old) }
{
    for p in 0..m {
        indices[p] = short(word_at(list, a + 2 * p));
        weights[p] = elementary::value_of(word_at(list, a + 2 * p + 1)) / norm;
    }
}

// Row i rises, names frames that there are, and not frame i.
fn row_right(indices: &[u32], n: usize, k: usize, i: usize) -> bool
    requires { (i < n) × (n * k ≤ length indices.now) }
    ensures { result ≡ true → Rowed i n k indices.now → Rowed (i + 1) n k indices.now }
{
    let a = i * k;
    let mut low = 0;
    for t in 0..k {
        let v = indices[a + t] as usize;
        if v < low {
            return false;
        }
        if v >= n {
            return false;
        }
        if v == i {
            return false;
        }
        low = v + 1;
    }
    true
}

// The same for every row.
fn rows_right(indices: &[u32], n: usize, k: usize) -> bool
    requires { n * k ≤ length indices.now }
    ensures { result ≡ true → Rows n k indices.now }
{
    for i in 0..n {
        if !row_right(indices, n, k, i) {
            return false;
        }
    }
    true
}

// The n + 1 offsets are what the list has from word a on.
fn same_offsets(offsets: &[u32], n: usize, list: &[u8], a: usize) -> bool
    requires { (n < length offsets.now) × (n ≤ 1000) × (a ≤ 300000) }
{
    for i in 0..n + 1 {
        if offsets[i] as u64 != word_at(list, a + i) {
            return false;
        }
    }
    true
}

// The first m links and their weights are what the list has from word a on.
fn same_links(weights: &[f64], indices: &[u32], m: usize, list: &[u8], a: usize) -> bool
    requires { (a ≤ 400000) × (m ≤ 20000) × (m ≤ length weights.now) × (m ≤ length indices.now) }
{
    for p in 0..m {
        if indices[p] as u64 != word_at(list, a + 2 * p) {
            return false;
        }
        if elementary::bits_of(weights[p]) != word_at(list, a + 2 * p + 1) {
            return false;
        }
    }
    true
}

// n rows of k links in the front of the areas become lists, from word a on; links is how many those have.
fn join_right(
    list: &[u8],
    a: usize,
    n: usize,
    k: usize,
    links: usize,
    weights: &mut [f64],
    indices: &mut [u32],
    offsets: &mut [u32],
    row_values: &mut [f64],
    row_indices: &mut [u32],
) -> bool
    requires a_bound { (a ≤ 300000) × (n ≤ 1000) × (k < n) × (links ≤ 20000) × (links ≤ length weights.old) × (links ≤ length indices.old) }
    requires k_in_bounds { (2 * (n * k) ≤ length weights.old) × (2 * (n * k) ≤ length indices.old) × (n + 1 ≤ length offsets.old) × (n ≤ length row_values.old) × (n ≤ length row_indices.old) }
{
    if !rows_right(indices, n, k) {
        return false;
    }
    symmetrise(weights, indices, offsets, row_values, row_indices, n, k);
    same_offsets(offsets, n, list, a) && same_links(weights, indices, links, list, a + n + 1)
}

// The sizes at word a are such that the case fits.
fn sizes_right(a: usize, n: usize, k: usize) -> bool
    ensures { result ≡ true → (a ≤ 100000) × (n ≤ 64) × (k < n) }
{
    if a > 100000 {
        return false;
    }
    if n > 64 {
        return false;
    }
    k < n
}

// The case from word a on. Numbers that no case has end the replay, and count as wrong.
fn case_in(list: &[u8], a: usize) -> Option<Next> {
    let n = word_at(list, a) as usize;
    let k = word_at(list, plus(a, 1)) as usize;
    if !sizes_right(a, n, k) {
        return None;
    }
    Some(case_at(list, a, n, k))
}

// The case from word a on: n rows of k links with their shares, then the offsets and the links of all lists. More links than the areas hold end the replay.
fn case_at(list: &[u8], a: usize, n: usize, k: usize) -> Next
    requires { (a ≤ 100000) × (n ≤ 64) × (k < n) }
    ensures { (a < result.at) × (result.at ≤ 200000) }
{
    let m = product(n, k);
    let from = a + 2 + 2 * m;
    let links = word_at(list, from + n);
    if links > 8192 {
        return Next {
            right: false,
            at: 200000,
        };
    }
    let count = links as usize;
    let at = from + n + 1 + 2 * count;
    let mut weights = [0.0; 8192];
    let mut indices = [0u32; 8192];
    let mut offsets = [0u32; 65];
    let mut row_values = [0.0; 64];
    let mut row_indices = [0u32; 64];
    mark(&mut weights);
    mark_words(&mut indices);
    mark_words(&mut offsets);
    mark(&mut row_values);
    mark_words(&mut row_indices);
    read_links(list, a + 2, &mut weights, &mut indices, m, 2.0 * n as f64);
    let right = join_right(
        list,
        from,
        n,
        k,
        count,
        &mut weights,
        &mut indices,
        &mut offsets,
        &mut row_values,
        &mut row_indices,
    );
    Next { right, at }
}

pub(crate) fn cases(list: &[u8]) -> Tally {
    replay_cases(list, |a| case_in(list, a))
}
