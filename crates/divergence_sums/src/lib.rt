// The sums of the Kullback-Leibler figure: over pairs of frames for an exact run, over links for a Barnes-Hut run.

#![tactic(auto)]

ghost use Rattle.std.specs.Prelude.{◌≡◌, ℕ, ◌+◌, ◌*◌, ◌<◌, ◌≤◌, length};
ghost use Rattle.laws.specs.Loops.{loop};
ghost use Rattle.laws.specs.Area.{num};
ghost use Rattle.gradient.specs.Forces.{Below, Linked};
ghost use Rattle.divergence_sums.specs.Sums.{kl_term, kl_pair, kl_share_step, kl_shared_step, kl_step, kl_row, kl_dense, kl_link, kl_link_step, kl_list, kl_lists, AllLinked};

use gradient::forces::Lists;
use gradient_pairs::exact::{Map, Pairs, TOGETHER};

// One pair more on a sum: p·ln(p / q) with q at least 2^-52, where p is above 0. It becomes part of each caller, as `ln` does.
#[inline(always)]
fn kl_term(p: f64, q: f64, sum: f64) -> f64
    ensures { result ≡ kl_term p q sum }
{
    if p > 0.0 {
        let floored = elementary::unless_above(2.220446049250313e-16, q);
        return sum + p * elementary::ln(p / floored);
    }
    sum
}

// ---- exact: over all pairs

// The shares of frame i and the m frames from j on, worked out before their logarithms, which then need not wait for them.
fn lay_shares(shares: &mut [f64], map: Map, total: f64, i: usize, j: usize, m: usize)
    requires { (i < map.n) × (j + m ≤ map.n) × (map.n * map.c ≤ length map.positions.now) × (m ≤ length shares.old) }
    ensures { shares.new ≡ loop (kl_share_step map.entry.positions.now total map.entry.c i j) m 0 shares.old }
{
    for k in 0..m {
        shares[k] = map.num(i, j + k) / total;
    }
}

// Frames i and j more, of whom the map says q; a frame and itself are skipped.
fn kl_pair(pairs: Pairs, i: usize, j: usize, q: f64, sum: f64) -> f64
    requires { (i < pairs.map.n) × (j < pairs.map.n) × (pairs.map.n * pairs.map.n ≤ length pairs.affinities.now) }
    ensures { result ≡ kl_pair pairs.entry.affinities.now pairs.entry.exaggeration pairs.entry.map.n i j q sum }
{
    if i == j {
        return sum;
    }
    let p = pairs.affinities[i * pairs.map.n + j] * pairs.exaggeration;
    kl_term(p, q, sum)
}

// Frame i and the m frames from j on, with their shares, onto a sum.
fn kl_pairs(shares: &[f64], pairs: Pairs, i: usize, j: usize, m: usize, sum: f64) -> f64
    requires { (i < pairs.map.n) × (j + m ≤ pairs.map.n) × (pairs.map.n * pairs.map.n ≤ length pairs.affinities.now) × (m ≤ length shares.now) }
    ensures { result ≡ loop (kl_shared_step shares.now pairs.entry.affinities.now pairs.entry.exaggeration pairs.entry.map.n i j) m 0 sum }
{
    let mut so_far = sum;
    for k in 0..m {
        so_far = kl_pair(pairs, i, j + k, shares[k], so_far);
    }
    so_far
}

// Frame i and the m frames from j on, at most sixteen, onto a sum.
fn kl_together(pairs: Pairs, i: usize, j: usize, m: usize, sum: f64) -> f64
    requires { (i < pairs.map.n) × (j + m ≤ pairs.map.n) × (m ≤ 16) × (pairs.map.n * pairs.map.c ≤ length pairs.map.positions.now) × (pairs.map.n * pairs.map.n ≤ length pairs.affinities.now) }
    ensures { result ≡ loop (kl_step pairs.entry.map.positions.now pairs.entry.affinities.now pairs.entry.exaggeration pairs.entry.total pairs.entry.map.n pairs.entry.map.c i) m j sum }
{
    let mut shares = [0.0; TOGETHER];
    lay_shares(&mut shares, pairs.map, pairs.total, i, j, m);
    kl_pairs(&shares, pairs, i, j, m, sum)
}

// Row i, by rising frame.
fn kl_divergence_row(pairs: Pairs, i: usize) -> f64
    requires { (i < pairs.map.n) × (pairs.map.n * pairs.map.c ≤ length pairs.map.positions.now) × (pairs.map.n * pairs.map.n ≤ length pairs.affinities.now) }
    ensures { result ≡ kl_row pairs.entry.map.positions.now pairs.entry.affinities.now pairs.entry.exaggeration pairs.entry.total pairs.entry.map.n pairs.entry.map.c i }
{
    let mut s = 0.0;
    for j in (0..pairs.map.n).step_by(TOGETHER) {
        let m = (pairs.map.n - j).min(TOGETHER);
        s = kl_together(pairs, i, j, m, s);
    }
    s
}

// The rows' sums, by rising row.
pub fn kl_divergence(pairs: Pairs) -> f64
    requires { (pairs.map.n * pairs.map.c ≤ length pairs.map.positions.now) × (pairs.map.n * pairs.map.n ≤ length pairs.affinities.now) }
    ensures { result ≡ kl_dense pairs.entry.map.positions.now pairs.entry.affinities.now pairs.entry.exaggeration pairs.entry.total pairs.entry.map.n pairs.entry.map.c }
{
    let mut s = 0.0;
    for i in 0..pairs.map.n {
        s = s + kl_divergence_row(pairs, i);
    }
    s
}

// ---- Barnes-Hut: over all links

// Frame i's link at a place more.
fn kl_link(
    map: Map,
    lists: Lists,
    exaggeration: f64,
    z: f64,
    i: usize,
    place: usize,
    sum: f64,
) -> f64
    requires { (i < map.n) × (map.n * map.c ≤ length map.positions.now) × (place < length lists.weights.now) × (place < length lists.indices.now) × (num lists.indices.now place < map.n) }
    ensures { result ≡ kl_link map.entry.positions.now lists.entry.weights.now lists.entry.indices.now exaggeration z map.entry.c i place sum }
{
    let p = lists.weights[place] * exaggeration;
    let j = lists.indices[place] as usize;
    kl_term(p, 1.0 / (1.0 + map.apart(i, j)) / z, sum)
}

// Frame i's links from place a on, by rising place.
fn kl_links(
    map: Map,
    lists: Lists,
    exaggeration: f64,
    z: f64,
    i: usize,
    a: usize,
    links: usize,
    sum: f64,
) -> f64
    requires i_lt_n { (i < map.n) × (map.n * map.c ≤ length map.positions.now) × (a + links ≤ length lists.weights.now) × (a + links ≤ length lists.indices.now) }
    requires below { Below map.n (a + links) lists.indices.now }
    ensures { result ≡ loop (kl_link_step map.entry.positions.now lists.entry.weights.now lists.entry.indices.now exaggeration z map.entry.c i a) links 0 sum }
{
    let mut s = sum;
    for k in 0..links {
        s = kl_link(map, lists, exaggeration, z, i, a + k, s);
    }
    s
}

// List i, onto what the lists before it came to.
fn kl_list(map: Map, lists: Lists, exaggeration: f64, z: f64, i: usize, sum: f64) -> f64
    requires i_lt_n { (i < map.n) × (map.n * map.c ≤ length map.positions.now) }
    requires linked { Linked map.n lists.weights.now lists.indices.now lists.offsets.now i }
    ensures { result ≡ kl_list map.entry.positions.now lists.entry.weights.now lists.entry.indices.now lists.entry.offsets.now exaggeration z map.entry.c i sum }
{
    let a = lists.offsets[i] as usize;
    let e = lists.offsets[i + 1] as usize;
    kl_links(map, lists, exaggeration, z, i, a, e - a, sum)
}

// All lists: one running sum.
pub fn barnes_hut_kl(map: Map, lists: Lists, exaggeration: f64, z: f64) -> f64
    requires c_in_bounds { map.n * map.c ≤ length map.positions.now }
    requires all_linked { AllLinked map.n lists.weights.now lists.indices.now lists.offsets.now }
    ensures { result ≡ kl_lists map.entry.positions.now lists.entry.weights.now lists.entry.indices.now lists.entry.offsets.now exaggeration z map.entry.n map.entry.c }
{
    let mut s = 0.0;
    for i in 0..map.n {
        s = kl_list(map, lists, exaggeration, z, i, s);
    }
    s
}
