// One frame after the other: its search is made, and its last sum looked at. The rows are scratch.
ghost use Rattle.std.specs.Prelude.{◌≡◌, ◌*◌, ◌<◌, ◌≤◌, length};
ghost use Rattle.std.specs.Float.Ieee.{lt};
ghost use Rattle.laws.specs.Domain.{most_frames};
ghost use Rattle.affinity_distances.specs.Distances.{Squared};
ghost use Rattle.affinity_sigma.specs.Sigma.{smallest, blind_search};
ghost use Rattle.affinity.specs.Exact.{distances_of};
ghost use Rattle.affinity.specs.Neighbours.{values_in, nearest_frames};
ghost use Rattle.blind.specs.Room.{SightRoom, KeptPast};
ghost use Rattle.blind.specs.Blind.{all_at_zero, blind_at, alone_at, how_many};

use crate::Seen;
use run_record::Settings;
use run_record::faults::is_tree;

// What is seen of a frame.
#[derive(Clone, Copy)]
struct Glance {
    // its search ends blind
    blind: bool,
    // every distance that its search goes by comes out as 0
    alone: bool,
}

// Whether the row of a round with this sum was filled.
fn too_small(sum: f64) -> bool
    ensures { result ≡ lt sum smallest }
{
    sum < 1e-8
}

// Whether the first m distances are 0.
fn all_at_zero(distances: &[f64], m: usize) -> bool
    requires { m ≤ length distances.now }
    ensures { result ≡ all_at_zero distances.now m }
{
    for j in 0..m {
        if distances[j] != 0.0 {
            return false;
        }
    }
    true
}

// Of frame i by the distances of its k nearest.
fn look_near(
    table: &[f64],
    n: usize,
    f: usize,
    k: usize,
    perplexity: f64,
    squares: &[f64],
    i: usize,
    row_values: &mut [f64],
    row_shares: &mut [f64],
    row_indices: &mut [u32],
) -> Glance
    requires i_lt_n { (i < n) × (n ≤ most_frames) × (0 < k) × (k < n) × (n * f ≤ length table.now) × (n ≤ length squares.now) }
    requires n_in_bounds { (n ≤ length row_values.old) × (n ≤ length row_shares.old) × (n ≤ length row_indices.old) }
    requires squared { Squared table.now n f squares.now }
    ensures blind_value { (result.blind ≡ blind_search (values_in (nearest_frames table.now n f k i)) k perplexity)
        × (result.alone ≡ all_at_zero (values_in (nearest_frames table.now n f k i)) k) }
    ensures kept_past { (KeptPast n row_values.old row_values.new)
        × (KeptPast n row_shares.old row_shares.new)
        × (KeptPast n row_indices.old row_indices.new) }
{
    affinity::neighbours::nearest_row(
        table,
        n,
        f,
        k,
        squares,
        i,
        row_shares,
        row_values,
        row_indices,
    );
    let alone = all_at_zero(row_shares, k);
    let sum = affinity_sigma::search_sigma(row_shares, k, perplexity, row_values);
    let blind = too_small(sum);
    Glance { blind, alone }
}

// Of frame i by the distances of all n frames.
fn look_all(
    table: &[f64],
    n: usize,
    f: usize,
    perplexity: f64,
    squares: &[f64],
    i: usize,
    row_values: &mut [f64],
    row_shares: &mut [f64],
) -> Glance
    requires i_lt_n { (i < n) × (n ≤ most_frames) × (n * f ≤ length table.now) × (n ≤ length squares.now) }
    requires n_in_bounds { (n ≤ length row_values.old) × (n ≤ length row_shares.old) }
    requires squared { Squared table.now n f squares.now }
    ensures blind_value { (result.blind ≡ blind_search (distances_of table.now n f i) n perplexity)
        × (result.alone ≡ all_at_zero (distances_of table.now n f i) n) }
    ensures kept_past { (KeptPast n row_values.old row_values.new)
        × (KeptPast n row_shares.old row_shares.new) }
{
    affinity_distances::distance_row(table, n, f, squares, i, row_values);
    let alone = all_at_zero(row_values, n);
    let sum = affinity_sigma::search_sigma(row_values, n, perplexity, row_shares);
    let blind = too_small(sum);
    Glance { blind, alone }
}

// Of frame i, by method.
fn look(
    s: Settings,
    table: &[f64],
    squares: &[f64],
    i: usize,
    row_values: &mut [f64],
    row_shares: &mut [f64],
    row_indices: &mut [u32],
) -> Glance
    requires i_lt_n { (i < s.n) × Squared table.now s.n s.f squares.now }
    requires sight_room { SightRoom s (length table.now) (length squares.now) (length row_values.old) (length row_shares.old) (length row_indices.old) }
    ensures blind_value { (result.blind ≡ blind_at s table.now i) × (result.alone ≡ alone_at s table.now i) }
    ensures kept_past { (KeptPast s.n row_values.old row_values.new)
        × (KeptPast s.n row_shares.old row_shares.new)
        × (KeptPast s.n row_indices.old row_indices.new) }
{
    if is_tree(s.method) {
        let k = elementary::neighbours(s.perplexity, s.n as u64) as usize;
        return look_near(
            table,
            s.n,
            s.f,
            k,
            s.perplexity,
            squares,
            i,
            row_values,
            row_shares,
            row_indices,
        );
    }
    look_all(
        table,
        s.n,
        s.f,
        s.perplexity,
        squares,
        i,
        row_values,
        row_shares,
    )
}

// Of all n frames.
pub(crate) fn look_at_all(
    s: Settings,
    table: &[f64],
    squares: &[f64],
    row_values: &mut [f64],
    row_shares: &mut [f64],
    row_indices: &mut [u32],
) -> Seen
    requires squared { Squared table.now s.n s.f squares.now }
    requires sight_room { SightRoom s (length table.now) (length squares.now) (length row_values.old) (length row_shares.old) (length row_indices.old) }
    ensures blind_value { (result.blind ≡ how_many (blind_at s table.now) s.n) × (result.alone ≡ how_many (alone_at s table.now) s.n) }
    ensures kept_past { (KeptPast s.n row_values.old row_values.new)
        × (KeptPast s.n row_shares.old row_shares.new)
        × (KeptPast s.n row_indices.old row_indices.new) }
{
    let n = s.n;
    let mut blind = 0;
    let mut alone = 0;
    for i in 0..n {
        let l = look(s, table, squares, i, row_values, row_shares, row_indices);
        blind += usize::from(l.blind);
        alone += usize::from(l.alone);
    }
    Seen { blind, alone }
}
