// The Barnes-Hut route: every frame's k nearest with its shares of them, by rows, and then the lists of all frames, in place.
ghost use Rattle.std.specs.Prelude.{◌≡◌, true, ◌+◌, ◌*◌, ◌<◌, ◌≤◌, pos, length};
ghost use Rattle.std.specs.Float.Ieee.{lt, of_int};
ghost use Rattle.std.specs.Float.{binary64};
ghost use Rattle.laws.specs.Domain.{most_frames};
ghost use Rattle.laws.specs.Loops.{loop};
ghost use Rattle.laws.specs.Area.{zero64};
ghost use Rattle.elementary.specs.Limits.{neighbours_of};
ghost use Rattle.affinity_distances.specs.Distances.{squares_of, distance_row, Squared};
ghost use Rattle.affinity_near.specs.Near.{values_over, indices_over};
ghost use Rattle.affinity_lists.specs.Lists.{areas};
ghost use Rattle.laws.specs.Joined.{laid};
ghost use Rattle.affinity.specs.Steps.{shares_left, frames_left};
ghost use Rattle.affinity.specs.Neighbours.{values_in, frames_in, nearest_frames, neighbour_row, neighbours_listed};

// The distances of frame i to the n frames, into a row; and its k nearest with their distances, nearest first, into the first k places of the other two areas.
pub fn nearest_row(
    table: &[f64],
    n: usize,
    f: usize,
    k: usize,
    squares: &[f64],
    i: usize,
    weights: &mut [f64],
    row_values: &mut [f64],
    row_indices: &mut [u32],
)
    requires i_lt_n { (i < n) × (n ≤ most_frames) × (0 < k) × (n * f ≤ length table.now) × (n ≤ length squares.now) }
    requires k_in_bounds { (k ≤ length weights.old) × (n ≤ length row_values.old) × (k ≤ length row_indices.old) }
    requires squared { Squared table.now n f squares.now }
    ensures weights_after { weights.new ≡ values_over (nearest_frames table.now n f k i) weights.old }
    ensures row_values_after { row_values.new ≡ distance_row table.now n f i row_values.old }
    ensures row_indices_after { row_indices.new ≡ indices_over (nearest_frames table.now n f k i) row_indices.old }
{
    affinity_distances::distance_row(table, n, f, squares, i, row_values);
    affinity_near::neighbours::nearest(row_values, n, k, i, weights, row_indices);
}

// The row of frame i, in the first k places of the two areas of a row.
fn neighbor_row(
    table: &[f64],
    n: usize,
    f: usize,
    k: usize,
    perplexity: f64,
    squares: &[f64],
    i: usize,
    weights: &mut [f64],
    indices: &mut [u32],
    row_values: &mut [f64],
    row_indices: &mut [u32],
)
    requires i_lt_n { (i < n) × (n ≤ most_frames) × (0 < k) × (k < n) × (n * f ≤ length table.now) × (n ≤ length squares.now) }
    requires k_in_bounds { (k ≤ length weights.old) × (k ≤ length indices.old) × (n ≤ length row_values.old) × (n ≤ length row_indices.old) }
    requires squared { Squared table.now n f squares.now }
    ensures weights_after { weights.new ≡ values_over (neighbour_row table.now n f k perplexity i) weights.old }
    ensures indices_after { indices.new ≡ indices_over (neighbour_row table.now n f k perplexity i) indices.old }
    ensures row_values_after { row_values.new ≡ shares_left table.now n f k perplexity i row_values.old }
    ensures row_indices_after { row_indices.new ≡ frames_left table.now n f k i row_indices.old }
{
    nearest_row(table, n, f, k, squares, i, weights, row_values, row_indices);
    affinity_sigma::binary_search_sigma(weights, k, perplexity, row_values);
    affinity_sigma::divide(row_values, k, 2.0 * n as f64);
    affinity_near::neighbours::by_index(row_values, row_indices, k, weights, indices);
}

// The rows of all n frames: row i at i·k.
fn neighbor_rows(
    table: &[f64],
    n: usize,
    f: usize,
    k: usize,
    perplexity: f64,
    squares: &[f64],
    weights: &mut [f64],
    indices: &mut [u32],
    row_values: &mut [f64],
    row_indices: &mut [u32],
)
    requires n_le_most_frames { (n ≤ most_frames) × (0 < k) × (k < n) × (n * f ≤ length table.now) × (n ≤ length squares.now) }
    requires k_in_bounds { (n * k ≤ length weights.old) × (n * k ≤ length indices.old) × (n ≤ length row_values.old) × (n ≤ length row_indices.old) }
    requires squared { Squared table.now n f squares.now }
    ensures weights_after { weights.new ≡ laid (λ i. values_in (neighbour_row table.now n f k perplexity i)) k n weights.old }
    ensures indices_after { indices.new ≡ laid (λ i. frames_in (neighbour_row table.now n f k perplexity i)) k n indices.old }
    ensures row_values_after { row_values.new ≡ loop (shares_left table.now n f k perplexity) n 0 row_values.old }
    ensures row_indices_after { row_indices.new ≡ loop (frames_left table.now n f k) n 0 row_indices.old }
{
    for i in 0..n {
        let a = i * k;
        let e = a + k;
        neighbor_row(
            table,
            n,
            f,
            k,
            perplexity,
            squares,
            i,
            &mut weights[a..e],
            &mut indices[a..e],
            row_values,
            row_indices,
        );
    }
}

// The lists of n frames with their weights and offsets; on the way the squares of the frames and the preparation rows, which are zeros again afterwards.
pub fn neighbor_probabilities(
    table: &[f64],
    n: usize,
    f: usize,
    perplexity: f64,
    weights: &mut [f64],
    indices: &mut [u32],
    offsets: &mut [u32],
    squares: &mut [f64],
    row_values: &mut [f64],
    row_indices: &mut [u32],
)
    requires le_n { (2 ≤ n) × (n ≤ most_frames) × (lt zero64 perplexity ≡ true) × (lt perplexity (of_int binary64 (pos n)) ≡ true) }
    requires f_in_bounds { (n * f ≤ length table.now)
        × (2 * (n * neighbours_of perplexity n) ≤ length weights.old)
        × (2 * (n * neighbours_of perplexity n) ≤ length indices.old)
        × (n + 1 ≤ length offsets.old)
        × (n ≤ length squares.old)
        × (n ≤ length row_values.old)
        × (n ≤ length row_indices.old) }
    ensures row_indices_after { areas weights.new indices.new offsets.new row_values.new row_indices.new
        ≡ neighbours_listed table.now n f perplexity (areas weights.old indices.old offsets.old row_values.old row_indices.old) }
    ensures squares_after { squares.new ≡ squares_of table.now n f squares.old }
{
    let k = elementary::limits::neighbours(perplexity, n as u64) as usize;
    affinity_distances::square_frames(table, n, f, squares);
    neighbor_rows(
        table,
        n,
        f,
        k,
        perplexity,
        squares,
        weights,
        indices,
        row_values,
        row_indices,
    );
    affinity_lists::symmetrise(weights, indices, offsets, row_values, row_indices, n, k);
}
