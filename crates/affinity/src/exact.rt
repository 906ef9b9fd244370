// The exact route: every frame's shares of all frames, then the two shares of a pair together, in place.
ghost use Rattle.std.specs.Prelude.{◌≡◌, ◌+◌, ◌*◌, ◌<◌, ◌≤◌, length};
ghost use borrow.Rule.Slice.PartMut.{put_mid};
ghost use Rattle.laws.specs.Domain.{most_frames};
ghost use Rattle.laws.specs.Area.{zero64};
ghost use Rattle.affinity_distances.specs.Distances.{distance_row, squares_of, Squared};
ghost use Rattle.areas.specs.Filled.{filled};
ghost use Rattle.affinity.specs.Exact.{exact_of};
ghost use Rattle.laws.specs.Joined.{laid};
ghost use Rattle.affinity.specs.Steps.{conditionals, distances_left};

use affinity_joins::symmetrize_probabilities;
use areas::fill;

// The distances of frame i in the row, and its shares of the n frames in row i of the affinities.
fn conditional_row(
    table: &[f64],
    n: usize,
    f: usize,
    perplexity: f64,
    squares: &[f64],
    i: usize,
    affinities: &mut [f64],
    row: &mut [f64],
)
    requires i_lt_n { (i < n) × (n ≤ most_frames) × (n * f ≤ length table.now) × (n ≤ length squares.now) × (i * n + n ≤ length affinities.old) × (n ≤ length row.old) }
    requires squared { Squared table.now n f squares.now }
    ensures affinities_after { affinities.new ≡ put_mid (i * n) n affinities.old (conditionals table.now n f perplexity i) }
    ensures row_after { row.new ≡ distance_row table.now n f i row.old }
{
    affinity_distances::distance_row(table, n, f, squares, i, row);
    let a = i * n;
    let e = a + n;
    affinity_sigma::binary_search_sigma(row, n, perplexity, &mut affinities[a..e]);
}

// The shares of all n frames, by rows.
fn conditional_probabilities(
    table: &[f64],
    n: usize,
    f: usize,
    perplexity: f64,
    squares: &[f64],
    affinities: &mut [f64],
    row: &mut [f64],
)
    requires n_le_most_frames { (n ≤ most_frames) × (n * f ≤ length table.now) × (n ≤ length squares.now) × (n * n ≤ length affinities.old) × (n ≤ length row.old) }
    requires squared { Squared table.now n f squares.now }
    ensures affinities_after { affinities.new ≡ laid (conditionals table.now n f perplexity) n n affinities.old }
    ensures row_after { row.new ≡ distances_left table.now n f row.old }
{
    for i in 0..n {
        conditional_row(table, n, f, perplexity, squares, i, affinities, row);
    }
}

// The affinities of n frames, by rows, in the first n·n places; on the way the squares of the frames and a row of distances, which is zeros again afterwards.
pub fn exact_affinities(
    table: &[f64],
    n: usize,
    f: usize,
    perplexity: f64,
    affinities: &mut [f64],
    squares: &mut [f64],
    row: &mut [f64],
)
    requires { (n ≤ most_frames) × (n * f ≤ length table.now) × (n * n ≤ length affinities.old) × (n ≤ length squares.old) × (n ≤ length row.old) }
    ensures affinities_after { affinities.new ≡ exact_of table.now n f perplexity affinities.old }
    ensures squares_after { squares.new ≡ squares_of table.now n f squares.old }
    ensures row_after { row.new ≡ filled zero64 n row.old }
{
    affinity_distances::square_frames(table, n, f, squares);
    conditional_probabilities(table, n, f, perplexity, squares, affinities, row);
    symmetrize_probabilities(affinities, n);
    fill(row, n, 0.0);
}
