// The Barnes-Hut neighbour lists, made in place: n rows of k links become the lists of all frames.

#![tactic(auto)]

mod filling;
mod rows;

ghost use Rattle.std.specs.Prelude.{◌≡◌};
ghost use Rattle.affinity_lists.specs.Lists.{Prepared, areas, lists_made};

use areas::fill;
use filling::{fill_list, top_cursors};
use rows::total;

// The lists of all frames from their rows, from the last link of all down: list i begins no lower than row i. A cursor in each row and each finished list falls with i; their words stand in the preparation row of indices.
pub fn symmetrise(
    weights: &mut [f64],
    indices: &mut [u32],
    offsets: &mut [u32],
    row_values: &mut [f64],
    row_indices: &mut [u32],
    n: usize,
    k: usize,
)
    requires { Prepared n k (areas weights.old indices.old offsets.old row_values.old row_indices.old) }
    ensures { areas weights.new indices.new offsets.new row_values.new row_indices.new
        ≡ lists_made n k (areas weights.old indices.old offsets.old row_values.old row_indices.old) }
{
    let links = total(indices, n, k);
    offsets[n] = links as u32;
    top_cursors(indices, row_indices, n, k);
    let mut q = links;
    for i in (0..n).rev() {
        q = fill_list(weights, indices, offsets, row_indices, n, k, i, q);
        offsets[i] = q as u32;
    }
    fill(row_values, n, 0.0);
    fill(row_indices, n, 0);
}
