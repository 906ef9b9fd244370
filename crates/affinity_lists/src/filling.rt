// Writing one list, from its last link down: the lists above it are finished, and the rows below it still stand.
ghost use Rattle.std.specs.Prelude.{◌≡◌, ◌-◌, ◌*◌, ◌<◌, ◌≤◌, length};
ghost use Rattle.laws.specs.Domain.{most_frames};
ghost use Rattle.laws.specs.Joined.{ending};
ghost use Rattle.affinity_lists.specs.Lists.{Rows};
ghost use Rattle.affinity_lists.specs.Steps.{Room, Lowered, Topped, list_sought, weights_sought};

use affinity_links::{held, link_of};

// Sets the cursor of each row at its end.
pub(crate) fn top_cursors(indices: &[u32], row_indices: &mut [u32], n: usize, k: usize)
    requires { (n ≤ most_frames) × (k < n) × (n * k ≤ length indices.now) × (n ≤ length row_indices.old) × Rows n k indices.now }
    ensures { Topped indices.now row_indices.old n k row_indices.new }
{
    for j in 0..n {
        row_indices[j] = held(indices, j * k, k);
    }
}

// Writes list i so that it ends just below place e, and gives the place where it begins. Of row i only what is below the cursor is left to read, and the list never reaches down to it. The preparation row has the words of the cursors; they fall to i.
pub(crate) fn fill_list(
    weights: &mut [f64],
    indices: &mut [u32],
    offsets: &[u32],
    row_indices: &mut [u32],
    n: usize,
    k: usize,
    i: usize,
    e: usize,
) -> usize
    requires { Room weights.old indices.old offsets.now row_indices.old n k i e }
    ensures value { result ≡ e - length (list_sought indices.old offsets.now n k i) }
    ensures weights_after { weights.new ≡ ending (weights_sought weights.old indices.old offsets.now n k i) e weights.old }
    ensures indices_after { indices.new ≡ ending (list_sought indices.old offsets.now n k i) e indices.old }
    ensures lowered { Lowered indices.old offsets.now row_indices.old n k i row_indices.new }
{
    let mut q = e;
    let mut m = e;
    let mut c = row_indices[i];
    for j in (0..n).rev() {
        if j == i {
            m = q;
            continue;
        }
        let link = link_of(weights, indices, offsets, k, i, j, c, row_indices[j]);
        c = link.row;
        let Some(weight) = link.weight else {
            continue;
        };
        row_indices[j] = link.cursor;
        q -= 1;
        weights[q] = weight;
        indices[q] = j as u32;
    }
    row_indices[i] = held(indices, q, m - q);
    q
}
