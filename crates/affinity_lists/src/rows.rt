// How many links all lists will have.
ghost use Rattle.std.specs.Prelude.{◌≡◌, ◌+◌, ◌*◌, ◌<◌, ◌≤◌, length};
ghost use Rattle.laws.specs.Domain.{most_frames};
ghost use Rattle.affinity_lists.specs.Lists.{Rows, links_of};
ghost use Rattle.affinity_lists.specs.Steps.{miss_of, misses_of};

use affinity_links::find;

// 1 if the frame at place t of row j does not name j back, else 0.
fn miss(indices: &[u32], n: usize, k: usize, j: usize, t: usize) -> usize
    requires { (j < n) × (t < k) × (n ≤ most_frames) × (n * k ≤ length indices.now) × Rows n k indices.now }
    ensures { result ≡ miss_of k indices.now j t }
{
    let i = indices[j * k + t] as usize;
    usize::from(find(indices, i * k, k, j as u32).is_none())
}

// How many of the frames in row j do not name j back.
fn misses(indices: &[u32], n: usize, k: usize, j: usize) -> usize
    requires { (j < n) × (n ≤ most_frames) × (n * k ≤ length indices.now) × Rows n k indices.now }
    ensures { result ≡ misses_of k indices.now j }
{
    let mut c = 0;
    for t in 0..k {
        c += miss(indices, n, k, j, t);
    }
    c
}

// The number of links of all lists: the n·k of the rows, and one for each that is not named back.
pub(crate) fn total(indices: &[u32], n: usize, k: usize) -> usize
    requires { (n ≤ most_frames) × (2 * (n * k) ≤ length indices.now) × Rows n k indices.now }
    ensures { result ≡ links_of n k indices.now }
{
    let mut c = 0;
    for j in 0..n {
        c += misses(indices, n, k, j);
    }
    n * k + c
}
