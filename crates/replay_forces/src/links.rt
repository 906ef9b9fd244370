// Whether a frame's list may be followed.
ghost use Rattle.std.specs.Prelude.{◌≡◌, true, ◌≤◌, length};
ghost use Rattle.gradient.specs.Forces.{Below, Linked};

use gradient::forces::Lists;

// Whether the first m indices name frames that there are.
fn below(indices: &[u32], m: usize, n: usize) -> bool
    requires { m ≤ length indices.now }
    ensures { result ≡ true → Below n m indices.now }
{
    for k in 0..m {
        if indices[k] as usize >= n {
            return false;
        }
    }
    true
}

// Whether list i lies within both areas and names frames that there are.
pub(crate) fn linked(lists: Lists, n: usize, i: usize) -> bool
    requires { i ≤ 64 }
    ensures { result ≡ true → Linked n lists.entry.weights.now lists.entry.indices.now lists.entry.offsets.now i }
{
    if i + 1 >= lists.offsets.len() {
        return false;
    }
    let a = lists.offsets[i] as usize;
    let e = lists.offsets[i + 1] as usize;
    a <= e && e <= lists.weights.len() && e <= lists.indices.len() && below(lists.indices, e, n)
}
