// The samples that are taken out, as a list that rises, and those that are left.

#![tactic(auto)]

ghost use Rattle.std.specs.Prelude.{◌≡◌, cond, ◌++◌, ◌+◌, ◌≤◌, ◌<◌, ltb, leb, length, drop};
ghost use Rattle.laws.specs.Area.{num};
ghost use Rattle.laws.specs.Domain.{most_frames};
ghost use Rattle.take_gone.specs.Gone.{stands_at, is_among, gone_fine_at, gone_fine, survivors, Climbs, Abreast};

// Whether number t of the list is above the one before it, and below n.
fn gone_fine_at(gone: &[u32], n: usize, t: usize) -> bool
    requires { t < length gone.now }
    ensures { result ≡ gone_fine_at gone.now n t }
{
    (t == 0 || gone[t - 1] < gone[t]) && (gone[t] as usize) < n
}

// Whether the list rises strictly and names samples below n.
pub fn gone_fine(gone: &[u32], n: usize) -> bool
    ensures { result ≡ gone_fine gone.now n }
{
    for t in 0..gone.len() {
        if !gone_fine_at(gone, n, t) {
            return false;
        }
    }
    true
}

// Where j stands in a list that rises; its length where it does not.
pub fn place_of(list: &[u32], j: u32) -> usize
    requires { Climbs list.now }
    ensures { result ≡ stands_at list.now j }
{
    list.binary_search(&j).unwrap_or(list.len())
}

pub fn is_among(list: &[u32], j: u32) -> bool
    requires { Climbs list.now }
    ensures { result ≡ is_among list.now j }
{
    list.binary_search(&j).is_ok()
}

// Whether j is in the list, where g keeps abreast of it: all before place g are below j, so only that place is looked at.
pub fn is_next(list: &[u32], g: usize, j: u32) -> bool
    requires { Abreast list.now g j }
    ensures { result ≡ is_among list.now j }
{
    g < list.len() && list[g] == j
}

// Writes the samples that are left, by their old places, to the front of `old`. Answers how many there are.
pub fn put_survivors(gone: &[u32], n: usize, old: &mut [u32]) -> usize
    requires { (n ≤ most_frames) × (n ≤ length old.old) × Climbs gone.now }
    ensures value { result ≡ length (survivors gone.now n) }
    ensures after { old.new ≡ survivors gone.now n ++ drop (length (survivors gone.now n)) old.old }
{
    let mut g = 0;
    let mut q = 0;
    for j in 0..n {
        if is_next(gone, g, j as u32) {
            g += 1;
            continue;
        }
        old[q] = j as u32;
        q += 1;
    }
    q
}
