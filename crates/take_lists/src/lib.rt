// The neighbour lists packed in place: the lists of the frames that are left close ranks, links to the others vanish, and the frames named get their new numbers. Weights are only moved and stand as words, by their bits.
// Writing never passes reading: no list grows, and no frame stands lower than its new place.

#![tactic(auto)]

ghost use Rattle.std.specs.Prelude.{◌≡◌, ℕ, ◌+◌, ◌<◌, ◌≤◌, length};
ghost use Rattle.laws.specs.Area.{num};
ghost use Rattle.laws.specs.Domain.{most_frames};
ghost use Rattle.laws.specs.Joined.{written};
ghost use Rattle.take_gone.specs.Gone.{survivors, Climbs};
ghost use Rattle.take_rows.specs.Rows.{shrunk, cleared_from, Staying};
ghost use Rattle.take_lists.specs.Packed.{links_left, packed_indices, packed_weights, packed_offsets, Listed};
ghost use Rattle.take_lists.specs.Steps.{named_left, kept_from, indices_from, weights_from, closed_weights, closed_indices, closed_offsets};

use take_gone::{is_among, is_next, place_of};

// Of the k frames named from place a on, how many are not in `gone`.
fn list_left(gone: &[u32], indices: &[u32], a: usize, k: usize) -> usize
    requires { Climbs gone.now × (a + k ≤ length indices.now) }
    ensures { result ≡ named_left gone.now indices.now a k }
{
    let mut c = 0;
    for t in 0..k {
        if !is_among(gone, indices[a + t]) {
            c += 1;
        }
    }
    c
}

// How many links are left of n lists once the frames in `gone` are taken out.
pub fn links_left(gone: &[u32], n: usize, indices: &[u32], offsets: &[u32]) -> usize
    requires { (n ≤ most_frames) × Climbs gone.now × Listed n (length indices.now) (length indices.now) offsets.now × ((i : ℕ) → i < num offsets.now n → num indices.now i < n) }
    ensures { result ≡ links_left (survivors gone.now n) indices.now offsets.now }
{
    let mut c = 0;
    let mut g = 0;
    for j in 0..n {
        if is_next(gone, g, j as u32) {
            g += 1;
            continue;
        }
        let a = offsets[j] as usize;
        c += list_left(gone, indices, a, offsets[j + 1] as usize - a);
    }
    c
}

// Writes the links that are left of the k from place a on, from place q on. Answers where they end.
fn pack_list(
    weights: &mut [u64],
    indices: &mut [u32],
    keep: &[u32],
    a: usize,
    k: usize,
    q: usize,
) -> usize
    requires { Climbs keep.now × (length keep.now ≤ most_frames) × (q ≤ a) × (a + k ≤ length weights.old) × (a + k ≤ length indices.old) }
    ensures value { result ≡ q + length (kept_from keep.now indices.old a k) }
    ensures weights_after { weights.new ≡ written (weights_from keep.now weights.old indices.old a k) q weights.old }
    ensures indices_after { indices.new ≡ written (indices_from keep.now indices.old a k) q indices.old }
{
    let mut e = q;
    for t in 0..k {
        let x = place_of(keep, indices[a + t]);
        if x >= keep.len() {
            continue;
        }
        weights[e] = weights[a + t];
        indices[e] = x as u32;
        e += 1;
    }
    e
}

// The places from a up to b become z.
fn clear_between<T: Copy>(area: &mut [T], a: usize, b: usize, z: T)
    requires { (a ≤ b) × (b ≤ length area.old) }
    ensures { area.new ≡ cleared_from z a b area.old }
{
    for p in a..b {
        area[p] = z;
    }
}

// The lists of all frames in `keep`, one after the other, and where each begins and the last one ends. Answers how many links there are.
fn pack_all(
    weights: &mut [u64],
    indices: &mut [u32],
    offsets: &mut [u32],
    n: usize,
    keep: &[u32],
) -> usize
    requires { (n ≤ most_frames) × Climbs keep.now × Staying keep.now n × Listed n (length weights.old) (length indices.old) offsets.old }
    ensures value { result ≡ links_left keep.now indices.old offsets.old }
    ensures weights_after { weights.new ≡ closed_weights keep.now weights.old indices.old offsets.old }
    ensures indices_after { indices.new ≡ closed_indices keep.now indices.old offsets.old }
    ensures offsets_after { offsets.new ≡ closed_offsets keep.now indices.old offsets.old }
{
    let mut q = 0;
    for i in 0..keep.len() {
        let j = keep[i] as usize;
        let a = offsets[j] as usize;
        let k = offsets[j + 1] as usize - a;
        offsets[i] = q as u32;
        q = pack_list(weights, indices, keep, a, k, q);
    }
    offsets[keep.len()] = q as u32;
    q
}

// Packs weights, indices and offsets of n lists; zeros follow up to the old number of links and of offsets.
pub fn pack_lists(
    weights: &mut [u64],
    indices: &mut [u32],
    offsets: &mut [u32],
    n: usize,
    keep: &[u32],
)
    requires { (n ≤ most_frames) × Climbs keep.now × Staying keep.now n × Listed n (length weights.old) (length indices.old) offsets.old }
    ensures { (weights.new ≡ shrunk 0 (num offsets.old n) (packed_weights keep.now weights.old indices.old offsets.old) weights.old)
        × (indices.new ≡ shrunk 0 (num offsets.old n) (packed_indices keep.now indices.old offsets.old) indices.old)
        × (offsets.new ≡ shrunk 0 (n + 1) (packed_offsets keep.now indices.old offsets.old) offsets.old) }
{
    let links = offsets[n] as usize;
    let q = pack_all(weights, indices, offsets, n, keep);
    clear_between(weights, q, links, 0);
    clear_between(indices, q, links, 0);
    clear_between(offsets, keep.len() + 1, n + 1, 0);
}
