// A partner's list put into the areas of a run: indices and weights in the file's order, offsets by counting.

#![tactic(auto)]

ghost use Rattle.std.specs.Prelude.{◌≡◌, ℕ, ◌+◌, ◌<◌, ◌≤◌, length};
ghost use Rattle.laws.specs.Domain.{most_frames};
ghost use Rattle.partner.specs.Partner.{whole_links, link_from};
ghost use Rattle.partner_load.specs.Loaded.{indices_loaded, weights_loaded, offsets_loaded, FramesRise};

use partner::{LINK_BYTES, link_from, link_to, link_weight};

// The frame that each link names.
pub fn load_indices(file: &[u8], indices: &mut [u32])
    requires { whole_links file.now ≤ length indices.old }
    ensures { indices.new ≡ indices_loaded file.now indices.old }
{
    for p in 0..file.len() / LINK_BYTES {
        indices[p] = link_to(file, p) as u32;
    }
}

// Each link's weight.
pub fn load_weights(file: &[u8], weights: &mut [u64])
    requires { whole_links file.now ≤ length weights.old }
    ensures { weights.new ≡ weights_loaded file.now weights.old }
{
    for p in 0..file.len() / LINK_BYTES {
        weights[p] = link_weight(file, p);
    }
}

// The frame that each link names, and its weight.
pub fn load_links(file: &[u8], indices: &mut [u32], weights: &mut [u64])
    requires { (whole_links file.now ≤ length indices.old) × (whole_links file.now ≤ length weights.old) }
    ensures indices_after { indices.new ≡ indices_loaded file.now indices.old }
    ensures weights_after { weights.new ≡ weights_loaded file.now weights.old }
{
    load_indices(file, indices);
    load_weights(file, weights);
}

// The first link from link a on that does not start at a frame below j; the number of links where there is none.
fn list_from(file: &[u8], a: usize, j: usize) -> usize
    requires { a ≤ whole_links file.now }
    ensures { (a ≤ result) × (result ≤ whole_links file.now)
        × ((p : ℕ) → a ≤ p → p < result → link_from file.now p < j)
        × (result < whole_links file.now → j ≤ link_from file.now result) }
{
    let links = file.len() / LINK_BYTES;
    for p in a..links {
        if j as u64 <= link_from(file, p) {
            return p;
        }
    }
    links
}

// Where the list of each of n frames begins, and where the last one ends.
pub fn load_offsets(file: &[u8], n: usize, offsets: &mut [u32])
    requires { (n ≤ most_frames) × (n + 1 ≤ length offsets.old) × (whole_links file.now < 4294967296) × FramesRise file.now }
    ensures { offsets.new ≡ offsets_loaded file.now n offsets.old }
{
    let mut p = 0;
    for j in 0..n + 1 {
        p = list_from(file, p, j);
        offsets[j] = p as u32;
    }
}
