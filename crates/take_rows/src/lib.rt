// Areas with a row for each frame, packed in place: the rows of the frames that are left close ranks, zeros follow up to the old size.
// Values that are only moved stand as words, by their bits, so that those of a NaN are kept too.
// Writing never passes reading, since no frame stands lower than its new place.

#![tactic(auto)]

ghost use Rattle.std.specs.Prelude.{◌≡◌, ◌++◌, ◌+◌, ◌*◌, ◌≤◌, length, drop, take};
ghost use Rattle.std.specs.Float.{binary64};
ghost use Rattle.std.specs.Float.Ieee.{sub};
ghost use Rattle.laws.specs.Area.{at, num, zero64};
ghost use Rattle.laws.specs.Joined.{each};
ghost use Rattle.laws.specs.Domain.{most_features, most_frames};
ghost use Rattle.take_rows.specs.Rows.{shrunk, kept_rows, kept_square, centred_rows, Staying, Means};

// Puts the columns of the frames in `keep`, of the row from place `from` on, at place `to`, no higher up.
fn bring_columns(area: &mut [u64], from: usize, to: usize, n: usize, keep: &[u32])
    requires { (to ≤ from) × (from + n ≤ length area.old) × Staying keep.now n }
    ensures { area.new ≡ take to area.old ++ (each (λ j. num area.old (from + num keep.now j)) (length keep.now) ++ drop (to + length keep.now) area.old) }
{
    for j in 0..keep.len() {
        area[to + j] = area[from + keep[j] as usize];
    }
}

// Puts the c components from place `from` on at place `to`, no higher up, each less its mean.
fn bring_centred(area: &mut [f64], from: usize, to: usize, c: usize, means: &[f64; 8])
    requires { (c ≤ 8) × (to ≤ from) × (from + c ≤ length area.old) }
    ensures { area.new ≡ take to area.old ++ (each (λ d. sub binary64 (at area.old (from + d)) (at means.now d)) c ++ drop (to + c) area.old) }
{
    for d in 0..c {
        area[to + d] = area[from + d] - means[d];
    }
}

// An area of n rows of w words: the rows of the frames in `keep`, then zeros.
pub fn pack_rows(area: &mut [u64], n: usize, w: usize, keep: &[u32])
    requires { (n ≤ most_frames) × (w ≤ most_features) × (n * w ≤ length area.old) × Staying keep.now n }
    ensures { area.new ≡ shrunk 0 (n * w) (kept_rows keep.now w area.old) area.old }
{
    for i in 0..keep.len() {
        let from = keep[i] as usize * w;
        area.copy_within(from..from + w, i * w);
    }
    area[keep.len() * w..n * w].fill(0);
}

// A matrix of n rows of n words: the rows and columns of the frames in `keep`, then zeros.
pub fn pack_square(area: &mut [u64], n: usize, keep: &[u32])
    requires { (n ≤ most_frames) × (n * n ≤ length area.old) × Staying keep.now n }
    ensures { area.new ≡ shrunk 0 (n * n) (kept_square keep.now n area.old) area.old }
{
    let m = keep.len();
    for i in 0..m {
        bring_columns(area, keep[i] as usize * n, i * m, n, keep);
    }
    area[m * m..n * n].fill(0);
}

// Positions, n rows of c: the rows of the frames in `keep`, each component less its mean, then zeros.
pub fn pack_centred(positions: &mut [f64], n: usize, c: usize, keep: &[u32], means: &[f64; 8])
    requires { (n ≤ most_frames) × (c ≤ 8) × (n * c ≤ length positions.old) × Staying keep.now n × Means keep.now c positions.old means.now }
    ensures { positions.new ≡ shrunk zero64 (n * c) (centred_rows keep.now c positions.old) positions.old }
{
    for i in 0..keep.len() {
        bring_centred(positions, keep[i] as usize * c, i * c, c, means);
    }
    positions[keep.len() * c..n * c].fill(0.0);
}
