// The link of one frame with another while the lists are written, and where a frame stands in a row.

#![tactic(auto)]

ghost use Rattle.std.specs.Prelude.{◌≡◌, ◌+◌, ◌-◌, ◌*◌, ◌<◌, ◌≤◌, length};
ghost use Rattle.std.specs.Bool.{then_some};
ghost use Rattle.laws.specs.Domain.{most_frames};
ghost use Rattle.laws.specs.Area.{num, zero64};
ghost use Rattle.affinity_links.specs.Links.{Rising, found_place, past, held_of, cursor_of, fallen_of, plus_fallen, below_yes, below_weight, above_yes, above_weight, sought_yes, sought_weight, sought_row, sought_cursor, Within, WithinBoth, Sought};

// The place of j among the k numbers from a on, which rise.
pub fn find(indices: &[u32], a: usize, k: usize, j: u32) -> Option<usize>
    requires { (a + k ≤ length indices.now) × Rising indices.now a k }
    ensures { result ≡ found_place indices.now a k j }
{
    indices[a..a + k].binary_search(&j).ok()
}

// A cursor c in the numbers from a on as one word, with one more than the number just below it; 0 if nothing is below it. So a look at the word tells whether the cursor is to fall.
pub fn held(indices: &[u32], a: usize, c: usize) -> u32
    requires { (c ≤ most_frames) × (a + c ≤ length indices.now) × (0 < c → past indices.now a (c - 1) < most_frames) }
    ensures { result ≡ held_of (past indices.now a) c }
{
    if c == 0 {
        return 0;
    }
    c as u32 * 8192 + (indices[a + (c - 1)] + 1)
}

// The word w of a cursor while the frames fall: the cursor is one lower if the number just below it is j.
fn fallen(indices: &[u32], a: usize, w: u32, j: u32) -> u32
    requires { (j < most_frames) × Within indices.now a w }
    ensures { result ≡ fallen_of (past indices.now a) w j }
{
    if w % 8192 != j + 1 {
        return w;
    }
    held(indices, a, (w / 8192) as usize - 1)
}

// v, and the value at the cursor of p past a if the cursor fell from w to p.
fn plus(values: &[f64], a: usize, w: u32, p: u32, v: f64) -> f64
    requires { p < w → a + cursor_of p < length values.now }
    ensures { result ≡ plus_fallen values.now a w p v }
{
    if p < w {
        return v + values[a + (p / 8192) as usize];
    }
    v
}

// +0.0, then the value at the cursor of p past a if it fell from w, then the value at the cursor of r past b if it fell from c.
fn joint(values: &[f64], a: usize, w: u32, p: u32, b: usize, c: u32, r: u32) -> f64
    requires { (p < w → a + cursor_of p < length values.now) × (r < c → b + cursor_of r < length values.now) }
    ensures { result ≡ plus_fallen values.now b c r (plus_fallen values.now a w p zero64) }
{
    let v = plus(values, a, w, p, 0.0);
    plus(values, b, c, r, v)
}

// The weight of the link of two frames, where they are linked. Then the words of the cursors: of row i, and of row j or list j.
#[derive(Clone, Copy)]
pub struct Link {
    pub weight: Option<f64>,
    pub row: u32,
    pub cursor: u32,
}

// The link of frame i with a frame j below it, from row i with the word c and row j with the word w.
fn link_below(
    weights: &[f64],
    indices: &[u32],
    k: usize,
    i: usize,
    j: usize,
    c: u32,
    w: u32,
) -> Link
    requires { (i < most_frames) × (j < most_frames) × WithinBoth weights.now indices.now (i * k) c × WithinBoth weights.now indices.now (j * k) w }
    ensures weight_value { result.weight ≡ then_some (below_yes indices.now k i j c w) (below_weight weights.now indices.now k i j c w) }
    ensures row_value { result.row ≡ fallen_of (past indices.now (i * k)) c j }
    ensures cursor_value { result.cursor ≡ fallen_of (past indices.now (j * k)) w i }
{
    let r = fallen(indices, i * k, c, j as u32);
    let p = fallen(indices, j * k, w, i as u32);
    let weight = joint(weights, j * k, w, p, i * k, c, r);
    Link {
        weight: (r < c || p < w).then_some(weight),
        row: r,
        cursor: p,
    }
}

// The link of frame i with a frame j above it, from the finished list j with the word w. The word c of row i stays.
fn link_above(
    weights: &[f64],
    indices: &[u32],
    offsets: &[u32],
    i: usize,
    j: usize,
    c: u32,
    w: u32,
) -> Link
    requires { (i < most_frames) × (j < length offsets.now) × WithinBoth weights.now indices.now (num offsets.now j) w }
    ensures weight_value { result.weight ≡ then_some (above_yes indices.now offsets.now i j w) (above_weight weights.now indices.now offsets.now i j w) }
    ensures row_value { result.row ≡ c }
    ensures cursor_value { result.cursor ≡ fallen_of (past indices.now (num offsets.now j)) w i }
{
    let o = offsets[j] as usize;
    let p = fallen(indices, o, w, i as u32);
    let weight = if p < w {
        Some(weights[o + (p / 8192) as usize])
    } else {
        None
    };
    Link {
        weight,
        row: c,
        cursor: p,
    }
}

// The link of frame i with another frame j, while list i is written.
pub fn link_of(
    weights: &[f64],
    indices: &[u32],
    offsets: &[u32],
    k: usize,
    i: usize,
    j: usize,
    c: u32,
    w: u32,
) -> Link
    requires { Sought weights.now indices.now offsets.now k i j c w }
    ensures weight_value { result.weight ≡ then_some (sought_yes indices.now offsets.now k i j c w) (sought_weight weights.now indices.now offsets.now k i j c w) }
    ensures row_value { result.row ≡ sought_row indices.now k i j c }
    ensures cursor_value { result.cursor ≡ sought_cursor indices.now offsets.now k i j w }
{
    if j < i {
        return link_below(weights, indices, k, i, j, c, w);
    }
    link_above(weights, indices, offsets, i, j, c, w)
}
