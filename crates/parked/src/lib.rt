// A parked run: how it lies in its file, what each word is, and which words a run can have.

#![tactic(auto)]

ghost use Rattle.std.specs.Prelude.{◌≡◌, true, false, cond, ◌+◌, ◌*◌, ◌<◌, ◌≤◌, length};
ghost use Rattle.laws.specs.Area.{num};
ghost use Rattle.laws.specs.Domain.{most_components, most_frames};
ghost use Rattle.parked.specs.Layout.{filled_up, layout_of};
ghost use Rattle.parked.specs.Parked.{stored_of, head_of, area_word, state_word, affinity_word, parked_word, StoredRoom};

// How a run lies: where each area starts, in words of the file, and how many words it has before its filling.
#[derive(Clone, Copy)]
pub struct Layout {
    // a Barnes-Hut run
    pub tree: bool,
    // frames
    pub n: usize,
    // positions, increments and gains, n·c words each; positions start at word 12
    pub cells: usize,
    // the words from `affinities` on: n + 1 offsets, exact the matrix of n·n
    pub held: usize,
    // the links listed, indices and then weights; none of an exact run
    pub links: usize,
    pub increments: usize,
    pub gains: usize,
    pub affinities: usize,
    pub indices: usize,
    pub weights: usize,
    // the words in all
    pub end: usize,
}

// m words, filled up to whole records.
fn filled_up(m: usize) -> usize
    requires { m ≤ 40000000 }
    ensures { (result ≡ filled_up m) × (result ≤ m + 3) }
{
    (m + 3) / 4 * 4
}

// How many positions a run has.
fn cells_of(n: usize, c: usize) -> usize
    requires { (n ≤ most_frames) × (c ≤ most_components) }
    ensures { (result ≡ n * c) × (result ≤ 32768) }
{
    n * c
}

// How many words the affinities' first area has: n + 1 offsets, or a matrix.
fn held_of(tree: bool, n: usize) -> usize
    requires { n ≤ most_frames }
    ensures { (result ≡ cond tree (n + 1) (n * n)) × (result ≤ 16777216) }
{
    if tree {
        return n + 1;
    }
    n * n
}

// How a run of n frames in c components lies, with so many links.
pub fn layout_of(tree: bool, n: usize, c: usize, links: usize) -> Layout
    requires { (n ≤ most_frames) × (c ≤ most_components) × (links ≤ 40000000) }
    ensures { result ≡ layout_of tree n c links }
{
    let cells = cells_of(n, c);
    let held = held_of(tree, n);
    let room = filled_up(cells);
    let increments = 12 + room;
    let gains = increments + room;
    let affinities = gains + room;
    let indices = affinities + filled_up(held);
    let listed = filled_up(links);
    let weights = indices + listed;
    let end = weights + listed;
    Layout {
        tree,
        n,
        cells,
        held,
        links,
        increments,
        gains,
        affinities,
        indices,
        weights,
        end,
    }
}

// The angle's bits; of an exact run none.
fn angle_word(words: &[u64], tree: bool) -> u64
    requires { 14 ≤ length words.now }
    ensures { result ≡ cond tree (num words.now 7) 0 }
{
    if tree {
        return words[7];
    }
    0
}

// A word of the first three records.
fn head_word(words: &[u64], l: Layout, w: usize) -> u64
    requires { (14 ≤ length words.now) × (w < 12) }
    ensures { result ≡ num (head_of l words.now) w }
{
    let angle = angle_word(words, l.tree);
    let links = l.links as u64;
    let head = [
        words[3], words[0], words[1], words[2], words[4], words[5], words[6], angle, words[8],
        words[10], words[9], links,
    ];
    head[w]
}

// A word of an area of m words that starts at word b.
fn area_word(area: &[u64], b: usize, m: usize, w: usize) -> u64
    requires { (b ≤ w) × (m ≤ length area.now) }
    ensures { result ≡ area_word area.now b m w }
{
    let k = w - b;
    if k < m {
        return area[k];
    }
    0
}

// The same of indices or offsets.
fn area_number(area: &[u32], b: usize, m: usize, w: usize) -> u64
    requires { (b ≤ w) × (m ≤ length area.now) }
    ensures { result ≡ area_word area.now b m w }
{
    let k = w - b;
    if k < m {
        return area[k] as u64;
    }
    0
}

// A word of positions, increments or gains.
fn state_word(positions: &[u64], increments: &[u64], gains: &[u64], l: Layout, w: usize) -> u64
    requires { (12 ≤ w) × (l.cells ≤ length positions.now) × (l.cells ≤ length increments.now) × (l.cells ≤ length gains.now) }
    ensures { result ≡ state_word l positions.now increments.now gains.now w }
{
    if w < l.increments {
        return area_word(positions, 12, l.cells, w);
    }
    if w < l.gains {
        return area_word(increments, l.increments, l.cells, w);
    }
    area_word(gains, l.gains, l.cells, w)
}

// A word of the matrix, or of offsets, indices or weights.
fn affinity_word(affinities: &[u64], indices: &[u32], offsets: &[u32], l: Layout, w: usize) -> u64
    requires { (l.affinities ≤ w) × (l.tree ≡ false → l.held ≤ length affinities.now) × (l.tree ≡ true → l.held ≤ length offsets.now) × (l.links ≤ length indices.now) × (l.links ≤ length affinities.now) }
    ensures { result ≡ affinity_word l affinities.now indices.now offsets.now w }
{
    if w < l.indices {
        if l.tree {
            return area_number(offsets, l.affinities, l.held, w);
        }
        return area_word(affinities, l.affinities, l.held, w);
    }
    if w < l.weights {
        return area_number(indices, l.indices, l.links, w);
    }
    area_word(affinities, l.weights, l.links, w)
}

// Word w of the file.
pub fn parked_word(
    words: &[u64],
    positions: &[u64],
    increments: &[u64],
    gains: &[u64],
    affinities: &[u64],
    indices: &[u32],
    offsets: &[u32],
    l: Layout,
    w: usize,
) -> u64
    requires { StoredRoom l (stored_of words.now positions.now increments.now gains.now affinities.now indices.now offsets.now) }
    ensures { result ≡ parked_word l (stored_of words.now positions.now increments.now gains.now affinities.now indices.now offsets.now) w }
{
    if w < 12 {
        return head_word(words, l, w);
    }
    if w < l.affinities {
        return state_word(positions, increments, gains, l, w);
    }
    affinity_word(affinities, indices, offsets, l, w)
}
