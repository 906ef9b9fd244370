// The areas, as they are read.
ghost use Rattle.std.specs.Prelude.{◌≡◌, true, false, ◌+◌, ◌*◌, ◌≤◌, length};
ghost use Rattle.little.specs.Little.{word_in};
ghost use Rattle.parked.specs.Fine.{layout_by};
ghost use Rattle.parked_file.specs.File.{is_parked};
ghost use Rattle.unpark.specs.Unpark.{fetched, weights_read, offsets_read};
ghost use Rattle.unpark.specs.Steps.{Narrow, ListsRoom};

use little::word;
use parked::Layout;

// The m words from word b on.
fn fetch_words(area: &mut [u64], file: &[u8], b: usize, m: usize)
    requires { (m ≤ length area.old) × (8 * (b + m) ≤ length file.now) }
    ensures { area.new ≡ fetched (word_in file.now) b m area.old }
{
    for i in 0..m {
        area[i] = word(file, 8 * (b + i));
    }
}

// The same where each is a number of at most 32 bits.
fn fetch_numbers(area: &mut [u32], file: &[u8], b: usize, m: usize)
    requires { (m ≤ length area.old) × (8 * (b + m) ≤ length file.now) × Narrow file.now b m }
    ensures { area.new ≡ fetched (word_in file.now) b m area.old }
{
    for i in 0..m {
        let v = word(file, 8 * (b + i));
        area[i] = v as u32;
    }
}

// Positions, increments and gains.
pub fn fetch_state(
    file: &[u8],
    l: Layout,
    positions: &mut [u64],
    increments: &mut [u64],
    gains: &mut [u64],
)
    requires { (is_parked file.now ≡ true) × (l ≡ layout_by (word_in file.now)) × (l.cells ≤ length positions.old) × (l.cells ≤ length increments.old) × (l.cells ≤ length gains.old) }
    ensures positions_after { positions.new ≡ fetched (word_in file.now) 12 l.cells positions.old }
    ensures increments_after { increments.new ≡ fetched (word_in file.now) l.increments l.cells increments.old }
    ensures gains_after { gains.new ≡ fetched (word_in file.now) l.gains l.cells gains.old }
{
    fetch_words(positions, file, 12, l.cells);
    fetch_words(increments, file, l.increments, l.cells);
    fetch_words(gains, file, l.gains, l.cells);
}

// The affinities: the matrix, or the links' weights, their indices and the offsets.
pub fn fetch_lists(
    file: &[u8],
    l: Layout,
    affinities: &mut [u64],
    indices: &mut [u32],
    offsets: &mut [u32],
)
    requires { (is_parked file.now ≡ true) × (l ≡ layout_by (word_in file.now)) × ListsRoom l (length affinities.old) (length indices.old) (length offsets.old) }
    ensures affinities_after { affinities.new ≡ weights_read (word_in file.now) l affinities.old }
    ensures indices_after { indices.new ≡ fetched (word_in file.now) l.indices l.links indices.old }
    ensures offsets_after { offsets.new ≡ offsets_read (word_in file.now) l offsets.old }
{
    fetch_numbers(indices, file, l.indices, l.links);
    if l.tree {
        fetch_words(affinities, file, l.weights, l.links);
        fetch_numbers(offsets, file, l.affinities, l.held);
        return;
    }
    fetch_words(affinities, file, l.affinities, l.held);
}
