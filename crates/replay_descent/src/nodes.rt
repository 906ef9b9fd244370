// The nodes of an arena as a list has them: a node is twelve words, fields 0 to 8 values and 9 to 11 numbers.
ghost use Rattle.std.specs.Prelude.{◌≤◌};

use crate::run_areas::more;
use replay::areas::{narrow, plus};
use replay::word_at;
use tree_node::Cell;

// Three values whose first is field a: one of them takes the value, where it is field f.
fn three_with(t: [f64; 3], a: usize, f: usize, w: u64) -> [f64; 3] {
    let mut r = t;
    if f >= a {
        let d = f - a;
        if d < 3 {
            r[d] = elementary::value_of(w);
        }
    }
    r
}

// A number that is field a.
fn number_with(x: u32, a: usize, f: usize, w: u64) -> u32 {
    if f == a {
        return narrow(w);
    }
    x
}

// The cell with field f altered.
fn cell_with(v: Cell, f: usize, w: u64) -> Cell {
    let z = v.centre;
    let h = v.half;
    let m = v.mass;
    let centre = three_with(z, 0, f, w);
    let half = three_with(h, 3, f, w);
    let mass = three_with(m, 6, f, w);
    Cell {
        centre,
        half,
        mass,
        count: number_with(v.count, 9, f, w),
        first: number_with(v.first, 10, f, w),
        leaf: number_with(v.leaf, 11, f, w),
    }
}

// The alteration at word b, if it is of this part: place 12 i + f is field f of node i.
pub(crate) fn alter_cells(cells: [Cell; 512], list: &[u8], b: usize, part: u64) -> [Cell; 512] {
    let mut own = cells;
    if word_at(list, b) == part {
        let place = word_at(list, plus(b, 1)) as usize;
        let w = word_at(list, plus(b, 2));
        let i = place / 12;
        if i < 512 {
            let v = own[i];
            let u = cell_with(v, place % 12, w);
            own[i] = u;
        }
    }
    own
}

// The digest with three values more.
fn more_three(digest: u64, t: [f64; 3]) -> u64 {
    let a = more(digest, elementary::bits_of(t[0]));
    let b = more(a, elementary::bits_of(t[1]));
    more(b, elementary::bits_of(t[2]))
}

// The digest with the twelve words of a node more.
fn more_cell(digest: u64, v: Cell) -> u64 {
    let centre = v.centre;
    let half = v.half;
    let mass = v.mass;
    let a = more_three(more_three(more_three(digest, centre), half), mass);
    let b = more(a, v.count as u64);
    let c = more(b, v.first as u64);
    more(c, v.leaf as u64)
}

// The digest of the first m nodes.
fn digest_cells(cells: [Cell; 512], m: usize) -> u64
    requires { m ≤ 512 }
{
    cells[..m].iter().fold(m as u64, |d, v| more_cell(d, *v))
}

// As many nodes as word i says have the digest of word j, each word k further on; more than there is room for counts as wrong.
pub(crate) fn same_cells(cells: [Cell; 512], list: &[u8], i: usize, j: usize, k: usize) -> bool {
    let m = word_at(list, plus(i, k)) as usize;
    if m > 512 {
        return false;
    }
    digest_cells(cells, m) == word_at(list, plus(j, k))
}
