// Cells that nothing has touched are recognised by their marks, and an arena is compared with a copy of it, field by field.
ghost use Rattle.std.specs.Prelude.{◌≡◌, ◌+◌, ◌≤◌, ◌&&◌, replicate};
ghost use Rattle.laws.specs.Loops.{loop};
ghost use Rattle.replay_arena.specs.Marks.{real_mark, three_marks, marked_cell, mark_step, real_stands, reals_stand, cell_stands, cells_stand};

use elementary::{bits_of, value_of};
use tree_node::Cell;

// Where a value is to be, at place i: the value with the bits 4000000000000000 + i.
fn real_mark(i: usize) -> f64
    ensures { result ≡ real_mark i }
{
    value_of(0x4000000000000000u64.wrapping_add(i as u64))
}

// Where a number is to be: 40000000 + i, in hex.
fn word_mark(i: usize) -> u32
    requires { i ≤ 10000 }
    ensures { result ≡ 0x40000000 + i }
{
    (0x40000000 + i) as u32
}

// Three values from place a on.
fn three_marks(a: usize) -> [f64; 3]
    requires { a ≤ 10000 }
    ensures { result ≡ three_marks a }
{
    [real_mark(a), real_mark(a + 1), real_mark(a + 2)]
}

// Cell i: its nine values and three numbers have the places from 12 i on.
fn marked_cell(i: usize) -> Cell
    requires { i ≤ 512 }
    ensures { result ≡ marked_cell i }
{
    let a = 12 * i;
    let centre = three_marks(a);
    let half = three_marks(a + 3);
    let mass = three_marks(a + 6);
    Cell {
        centre,
        half,
        mass,
        count: word_mark(a + 9),
        first: word_mark(a + 10),
        leaf: word_mark(a + 11),
    }
}

// An arena of marks.
pub fn marked() -> [Cell; 512]
    ensures { result ≡ loop mark_step 512 0 (replicate 512 (marked_cell 0)) }
{
    let v = marked_cell(0);
    let mut cells = [v; 512];
    for i in 0..512 {
        let w = marked_cell(i);
        cells[i] = w;
    }
    cells
}

// Bit by bit.
fn same_real(x: f64, y: f64) -> bool
    ensures { result ≡ real_stands x y }
{
    bits_of(x) == bits_of(y)
}

fn same_reals(a: [f64; 3], b: [f64; 3]) -> bool
    ensures { result ≡ reals_stand a b }
{
    same_real(a[0], b[0]) && same_real(a[1], b[1]) && same_real(a[2], b[2])
}

// Every field.
fn same_cell(a: Cell, b: Cell) -> bool
    ensures { result ≡ cell_stands a b }
{
    same_reals(a.centre, b.centre)
        && same_reals(a.half, b.half)
        && same_reals(a.mass, b.mass)
        && a.count == b.count
        && a.first == b.first
        && a.leaf == b.leaf
}

// Whether one arena is the other, in all its cells.
pub fn same_cells(a: [Cell; 512], b: [Cell; 512]) -> bool
    ensures { result ≡ cells_stand a b }
{
    for i in 0..512 {
        if !same_cell(a[i], b[i]) {
            return false;
        }
    }
    true
}
