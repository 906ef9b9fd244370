// Worked examples: functions that lend a local array of structs, or a local struct of their own, to a callee. The borrow checker follows them; no other crate uses them.
// `cell_at` and `put_cell` are called with what is lent, and `put_from` with slices of numbers beside it.

#![tactic(auto)]

ghost use Rattle.std.specs.Prelude.{◌≡◌, ◌<◌, ◌≤◌, length, set};
ghost use Rattle.tree_node.specs.Arena.{cell_at};
ghost use Rattle.lent_examples.specs.Lending.{value_or, valued, CountFits, bumped_of, placed_of, noted_of};

use tree_node::Cell;

fn cell_at(cells: &[Cell], i: usize) -> Cell
    requires { i < length cells.now }
    ensures { result ≡ cell_at cells.now i }
{
    cells[i]
}

fn put_cell(cells: &mut [Cell], i: usize, v: Cell)
    requires { i < length cells.old }
    ensures { cells.new ≡ set cells.old i v }
{
    cells[i] = v;
}

// ---- A local array, lent whole as a `&mut [T]`.

pub fn put_in(cells: [Cell; 8], i: usize, v: Cell) -> [Cell; 8]
    requires { i < 8 }
    ensures { result ≡ set cells i v }
{
    let mut own = cells;
    put_cell(&mut own, i, v);
    own
}

// Whole as a `&[T]`.
pub fn get_from(cells: [Cell; 8], i: usize) -> Cell
    requires { i < 8 }
    ensures { result ≡ cell_at cells i }
{
    let own = cells;
    let v = cell_at(&own, i);
    v
}

// ---- Its first k elements, lent as a `&mut [T]`.

pub fn put_front(cells: [Cell; 8], k: usize, i: usize, v: Cell) -> [Cell; 8]
    requires { (i < k) × (k ≤ 8) }
    ensures { result ≡ set cells i v }
{
    let mut own = cells;
    put_cell(&mut own[..k], i, v);
    own
}

// As a `&[T]`.
pub fn front_at(cells: [Cell; 8], k: usize, i: usize) -> Cell
    requires { (i < k) × (k ≤ 8) }
    ensures { result ≡ cell_at cells i }
{
    let own = cells;
    let v = cell_at(&own[..k], i);
    v
}

// ---- A local struct, lent as a `&mut S`.

#[derive(Clone, Copy)]
pub struct Counter {
    pub total: u64,
    pub last: f64,
}

// By value: all that `bump` does but for the reference.
pub fn counted(c: Counter, more: u32, mark: f64) -> Counter
    requires { CountFits c more }
    ensures { result ≡ bumped_of c more mark }
{
    let wide = more as u64;
    Counter {
        total: c.total + wide,
        last: mark,
    }
}

pub fn bump(c: &mut Counter, more: u32, mark: f64)
    requires { CountFits c.old more }
    ensures { c.new ≡ bumped_of c.old more mark }
{
    let old = *c;
    let next = counted(old, more, mark);
    *c = next;
}

pub fn bumped(c: Counter, more: u32, mark: f64) -> Counter
    requires { CountFits c more }
    ensures { result ≡ bumped_of c more mark }
{
    let mut own = c;
    bump(&mut own, more, mark);
    own
}

// ---- A part of a local array beside slices of numbers that the caller was lent.

pub fn value_at(values: &[f64], i: usize) -> f64
    requires { i < length values.now }
    ensures { result ≡ value_or values.now i }
{
    values[i]
}

pub fn put_mark(marks: &mut [u32], i: usize, m: u32)
    requires { i < length marks.old }
    ensures { marks.new ≡ set marks.old i m }
{
    marks[i] = m;
}

pub fn with_value(x: Cell, y: f64) -> Cell
    ensures { result ≡ valued x y }
{
    let mut next = x;
    next.half = [y, y, y];
    next
}

// The cell i with the value i in it, and its mark set; the mark that was set.
pub fn put_from(cells: &mut [Cell], values: &[f64], marks: &mut [u32], i: usize, m: u32) -> u32
    requires { (i < length cells.old) × (i < length values.now) × (i < length marks.old) }
    ensures { (result ≡ m)
        × (cells.new
        ≡ set cells.old i (valued (cell_at cells.old i) (value_or values.now i)))
        × (marks.new ≡ set marks.old i m) }
{
    let old = cell_at(cells, i);
    let y = value_at(values, i);
    let next = with_value(old, y);
    put_cell(cells, i, next);
    put_mark(marks, i, m);
    m
}

// What a caller returns that has such an array: a struct with the array in it, made by a covered function.
#[derive(Clone, Copy)]
pub struct Placed {
    pub mark: u32,
    pub cells: [Cell; 8],
}

pub fn with_mark(mark: u32, cells: [Cell; 8]) -> Placed
    ensures { result ≡ placed_of mark cells }
{
    Placed { mark, cells }
}

pub fn put_from_own(
    cells: [Cell; 8],
    k: usize,
    values: &[f64],
    marks: &mut [u32],
    i: usize,
    m: u32,
) -> Placed
    requires { (i < k) × (k ≤ 8) × (i < length values.now) × (i < length marks.old) }
    ensures { (result ≡ placed_of m (set cells i (valued (cell_at cells i) (value_or values.now i)))) × (marks.new ≡ set marks.old i m) }
{
    let mut own = cells;
    let mark = put_from(&mut own[..k], values, marks, i, m);
    let p = with_mark(mark, own);
    p
}

// ---- A local struct and a part of a local array, lent to one callee beside a slice of numbers.

pub fn note_from(c: &mut Counter, cells: &mut [Cell], values: &[f64], i: usize, more: u32)
    requires { (CountFits c.old more) × (i < length cells.old) × (i < length values.now) }
    ensures { (c.new ≡ bumped_of c.old more (value_or values.now i))
        × (cells.new
        ≡ set cells.old i (valued (cell_at cells.old i) (value_or values.now i))) }
{
    let old = *c;
    let y = value_at(values, i);
    let next = counted(old, more, y);
    *c = next;
    let x = cell_at(cells, i);
    let z = with_value(x, y);
    put_cell(cells, i, z);
}

#[derive(Clone, Copy)]
pub struct Noted {
    pub counter: Counter,
    pub cells: [Cell; 8],
}

pub fn note_of(counter: Counter, cells: [Cell; 8]) -> Noted
    ensures { result ≡ noted_of counter cells }
{
    Noted { counter, cells }
}

pub fn note_own(
    c: Counter,
    cells: [Cell; 8],
    k: usize,
    values: &[f64],
    i: usize,
    more: u32,
) -> Noted
    requires { (CountFits c more) × (i < k) × (k ≤ 8) × (i < length values.now) }
    ensures { result ≡ noted_of (bumped_of c more (value_or values.now i)) (set cells i (valued (cell_at cells i) (value_or values.now i))) }
{
    let mut counter = c;
    let mut own = cells;
    note_from(&mut counter, &mut own[..k], values, i, more);
    let n = note_of(counter, own);
    n
}
