// Squared distances between frames by x²ᵢ + x²ⱼ - 2·xᵢxⱼ, the squares worked out once for each frame.

#![tactic(auto)]

ghost use Rattle.std.specs.Prelude.{◌≡◌, ◌+◌, ◌*◌, ◌<◌, ◌≤◌, length};
ghost use Rattle.std.specs.Float.{binary64};
ghost use Rattle.std.specs.Float.Ieee.{add, sub, mul};
ghost use Rattle.laws.specs.Loops.{loop};
ghost use Rattle.laws.specs.Area.{at, zero64, two64};
ghost use Rattle.elementary.specs.Limits.{unless_above};
ghost use Rattle.affinity_distances.specs.Distances.{dot_of, square_of, squares_of, distance_of, distance_step, distance_row, Squared};

// The product of frames i and j of a table of f features: by rising feature, from +0.0 on.
fn dot(table: &[f64], f: usize, i: usize, j: usize) -> f64
    requires { (i * f + f ≤ length table.now) × (j * f + f ≤ length table.now) }
    ensures { result ≡ dot_of table.now f i j }
{
    let a = i * f;
    let b = j * f;
    let mut sum = 0.0;
    for k in 0..f {
        sum = sum + table[a + k] * table[b + k];
    }
    sum
}

// The squares of n frames, into the first n places of an area.
pub fn square_frames(table: &[f64], n: usize, f: usize, squares: &mut [f64])
    requires { (n * f ≤ length table.now) × (n ≤ length squares.old) }
    ensures { squares.new ≡ squares_of table.now n f squares.old }
{
    for i in 0..n {
        squares[i] = dot(table, f, i, i);
    }
}

// The squared distance between two frames with the squares x and y and the product z.
fn distance_by(x: f64, y: f64, z: f64) -> f64
    ensures { result ≡ unless_above zero64 (sub binary64 (add binary64 x y) (mul binary64 two64 z)) }
{
    elementary::limits::unless_above(0.0, x + y - 2.0 * z)
}

// The squared distance between frames i and j, whose squares are known.
fn distance(table: &[f64], f: usize, squares: &[f64], i: usize, j: usize) -> f64
    requires f_in_bounds { (i * f + f ≤ length table.now) × (j * f + f ≤ length table.now) × (i < length squares.now) × (j < length squares.now) }
    requires i_value { (at squares.now i ≡ square_of table.now f i) × (at squares.now j ≡ square_of table.now f j) }
    ensures { result ≡ distance_of table.now f i j }
{
    distance_by(squares[i], squares[j], dot(table, f, i, j))
}

// A frame's products with four frames that follow each other.
#[derive(Clone, Copy)]
struct Dots {
    first: f64,
    second: f64,
    third: f64,
    fourth: f64,
}

// The products of frame i with frames j to j + 3, side by side: each by rising feature, from +0.0 on.
fn dot_four(table: &[f64], f: usize, i: usize, j: usize) -> Dots
    requires { (i * f + f ≤ length table.now) × (j * f + 4 * f ≤ length table.now) }
    ensures { (result.first ≡ dot_of table.now f i j) × (result.second ≡ dot_of table.now f i (j + 1)) × (result.third ≡ dot_of table.now f i (j + 2)) × (result.fourth ≡ dot_of table.now f i (j + 3)) }
{
    let o = i * f;
    let a = j * f;
    let b = a + f;
    let c = b + f;
    let d = c + f;
    let mut first = 0.0;
    let mut second = 0.0;
    let mut third = 0.0;
    let mut fourth = 0.0;
    for k in 0..f {
        let x = table[o + k];
        first = first + x * table[a + k];
        second = second + x * table[b + k];
        third = third + x * table[c + k];
        fourth = fourth + x * table[d + k];
    }
    Dots {
        first,
        second,
        third,
        fourth,
    }
}

// The distances of frame i to frames j to j + 3, into places j to j + 3 of a row.
fn distance_four(table: &[f64], f: usize, squares: &[f64], i: usize, j: usize, row: &mut [f64])
    requires f_in_bounds { (i * f + f ≤ length table.now) × (j * f + 4 * f ≤ length table.now) × (i < length squares.now) × (j + 4 ≤ length squares.now) × (j + 4 ≤ length row.old) }
    requires i_value { (at squares.now i ≡ square_of table.now f i) × Squared table.now (j + 4) f squares.now }
    ensures { row.new ≡ loop (distance_step table.now f i) 4 j row.old }
{
    let x = squares[i];
    let z = dot_four(table, f, i, j);
    row[j] = distance_by(x, squares[j], z.first);
    row[j + 1] = distance_by(x, squares[j + 1], z.second);
    row[j + 2] = distance_by(x, squares[j + 2], z.third);
    row[j + 3] = distance_by(x, squares[j + 3], z.fourth);
}

// The distances of frame i to the n frames but for the last three at most, four at a time, into the first places of a row; the answer is how many.
fn distance_fours(
    table: &[f64],
    n: usize,
    f: usize,
    squares: &[f64],
    i: usize,
    row: &mut [f64],
) -> usize
    requires i_lt_n { (i < n) × (n * f ≤ length table.now) × (n ≤ length squares.now) × (n ≤ length row.old) }
    requires squared { Squared table.now n f squares.now }
    ensures { (result ≤ n) × (row.new ≡ loop (distance_step table.now f i) result 0 row.old) }
{
    let mut j = 0;
    while n - j >= 4 {
        distance_four(table, f, squares, i, j, row);
        j += 4;
    }
    j
}

// The distances of frame i to the n frames, into the first n places of a row; to itself it is 0.
pub fn distance_row(table: &[f64], n: usize, f: usize, squares: &[f64], i: usize, row: &mut [f64])
    requires i_lt_n { (i < n) × (n * f ≤ length table.now) × (n ≤ length squares.now) × (n ≤ length row.old) }
    requires squared { Squared table.now n f squares.now }
    ensures { row.new ≡ distance_row table.now n f i row.old }
{
    for j in distance_fours(table, n, f, squares, i, row)..n {
        row[j] = distance(table, f, squares, i, j);
    }
    row[i] = 0.0;
}
