// How many frames the sigma search leaves blind: the tests, then a look at each frame's search; the rows that it goes by end as zeros.

#![tactic(auto)]

pub mod faults;
mod looks;

ghost use Rattle.std.specs.Prelude.{◌≡◌, ◌≤◌, length};
ghost use Rattle.laws.specs.Area.{zero64};
ghost use Rattle.areas.specs.Filled.{filled};
ghost use Rattle.refusal.specs.Refusal.{refusal_number, numbered};
ghost use Rattle.blind.specs.Blind.{sight_rows, sight_outcome, sighted};

use areas::fill;
pub use faults::blind_fault;
use looks::look_at_all;
use refusal::Refusal;
use run_record::Settings;

// How many frames are blind, and of how many every distance that the search goes by comes out as 0.
#[derive(Clone, Copy, Debug, PartialEq, Eq)]
pub struct Seen {
    pub blind: usize,
    pub alone: usize,
}

// The first n places of each row become zeros.
fn clear_rows(
    n: usize,
    squares: &mut [f64],
    row_values: &mut [f64],
    row_shares: &mut [f64],
    row_indices: &mut [u32],
)
    requires { (n ≤ length squares.old) × (n ≤ length row_values.old) × (n ≤ length row_shares.old) × (n ≤ length row_indices.old) }
    ensures { (squares.new ≡ filled zero64 n squares.old)
        × (row_values.new ≡ filled zero64 n row_values.old)
        × (row_shares.new ≡ filled zero64 n row_shares.old)
        × (row_indices.new ≡ filled 0 n row_indices.old) }
{
    fill(squares, n, 0.0);
    fill(row_values, n, 0.0);
    fill(row_shares, n, 0.0);
    fill(row_indices, n, 0);
}

// Counts the frames whose search ends blind, and those of them that are alone: takes any settings and any areas. Of the settings it looks at n, f, method and perplexity.
pub fn blind(
    s: Settings,
    table: &[f64],
    squares: &mut [f64],
    row_values: &mut [f64],
    row_shares: &mut [f64],
    row_indices: &mut [u32],
) -> Result<Seen, Refusal>
    ensures { sight_outcome (numbered refusal_number result) (sight_rows squares.new row_values.new row_shares.new row_indices.new)
        ≡ sighted s table.now (sight_rows squares.old row_values.old row_shares.old row_indices.old) }
{
    blind_fault(
        s,
        table,
        squares.len(),
        row_values.len(),
        row_shares.len(),
        row_indices.len(),
    )?;
    affinity_distances::square_frames(table, s.n, s.f, squares);
    let seen = look_at_all(s, table, squares, row_values, row_shares, row_indices);
    clear_rows(s.n, squares, row_values, row_shares, row_indices);
    Ok(seen)
}
