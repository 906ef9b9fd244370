// The tests 2, 7, 8, 9, 10 and 12, in this order.
ghost use Rattle.std.specs.Prelude.{◌≡◌, ◌≤◌, length};
ghost use Rattle.refusal.specs.Refusal.{refusal_number, number_told};
ghost use Rattle.blind.specs.Faults.{size_fault, table_fine, rows_fit, blind_fault};

use elementary::in_domain;
use laws::{MOST_FEATURES, MOST_FRAMES};
use refusal::Refusal;
use run_record::Settings;
use run_record::faults::{is_positive, late_fault, times};

// 2, and 7 for n or f
fn size_fault(s: Settings) -> Result<(), Refusal>
    ensures { number_told refusal_number result ≡ size_fault s }
{
    if !is_positive(s.perplexity) {
        return Err(Refusal::Perplexity);
    }
    if s.n == 0 || MOST_FRAMES < s.n || s.f == 0 || MOST_FEATURES < s.f {
        return Err(Refusal::Size);
    }
    Ok(())
}

fn table_fine(table: &[f64], m: usize) -> bool
    requires { m ≤ length table.now }
    ensures { result ≡ table_fine table.now m }
{
    for i in 0..m {
        if !in_domain(table[i]) {
            return false;
        }
    }
    true
}

fn rows_fit(n: usize, squares: usize, values: usize, shares: usize, places: usize) -> bool
    ensures { result ≡ rows_fit n squares values shares places }
{
    n <= squares.min(values).min(shares).min(places)
}

// The first test that fails, by the lengths of the four rows.
pub fn blind_fault(
    s: Settings,
    table: &[f64],
    squares: usize,
    values: usize,
    shares: usize,
    places: usize,
) -> Result<(), Refusal>
    ensures { number_told refusal_number result ≡ blind_fault s table.now squares values shares places }
{
    size_fault(s)?;
    let nf = times(s.n, s.f);
    if table.len() != nf {
        return Err(Refusal::Size);
    }
    if !table_fine(table, nf) {
        return Err(Refusal::Value);
    }
    late_fault(s)?;
    if rows_fit(s.n, squares, values, shares, places) {
        return Ok(());
    }
    Err(Refusal::Short)
}
