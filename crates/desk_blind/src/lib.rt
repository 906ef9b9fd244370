// The count of blind frames, with settings and answer as plain words.

#![tactic(auto)]

ghost use Rattle.std.specs.Prelude.{◌≡◌, ◌≤◌, length};
ghost use Rattle.refusal.specs.Refusal.{refusal_number, numbered};
ghost use Rattle.blind.specs.Faults.{blind_fault};
ghost use Rattle.blind.specs.Blind.{sight_rows, sight_number};
ghost use Rattle.record_words.specs.RecordWords.{short_number};
ghost use Rattle.desk_blind.specs.HostBlind.{sight_words, host_seen, host_blind};

use blind::faults::blind_fault;
use blind::{Seen, blind};
use record_words::{settings_fine, settings_of};
use refusal::{Numbered, Refusal};
use run_record::Settings;

// The number where the answer is too short: 12, unless one of the tests before it fails.
fn short_number(
    s: Settings,
    table: &[f64],
    squares: usize,
    values: usize,
    shares: usize,
    places: usize,
) -> u32
    ensures { result ≡ short_number (blind_fault s table.now squares values shares places) }
{
    match blind_fault(s, table, squares, values, shares, places) {
        Ok(()) => 12,
        Err(e) => e.number() as u32,
    }
}

// Tells the blind frames and those of them that are alone, where nothing is refused. Answers the number.
fn put_sight(answer: &mut [u64], r: Result<Seen, Refusal>) -> u32
    requires { 2 ≤ length answer.old }
    ensures { (result ≡ sight_number (numbered refusal_number r)) × (answer.new ≡ sight_words (numbered refusal_number r) answer.old) }
{
    match r {
        Err(e) => e.number() as u32,
        Ok(seen) => {
            answer[0] = seen.blind as u64;
            answer[1] = seen.alone as u64;
            0
        }
    }
}

// Counts the frames whose sigma search ends blind. Answers 0, or the number of the refusal; then nothing is changed.
pub fn host_blind(
    settings: &[u64],
    table: &[f64],
    squares: &mut [f64],
    row_values: &mut [f64],
    row_shares: &mut [f64],
    row_indices: &mut [u32],
    answer: &mut [u64],
) -> u32
    ensures { host_seen result answer.new (sight_rows squares.new row_values.new row_shares.new row_indices.new)
        ≡ host_blind
        settings.now
        table.now
        (sight_rows squares.old row_values.old row_shares.old row_indices.old)
        answer.old }
{
    if !settings_fine(settings) {
        return 21;
    }
    let s = settings_of(settings);
    if answer.len() < 2 {
        return short_number(
            s,
            table,
            squares.len(),
            row_values.len(),
            row_shares.len(),
            row_indices.len(),
        );
    }
    let r = blind(s, table, squares, row_values, row_shares, row_indices);
    put_sight(answer, r)
}
