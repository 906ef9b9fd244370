// Preparation, with settings and record as plain words.

#![tactic(auto)]

ghost use Rattle.std.specs.Prelude.{◌≡◌};
ghost use Rattle.prepare.specs.Prepare.{lent, prepare_fault};
ghost use Rattle.record_words.specs.RecordWords.{short_number};
ghost use Rattle.desk_prepare.specs.HostPrepare.{host_prepared, host_prepare};

use prepare::{Lengths, prepare, prepare_fault};
use record_words::{put_run, settings_fine, settings_of};
use refusal::Numbered;
use run_record::Settings;

// The number where the record's area is too short: 12, unless one of the tests before it fails.
fn short_number(s: Settings, table: &[f64], start: &[f64], l: Lengths) -> u32
    ensures { result ≡ short_number (prepare_fault s table.now start.now l) }
{
    match prepare_fault(s, table, start, l) {
        Err(e) => e.number() as u32,
        Ok(_) => 12,
    }
}

// Prepares a run. Answers 0, or the number of the refusal; then nothing is changed.
pub fn host_prepare(
    settings: &[u64],
    table: &[f64],
    start: &[f64],
    positions: &mut [f64],
    increments: &mut [f64],
    gains: &mut [f64],
    affinities: &mut [f64],
    indices: &mut [u32],
    offsets: &mut [u32],
    forces: &mut [f64],
    row_values: &mut [f64],
    row_indices: &mut [u32],
    nodes: usize,
    record: &mut [u64],
) -> u32
    ensures { host_prepared result
        «record».new
        (lent
        positions.new
        increments.new
        gains.new
        affinities.new
        indices.new
        offsets.new
        forces.new
        row_values.new
        row_indices.new)
        ≡ host_prepare
        settings.now
        table.now
        start.now
        nodes
        (lent
        positions.old
        increments.old
        gains.old
        affinities.old
        indices.old
        offsets.old
        forces.old
        row_values.old
        row_indices.old)
        «record».old }
{
    if !settings_fine(settings) {
        return 21;
    }
    let s = settings_of(settings);
    if record.len() < 14 {
        let areas = run_entry::Lengths {
            positions: positions.len(),
            increments: increments.len(),
            gains: gains.len(),
            affinities: affinities.len(),
            forces: forces.len(),
        };
        let l = Lengths {
            areas,
            indices: indices.len(),
            offsets: offsets.len(),
            nodes,
            values: row_values.len(),
            places: row_indices.len(),
        };
        return short_number(s, table, start, l);
    }
    let p = prepare(
        s,
        table,
        start,
        positions,
        increments,
        gains,
        affinities,
        indices,
        offsets,
        forces,
        row_values,
        row_indices,
        nodes,
    );
    match p {
        Err(e) => e.number() as u32,
        Ok(r) => {
            put_run(record, r);
            0
        }
    }
}
