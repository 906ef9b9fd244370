// Preparation of a strip, with settings and record as plain words.

#![tactic(auto)]

ghost use Rattle.std.specs.Prelude.{◌≡◌, ◌&&◌};
ghost use Rattle.prepare.specs.Prepare.{lent, prepare_fault};
ghost use Rattle.prepare_strip.specs.PrepareStrip.{strip_bars};
ghost use Rattle.record_words.specs.RecordWords.{settings_fine, settings_of};
ghost use Rattle.desk_prepare.specs.HostPrepare.{host_prepared};
ghost use Rattle.desk_prepare_strip.specs.HostPrepareStrip.{host_prepare_strip};

use desk_prepare::host_prepare;
use prepare::Lengths;
use prepare_strip::strip_bars;
use record_words::{settings_fine, settings_of};
use refusal::number;

// Whether 20 refuses: the words are settings, and 20 refuses these.
fn words_barred(settings: &[u64], table: &[f64], start: &[f64], l: Lengths) -> bool
    ensures { result ≡ settings_fine settings.now
        && strip_bars (settings_of settings.now)
        (prepare_fault (settings_of settings.now) table.now start.now l) }
{
    if !settings_fine(settings) {
        return false;
    }
    let s = settings_of(settings);
    number(strip_bars(s, table, start, l)) != 0
}

// Prepares a run along one line. Answers 0, or the number of the refusal; then nothing is changed.
pub fn host_prepare_strip(
    settings: &[u64],
    table: &[f64],
    start: &[f64],
    positions: &mut [f64],
    increments: &mut [f64],
    gains: &mut [f64],
    affinities: &mut [f64],
    indices: &mut [u32],
    offsets: &mut [u32],
    forces: &mut [f64],
    row_values: &mut [f64],
    row_indices: &mut [u32],
    nodes: usize,
    record: &mut [u64],
) -> u32
    ensures { host_prepared result
        «record».new
        (lent
        positions.new
        increments.new
        gains.new
        affinities.new
        indices.new
        offsets.new
        forces.new
        row_values.new
        row_indices.new)
        ≡ host_prepare_strip
        settings.now
        table.now
        start.now
        nodes
        (lent
        positions.old
        increments.old
        gains.old
        affinities.old
        indices.old
        offsets.old
        forces.old
        row_values.old
        row_indices.old)
        «record».old }
{
    let areas = run_entry::Lengths {
        positions: positions.len(),
        increments: increments.len(),
        gains: gains.len(),
        affinities: affinities.len(),
        forces: forces.len(),
    };
    let l = Lengths {
        areas,
        indices: indices.len(),
        offsets: offsets.len(),
        nodes,
        values: row_values.len(),
        places: row_indices.len(),
    };
    if words_barred(settings, table, start, l) {
        return 20;
    }
    host_prepare(
        settings,
        table,
        start,
        positions,
        increments,
        gains,
        affinities,
        indices,
        offsets,
        forces,
        row_values,
        row_indices,
        nodes,
        record,
    )
}
