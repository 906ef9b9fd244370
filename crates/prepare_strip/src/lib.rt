// Preparation of a strip: as preparation, with 20 for settings outside the profile, after 11 and before 12.

#![tactic(auto)]

ghost use Rattle.std.specs.Prelude.{◌≡◌, cond};
ghost use Rattle.refusal.specs.Refusal.{refusal_number, number_told, numbered};
ghost use Rattle.prepare.specs.Prepare.{prepare_fault, lent, prepare_outcome};
ghost use Rattle.prepare_strip.specs.PrepareStrip.{strip_bars, prepared_strip};

use prepare::{Lengths, prepare, prepare_fault};
use refusal::{Refusal, number};
use run_record::{Run, Settings};
use strip_profile::in_profile;

// Whether 20 refuses: no test from 1 to 11 fails, and the settings are outside the profile.
pub fn strip_bars(s: Settings, table: &[f64], start: &[f64], l: Lengths) -> Result<(), Refusal>
    ensures { number_told refusal_number result ≡ cond (strip_bars s (prepare_fault s table.now start.now l)) 20 0 }
{
    if in_profile(s) {
        return Ok(());
    }
    let k = number(prepare_fault(s, table, start, l));
    if k == 0 {
        return Err(Refusal::Profile);
    }
    let short = k == 12;
    if short {
        return Err(Refusal::Profile);
    }
    Ok(())
}

// Prepares a run along one line: takes any settings and any areas.
pub fn prepare_strip(
    s: Settings,
    table: &[f64],
    start: &[f64],
    positions: &mut [f64],
    increments: &mut [f64],
    gains: &mut [f64],
    affinities: &mut [f64],
    indices: &mut [u32],
    offsets: &mut [u32],
    forces: &mut [f64],
    row_values: &mut [f64],
    row_indices: &mut [u32],
    nodes: usize,
) -> Result<Run, Refusal>
    ensures { prepare_outcome (numbered refusal_number result) (lent
        positions.new
        increments.new
        gains.new
        affinities.new
        indices.new
        offsets.new
        forces.new
        row_values.new
        row_indices.new)
        ≡ prepared_strip s
        table.now
        start.now
        nodes
        (lent
        positions.old
        increments.old
        gains.old
        affinities.old
        indices.old
        offsets.old
        forces.old
        row_values.old
        row_indices.old) }
{
    let areas = run_entry::Lengths {
        positions: positions.len(),
        increments: increments.len(),
        gains: gains.len(),
        affinities: affinities.len(),
        forces: forces.len(),
    };
    let l = Lengths {
        areas,
        indices: indices.len(),
        offsets: offsets.len(),
        nodes,
        values: row_values.len(),
        places: row_indices.len(),
    };
    strip_bars(s, table, start, l)?;
    prepare(
        s,
        table,
        start,
        positions,
        increments,
        gains,
        affinities,
        indices,
        offsets,
        forces,
        row_values,
        row_indices,
        nodes,
    )
}
