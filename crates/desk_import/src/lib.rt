// A run begun from a partner's list, with settings, record and answer as plain words. Areas of values are lent by their bits.

#![tactic(auto)]

ghost use Rattle.std.specs.Prelude.{◌≡◌, ◌≤◌, length};
ghost use Rattle.record_words.specs.RecordWords.{short_number};
ghost use Rattle.partner.specs.Partner.{whole_links};
ghost use Rattle.partner_import.specs.Import.{loading, tree_settings, import_fault};
ghost use Rattle.desk_import.specs.HostImport.{import_told, record_imported, host_imported, host_import};

use partner::LINK_BYTES;
use partner_import::{ImportFault, LentLengths, import, import_fault, tree_settings};
use record_words::told::put_told;
use record_words::{put_run, settings_of};
use refusal::Numbered;
use run_record::{Run, Settings};

// What word 0 tells, where the file has so many whole records.
fn import_told(links: usize, a: Result<Run, ImportFault>) -> u64
    ensures { result ≡ import_told links a }
{
    match a {
        Ok(_) => links as u64,
        Err(ImportFault::BadRecord(p)) => p as u64,
        Err(ImportFault::Refused(_)) => 0,
    }
}

// The number where the record's area is too short: 12, unless one of the tests before it fails.
fn short_import(s: Settings, start: &[u64], l: LentLengths) -> u32
    ensures { result ≡ short_number (import_fault (tree_settings s) start.now l) }
{
    let t = tree_settings(s);
    match import_fault(t, start, l) {
        Ok(()) => 12,
        Err(r) => r.number() as u32,
    }
}

// Writes the record where there is one.
fn put_record_of(record: &mut [u64], a: Result<Run, ImportFault>)
    requires { 14 ≤ length «record».old }
    ensures { «record».new ≡ record_imported a «record».old }
{
    if let Ok(r) = a {
        put_run(record, r);
    }
}

// Begins a run from a partner's list. Answers 0, or the number of the refusal; then none of record and areas is changed.
pub fn host_import(
    settings: &[u64],
    start: &[u64],
    file: &[u8],
    record: &mut [u64],
    positions: &mut [u64],
    increments: &mut [u64],
    gains: &mut [u64],
    affinities: &mut [u64],
    indices: &mut [u32],
    offsets: &mut [u32],
    forces: &mut [u64],
    nodes: usize,
    answer: &mut [u64],
) -> u32
    ensures { host_imported result
        «record».new
        (loading
        positions.new
        increments.new
        gains.new
        affinities.new
        indices.new
        offsets.new
        forces.new)
        answer.new
        ≡ host_import
        settings.now
        start.now
        file.now
        «record».old
        (loading
        positions.old
        increments.old
        gains.old
        affinities.old
        indices.old
        offsets.old
        forces.old)
        nodes
        answer.old }
{
    if answer.len() == 0 {
        return 12;
    }
    if settings.len() < 9 {
        answer[0] = 0;
        return 21;
    }
    let s = settings_of(settings);
    if record.len() < 14 {
        let l = LentLengths {
            positions: positions.len(),
            increments: increments.len(),
            gains: gains.len(),
            affinities: affinities.len(),
            indices: indices.len(),
            offsets: offsets.len(),
            forces: forces.len(),
            nodes,
        };
        answer[0] = 0;
        return short_import(s, start, l);
    }
    let a = import(
        s, start, file, positions, increments, gains, affinities, indices, offsets, forces, nodes,
    );
    put_record_of(record, a);
    put_told(answer, a, import_told(file.len() / LINK_BYTES, a))
}
