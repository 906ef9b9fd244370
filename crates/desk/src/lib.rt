// The desk's library for C and Rust, libdesk.a: each function is that of a crate below it, exported under the name that the header has.

#![tactic(auto)]

ghost use Rattle.std.specs.Prelude.{◌≡◌, length};
ghost use Rattle.run_entry.specs.State.{memory};
ghost use Rattle.blind.specs.Blind.{sight_rows};
ghost use Rattle.prepare.specs.Prepare.{lent};
ghost use Rattle.scatter.specs.Scatter.{scatter_of};
ghost use Rattle.record_words.specs.RecordWords.{worded};
ghost use Rattle.desk_record.specs.Records.{host_sizes, said_of};
ghost use Rattle.frames.specs.Frames.{or_zero};
ghost use Rattle.desk_files.specs.Files.{host_frames, host_frame};
ghost use Rattle.desk_blind.specs.HostBlind.{host_seen, host_blind};
ghost use Rattle.desk_prepare.specs.HostPrepare.{host_prepared, host_prepare};
ghost use Rattle.desk_prepare_strip.specs.HostPrepareStrip.{host_prepare_strip};
ghost use Rattle.desk_work.specs.HostWork.{host_worked, host_work};
ghost use Rattle.desk_divergence.specs.HostDivergence.{host_divergence};
ghost use Rattle.tree_node.specs.Arena.{nodes_of};
ghost use Rattle.parked.specs.Parked.{stored_of};
ghost use Rattle.desk_lists.specs.HostLists.{host_listed, host_lists};
ghost use Rattle.desk_park.specs.HostPark.{host_parked, host_park};
ghost use Rattle.desk_monitor.specs.HostWrite.{host_monitored, host_monitor_write};
ghost use Rattle.desk_monitor.specs.HostRead.{host_monitor_reading, host_monitor_read};
ghost use Rattle.desk_salvage.specs.HostSalvage.{host_salvaged, host_salvage};
ghost use Rattle.desk_strip.specs.HostStrip.{host_handed, host_strip};
ghost use Rattle.take_out.specs.TakeOut.{holdings};
ghost use Rattle.desk_take.specs.HostTake.{host_took, host_take};
ghost use Rattle.desk_unpark.specs.HostUnpark.{host_unparked, host_unpark};
ghost use Rattle.desk_import.specs.HostImport.{host_imported, host_import};
ghost use Rattle.partner_import.specs.Import.{loading};

use desk_blind::host_blind;
use desk_divergence::host_divergence;
use desk_files::{host_frame, host_frames, host_scatter};
use desk_import::host_import;
use desk_lists::host_lists;
use desk_monitor::{host_monitor_read, host_monitor_write};
use desk_park::host_park;
use desk_prepare::host_prepare;
use desk_prepare_strip::host_prepare_strip;
use desk_record::{host_iterations, host_sizes, host_state, host_units};
use desk_salvage::host_salvage;
use desk_strip::host_strip;
use desk_take::host_take_out;
use desk_unpark::host_unpark;
use desk_work::host_work;
use tree_node::Cell;

// Counts the frames whose sigma search ends blind, and those of them that have no neighbour at another place. Answers 0, or the number of the refusal; then nothing is changed.
#[unsafe(no_mangle)]
pub extern "C" fn brothanchor_blind(
    settings: &[u64],
    table: &[f64],
    squares: &mut [f64],
    row_values: &mut [f64],
    row_shares: &mut [f64],
    row_indices: &mut [u32],
    answer: &mut [u64],
) -> u32
    ensures { host_seen result answer.new (sight_rows squares.new row_values.new row_shares.new row_indices.new)
        ≡ host_blind
        settings.now
        table.now
        (sight_rows squares.old row_values.old row_shares.old row_indices.old)
        answer.old }
{
    host_blind(
        settings,
        table,
        squares,
        row_values,
        row_shares,
        row_indices,
        answer,
    )
}

// Prepares a run. Answers 0, or the number of the refusal; then nothing is changed.
#[unsafe(no_mangle)]
pub extern "C" fn brothanchor_prepare(
    settings: &[u64],
    table: &[f64],
    start: &[f64],
    positions: &mut [f64],
    increments: &mut [f64],
    gains: &mut [f64],
    affinities: &mut [f64],
    indices: &mut [u32],
    offsets: &mut [u32],
    forces: &mut [f64],
    row_values: &mut [f64],
    row_indices: &mut [u32],
    nodes: usize,
    record: &mut [u64],
) -> u32
    ensures { host_prepared result
        «record».new
        (lent
        positions.new
        increments.new
        gains.new
        affinities.new
        indices.new
        offsets.new
        forces.new
        row_values.new
        row_indices.new)
        ≡ host_prepare
        settings.now
        table.now
        start.now
        nodes
        (lent
        positions.old
        increments.old
        gains.old
        affinities.old
        indices.old
        offsets.old
        forces.old
        row_values.old
        row_indices.old)
        «record».old }
{
    host_prepare(
        settings,
        table,
        start,
        positions,
        increments,
        gains,
        affinities,
        indices,
        offsets,
        forces,
        row_values,
        row_indices,
        nodes,
        record,
    )
}

// Prepares a run along one line. Answers 0, or the number of the refusal; then nothing is changed.
#[unsafe(no_mangle)]
pub extern "C" fn brothanchor_prepare_strip(
    settings: &[u64],
    table: &[f64],
    start: &[f64],
    positions: &mut [f64],
    increments: &mut [f64],
    gains: &mut [f64],
    affinities: &mut [f64],
    indices: &mut [u32],
    offsets: &mut [u32],
    forces: &mut [f64],
    row_values: &mut [f64],
    row_indices: &mut [u32],
    nodes: usize,
    record: &mut [u64],
) -> u32
    ensures { host_prepared result
        «record».new
        (lent
        positions.new
        increments.new
        gains.new
        affinities.new
        indices.new
        offsets.new
        forces.new
        row_values.new
        row_indices.new)
        ≡ host_prepare_strip
        settings.now
        table.now
        start.now
        nodes
        (lent
        positions.old
        increments.old
        gains.old
        affinities.old
        indices.old
        offsets.old
        forces.old
        row_values.old
        row_indices.old)
        «record».old }
{
    host_prepare_strip(
        settings,
        table,
        start,
        positions,
        increments,
        gains,
        affinities,
        indices,
        offsets,
        forces,
        row_values,
        row_indices,
        nodes,
        record,
    )
}

// Does units of a run. Answers 0, or the number of the refusal, and writes the answer's words.
#[unsafe(no_mangle)]
pub extern "C" fn brothanchor_work(
    words: &mut [u64],
    positions: &mut [f64],
    increments: &mut [f64],
    gains: &mut [f64],
    affinities: &[f64],
    indices: &[u32],
    offsets: &[u32],
    forces: &mut [f64],
    cells: &mut [Cell],
    budget: u32,
    answer: &mut [u64],
) -> u32
    ensures { host_worked result
        answer.new
        words.new
        (memory
        positions.new
        increments.new
        gains.new
        affinities.now
        indices.now
        offsets.now
        forces.new
        cells.new)
        ≡ host_work budget
        words.old
        answer.old
        (memory
        positions.old
        increments.old
        gains.old
        affinities.now
        indices.now
        offsets.now
        forces.old
        cells.old) }
{
    host_work(
        words, positions, increments, gains, affinities, indices, offsets, forces, cells, budget,
        answer,
    )
}

// The figure of the iteration just finished. Answers 0, or the number of the refusal, and writes the answer's first word: the figure's bits, or the place that comes with the number. The copy holds the positions before that iteration's step.
#[unsafe(no_mangle)]
pub extern "C" fn brothanchor_divergence(
    words: &[u64],
    positions: &[f64],
    increments: &[f64],
    gains: &[f64],
    affinities: &[f64],
    indices: &[u32],
    offsets: &[u32],
    forces: &[f64],
    cells: &[Cell],
    copy: &[f64],
    answer: &mut [u64],
) -> u32
    ensures { worded result answer.new
        ≡ host_divergence
        words.now
        (memory
        positions.now
        increments.now
        gains.now
        affinities.now
        indices.now
        offsets.now
        forces.now
        cells.now)
        copy.now
        answer.old }
{
    host_divergence(
        words, positions, increments, gains, affinities, indices, offsets, forces, cells, copy,
        answer,
    )
}

// ---- what a record says

// 0 running, 1 stopped, 2 finished; 3 where the words are no record.
#[unsafe(no_mangle)]
pub extern "C" fn brothanchor_state(record: &[u64]) -> u64
    ensures { result ≡ said_of 9 3 «record».now }
{
    host_state(record)
}

// Iterations done; 0 where the words are no record.
#[unsafe(no_mangle)]
pub extern "C" fn brothanchor_iterations(record: &[u64]) -> u64
    ensures { result ≡ said_of 10 0 «record».now }
{
    host_iterations(record)
}

// Units done in all; 0 where the words are no record.
#[unsafe(no_mangle)]
pub extern "C" fn brothanchor_units(record: &[u64]) -> u64
    ensures { result ≡ said_of 12 0 «record».now }
{
    host_units(record)
}

// ---- starting positions and the frame file

// Starting positions from a seed. Answers 0, or 1, 7 or 12; then nothing is changed.
#[unsafe(no_mangle)]
pub extern "C" fn brothanchor_scatter(positions: &mut [f64], n: u32, c: u32, seed: u64) -> u32
    ensures { (result ≡ or_zero (scatter_of n c seed positions.old).number) × (positions.new ≡ (scatter_of n c seed positions.old).positions) }
{
    host_scatter(positions, n, c, seed)
}

// How many records a frame file has, or 16 and the place of the first bad one, in the first word of the area.
#[unsafe(no_mangle)]
pub extern "C" fn brothanchor_frames(file: &[u8], place: &mut [u64]) -> u32
    ensures { worded result place.new ≡ host_frames file.now place.old }
{
    host_frames(file, place)
}

// Picture, side, field, six features and two starts of record i, in eleven words; zeros past the whole records. Answers 0, or 12.
#[unsafe(no_mangle)]
pub extern "C" fn brothanchor_frame(file: &[u8], i: usize, frame: &mut [u64]) -> u32
    ensures { worded result frame.new ≡ host_frame file.now i frame.old }
{
    host_frame(file, i, frame)
}

// ---- sizes

// How long the areas must be, in seven words. Answers 0, or 21, 12, or the number that 1 to 10 would give; then nothing is changed.
#[unsafe(no_mangle)]
pub extern "C" fn brothanchor_sizes(settings: &[u64], sizes: &mut [u64]) -> u32
    ensures { worded result sizes.new ≡ host_sizes settings.now sizes.old }
{
    host_sizes(settings, sizes)
}

// Writes the run into records. Answers 0, or the number of the refusal; then the target is not changed. Areas of values are lent by their bits, so that a NaN keeps them.
#[unsafe(no_mangle)]
pub extern "C" fn brothanchor_park(
    words: &[u64],
    positions: &[u64],
    increments: &[u64],
    gains: &[u64],
    affinities: &[u64],
    indices: &[u32],
    offsets: &[u32],
    forces: &[f64],
    cells: &[Cell],
    target: &mut [u8],
    answer: &mut [u64],
) -> u32
    ensures { host_parked result target.new answer.new
        ≡ host_park
        (stored_of
        words.now
        positions.now
        increments.now
        gains.now
        affinities.now
        indices.now
        offsets.now)
        (length forces.now)
        (nodes_of cells.now)
        target.old
        answer.old }
{
    host_park(
        words, positions, increments, gains, affinities, indices, offsets, forces, cells, target,
        answer,
    )
}

// Writes the neighbour lists of a Barnes-Hut run into records of 16 bytes, at any moment of it. Answers 0, or the number of the refusal; then the target is not changed. Areas of values are lent by their bits, so that a NaN keeps them.
#[unsafe(no_mangle)]
pub extern "C" fn brothanchor_lists(
    words: &[u64],
    positions: &[u64],
    increments: &[u64],
    gains: &[u64],
    affinities: &[u64],
    indices: &[u32],
    offsets: &[u32],
    forces: &[f64],
    cells: &[Cell],
    target: &mut [u8],
    answer: &mut [u64],
) -> u32
    ensures { host_listed result target.new answer.new
        ≡ host_lists
        (stored_of
        words.now
        positions.now
        increments.now
        gains.now
        affinities.now
        indices.now
        offsets.now)
        (length forces.now)
        (nodes_of cells.now)
        target.old
        answer.old }
{
    host_lists(
        words, positions, increments, gains, affinities, indices, offsets, forces, cells, target,
        answer,
    )
}

// Hands out the frames of an ended strip run along the line, with the gaps between them. Answers 0, or the number of the refusal; then order and gaps are not changed. Gaps are lent by their bits.
#[unsafe(no_mangle)]
pub extern "C" fn brothanchor_strip(
    words: &[u64],
    positions: &[f64],
    increments: &[f64],
    gains: &[f64],
    affinities: &[f64],
    indices: &[u32],
    offsets: &[u32],
    forces: &[f64],
    cells: &[Cell],
    order: &mut [u32],
    gaps: &mut [u64],
    answer: &mut [u64],
) -> u32
    ensures { host_handed result order.new gaps.new answer.new
        ≡ host_strip
        words.now
        (memory
        positions.now
        increments.now
        gains.now
        affinities.now
        indices.now
        offsets.now
        forces.now
        cells.now)
        order.old
        gaps.old
        answer.old }
{
    host_strip(
        words, positions, increments, gains, affinities, indices, offsets, forces, cells, order,
        gaps, answer,
    )
}

// Reads a parked run into record and areas. Answers 0, or the number of the refusal; then none of them is changed.
#[unsafe(no_mangle)]
pub extern "C" fn brothanchor_unpark(
    file: &[u8],
    words: &mut [u64],
    positions: &mut [u64],
    increments: &mut [u64],
    gains: &mut [u64],
    affinities: &mut [u64],
    indices: &mut [u32],
    offsets: &mut [u32],
    forces: &mut [f64],
    nodes: usize,
    answer: &mut [u64],
) -> u32
    ensures { host_unparked result
        (stored_of
        words.new
        positions.new
        increments.new
        gains.new
        affinities.new
        indices.new
        offsets.new)
        forces.new
        answer.new
        ≡ host_unpark
        file.now
        (stored_of
        words.old
        positions.old
        increments.old
        gains.old
        affinities.old
        indices.old
        offsets.old)
        forces.old
        nodes
        answer.old }
{
    host_unpark(
        file, words, positions, increments, gains, affinities, indices, offsets, forces, nodes,
        answer,
    )
}

// Begins a run from a partner's list. Answers 0, or the number of the refusal; then none of record and areas is changed.
#[unsafe(no_mangle)]
pub extern "C" fn brothanchor_import(
    settings: &[u64],
    start: &[u64],
    file: &[u8],
    record: &mut [u64],
    positions: &mut [u64],
    increments: &mut [u64],
    gains: &mut [u64],
    affinities: &mut [u64],
    indices: &mut [u32],
    offsets: &mut [u32],
    forces: &mut [u64],
    nodes: usize,
    answer: &mut [u64],
) -> u32
    ensures { host_imported result
        «record».new
        (loading
        positions.new
        increments.new
        gains.new
        affinities.new
        indices.new
        offsets.new
        forces.new)
        answer.new
        ≡ host_import
        settings.now
        start.now
        file.now
        «record».old
        (loading
        positions.old
        increments.old
        gains.old
        affinities.old
        indices.old
        offsets.old
        forces.old)
        nodes
        answer.old }
{
    host_import(
        settings, start, file, record, positions, increments, gains, affinities, indices, offsets,
        forces, nodes, answer,
    )
}

// Takes frames out of a run. Answers 0, or the number of the refusal; then nothing is changed but the answer's word. Values that are only moved are lent as words, by their bits.
#[unsafe(no_mangle)]
pub extern "C" fn brothanchor_take_out(
    words: &mut [u64],
    positions: &mut [f64],
    increments: &mut [u64],
    gains: &mut [u64],
    affinities: &mut [u64],
    indices: &mut [u32],
    offsets: &mut [u32],
    forces: &mut [f64],
    cells: &[Cell],
    table: &mut [u64],
    gone: &[u32],
    old: &mut [u32],
    answer: &mut [u64],
) -> u32
    ensures { host_took result answer.new words.new
        (holdings positions.new increments.new gains.new affinities.new indices.new offsets.new forces.new table.new old.new)
        ≡ host_take gone.now words.old
        (holdings positions.old increments.old gains.old affinities.old indices.old offsets.old forces.old table.old old.old)
        (nodes_of cells.now) answer.old }
{
    host_take_out(
        words, positions, increments, gains, affinities, indices, offsets, forces, cells, table,
        gone, old, answer,
    )
}

// ---- the picture monitor

// Writes n frames for the picture monitor. Answers 0, or 12, 16 or 26; then the target is not changed.
#[unsafe(no_mangle)]
pub extern "C" fn brothanchor_monitor_write(
    n: usize,
    pictures: &[u32],
    sides: &[u8],
    fields: &[u8],
    positions: &[u64],
    target: &mut [u8],
    answer: &mut [u64],
) -> u32
    ensures { host_monitored result target.new answer.new
        ≡ host_monitor_write n
        pictures.now
        sides.now
        fields.now
        positions.now
        target.old
        answer.old }
{
    host_monitor_write(n, pictures, sides, fields, positions, target, answer)
}

// Reads a file for the picture monitor. Answers 0, or 16 or 12; then no area is changed.
#[unsafe(no_mangle)]
pub extern "C" fn brothanchor_monitor_read(
    file: &[u8],
    pictures: &mut [u32],
    sides: &mut [u8],
    fields: &mut [u8],
    positions: &mut [u64],
    answer: &mut [u64],
) -> u32
    ensures { host_monitor_reading result
        pictures.new
        sides.new
        fields.new
        positions.new
        answer.new
        ≡ host_monitor_read
        file.now
        pictures.old
        sides.old
        fields.old
        positions.old
        answer.old }
{
    host_monitor_read(file, pictures, sides, fields, positions, answer)
}

// ---- a scuffed frame file

// Copies the good records of a scuffed frame file, and tells the others. Answers 0, or 12; then no area is changed.
#[unsafe(no_mangle)]
pub extern "C" fn brothanchor_salvage(
    file: &[u8],
    target: &mut [u8],
    places: &mut [u64],
    rules: &mut [u8],
    answer: &mut [u64],
) -> u32
    ensures { host_salvaged result target.new places.new rules.new answer.new
        ≡ host_salvage
        file.now
        target.old
        places.old
        rules.old
        answer.old }
{
    host_salvage(file, target, places, rules, answer)
}
