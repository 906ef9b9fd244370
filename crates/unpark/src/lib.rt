// Reads a parked run into lent areas, or tells the first bad record.

#![tactic(auto)]

ghost use Rattle.std.specs.Prelude.{◌≡◌, true, length};
ghost use Rattle.laws.specs.Area.{zero64};
ghost use Rattle.areas.specs.Filled.{filled};
ghost use Rattle.little.specs.Little.{word_in};
ghost use Rattle.run_record.specs.Record.{sizes_of};
ghost use Rattle.parked.specs.Parked.{stored_of};
ghost use Rattle.parked_file.specs.File.{is_parked};
ghost use Rattle.unpark.specs.Unpark.{settings_read, stored_read, has_room, unparking, unpark_of};

use crate::fetch::{fetch_lists, fetch_state};
use crate::record::put_record;
use crate::room::{has_room, settings_read};
use parked_file::head::layout_read;
use parked_file::records::judge;
use refusal::Unreadable;
use run_record::faults::sizes_of;

mod fetch;
mod record;
mod room;

// Record and areas as the file has them; the forces are zero.
fn read_in(
    file: &[u8],
    words: &mut [u64],
    positions: &mut [u64],
    increments: &mut [u64],
    gains: &mut [u64],
    affinities: &mut [u64],
    indices: &mut [u32],
    offsets: &mut [u32],
    forces: &mut [f64],
    nodes: usize,
)
    requires { (is_parked file.now ≡ true) × (has_room (word_in file.now) (stored_of words.old
        positions.old
        increments.old
        gains.old
        affinities.old
        indices.old
        offsets.old) (length forces.old) nodes ≡ true) }
    ensures offsets_after { stored_of words.new
        positions.new
        increments.new
        gains.new
        affinities.new
        indices.new
        offsets.new ≡ stored_read (word_in file.now) (stored_of words.old
        positions.old
        increments.old
        gains.old
        affinities.old
        indices.old
        offsets.old) }
    ensures forces_after { forces.new ≡ filled zero64 (sizes_of (settings_read (word_in file.now))).forces forces.old }
{
    let l = layout_read(file);
    let s = settings_read(file);
    let z = sizes_of(s);
    put_record(words, file);
    fetch_state(file, l, positions, increments, gains);
    fetch_lists(file, l, affinities, indices, offsets);
    areas::fill(forces, z.forces, 0.0);
}

// Reads a parked run, and tells how many records it has: takes any file and any areas. Of the arena it asks only how many nodes it has.
pub fn unpark(
    file: &[u8],
    words: &mut [u64],
    positions: &mut [u64],
    increments: &mut [u64],
    gains: &mut [u64],
    affinities: &mut [u64],
    indices: &mut [u32],
    offsets: &mut [u32],
    forces: &mut [f64],
    nodes: usize,
) -> Result<usize, Unreadable>
    ensures { unparking result (stored_of words.new
        positions.new
        increments.new
        gains.new
        affinities.new
        indices.new
        offsets.new)
        forces.new ≡ unpark_of file.now (stored_of words.old
        positions.old
        increments.old
        gains.old
        affinities.old
        indices.old
        offsets.old)
        forces.old
        nodes }
{
    let v = judge(file);
    if !v.parked {
        return Err(Unreadable::Bad(v.at));
    }
    if !has_room(
        file,
        words.len(),
        positions.len(),
        increments.len(),
        gains.len(),
        affinities.len(),
        indices.len(),
        offsets.len(),
        forces.len(),
        nodes,
    ) {
        return Err(Unreadable::Short);
    }
    read_in(
        file, words, positions, increments, gains, affinities, indices, offsets, forces, nodes,
    );
    Ok(v.at)
}
