// Writes frames with two double-precision coordinates each as records for the picture monitor, or tells the first fault.

#![tactic(auto)]

ghost use Rattle.std.specs.Prelude.{◌≡◌, ◌<◌, ◌+◌, ◌*◌, length};
ghost use Rattle.laws.specs.Area.{num};
ghost use Rattle.laws.specs.Loops.{first};
ghost use Rattle.laws.specs.Joined.{laid};
ghost use Rattle.monitor.specs.Monitor.{monitor_bytes, follows_at, FramesLie};
ghost use Rattle.monitor_write.specs.MonitorWrite.{wrong_at, past_at, faulty_at, monitor_row, monitor_writing, room_to_write, fault_told, write_monitor, unwritable_number, WriteLies};

use frames::may_follow;
use monitor::{MONITOR_BYTES, frame_fine, frames_room, put_record};
use monitor_narrow::narrow;
use refusal::Numbered;

// Why no records are written.
#[derive(Clone, Copy, Debug, PartialEq, Eq)]
pub enum Unwritable {
    // 12: an area is shorter than the frames need
    Short,
    // 16: picture, side, field or order of this frame, the first faulty one
    Bad(usize),
    // 26: a coordinate of this frame is not finite or rounds past the largest
    Beyond(usize),
}

impl Numbered for Unwritable {
    ghost number_of = { unwritable_number };

    fn number(self) -> u8 {
        match self {
            Unwritable::Short => 12,
            Unwritable::Bad(_) => 16,
            Unwritable::Beyond(_) => 26,
        }
    }
}

// Areas of these lengths hold what n frames need, and a target of this length their records.
#[tactic(auto, unfolding(crate::specs::MonitorWrite::room_to_write))]
fn room(n: usize, p: usize, s: usize, b: usize, x: usize, t: usize) -> bool
    ensures { result ≡ room_to_write n p s b x t }
{
    frames_room(n, p, s, b, x) && n <= t / MONITOR_BYTES
}

// Frame i may follow the one before it.
fn follows(pictures: &[u32], fields: &[u8], i: usize) -> bool
    requires { (i < length pictures.now) × (i < length fields.now) }
    ensures { result ≡ follows_at (num pictures.now) (num fields.now) i }
{
    if i == 0 {
        return true;
    }
    may_follow(
        pictures[i - 1] as u64,
        fields[i - 1],
        pictures[i] as u64,
        fields[i],
    )
}

// Picture, side, field or order of frame i is wrong.
#[tactic(auto, unfolding(crate::specs::MonitorWrite::wrong_at))]
fn is_wrong(pictures: &[u32], sides: &[u8], fields: &[u8], i: usize) -> bool
    requires { (i < length pictures.now) × (i < length sides.now) × (i < length fields.now) }
    ensures { result ≡ wrong_at pictures.now sides.now fields.now i }
{
    !(frame_fine(pictures[i] as u64, sides[i], fields[i]) && follows(pictures, fields, i))
}

// A coordinate of frame i has no single-precision value.
#[tactic(auto, unfolding(crate::specs::MonitorWrite::past_at, crate::specs::MonitorWrite::is_past))]
fn is_beyond(positions: &[u64], i: usize) -> bool
    requires { 2 * i + 1 < length positions.now }
    ensures { result ≡ past_at positions.now i }
{
    narrow(positions[2 * i]).is_none() || narrow(positions[2 * i + 1]).is_none()
}

#[tactic(auto, unfolding(crate::specs::MonitorWrite::faulty_at))]
fn is_faulty(pictures: &[u32], sides: &[u8], fields: &[u8], positions: &[u64], i: usize) -> bool
    requires { (i < length pictures.now) × (i < length sides.now) × (i < length fields.now) × (2 * i + 1 < length positions.now) }
    ensures { result ≡ faulty_at pictures.now sides.now fields.now positions.now i }
{
    is_wrong(pictures, sides, fields, i) || is_beyond(positions, i)
}

// The first faulty frame; n where there is none.
fn first_faulty(n: usize, pictures: &[u32], sides: &[u8], fields: &[u8], positions: &[u64]) -> usize
    requires { FramesLie n (length pictures.now) (length sides.now) (length fields.now) (length positions.now) }
    ensures { result ≡ first (faulty_at pictures.now sides.now fields.now positions.now) n }
{
    for i in 0..n {
        if is_faulty(pictures, sides, fields, positions, i) {
            return i;
        }
    }
    n
}

// Writes the records of n frames at the target's front.
fn put_records(
    n: usize,
    pictures: &[u32],
    sides: &[u8],
    fields: &[u8],
    positions: &[u64],
    target: &mut [u8],
)
    requires { WriteLies n (length pictures.now) (length sides.now) (length fields.now) (length positions.now) (length target.old) }
    ensures { target.new ≡ laid (monitor_row pictures.now sides.now fields.now positions.now) monitor_bytes n target.old }
{
    for i in 0..n {
        let x = narrow(positions[2 * i]).unwrap_or(0);
        let y = narrow(positions[2 * i + 1]).unwrap_or(0);
        put_record(
            target,
            i * MONITOR_BYTES,
            pictures[i],
            sides[i],
            fields[i],
            x,
            y,
        );
    }
}

// What is answered where frame k is the first faulty one.
#[tactic(auto, unfolding(crate::specs::MonitorWrite::fault_told))]
fn fault_told(pictures: &[u32], sides: &[u8], fields: &[u8], k: usize) -> Unwritable
    requires { (k < length pictures.now) × (k < length sides.now) × (k < length fields.now) }
    ensures { result ≡ fault_told pictures.now sides.now fields.now k }
{
    if is_wrong(pictures, sides, fields, k) {
        return Unwritable::Bad(k);
    }
    Unwritable::Beyond(k)
}

// Writes n frames for the monitor: takes any n and any areas.
pub fn write_monitor(
    n: usize,
    pictures: &[u32],
    sides: &[u8],
    fields: &[u8],
    positions: &[u64],
    target: &mut [u8],
) -> Result<usize, Unwritable>
    ensures { monitor_writing result target.new ≡ write_monitor n pictures.now sides.now fields.now positions.now target.old }
{
    if !room(
        n,
        pictures.len(),
        sides.len(),
        fields.len(),
        positions.len(),
        target.len(),
    ) {
        return Err(Unwritable::Short);
    }
    let k = first_faulty(n, pictures, sides, fields, positions);
    if k < n {
        return Err(fault_told(pictures, sides, fields, k));
    }
    put_records(n, pictures, sides, fields, positions, target);
    Ok(n)
}
