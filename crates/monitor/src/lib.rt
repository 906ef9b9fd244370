// The record for the picture monitor: picture, side, field, two zeros, and the two coordinates by their single-precision bits, in 16 bytes.

#![tactic(auto)]

ghost use Rattle.std.specs.Prelude.{◌≡◌, ◌+◌, ◌≤◌, length};
ghost use Rattle.laws.specs.Joined.{written};
ghost use Rattle.monitor.specs.Monitor.{monitor_bytes, monitor_record, frame_fine, frames_room};

use frames::{field_fine, picture_fine, side_fine};

// How long a record is.
pub const MONITOR_BYTES: usize = 16;

// Picture, side and field are fine.
#[tactic(auto, unfolding(crate::specs::Monitor::frame_fine))]
pub fn frame_fine(picture: u64, side: u8, field: u8) -> bool
    ensures { result ≡ frame_fine picture side field }
{
    picture_fine(picture) && side_fine(side) && field_fine(field)
}

// Areas of these lengths hold what n frames need. Nothing is multiplied by n, which may be any number.
#[tactic(auto, unfolding(crate::specs::Monitor::frames_room))]
pub fn frames_room(n: usize, p: usize, s: usize, b: usize, x: usize) -> bool
    ensures { result ≡ frames_room n p s b x }
{
    n <= p && n <= s && n <= b && n <= x / 2
}

fn record_bytes(picture: u32, side: u8, field: u8, x: u32, y: u32) -> [u8; 16]
    ensures { result ≡ monitor_record picture side field x y }
{
    let p = picture.to_le_bytes();
    let a = x.to_le_bytes();
    let b = y.to_le_bytes();
    [
        p[0], p[1], p[2], p[3], side, field, 0, 0, a[0], a[1], a[2], a[3], b[0], b[1], b[2], b[3],
    ]
}

// Writes a record from byte a on.
pub fn put_record(target: &mut [u8], a: usize, picture: u32, side: u8, field: u8, x: u32, y: u32)
    requires { a + monitor_bytes ≤ length target.old }
    ensures { target.new ≡ written (monitor_record picture side field x y) a target.old }
{
    let bytes = record_bytes(picture, side, field, x, y);
    target[a..a + MONITOR_BYTES].copy_from_slice(&bytes);
}
