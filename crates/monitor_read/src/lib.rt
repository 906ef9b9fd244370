// Reads a file for the picture monitor into lent areas, or tells the first bad record.

#![tactic(auto)]

ghost use Rattle.std.specs.Prelude.{◌≡◌, ◌+◌, ◌*◌, ◌/◌, ◌≤◌, ◌<◌, length};
ghost use Rattle.monitor.specs.Monitor.{monitor_bytes, follows_at};
ghost use Rattle.monitor_read.specs.MonitorRead.{byte_at, monitor_picture, coordinate_at, coordinates_fine, broken_at, first_broken};
ghost use Rattle.monitor_read.specs.MonitorRead.{fronted, widened_at, monitor_reading, read_monitor};

use frames::{record_follows, spare_fine};
use little::half_word;
use monitor::{MONITOR_BYTES, frame_fine, frames_room};
use monitor_narrow::{is_finite, widen};
use refusal::Unreadable;

// The bits of coordinate j of the file.
fn coordinate(file: &[u8], j: usize) -> u32
    requires { j / 2 * monitor_bytes + monitor_bytes ≤ length file.now }
    ensures { result ≡ coordinate_at file.now j }
{
    half_word(file, j / 2 * MONITOR_BYTES + (8 + 4 * (j % 2))) as u32
}

// Both coordinates of record i are finite.
#[tactic(auto, unfolding(crate::specs::MonitorRead::coordinates_fine))]
fn coordinates_fine(file: &[u8], i: usize) -> bool
    requires { i * monitor_bytes + monitor_bytes ≤ length file.now }
    ensures { result ≡ coordinates_fine file.now i }
{
    is_finite(coordinate(file, 2 * i)) && is_finite(coordinate(file, 2 * i + 1))
}

// Record i may follow the one before it.
#[tactic(auto, unfolding(monitor::specs::Monitor::follows_at))]
fn follows_in(file: &[u8], i: usize) -> bool
    requires { i * monitor_bytes + monitor_bytes ≤ length file.now }
    ensures { result ≡ follows_at (monitor_picture file.now) (byte_at file.now 5) i }
{
    i == 0 || record_follows(file, (i - 1) * MONITOR_BYTES, i * MONITOR_BYTES)
}

// Record i is bad by itself or out of order.
#[tactic(auto, unfolding(crate::specs::MonitorRead::broken_at))]
fn is_broken(file: &[u8], i: usize) -> bool
    requires { i * monitor_bytes + monitor_bytes ≤ length file.now }
    ensures { result ≡ broken_at file.now i }
{
    let a = i * MONITOR_BYTES;
    !(frame_fine(half_word(file, a), file[a + 4], file[a + 5])
        && spare_fine(file, a)
        && coordinates_fine(file, i)
        && follows_in(file, i))
}

// The first bad one of the whole records; their number where none is.
fn first_broken(file: &[u8]) -> usize
    ensures { result ≡ first_broken file.now }
{
    let n = file.len() / MONITOR_BYTES;
    for i in 0..n {
        if is_broken(file, i) {
            return i;
        }
    }
    n
}

// The pictures of n records.
fn fetch_pictures(area: &mut [u32], file: &[u8], n: usize)
    requires { (n ≤ length area.old) × (n * monitor_bytes ≤ length file.now) }
    ensures { area.new ≡ fronted (monitor_picture file.now) n area.old }
{
    for i in 0..n {
        let p = half_word(file, i * MONITOR_BYTES);
        area[i] = p as u32;
    }
}

// Byte d of n records.
fn fetch_bytes(area: &mut [u8], file: &[u8], d: usize, n: usize)
    requires { (n ≤ length area.old) × (n * monitor_bytes ≤ length file.now) × (d < monitor_bytes) }
    ensures { area.new ≡ fronted (byte_at file.now d) n area.old }
{
    for i in 0..n {
        area[i] = file[i * MONITOR_BYTES + d];
    }
}

// The coordinates of n records, widened.
fn fetch_positions(area: &mut [u64], file: &[u8], n: usize)
    requires { (2 * n ≤ length area.old) × (n * monitor_bytes ≤ length file.now) }
    ensures { area.new ≡ fronted (widened_at file.now) (2 * n) area.old }
{
    let m = 2 * n;
    for j in 0..m {
        area[j] = widen(coordinate(file, j));
    }
}

// Reads a file for the monitor: takes any file and any areas.
pub fn read_monitor(
    file: &[u8],
    pictures: &mut [u32],
    sides: &mut [u8],
    fields: &mut [u8],
    positions: &mut [u64],
) -> Result<usize, Unreadable>
    ensures { monitor_reading result pictures.new sides.new fields.new positions.new
        ≡ read_monitor file.now pictures.old sides.old fields.old positions.old }
{
    let n = file.len() / MONITOR_BYTES;
    let k = first_broken(file);
    if k < n || file.len() % MONITOR_BYTES != 0 {
        return Err(Unreadable::Bad(k));
    }
    if !frames_room(
        n,
        pictures.len(),
        sides.len(),
        fields.len(),
        positions.len(),
    ) {
        return Err(Unreadable::Short);
    }
    fetch_pictures(pictures, file, n);
    fetch_bytes(sides, file, 4, n);
    fetch_bytes(fields, file, 5, n);
    fetch_positions(positions, file, n);
    Ok(n)
}
