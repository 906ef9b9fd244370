// The two calls for the picture monitor, with the answer as plain words. Coordinates are lent by their bits.

#![tactic(auto)]

ghost use Rattle.std.specs.Prelude.{◌≡◌};
ghost use Rattle.desk_monitor.specs.HostWrite.{monitored_told, host_monitored, host_monitor_write};
ghost use Rattle.desk_monitor.specs.HostRead.{monitor_read_told, host_monitor_reading, host_monitor_read};

use monitor_read::read_monitor;
use monitor_write::{Unwritable, write_monitor};
use refusal::{Unreadable, number};

// What word 0 tells of a writing.
#[tactic(auto, unfolding(crate::specs::HostWrite::monitored_told))]
fn monitored_told(a: Result<usize, Unwritable>) -> u64
    ensures { result ≡ monitored_told a }
{
    match a {
        Ok(n) => n as u64,
        Err(Unwritable::Short) => 0,
        Err(Unwritable::Bad(k)) => k as u64,
        Err(Unwritable::Beyond(k)) => k as u64,
    }
}

// What word 0 tells of a reading.
#[tactic(auto, unfolding(crate::specs::HostRead::monitor_read_told))]
fn read_told(a: Result<usize, Unreadable>) -> u64
    ensures { result ≡ monitor_read_told a }
{
    match a {
        Ok(n) => n as u64,
        Err(Unreadable::Bad(k)) => k as u64,
        Err(Unreadable::Short) => 0,
    }
}

// Writes n frames for the monitor. Answers 0, or 12, 16 or 26; then the target is not changed.
pub fn host_monitor_write(
    n: usize,
    pictures: &[u32],
    sides: &[u8],
    fields: &[u8],
    positions: &[u64],
    target: &mut [u8],
    answer: &mut [u64],
) -> u32
    ensures { host_monitored result target.new answer.new
        ≡ host_monitor_write n pictures.now sides.now fields.now positions.now target.old answer.old }
{
    if answer.len() == 0 {
        return 12;
    }
    let a = write_monitor(n, pictures, sides, fields, positions, target);
    answer[0] = monitored_told(a);
    number(a) as u32
}

// Reads a file for the monitor. Answers 0, or 16 or 12; then no area is changed.
pub fn host_monitor_read(
    file: &[u8],
    pictures: &mut [u32],
    sides: &mut [u8],
    fields: &mut [u8],
    positions: &mut [u64],
    answer: &mut [u64],
) -> u32
    ensures { host_monitor_reading result pictures.new sides.new fields.new positions.new answer.new
        ≡ host_monitor_read file.now pictures.old sides.old fields.old positions.old answer.old }
{
    if answer.len() == 0 {
        return 12;
    }
    let a = read_monitor(file, pictures, sides, fields, positions);
    answer[0] = read_told(a);
    number(a) as u32
}
