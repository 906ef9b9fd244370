// Replays the lists of parked runs: runs that are written into a target or not, and files that are read into areas of marks or not.

#![tactic(auto)]

mod forces;
mod lending;
mod reading;
mod writing;

use reading::read_right;
use replay::Tally;
use replay::cases::{next_told, replay_cases, replay_list};
use std::io;
use writing::written_right;

fn parks(list: &[u8]) -> Tally {
    replay_cases(list, |a| next_told(list, a, written_right(list, a)))
}

fn unparks(list: &[u8]) -> Tally {
    replay_cases(list, |a| next_told(list, a, read_right(list, a)))
}

fn main(rt: HostRuntime) -> io::Result<()> {
    let mut list = [0u8; 278528];
    replay_list(&rt, b"parks.words", b"parks", &mut list, parks)?;
    replay_list(&rt, b"unparks.words", b"unparks", &mut list, unparks)?;
    Ok(())
}
