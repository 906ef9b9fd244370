// Replays the list of frames taken out of runs: runs that are thinned, and runs that are not.

#![tactic(auto)]

mod lending;
mod lengths;
mod run_areas;
mod taking;

use replay::Tally;
use replay::cases::{next_told, replay_cases, replay_list};
use std::io;
use taking::case_right;

fn cases(list: &[u8]) -> Tally {
    replay_cases(list, |a| next_told(list, a, case_right(list, a)))
}

fn main(rt: HostRuntime) -> io::Result<()> {
    let mut list = [0u8; 278528];
    replay_list(&rt, b"takes.words", b"takes", &mut list, cases)?;
    Ok(())
}
