// Replays the lists of partners' lists: files that are loaded into areas of marks or not, and runs whose lists are written into a target or not.

#![tactic(auto)]

mod lending;
mod loading;
mod writing;

use loading::loaded_right;
use replay::Tally;
use replay::cases::{next_told, replay_cases, replay_list};
use std::io;
use writing::written_right;

fn loads(list: &[u8]) -> Tally {
    replay_cases(list, |a| next_told(list, a, loaded_right(list, a)))
}

fn writes(list: &[u8]) -> Tally {
    replay_cases(list, |a| next_told(list, a, written_right(list, a)))
}

fn main(rt: HostRuntime) -> io::Result<()> {
    let mut list = [0u8; 278528];
    replay_list(&rt, b"partner.words", b"partner", &mut list, loads)?;
    replay_list(&rt, b"lists.words", b"lists", &mut list, writes)?;
    Ok(())
}
