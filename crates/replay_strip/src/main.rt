// Replays the list of strips: ended runs whose frames are handed out along one line, and runs whose frames are not.

#![tactic(auto)]

mod handing;
mod lending;

use handing::handed_right;
use replay::Tally;
use replay::cases::{next_told, replay_cases, replay_list};
use std::io;

fn cases(list: &[u8]) -> Tally {
    replay_cases(list, |a| next_told(list, a, handed_right(list, a)))
}

fn main(rt: HostRuntime) -> io::Result<()> {
    let mut list = [0u8; 278528];
    replay_list(&rt, b"strip.words", b"strip", &mut list, cases)?;
    Ok(())
}
