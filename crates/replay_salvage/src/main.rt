// Replays the lists of scuffed frame files: what is kept of each, and what is told of the rest.

#![tactic(auto)]

mod saving;

use replay::Tally;
use replay::cases::{next_told, replay_cases, replay_short_list};
use saving::salvaged_right;
use std::io;

fn cases(list: &[u8]) -> Tally {
    replay_cases(list, |a| next_told(list, a, salvaged_right(list, a)))
}

fn main(rt: HostRuntime) -> io::Result<()> {
    let mut list = [0u8; 278528];
    replay_short_list(&rt, b"bytes.words", b"bytes", &mut list, cases)?;
    replay_short_list(&rt, b"orders.words", b"orders", &mut list, cases)?;
    replay_short_list(&rt, b"scuffed.words", b"scuffed", &mut list, cases)?;
    Ok(())
}
