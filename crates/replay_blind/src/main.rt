// Replays the lists of counts of blind frames: what is told of each table, and what is left in the rows.

#![tactic(auto)]

mod sights;

use replay::Tally;
use replay::cases::{next_told, replay_cases, replay_short_list};
use sights::sighted_right;
use std::io;

fn cases(list: &[u8]) -> Tally {
    replay_cases(list, |a| next_told(list, a, sighted_right(list, a)))
}

fn main(rt: HostRuntime) -> io::Result<()> {
    let mut list = [0u8; 278528];
    replay_short_list(&rt, b"searches.words", b"searches", &mut list, cases)?;
    replay_short_list(&rt, b"refusals.words", b"refusals", &mut list, cases)?;
    Ok(())
}
