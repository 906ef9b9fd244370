// Replays the lists for the picture monitor: values that are narrowed, frames that are written and files that are read, or not.

#![tactic(auto)]

mod narrowing;
mod reading;
mod rooms;
mod sides;
mod writing;

use narrowing::narrowed_right;
use reading::read_right;
use replay::Tally;
use replay::areas::plus;
use replay::cases::{Next, next_told, replay_cases, replay_list};
use std::io;
use writing::written_right;

// A case of narrowing has two words.
fn narrow(list: &[u8]) -> Tally {
    replay_cases(list, |a| {
        Some(Next {
            right: narrowed_right(list, a),
            at: plus(a, 2),
        })
    })
}

fn writes(list: &[u8]) -> Tally {
    replay_cases(list, |a| next_told(list, a, written_right(list, a)))
}

fn reads(list: &[u8]) -> Tally {
    replay_cases(list, |a| next_told(list, a, read_right(list, a)))
}

fn main(rt: HostRuntime) -> io::Result<()> {
    let mut list = [0u8; 278528];
    replay_list(&rt, b"narrow.words", b"narrow", &mut list, narrow)?;
    replay_list(&rt, b"writes.words", b"writes", &mut list, writes)?;
    replay_list(&rt, b"reads.words", b"reads", &mut list, reads)?;
    Ok(())
}
