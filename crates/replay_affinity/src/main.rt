// Replays the affinity lists: sigma searches by the scope paper's rule, the neighbours that the original chose, and the lists that it made of them.

#![tactic(auto)]

mod choices;
mod joins;
mod sigmas;

use replay::cases::replay_list;
use std::io;

fn main(rt: HostRuntime) -> io::Result<()> {
    let mut list = [0u8; 196608];
    replay_list(&rt, b"sigma.words", b"sigma", &mut list, sigmas::cases)?;
    replay_list(&rt, b"near.words", b"near", &mut list, choices::cases)?;
    replay_list(&rt, b"lists.words", b"lists", &mut list, joins::cases)?;
    Ok(())
}
