// Replays what the original Rust itself gave: Barnes-Hut gradients with their normaliser, and the step before centring. And the divergence over links.

#![tactic(auto)]

mod areas;
mod figures;
mod growth;
mod lending;
mod links;
mod moves;
mod pulls;

use figures::figures_cases;
use moves::moves_cases;
use pulls::pulls_cases;
use replay::cases::replay_list;
use std::io;

fn main(rt: HostRuntime) -> io::Result<()> {
    let mut list = [0u8; 278528];
    replay_list(
        &rt,
        b"pulls.words",
        b"Barnes-Hut gradients",
        &mut list,
        pulls_cases,
    )?;
    replay_list(
        &rt,
        b"moves.words",
        b"steps before centring",
        &mut list,
        moves_cases,
    )?;
    replay_list(
        &rt,
        b"links.words",
        b"divergence over links",
        &mut list,
        figures_cases,
    )?;
    Ok(())
}
