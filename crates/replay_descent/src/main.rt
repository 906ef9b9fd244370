// Replays the lists of whole runs: a preparation and the work calls after it, with what is altered and lent shorter on the way.

#![tactic(auto)]

mod fields;
mod lending;
mod lengths;
mod nodes;
mod preparation;
mod run_areas;
mod working;

use descent::Answer;
use preparation::{answer_place, begin};
use replay::Tally;
use replay::areas::plus;
use replay::cases::{next_told, replay_cases, replay_list};
use run_record::Run;
use std::io;
use tree_node::Cell;
use working::all_calls;

// What a work call leaves: the record, the answer and the arena.
#[derive(Clone, Copy)]
pub struct Left {
    pub run: Run,
    pub answer: Answer,
    pub cells: [Cell; 512],
}

// The case from word a on.
fn case_right(list: &[u8], a: usize) -> bool {
    let begun = begin(list, a);
    let run = begun.run;
    let areas = begun.areas;
    let first = plus(answer_place(list, a), 12);
    let right = all_calls(list, a, first, begun.calls, run, areas);
    begun.right && right
}

// What became of the cases of a list.
fn cases(list: &[u8]) -> Tally {
    replay_cases(list, |a| next_told(list, a, case_right(list, a)))
}

fn main(rt: HostRuntime) -> io::Result<()> {
    let mut list = [0u8; 278528];
    replay_list(&rt, b"runs.words", b"runs", &mut list, cases)?;
    replay_list(&rt, b"faults.words", b"faults", &mut list, cases)?;
    Ok(())
}
