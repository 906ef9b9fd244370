// The figure of the iteration just finished, with record and answer as plain words.

#![tactic(auto)]

ghost use Rattle.std.specs.Prelude.{◌≡◌};
ghost use Rattle.run_entry.specs.State.{memory};
ghost use Rattle.record_words.specs.RecordWords.{worded};
ghost use Rattle.desk_divergence.specs.HostDivergence.{diverged_word, host_divergence};

use divergence::{DivergenceFault, divergence};
use elementary::words::bits_of;
use fault_words::{fault_value, is_unfit, put_unfit};
use record_words::run_of;
use record_words::told::put_told;
use tree_node::Cell;

// The figure's bits, or the place that comes with the refusal.
fn diverged_word(d: Result<f64, DivergenceFault>) -> u64
    ensures { result ≡ diverged_word d }
{
    match d {
        Ok(x) => bits_of(x),
        Err(DivergenceFault::Early) => 0,
        Err(DivergenceFault::Bad(f)) => fault_value(f),
    }
}

// The figure of the iteration just finished. Answers 0, or the number of the refusal, and writes the answer's first word.
pub fn host_divergence(
    words: &[u64],
    positions: &[f64],
    increments: &[f64],
    gains: &[f64],
    affinities: &[f64],
    indices: &[u32],
    offsets: &[u32],
    forces: &[f64],
    cells: &[Cell],
    copy: &[f64],
    answer: &mut [u64],
) -> u32
    ensures { worded result answer.new
        ≡ host_divergence
        words.now
        (memory
        positions.now
        increments.now
        gains.now
        affinities.now
        indices.now
        offsets.now
        forces.now
        cells.now)
        copy.now
        answer.old }
{
    if is_unfit(words, answer.len()) {
        return put_unfit(words, answer);
    }
    let r = run_of(words);
    let d = divergence(
        r, positions, increments, gains, affinities, indices, offsets, forces, cells, copy,
    );
    put_told(answer, d, diverged_word(d))
}
