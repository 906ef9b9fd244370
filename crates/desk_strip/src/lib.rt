// Handing out the frames of an ended strip run, with record and answer as plain words. Gaps are lent by their bits.

#![tactic(auto)]

ghost use Rattle.std.specs.Prelude.{◌≡◌, ◌≤◌, length, set};
ghost use Rattle.run_entry.specs.State.{memory};
ghost use Rattle.record_words.specs.RecordWords.{worded};
ghost use Rattle.hand_out.specs.HandOut.{hand_number};
ghost use Rattle.desk_strip.specs.HostStrip.{place_told, hand_told, host_handed, host_strip};

use fault_words::fault_value;
use hand_out::{HandFault, hand_out};
use tree_node::Cell;

// The place that comes with a refusal, 0 where none does.
fn place_told(e: HandFault) -> u64
    ensures { result ≡ place_told e }
{
    match e {
        HandFault::Outside => 0,
        HandFault::Early => 0,
        HandFault::Barred => 0,
        HandFault::Short => 0,
        HandFault::Bad(f) => fault_value(f),
    }
}

fn hand_told(h: Result<usize, HandFault>) -> u64
    ensures { result ≡ hand_told h }
{
    match h {
        Ok(n) => n as u64,
        Err(e) => place_told(e),
    }
}

// Tells the frames, or the place that comes with the refusal. Answers the number.
fn put_handed(answer: &mut [u64], h: Result<usize, HandFault>) -> u32
    requires { 1 ≤ length answer.old }
    ensures { worded result answer.new ≡ worded (hand_number h) (set answer.old 0 (hand_told h)) }
{
    answer[0] = hand_told(h);
    refusal::number(h) as u32
}

// Hands out the frames along the line. Answers 0, or the number of the refusal; then order and gaps are not changed.
pub fn host_strip(
    words: &[u64],
    positions: &[f64],
    increments: &[f64],
    gains: &[f64],
    affinities: &[f64],
    indices: &[u32],
    offsets: &[u32],
    forces: &[f64],
    cells: &[Cell],
    order: &mut [u32],
    gaps: &mut [u64],
    answer: &mut [u64],
) -> u32
    ensures { host_handed result order.new gaps.new answer.new
        ≡ host_strip
        words.now
        (memory
        positions.now
        increments.now
        gains.now
        affinities.now
        indices.now
        offsets.now
        forces.now
        cells.now)
        order.old
        gaps.old
        answer.old }
{
    if answer.len() == 0 {
        return 12;
    }
    let h = hand_out(
        words, positions, increments, gains, affinities, indices, offsets, forces, cells, order,
        gaps,
    );
    let k = put_handed(answer, h);
    k
}
