// Reading a parked run back, with record and answer as plain words. Areas of values are lent by their bits.

#![tactic(auto)]

ghost use Rattle.std.specs.Prelude.{◌≡◌};
ghost use Rattle.parked.specs.Parked.{stored_of};
ghost use Rattle.desk_unpark.specs.HostUnpark.{unparked_told, host_unparked, host_unpark};

use record_words::told::put_told;
use refusal::Unreadable;
use unpark::unpark;

// The records, or the first bad one.
fn unparked_told(u: Result<usize, Unreadable>) -> u64
    ensures { result ≡ unparked_told u }
{
    match u {
        Ok(k) => k as u64,
        Err(Unreadable::Bad(q)) => q as u64,
        Err(Unreadable::Short) => 0,
    }
}

// Reads a parked run into record and areas. Answers 0, or the number of the refusal; then none of them is changed.
pub fn host_unpark(
    file: &[u8],
    words: &mut [u64],
    positions: &mut [u64],
    increments: &mut [u64],
    gains: &mut [u64],
    affinities: &mut [u64],
    indices: &mut [u32],
    offsets: &mut [u32],
    forces: &mut [f64],
    nodes: usize,
    answer: &mut [u64],
) -> u32
    ensures { host_unparked result
        (stored_of
        words.new
        positions.new
        increments.new
        gains.new
        affinities.new
        indices.new
        offsets.new)
        forces.new
        answer.new
        ≡ host_unpark
        file.now
        (stored_of
        words.old
        positions.old
        increments.old
        gains.old
        affinities.old
        indices.old
        offsets.old)
        forces.old
        nodes
        answer.old }
{
    if answer.len() == 0 {
        return 12;
    }
    let u = unpark(
        file, words, positions, increments, gains, affinities, indices, offsets, forces, nodes,
    );
    put_told(answer, u, unparked_told(u))
}
