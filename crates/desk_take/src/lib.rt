// Taking frames out of a run, with record and answer as plain words, and values that are only moved as words too.

#![tactic(auto)]

ghost use Rattle.std.specs.Prelude.{◌≡◌, ◌≤◌, length, set};
ghost use Rattle.tree_node.specs.Arena.{nodes_of};
ghost use Rattle.record_words.specs.RecordWords.{worded};
ghost use Rattle.take_out.specs.TakeOut.{holdings, take_number};
ghost use Rattle.desk_take.specs.HostTake.{take_fault_value, taken_told, size_put, host_took, host_take};

use fault_words::{fault_value, is_unfit, put_unfit};
use record_words::run_of;
use run_record::Run;
use take_out::{TakeFault, take_out};
use tree_node::Cell;

// What is told of a refusal: a fault's place, nothing where the removal is denied.
fn take_fault_value(e: TakeFault) -> u64
    ensures { result ≡ take_fault_value e }
{
    match e {
        TakeFault::Denied(_) => 0,
        TakeFault::Bad(f) => fault_value(f),
    }
}

fn taken_told(a: Result<usize, TakeFault>) -> u64
    ensures { result ≡ taken_told a }
{
    match a {
        Ok(m) => m as u64,
        Err(e) => take_fault_value(e),
    }
}

// Tells how many are left, or the place that comes with the refusal. Answers the number.
fn put_taken(answer: &mut [u64], a: Result<usize, TakeFault>) -> u32
    requires { 1 ≤ length answer.old }
    ensures { worded result answer.new ≡ worded (take_number a) (set answer.old 0 (taken_told a)) }
{
    answer[0] = taken_told(a);
    refusal::number(a) as u32
}

// Writes the samples and the units done to the record's words; the others stay as they are.
fn put_size(words: &mut [u64], r: Run)
    requires { 14 ≤ length words.old }
    ensures { words.new ≡ size_put r words.old }
{
    let s = r.settings;
    words[0] = s.n as u64;
    words[12] = r.units as u64;
}

// Takes frames out of a run. Answers 0, or the number of the refusal, and writes the answer's first word. The record that is lent on is this function's own, made of the words.
pub fn host_take_out(
    words: &mut [u64],
    positions: &mut [f64],
    increments: &mut [u64],
    gains: &mut [u64],
    affinities: &mut [u64],
    indices: &mut [u32],
    offsets: &mut [u32],
    forces: &mut [f64],
    cells: &[Cell],
    table: &mut [u64],
    gone: &[u32],
    old: &mut [u32],
    answer: &mut [u64],
) -> u32
    ensures { host_took result answer.new words.new
        (holdings positions.new increments.new gains.new affinities.new indices.new offsets.new forces.new table.new old.new)
        ≡ host_take gone.now words.old
        (holdings positions.old increments.old gains.old affinities.old indices.old offsets.old forces.old table.old old.old)
        (nodes_of cells.now) answer.old }
{
    let unfit = is_unfit(words, answer.len());
    if unfit {
        let k = put_unfit(words, answer);
        return k;
    }
    let mut own = run_of(words);
    let a = take_out(
        &mut own, positions, increments, gains, affinities, indices, offsets, forces, cells, table,
        gone, old,
    );
    let next = own;
    put_size(words, next);
    let k = put_taken(answer, a);
    k
}
