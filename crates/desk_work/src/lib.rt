// The work call, with record and answer as plain words.

#![tactic(auto)]

ghost use Rattle.std.specs.Prelude.{◌≡◌, not, ◌≤◌, ltb, length};
ghost use Rattle.run_entry.specs.State.{memory};
ghost use Rattle.run_budget.specs.declared.Answer.TheVariants.{Bad};
ghost use Rattle.descent.specs.Descent.{work_number};
ghost use Rattle.record_words.specs.RecordWords.{run_fine};
ghost use Rattle.fault_words.specs.FaultWords.{unread_fault};
ghost use Rattle.answer_words.specs.AnswerWords.{answer_put};
ghost use Rattle.desk_work.specs.HostWork.{host_worked, host_work};

use answer_words::{put_after, put_answer};
use descent::{Answer, work};
use fault_words::unread_fault;
use record_words::{run_fine, run_of};
use tree_node::Cell;

// An answer has five words.
fn is_short(words: usize) -> bool
    ensures { result ≡ ltb words 5 }
{
    words < 5
}

// Whether the words are no record.
fn is_unread(words: &[u64]) -> bool
    ensures { result ≡ not (run_fine words.now) }
{
    !run_fine(words)
}

// Tells what is wrong with words that are no record, and answers its number.
fn put_unread(words: &[u64], answer: &mut [u64]) -> u32
    requires { 5 ≤ length answer.old }
    ensures { (result ≡ work_number (Bad (unread_fault words.now))) × (answer.new ≡ answer_put (Bad (unread_fault words.now)) answer.old) }
{
    let f = unread_fault(words);
    let a = Answer::Bad(f);
    put_answer(answer, a);
    number_of(a)
}

fn number_of(a: Answer) -> u32
    ensures { result ≡ work_number a }
{
    descent::number(a) as u32
}

// Does units of a run. Answers 0, or the number of the refusal, and writes the answer's words. The work call is lent a record of this function's own, made of the words.
pub fn host_work(
    words: &mut [u64],
    positions: &mut [f64],
    increments: &mut [f64],
    gains: &mut [f64],
    affinities: &[f64],
    indices: &[u32],
    offsets: &[u32],
    forces: &mut [f64],
    cells: &mut [Cell],
    budget: u32,
    answer: &mut [u64],
) -> u32
    ensures { host_worked result
        answer.new
        words.new
        (memory
        positions.new
        increments.new
        gains.new
        affinities.now
        indices.now
        offsets.now
        forces.new
        cells.new)
        ≡ host_work budget
        words.old
        answer.old
        (memory
        positions.old
        increments.old
        gains.old
        affinities.now
        indices.now
        offsets.now
        forces.old
        cells.old) }
{
    let short = is_short(answer.len());
    if short {
        return 12;
    }
    let unread = is_unread(words);
    if unread {
        let u = put_unread(words, answer);
        return u;
    }
    let mut own = run_of(words);
    let a = work(
        &mut own, positions, increments, gains, affinities, indices, offsets, forces, cells, budget,
    );
    let next = own;
    put_after(words, a, next);
    put_answer(answer, a);
    let k = number_of(a);
    k
}
