// The work call's answer as plain words of 64 bits, and the record's words after it.

#![tactic(auto)]

ghost use Rattle.std.specs.Prelude.{◌≡◌, ◌≤◌, length};
ghost use Rattle.refusal.specs.Refusal.{number_told};
ghost use Rattle.fault_words.specs.FaultWords.{fault_word, fault_value};
ghost use Rattle.descent.specs.Descent.{units_of};
ghost use Rattle.answer_words.specs.AnswerWords.{is_bad, run_after, kind_word, fault_in, answer_put};

use descent::Answer;
use fault_words::{fault_value, fault_word};
use record_words::put_progress;
use run_entry::Fault;
use run_record::Run;

fn kind_word(a: Answer) -> u64
    ensures { result ≡ kind_word a }
{
    match a {
        Answer::Running(_) => 0,
        Answer::Stopped(_) => 1,
        Answer::Finished(_) => 2,
        Answer::Full(_) => 3,
        Answer::Wild(_) => 3,
        Answer::Bad(_) => 3,
    }
}

fn is_bad(a: Answer) -> bool
    ensures { result ≡ is_bad a }
{
    match a {
        Answer::Running(_) => false,
        Answer::Stopped(_) => false,
        Answer::Finished(_) => false,
        Answer::Full(_) => false,
        Answer::Wild(_) => false,
        Answer::Bad(_) => true,
    }
}

// The record after a call. The settings' words keep their bits, those of a NaN too; a call that is refused at its entry leaves all words as they are.
pub fn put_after(words: &mut [u64], a: Answer, r: Run)
    requires { 14 ≤ length words.old }
    ensures { words.new ≡ run_after a r words.old }
{
    if is_bad(a) {
        return;
    }
    put_progress(words, r);
}

fn units_word(a: Answer) -> u64
    ensures { result ≡ units_of a }
{
    match a {
        Answer::Running(d) => d as u64,
        Answer::Stopped(d) => d as u64,
        Answer::Finished(d) => d as u64,
        Answer::Full(d) => d as u64,
        Answer::Wild(d) => d as u64,
        Answer::Bad(_) => 0,
    }
}

fn fault_in(a: Answer) -> Result<(), Fault>
    ensures { result ≡ fault_in a }
{
    match a {
        Answer::Bad(f) => Err(f),
        _ => Ok(()),
    }
}

// The kind of the fault, and what comes with it; 0 and 0 where there is none.
fn fault_words(a: Answer) -> (u64, u64)
    ensures { (result.0 ≡ number_told fault_word (fault_in a)) × (result.1 ≡ number_told fault_value (fault_in a)) }
{
    match fault_in(a) {
        Err(f) => (fault_word(f), fault_value(f)),
        Ok(_) => (0, 0),
    }
}

pub fn put_answer(words: &mut [u64], a: Answer)
    requires { 5 ≤ length words.old }
    ensures { words.new ≡ answer_put a words.old }
{
    let f = fault_words(a);
    words[0] = kind_word(a);
    words[1] = descent::number(a) as u64;
    words[2] = units_word(a);
    words[3] = f.0;
    words[4] = f.1;
}
