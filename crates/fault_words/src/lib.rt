// A fault and what comes with it, as plain words of 64 bits; and what is wrong with words that are no record.

#![tactic(auto)]

ghost use Rattle.std.specs.Prelude.{◌≡◌};
ghost use Rattle.record_words.specs.RecordWords.{worded};
ghost use Rattle.fault_words.specs.FaultWords.{fault_word, fault_value, unread_fault, unfit, unfit_told};

use record_words::{run_fine, settings_fine, settings_of};
use refusal::{Numbered, Refusal};
use run_entry::Fault;
use run_record::faults::settings_fault;

pub fn fault_word(f: Fault) -> u64
    ensures { result ≡ fault_word f }
{
    match f {
        Fault::Settings(_) => 1,
        Fault::Counters => 2,
        Fault::Areas => 3,
        Fault::Offsets(_) => 4,
        Fault::Index(_) => 5,
        Fault::Tree(_) => 6,
    }
}

pub fn fault_value(f: Fault) -> u64
    ensures { result ≡ fault_value f }
{
    match f {
        Fault::Settings(r) => r.number() as u64,
        Fault::Counters => 0,
        Fault::Areas => 0,
        Fault::Offsets(i) => i as u64,
        Fault::Index(i) => i as u64,
        Fault::Tree(i) => i as u64,
    }
}

// What is told of words that are no record.
pub fn unread_fault(words: &[u64]) -> Fault
    ensures { result ≡ unread_fault words.now }
{
    if words.len() < 14 {
        return Fault::Counters;
    }
    if !settings_fine(words) {
        return Fault::Settings(Refusal::Method);
    }
    match settings_fault(settings_of(words)) {
        Err(r) => Fault::Settings(r),
        Ok(_) => Fault::Counters,
    }
}

// Whether an answer of so many words has none, or the words are no record.
pub fn is_unfit(words: &[u64], told: usize) -> bool
    ensures { result ≡ unfit words.now told }
{
    told == 0 || !run_fine(words)
}

// Answers 12, or the number of what is wrong with the words, and tells what comes with it.
pub fn put_unfit(words: &[u64], answer: &mut [u64]) -> u32
    ensures { worded result answer.new ≡ unfit_told words.now answer.old }
{
    if answer.len() == 0 {
        return 12;
    }
    let f = unread_fault(words);
    answer[0] = fault_value(f);
    f.number() as u32
}
