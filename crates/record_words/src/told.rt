// An answer as plain words: its number, and what word 0 tells of it.
ghost use Rattle.std.specs.Prelude.{◌≡◌, ◌≤◌, length, set};
ghost use Rattle.refusal.specs.Refusal.{number_told};
ghost use Rattle.record_words.specs.RecordWords.{worded};

use refusal::{Numbered, number};

// Writes what comes with the answer into word 0. Answers its number.
pub fn put_told<T: Copy, E: Numbered + Copy>(
    words: &mut [u64],
    answer: Result<T, E>,
    told: u64,
) -> u32
    requires { 1 ≤ length words.old }
    ensures { worded result words.new ≡ worded (number_told E.number_of answer) (set words.old 0 told) }
{
    words[0] = told;
    number(answer) as u32
}
