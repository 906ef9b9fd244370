// Why a call is refused, and the number by which documents 01 and 02 tell it.

#![tactic(auto)]

ghost use Rattle.std.specs.Prelude.{◌≡◌, ℕ};
ghost use Rattle.refusal.specs.Refusal.{refusal_number, unreadable_number, number_told};

// What is wrong with settings, a table, a start or the areas lent, and what a step or a record may be refused by.
#[derive(Clone, Copy, Debug, PartialEq, Eq)]
pub enum Refusal {
    // 1
    Components,
    // 2
    Perplexity,
    // 3
    Rate,
    // 4
    Iterations,
    // 5
    Angle,
    // 6: more components than a tree has axes
    Axes,
    // 7: n, f or the table's length
    Size,
    // 8: a value of the table
    Value,
    // 9
    Single,
    // 10: the perplexity is not below n
    Crowd,
    // 11
    Start,
    // 12: a lent area is too short
    Short,
    // 15: a value would be NaN or too large
    Wild,
    // 20
    Profile,
    // 21: a word that is no method
    Method,
}

// Why a file of records is not read.
#[derive(Clone, Copy, Debug, PartialEq, Eq)]
pub enum Unreadable {
    // 16: the place of the first bad record, from 0
    Bad(usize),
    // 12: a lent area is too short
    Short,
}

// What an answer may be refused by has a number.
pub trait Numbered {
    ghost number_of: { Self → ℕ };

    fn number(self) -> u8
        ensures { result ≡ number_of self };
}

impl Numbered for Refusal {
    ghost number_of = { refusal_number };

    fn number(self) -> u8 {
        match self {
            Refusal::Components => 1,
            Refusal::Perplexity => 2,
            Refusal::Rate => 3,
            Refusal::Iterations => 4,
            Refusal::Angle => 5,
            Refusal::Axes => 6,
            Refusal::Size => 7,
            Refusal::Value => 8,
            Refusal::Single => 9,
            Refusal::Crowd => 10,
            Refusal::Start => 11,
            Refusal::Short => 12,
            Refusal::Wild => 15,
            Refusal::Profile => 20,
            Refusal::Method => 21,
        }
    }
}

impl Numbered for Unreadable {
    ghost number_of = { unreadable_number };

    fn number(self) -> u8 {
        match self {
            Unreadable::Bad(_) => 16,
            Unreadable::Short => 12,
        }
    }
}

// The number of an answer; 0 where it is no refusal.
pub fn number<T: Copy, E: Numbered + Copy>(answer: Result<T, E>) -> u8
    ensures { result ≡ number_told E.number_of answer }
{
    match answer {
        Ok(_) => 0,
        Err(e) => e.number(),
    }
}
