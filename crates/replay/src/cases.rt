// The cases of a list, one after the other, and the line of each list.
ghost use Rattle.std.specs.Prelude.{◌≡◌, ◌/◌, ℕ, ◌<◌, ◌≤◌, length, take, IfOk, Option, Some, false};
ghost use Rattle.std.specs.Fn.{FnReturnsAt};
ghost use Rattle.replay.specs.Replay.{no_tally, tallied};
ghost use Rattle.replay.specs.Cases.{next_told, cases_tally};

use crate::areas::plus;
use crate::{Tally, load, print, word_at};
use std::io;
use std::rt::Files;

// What became of a case: right or not, and the word where the next one begins.
#[derive(Debug, Clone, Copy, PartialEq, Eq)]
pub struct Next {
    pub right: bool,
    pub at: usize,
}

// What became of the case from word a on, whose first word tells how many words it has.
pub fn next_told(list: &[u8], a: usize, right: bool) -> Option<Next>
    ensures { result ≡ Some (next_told list.now a right) }
{
    let at = plus(a, word_at(list, a) as usize);
    Some(Next { right, at })
}

// What became of the cases from word 0 on. Where no case begins, or one does not lead on, the replay ends, and that counts as wrong.
pub fn replay_cases<F: Fn(usize) -> Option<Next>>(list: &[u8], case: F) -> Tally
    requires { F.IsAlwaysCallable case }
    ensures { (g : ℕ → Option Next)
        → ((a : ℕ) (r : Option Next) → a < length list.now / 8 → F.post case a r → r ≡ g a)
        → result ≡ cases_tally g (length list.now / 8) (length list.now / 8) 0 no_tally }
{
    let words = list.len() / 8;
    let mut t = Tally::new();
    let mut a = 0;
    while a < words {
        let Some(next) = case(a) else {
            return t.with(false);
        };
        t = t.with(next.right);
        if next.at <= a {
            return t.with(false);
        }
        a = next.at;
    }
    t
}

// Reads the file into the list, and prints the line of what became of its cases.
pub fn replay_list<F: Fn(&[u8]) -> Tally>(
    rt: &(impl Files + Print),
    path: &[u8],
    name: &[u8],
    list: &mut [u8],
    cases: F,
) -> io::Result<Tally>
    requires { F.IsAlwaysCallable cases }
    ensures { IfOk result (λ t. (n : ℕ) × (n ≤ length list.new) × FnReturnsAt F.Fn cases (take n list.new) t) }
{
    let n = load(rt, path, list);
    let t = cases(&list[..n]);
    print(rt, name, t)?;
    Ok(t)
}

// The same of a list that has to leave room: one that takes up all of it may go on, and is wrong and not run.
pub fn replay_short_list<F: Fn(&[u8]) -> Tally>(
    rt: &(impl Files + Print),
    path: &[u8],
    name: &[u8],
    list: &mut [u8],
    cases: F,
) -> io::Result<Tally>
    requires { F.IsAlwaysCallable cases }
    ensures { IfOk result (λ t. (n : ℕ) × (n ≤ length list.new)
        × ((n ≡ length list.new → t ≡ tallied no_tally false)
        × (n < length list.new → FnReturnsAt F.Fn cases (take n list.new) t))) }
{
    let n = load(rt, path, list);
    let t = if n == list.len() {
        Tally::new().with(false)
    } else {
        cases(&list[..n])
    };
    print(rt, name, t)?;
    Ok(t)
}
