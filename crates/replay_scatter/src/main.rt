// Replays the list of scatters: the answer and the whole area afterwards, place by place.

#![tactic(auto)]

ghost use Rattle.std.specs.Prelude.{◌≤◌};

use replay::areas::{mark, same_area};
use replay::cases::{Next, replay_list};
use replay::{Tally, word_at};
use std::io;

// The case from word a on: seed, n, c, length, answer, and then the area.
fn case_right(list: &[u8], a: usize, area: &mut [f64]) -> bool
    requires { a ≤ 100000 }
{
    let n = word_at(list, a + 1);
    let c = word_at(list, a + 2);
    if n > 0xffff_ffff {
        return false;
    }
    if c > 0xffff_ffff {
        return false;
    }
    mark(area);
    let s = scatter::scatter(area, n as u32, c as u32, word_at(list, a));
    refusal::number(s) as u64 == word_at(list, a + 4) && same_area(area, 0, area.len(), list, a + 5)
}

// The case from word a on, in the first places of the space. A length that no case has ends the replay, and counts as wrong.
fn case_at(list: &[u8], a: usize, space: &mut [f64; 8192]) -> Option<Next> {
    if a > 100000 {
        return None;
    }
    let length = word_at(list, a + 3);
    if length > 8192 {
        return None;
    }
    let m = length as usize;
    let right = case_right(list, a, &mut space[..m]);
    Some(Next {
        right,
        at: a + 5 + m,
    })
}

// As `replay_cases` goes on, in a space that is made once: of it each case marks only its own places.
fn cases(list: &[u8]) -> Tally {
    let words = list.len() / 8;
    let mut space = [0.0; 8192];
    let mut t = Tally::new();
    let mut a = 0;
    while a < words {
        let Some(next) = case_at(list, a, &mut space) else {
            return t.with(false);
        };
        t = t.with(next.right);
        if next.at <= a {
            return t.with(false);
        }
        a = next.at;
    }
    t
}

fn main(rt: HostRuntime) -> io::Result<()> {
    let mut list = vec![in rt.alloc(); 0u8; 524288]?;
    replay_list(&rt, b"scatter.words", b"scatter", &mut list, cases)?;
    Ok(())
}
