// Replays the list of sigma searches: the shares of each row.
ghost use Rattle.std.specs.Prelude.{◌≤◌};

use replay::areas::{copy_words, mark, same_area};
use replay::cases::{Next, replay_cases};
use replay::{Tally, word_at};

// The case from word a on: a row of n distances, whose shares follow it; what lies past the shares keeps its marks.
fn case_right(list: &[u8], a: usize, n: usize) -> bool
    requires { (a ≤ 100000) × (n ≤ 1000) }
{
    if n > 256 {
        return false;
    }
    let mut distances = [0.0; 256];
    let mut shares = [0.0; 256];
    copy_words(&mut distances, n, list, a + 2);
    mark(&mut shares);
    let perplexity = elementary::value_of(word_at(list, a + 1));
    affinity_sigma::binary_search_sigma(&distances, n, perplexity, &mut shares);
    same_area(&shares, 0, n, list, a + 2 + n)
}

// A length that no case has ends the replay, and counts as wrong.
fn case_at(list: &[u8], a: usize) -> Option<Next> {
    let n = word_at(list, a);
    if n > 1000 || a > 100000 {
        return None;
    }
    let length = n as usize;
    let right = case_right(list, a, length);
    Some(Next {
        right,
        at: a + 2 + 2 * length,
    })
}

pub(crate) fn cases(list: &[u8]) -> Tally {
    replay_cases(list, |a| case_at(list, a))
}
