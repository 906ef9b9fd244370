// Replays the list of neighbours that the original chose: the k nearest, nearest first, with their distances.
ghost use Rattle.std.specs.Prelude.{◌+◌, ◌≤◌, length};
ghost use Rattle.affinity_near.specs.Near.{Plains};

use affinity_near::neighbours::nearest;
use replay::areas::{mark, mark_words, plus, value_at};
use replay::cases::{Next, replay_cases};
use replay::{Tally, word_at};

// The first m places become the distances that the list has from word a on. What is no distance becomes +0.0, and differs then.
fn read_distances(list: &[u8], a: usize, to: &mut [f64], m: usize)
    requires { m ≤ length to.old }
    ensures { Plains to.new m }
{
    for i in 0..m {
        to[i] = elementary::limits::unless_above(0.0, value_at(list, plus(a, i)));
    }
}

// The first k pairs are those that the list has from word a on, index and distance.
fn same_pairs(values: &[f64], indices: &[u32], k: usize, list: &[u8], a: usize) -> bool
    requires { (a ≤ 200000) × (k ≤ 1000) × (k ≤ length values.now) × (k ≤ length indices.now) }
{
    for t in 0..k {
        if indices[t] as u64 != word_at(list, a + 2 * t) {
            return false;
        }
        if elementary::bits_of(values[t]) != word_at(list, a + 2 * t + 1) {
            return false;
        }
    }
    true
}

// The case from word a on: n frames, of which the k nearest to frame i are chosen. Areas without room count as wrong.
fn case_right(list: &[u8], a: usize, n: usize, k: usize) -> bool
    requires { (a ≤ 100000) × (n ≤ 1000) × (k ≤ 1000) }
{
    if k == 0 || n > 256 || k > 256 {
        return false;
    }
    let mut distances = [0.0; 256];
    let mut values = [0.0; 256];
    let mut indices = [0u32; 256];
    mark(&mut values);
    mark_words(&mut indices);
    read_distances(list, a + 3, &mut distances, n);
    nearest(
        &distances,
        n,
        k,
        word_at(list, a + 2) as usize,
        &mut values,
        &mut indices,
    );
    same_pairs(&values, &indices, k, list, a + 3 + n)
}

// Numbers that no case has end the replay, and count as wrong.
fn case_at(list: &[u8], a: usize) -> Option<Next> {
    let n = word_at(list, a);
    let k = word_at(list, plus(a, 1));
    if a > 100000 || n > 1000 || k > 1000 {
        return None;
    }
    let right = case_right(list, a, n as usize, k as usize);
    Some(Next {
        right,
        at: a + 3 + n as usize + 2 * k as usize,
    })
}

pub(crate) fn cases(list: &[u8]) -> Tally {
    replay_cases(list, |a| case_at(list, a))
}
