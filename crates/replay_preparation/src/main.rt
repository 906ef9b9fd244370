// Replays the lists of preparations by both routes: every place of every area afterwards, the tails and the zeroed rows included.

#![tactic(auto)]

ghost use Rattle.std.specs.Prelude.{◌≡◌, true, ◌+◌, ◌*◌, ◌<◌, ◌≤◌, pos};
ghost use Rattle.std.specs.Float.Ieee.{lt, of_int};
ghost use Rattle.std.specs.Float.{binary64};
ghost use Rattle.laws.specs.Area.{zero64};
ghost use Rattle.elementary.specs.Limits.{neighbours_of};

use replay::areas::{copy_words, mark, mark_words, plus, same_area, same_numbers, times, value_at};
use replay::cases::{Next, replay_cases, replay_list};
use replay::{Tally, word_at};
use std::io;

// The first n places of an area are 0, as the words past the list's end are, and the others hold their marks.
fn zeroed(area: &[f64], n: usize, list: &[u8]) -> bool {
    same_area(area, 0, n, list, list.len())
}

// The exact route, of which n·n affinities stand from word a on.
fn exact_case(list: &[u8], a: usize, n: usize, f: usize, perplexity: f64, table: [f64; 400]) -> bool
    requires { (n ≤ 64) × (n * f ≤ 400) }
{
    let p = times(n, n);
    let mut affinities = [0.0; 8100];
    let mut squares = [0.0; 66];
    let mut row = [0.0; 68];
    mark(&mut affinities);
    mark(&mut squares);
    mark(&mut row);
    affinity::exact::exact_affinities(
        &table,
        n,
        f,
        perplexity,
        &mut affinities,
        &mut squares,
        &mut row,
    );
    same_area(&affinities, 0, p, list, a)
        && same_area(&squares, n, 0, list, a)
        && zeroed(&row, n, list)
}

// From word a on n + 1 offsets, then as many indices as the last of them says, then as many weights.
fn same_lists(
    list: &[u8],
    a: usize,
    n: usize,
    weights: &[f64],
    indices: &[u32],
    offsets: &[u32],
) -> bool {
    let b = plus(a, n);
    let links = word_at(list, b) as usize;
    let e = plus(b, 1);
    same_numbers(offsets, plus(n, 1), list, a)
        && same_numbers(indices, links, list, e)
        && same_area(weights, 0, links, list, plus(e, links))
}

// What is lent beside the lists: the squares' tail, and the zeroed rows.
fn same_rows(
    list: &[u8],
    n: usize,
    squares: &[f64],
    row_values: &[f64],
    row_indices: &[u32],
) -> bool {
    same_area(squares, n, 0, list, 0)
        && zeroed(row_values, n, list)
        && same_numbers(row_indices, n, list, list.len())
}

// A perplexity that a preparation lets pass, and room for the links of its neighbours.
fn fits(perplexity: f64, n: usize) -> bool
    requires { n ≤ 64 }
    ensures { result ≡ true → (2 ≤ n) × (lt zero64 perplexity ≡ true) × (lt perplexity (of_int binary64 (pos n)) ≡ true) × (2 * (n * neighbours_of perplexity n) ≤ 8100) }
{
    if n < 2 {
        return false;
    }
    if perplexity > 0.0 {
        if perplexity < n as f64 {
            let k = elementary::neighbours(perplexity, n as u64) as usize;
            if k > 64 {
                return false;
            }
            return 2 * times(n, k) <= 8100;
        }
    }
    false
}

// The Barnes-Hut route, of which the lists stand from word a on; a case that does not fit counts as wrong.
fn lists_case(list: &[u8], a: usize, n: usize, f: usize, perplexity: f64, table: [f64; 400]) -> bool
    requires { (n ≤ 64) × (n * f ≤ 400) }
{
    if !fits(perplexity, n) {
        return false;
    }
    let mut weights = [0.0; 8100];
    let mut indices = [0u32; 8101];
    let mut offsets = [0u32; 70];
    let mut squares = [0.0; 66];
    let mut row_values = [0.0; 68];
    let mut row_indices = [0u32; 72];
    mark(&mut weights);
    mark_words(&mut indices);
    mark_words(&mut offsets);
    mark(&mut squares);
    mark(&mut row_values);
    mark_words(&mut row_indices);
    affinity::neighbours::neighbor_probabilities(
        &table,
        n,
        f,
        perplexity,
        &mut weights,
        &mut indices,
        &mut offsets,
        &mut squares,
        &mut row_values,
        &mut row_indices,
    );
    same_lists(list, a, n, &weights, &indices, &offsets)
        && same_rows(list, n, &squares, &row_values, &row_indices)
}

// The case from word a on: method, n, f, perplexity, table, then what the route gives.
fn case_right(list: &[u8], a: usize, n: usize, f: usize) -> bool
    requires { (n ≤ 64) × (f ≤ 6) }
{
    let m = times(n, f);
    if m > 400 {
        return false;
    }
    let perplexity = value_at(list, plus(a, 3));
    let b = plus(a, 4);
    let mut table = [0.0; 400];
    copy_words(&mut table, m, list, b);
    let e = plus(b, m);
    if word_at(list, a) == 0 {
        return exact_case(list, e, n, f, perplexity, table);
    }
    lists_case(list, e, n, f, perplexity, table)
}

// How many words the case at word a has behind its perplexity.
fn rest(list: &[u8], a: usize, n: usize, f: usize) -> usize
    requires { (n ≤ 64) × (f ≤ 6) }
{
    let m = times(n, f);
    if word_at(list, a) == 0 {
        return plus(m, times(n, n));
    }
    let links = word_at(list, plus(plus(a, 4), plus(m, n))) as usize;
    plus(plus(m, plus(n, 1)), plus(links, links))
}

// The case from word a on. A size that no case has ends the replay, and counts as wrong.
fn one_case(list: &[u8], a: usize) -> Next {
    let n = word_at(list, plus(a, 1)) as usize;
    let f = word_at(list, plus(a, 2)) as usize;
    if n > 64 || f > 6 {
        return Next {
            right: false,
            at: 0,
        };
    }
    let at = plus(plus(a, 4), rest(list, a, n, f));
    let right = case_right(list, a, n, f);
    Next { right, at }
}

fn cases(list: &[u8]) -> Tally {
    replay_cases(list, |a| Some(one_case(list, a)))
}

fn main(rt: HostRuntime) -> io::Result<()> {
    let mut list = [0u8; 278528];
    replay_list(&rt, b"preparation.words", b"preparation", &mut list, cases)?;
    replay_list(
        &rt,
        b"larger.words",
        b"larger preparations",
        &mut list,
        cases,
    )?;
    replay_list(
        &rt,
        b"far.words",
        b"preparations of far frames",
        &mut list,
        cases,
    )?;
    Ok(())
}
