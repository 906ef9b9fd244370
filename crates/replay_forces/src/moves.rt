// Steps before centring: each element's gain, increment and moved position.
ghost use Rattle.std.specs.Prelude.{◌<◌, ◌≤◌};
ghost use Rattle.step_passes.specs.Passes.{AreasFit};

use replay::areas::{floats_at, plus, same_value, times, value_at};
use replay::cases::{Next, replay_cases};
use replay::{Tally, word_at};
use step::{Areas, Element, Pace};

// Element e is what the list has: from word a on m moved positions, then m increments, then m gains.
fn same_element(x: Element, list: &[u8], a: usize, m: usize, e: usize) -> bool {
    let b = plus(a, m);
    same_value(x.moved, list, plus(a, e))
        && same_value(x.increment, list, plus(b, e))
        && same_value(x.gain, list, plus(plus(b, m), e))
}

// Every element of a case whose areas are ready.
fn same_moves(list: &[u8], a: usize, areas: Areas) -> bool
    requires { AreasFit areas.n areas.c areas.forces.now areas.positions.now areas.increments.now areas.gains.now }
{
    let m = areas.n * areas.c;
    for e in 0..m {
        if !same_element(areas.element_at(e), list, a, m, e) {
            return false;
        }
    }
    true
}

// A case from word a on: n, c, momentum, rate, gradient, positions, increments and gains, then positions, increments and gains. Areas without room count as wrong.
fn moves_case(list: &[u8], a: usize, n: usize, c: usize) -> bool
    requires { (n ≤ 12) × (0 < c) × (c ≤ 8) }
{
    let m = times(n, c);
    if m > 400 {
        return false;
    }
    if times(n, 2 * c + 1) > 400 {
        return false;
    }
    let pace = Pace {
        exact: true,
        z: 1.0,
        momentum: value_at(list, plus(a, 2)),
        rate: value_at(list, plus(a, 3)),
    };
    let b = plus(a, 4);
    let d = plus(b, plus(m, m));
    let forces = floats_at::<400>(list, b, m);
    let positions = floats_at::<400>(list, plus(b, m), m);
    let increments = floats_at::<400>(list, d, m);
    let gains = floats_at::<400>(list, plus(d, m), m);
    let e = plus(d, plus(m, m));
    let areas = Areas {
        pace,
        n,
        c,
        forces: &forces,
        positions: &positions,
        increments: &increments,
        gains: &gains,
    };
    same_moves(list, e, areas)
}

// A size that no case has ends the replay, and counts as wrong.
fn case_at(list: &[u8], a: usize) -> Option<Next> {
    let n = word_at(list, a);
    let c = word_at(list, plus(a, 1));
    if n > 12 || c > 8 || c == 0 || a > 100000 {
        return None;
    }
    let right = moves_case(list, a, n as usize, c as usize);
    Some(Next {
        right,
        at: a + 4 + 7 * times(n as usize, c as usize),
    })
}

pub(crate) fn moves_cases(list: &[u8]) -> Tally {
    replay_cases(list, |a| case_at(list, a))
}
