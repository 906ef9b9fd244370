// A case: a scuffed frame file, salvaged into a target, places and rules of marks.
ghost use Rattle.std.specs.Prelude.{◌≤◌};

use desk_salvage::host_salvage;
use replay::areas::plus;
use replay::word_at;
use replay_areas::bytes::{
    bytes_at, marked_target, same_bytes, same_target, still_marked, words_of,
};
use replay_areas::lengths::length_at;
use replay_areas::values::{marked_values, same_values};

// Whether the lengths of target, places and rules, which are the words from i on, are no more than there is room for.
fn areas_fit(list: &[u8], i: usize) -> bool {
    word_at(list, i) <= 1408 && word_at(list, plus(i, 1)) <= 48 && word_at(list, plus(i, 2)) <= 1408
}

// How long target, places and rules are.
#[derive(Clone, Copy)]
struct Rooms {
    target: usize,
    places: usize,
    rules: usize,
}

// The three lengths from word i on.
fn rooms_at(list: &[u8], i: usize) -> Rooms
    ensures { (result.target ≤ 1408) × (result.places ≤ 48) × (result.rules ≤ 1408) }
{
    Rooms {
        target: length_at(list, i, 1408),
        places: length_at(list, plus(i, 1), 48),
        rules: length_at(list, plus(i, 2), 1408),
    }
}

// What a call leaves: its number, the words of its answer, which were 9 each, and the areas.
#[derive(Clone, Copy)]
struct Left {
    number: u32,
    answer: [u64; 2],
    target: [u8; 1408],
    places: [u64; 48],
    rules: [u8; 1408],
}

// The file of so many bytes from word f on, salvaged into areas so long.
fn salvaged(list: &[u8], f: usize, bytes: usize, m: Rooms) -> Left
    requires { (bytes ≤ 1408) × (m.target ≤ 1408) × (m.places ≤ 48) × (m.rules ≤ 1408) }
{
    let file = bytes_at(list, f);
    let mut answer = [9u64; 2];
    let mut target = marked_target();
    let mut places = marked_values();
    let mut rules = marked_target();
    let number = host_salvage(
        &file[..bytes],
        &mut target[..m.target],
        &mut places[..m.places],
        &mut rules[..m.rules],
        &mut answer,
    );
    Left {
        number,
        answer,
        target,
        places,
        rules,
    }
}

// Word i has the records told. Of a refusal it is 0, and the answer's word stays 9.
fn same_count(number: u32, told: u64, list: &[u8], i: usize) -> bool {
    let listed = word_at(list, i);
    if number == 0 {
        return told == listed;
    }
    told == 9 && listed == 0
}

// Number, records kept and records told are the words from i on.
fn same_told(number: u32, answer: [u64; 2], list: &[u8], i: usize) -> bool {
    let k = number as u64 == word_at(list, i);
    let kept = answer[0] == word_at(list, plus(i, 1));
    let told = same_count(number, answer[1], list, plus(i, 2));
    k && kept && told
}

// All places are the words from i on, and all rules are those after them; behind them are marks.
fn same_dropped(places: [u64; 48], rules: [u8; 1408], m: Rooms, list: &[u8], i: usize) -> bool
    requires { m.rules ≤ 1408 }
{
    same_values(&places, m.places, list, i) && same_bytes(rules, m.rules, list, plus(i, m.places))
}

// What is told is the words from i on, and all of the areas those after it, up to word `end`; behind them are marks.
fn same_left(left: Left, m: Rooms, list: &[u8], i: usize, end: usize) -> bool
    requires { (m.target ≤ 1408) × (m.rules ≤ 1408) }
{
    let answer = left.answer;
    let target = left.target;
    let places = left.places;
    let rules = left.rules;
    let t = plus(i, 3);
    let p = plus(t, words_of(m.target));
    let told = same_told(left.number, answer, list, i);
    let kept = same_target(target, m.target, list, t);
    let tail = still_marked(target, m.target);
    let dropped = same_dropped(places, rules, m, list, p);
    let ends = plus(plus(p, m.places), m.rules) == end;
    told && ends && kept && tail && dropped
}

// The case from word a on: what is told, and every place of the areas. One that asks for more room than there is, is wrong and not run.
pub(crate) fn salvaged_right(list: &[u8], a: usize) -> bool {
    let i = plus(a, 1);
    if word_at(list, i) > 1408 {
        return false;
    }
    let bytes = length_at(list, i, 1408);
    let f = plus(a, 2);
    let at = plus(f, words_of(bytes));
    if !areas_fit(list, at) {
        return false;
    }
    let m = rooms_at(list, at);
    let left = salvaged(list, f, bytes, m);
    same_left(
        left,
        m,
        list,
        plus(at, 3),
        plus(a, word_at(list, a) as usize),
    )
}
