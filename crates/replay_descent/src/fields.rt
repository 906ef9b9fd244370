// The settings, the record and the answers, as a list has them.
use descent::Answer;
use record_words::{method_of, method_word, standing_of, standing_word};
use replay::areas::{plus, same_value, value_at};
use replay::word_at;
use run_record::{Run, Settings};

// What a call alters in the record: a field and its word. From 14 on there is no such field.
#[derive(Clone, Copy)]
pub(crate) struct Change {
    field: u64,
    word: u64,
}

fn number_at(list: &[u8], i: usize) -> usize {
    word_at(list, i) as usize
}

// The settings from word i on.
pub(crate) fn settings_at(list: &[u8], i: usize) -> Settings {
    let method = method_of(word_at(list, plus(i, 3)));
    Settings {
        n: number_at(list, i),
        f: number_at(list, plus(i, 1)),
        c: number_at(list, plus(i, 2)),
        perplexity: value_at(list, plus(i, 4)),
        rate: value_at(list, plus(i, 5)),
        iterations: number_at(list, plus(i, 6)),
        minimum: value_at(list, plus(i, 8)),
        angle: value_at(list, plus(i, 7)),
        method,
    }
}

// What the alteration at word b has for the record.
pub(crate) fn change_at(list: &[u8], b: usize) -> Change {
    if word_at(list, b) == 1 {
        return Change {
            field: word_at(list, plus(b, 1)),
            word: word_at(list, plus(b, 2)),
        };
    }
    Change { field: 14, word: 0 }
}

// What the change has for the field, else the old.
fn or<T: Copy>(x: Change, field: u64, new: T, old: T) -> T {
    if x.field == field { new } else { old }
}

fn changed_settings(s: Settings, x: Change) -> Settings {
    let m = s.method;
    let method = or(x, 3, method_of(x.word), m);
    Settings {
        n: or(x, 0, x.word as usize, s.n),
        f: or(x, 1, x.word as usize, s.f),
        c: or(x, 2, x.word as usize, s.c),
        perplexity: or(x, 4, elementary::value_of(x.word), s.perplexity),
        rate: or(x, 5, elementary::value_of(x.word), s.rate),
        iterations: or(x, 6, x.word as usize, s.iterations),
        minimum: or(x, 8, elementary::value_of(x.word), s.minimum),
        angle: or(x, 7, elementary::value_of(x.word), s.angle),
        method,
    }
}

// The record with the change made.
pub(crate) fn changed(r: Run, x: Change) -> Run {
    let s = r.settings;
    let st = r.standing;
    let settings = changed_settings(s, x);
    let standing = or(x, 9, standing_of(x.word), st);
    Run {
        settings,
        standing,
        done: or(x, 10, x.word as usize, r.done),
        phase: or(x, 11, x.word as usize, r.phase),
        units: or(x, 12, x.word as usize, r.units),
        used: or(x, 13, x.word as usize, r.used),
    }
}

fn same_number(x: usize, list: &[u8], i: usize) -> bool {
    x as u64 == word_at(list, i)
}

// The numbers of the settings, and the method.
fn same_numbers(s: Settings, list: &[u8], i: usize) -> bool {
    let m = s.method;
    same_number(s.n, list, i)
        && same_number(s.f, list, plus(i, 1))
        && same_number(s.c, list, plus(i, 2))
        && method_word(m) == word_at(list, plus(i, 3))
        && same_number(s.iterations, list, plus(i, 6))
}

// The values of the settings.
fn same_values(s: Settings, list: &[u8], i: usize) -> bool {
    same_value(s.perplexity, list, plus(i, 4))
        && same_value(s.rate, list, plus(i, 5))
        && same_value(s.angle, list, plus(i, 7))
        && same_value(s.minimum, list, plus(i, 8))
}

// The state and the counters.
fn same_progress(r: Run, list: &[u8], i: usize) -> bool {
    let st = r.standing;
    standing_word(st) == word_at(list, plus(i, 9))
        && same_number(r.done, list, plus(i, 10))
        && same_number(r.phase, list, plus(i, 11))
        && same_number(r.units, list, plus(i, 12))
        && same_number(r.used, list, plus(i, 13))
}

// The record has the 14 words from i on.
pub(crate) fn same_run(r: Run, list: &[u8], i: usize) -> bool {
    let s = r.settings;
    same_numbers(s, list, i) && same_values(s, list, i) && same_progress(r, list, i)
}

fn kind(a: Answer) -> u64 {
    match a {
        Answer::Running(_) => 0,
        Answer::Stopped(_) => 1,
        Answer::Finished(_) => 2,
        Answer::Full(_) => 3,
        Answer::Wild(_) => 3,
        Answer::Bad(_) => 3,
    }
}

fn refusal(a: Answer) -> u64 {
    descent::number(a) as u64
}

fn units(a: Answer) -> u64 {
    match a {
        Answer::Running(k) => k as u64,
        Answer::Stopped(k) => k as u64,
        Answer::Finished(k) => k as u64,
        Answer::Full(k) => k as u64,
        Answer::Wild(k) => k as u64,
        Answer::Bad(_) => 0,
    }
}

// The answer has the three words from i on: kind, number of the refusal, units.
pub(crate) fn same_answer(a: Answer, list: &[u8], i: usize) -> bool {
    kind(a) == word_at(list, i)
        && refusal(a) == word_at(list, plus(i, 1))
        && units(a) == word_at(list, plus(i, 2))
}
