// Settings and record as plain words of 64 bits.

#![tactic(auto)]

ghost use Rattle.std.specs.Prelude.{◌≡◌, ◌≤◌, length};
ghost use Rattle.record_words.specs.RecordWords.{method_of, method_word, settings_fine, settings_of, settings_put, standing_of, standing_word, run_fine, run_of, progress_put, run_put};

use elementary::words::{bits_of, value_of};
use run_record::{Method, Run, Settings, Standing};

pub mod told;

pub fn method_of(w: u64) -> Method
    ensures { result ≡ method_of w }
{
    if w == 0 {
        return Method::Exact;
    }
    Method::BarnesHut
}

pub fn method_word(m: Method) -> u64
    ensures { result ≡ method_word m }
{
    match m {
        Method::Exact => 0,
        Method::BarnesHut => 1,
    }
}

pub fn standing_of(w: u64) -> Standing
    ensures { result ≡ standing_of w }
{
    if w == 0 {
        return Standing::Running;
    }
    if w == 1 {
        return Standing::Stopped;
    }
    Standing::Finished
}

pub fn standing_word(s: Standing) -> u64
    ensures { result ≡ standing_word s }
{
    match s {
        Standing::Running => 0,
        Standing::Stopped => 1,
        Standing::Finished => 2,
    }
}

pub fn settings_fine(words: &[u64]) -> bool
    ensures { result ≡ settings_fine words.now }
{
    if words.len() < 9 {
        return false;
    }
    words[3] <= 1
}

pub fn settings_of(words: &[u64]) -> Settings
    requires { 9 ≤ length words.now }
    ensures { result ≡ settings_of words.now }
{
    let perplexity = value_of(words[4]);
    let rate = value_of(words[5]);
    let angle = value_of(words[7]);
    let minimum = value_of(words[8]);
    let method = method_of(words[3]);
    Settings {
        n: words[0] as usize,
        f: words[1] as usize,
        c: words[2] as usize,
        perplexity,
        rate,
        iterations: words[6] as usize,
        minimum,
        angle,
        method,
    }
}

fn put_settings(words: &mut [u64], s: Settings)
    requires { 9 ≤ length words.old }
    ensures { words.new ≡ settings_put s words.old }
{
    let m = s.method;
    words[0] = s.n as u64;
    words[1] = s.f as u64;
    words[2] = s.c as u64;
    words[3] = method_word(m);
    words[4] = bits_of(s.perplexity);
    words[5] = bits_of(s.rate);
    words[6] = s.iterations as u64;
    words[7] = bits_of(s.angle);
    words[8] = bits_of(s.minimum);
}

pub fn run_fine(words: &[u64]) -> bool
    ensures { result ≡ run_fine words.now }
{
    if words.len() < 14 {
        return false;
    }
    if !settings_fine(words) {
        return false;
    }
    words[9] <= 2
}

pub fn run_of(words: &[u64]) -> Run
    requires { 14 ≤ length words.now }
    ensures { result ≡ run_of words.now }
{
    let settings = settings_of(words);
    let standing = standing_of(words[9]);
    Run {
        settings,
        standing,
        done: words[10] as usize,
        phase: words[11] as usize,
        units: words[12] as usize,
        used: words[13] as usize,
    }
}

// What a unit can change: state, counters and nodes in use.
pub fn put_progress(words: &mut [u64], r: Run)
    requires { 14 ≤ length words.old }
    ensures { words.new ≡ progress_put r words.old }
{
    let t = r.standing;
    words[9] = standing_word(t);
    words[10] = r.done as u64;
    words[11] = r.phase as u64;
    words[12] = r.units as u64;
    words[13] = r.used as u64;
}

pub fn put_run(words: &mut [u64], r: Run)
    requires { 14 ≤ length words.old }
    ensures { words.new ≡ run_put r words.old }
{
    let s = r.settings;
    put_settings(words, s);
    put_progress(words, r);
}
