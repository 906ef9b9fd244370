// The settings that the first three records hold, and whether the areas are long enough for them.
ghost use Rattle.std.specs.Prelude.{◌≡◌, true, ◌≤◌, length};
ghost use Rattle.little.specs.Little.{word_in};
ghost use Rattle.parked_file.specs.File.{is_parked};
ghost use Rattle.unpark.specs.Unpark.{settings_read};
ghost use Rattle.unpark.specs.Steps.{room_for};

use elementary::words::value_of;
use little::word;
use record_words::method_of;
use run_entry::{Lengths, areas_fit};
use run_record::Settings;

// The settings.
pub fn settings_read(file: &[u8]) -> Settings
    requires { 96 ≤ length file.now }
    ensures { result ≡ settings_read (word_in file.now) }
{
    let perplexity = value_of(word(file, 32));
    let rate = value_of(word(file, 40));
    let angle = value_of(word(file, 56));
    let minimum = value_of(word(file, 64));
    let method = method_of(word(file, 0));
    Settings {
        n: word(file, 8) as usize,
        f: word(file, 16) as usize,
        c: word(file, 24) as usize,
        perplexity,
        rate,
        iterations: word(file, 48) as usize,
        minimum,
        angle,
        method,
    }
}

// The record has fourteen words, and no area is too short for a work call, by their lengths.
pub fn has_room(
    file: &[u8],
    run: usize,
    p: usize,
    i: usize,
    g: usize,
    a: usize,
    x: usize,
    o: usize,
    f: usize,
    nodes: usize,
) -> bool
    requires { is_parked file.now ≡ true }
    ensures { result ≡ room_for file.now run p i g a x o f nodes }
{
    if run < 14 {
        return false;
    }
    let s = settings_read(file);
    let l = Lengths {
        positions: p,
        increments: i,
        gains: g,
        affinities: a,
        forces: f,
    };
    areas_fit(s, l, x, o, nodes)
}
