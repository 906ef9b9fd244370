// The record's words, as they are read.
ghost use Rattle.std.specs.Prelude.{◌≡◌, true, ◌++◌, ◌≤◌, length, drop};
ghost use Rattle.little.specs.Little.{word_in};
ghost use Rattle.parked_file.specs.File.{is_parked};
ghost use Rattle.unpark.specs.Unpark.{record_read};
ghost use Rattle.unpark.specs.Steps.{units_read, settings_told, counters_told};

use little::word;
use record_words::method_of;
use run_record::counters::per;

// The total of the iterations done.
fn units_read(file: &[u8]) -> u64
    requires { is_parked file.now ≡ true }
    ensures { result ≡ units_read (word_in file.now) }
{
    let m = method_of(word(file, 0));
    let n = word(file, 8) as usize;
    let p = per(m, n) as u64;
    word(file, 72) * p
}

// Words 0 to 8: the settings.
fn put_settings(words: &mut [u64], file: &[u8])
    requires { (9 ≤ length words.old) × (96 ≤ length file.now) }
    ensures { words.new ≡ settings_told (word_in file.now) words.old }
{
    words[0] = word(file, 8);
    words[1] = word(file, 16);
    words[2] = word(file, 24);
    words[3] = word(file, 0);
    words[4] = word(file, 32);
    words[5] = word(file, 40);
    words[6] = word(file, 48);
    words[7] = word(file, 56);
    words[8] = word(file, 64);
}

// Words 9 to 13: the state, the counters, and no node in use.
fn put_counters(words: &mut [u64], file: &[u8])
    requires { (14 ≤ length words.old) × (is_parked file.now ≡ true) }
    ensures { words.new ≡ counters_told (word_in file.now) words.old }
{
    words[9] = word(file, 80);
    words[10] = word(file, 72);
    words[11] = 0;
    words[12] = units_read(file);
    words[13] = 0;
}

// All fourteen.
pub fn put_record(words: &mut [u64], file: &[u8])
    requires { (14 ≤ length words.old) × (is_parked file.now ≡ true) }
    ensures { words.new ≡ record_read (word_in file.now) ++ drop 14 words.old }
{
    put_settings(words, file);
    put_counters(words, file);
}
