// Areas of values by their bits, and of numbers: taken from a list, marked, and compared.
ghost use Rattle.std.specs.Prelude.{◌≡◌, replicate};
ghost use Rattle.laws.specs.Joined.{each};
ghost use Rattle.replay.specs.Areas.{marked_numbers, wanted_at};
ghost use Rattle.replay_areas.specs.Said.{listed_word, listed_number, value_mark, values_stand};

use replay::areas::{mark_words, narrow, plus, wanted};
use replay::word_at;

// The words from word a on.
fn words_at<const N: usize>(list: &[u8], a: usize) -> [u64; N]
    ensures { result ≡ each (listed_word list.now a) N }
{
    std::array::from_fn(|i| word_at(list, plus(a, i)))
}

// The record of fourteen words from word a on.
pub fn record_at(list: &[u8], a: usize) -> [u64; 14]
    ensures { result ≡ each (listed_word list.now a) 14 }
{
    words_at::<14>(list, a)
}

// An area of values from word a on: as many as there is room for, of which a case lends those that are its own.
pub fn values_at(list: &[u8], a: usize) -> [u64; 48]
    ensures { result ≡ each (listed_word list.now a) 48 }
{
    words_at(list, a)
}

// The same of numbers.
pub fn numbers_at(list: &[u8], a: usize) -> [u32; 48]
    ensures { result ≡ each (listed_number list.now a) 48 }
{
    std::array::from_fn(|i| narrow(word_at(list, plus(a, i))))
}

// Place i holds the bits 4000000000000000 + i.
pub fn marked<const N: usize>() -> [u64; N]
    ensures { result ≡ each value_mark N }
{
    std::array::from_fn(|i| 0x4000000000000000u64.wrapping_add(i as u64))
}

// Areas of marks.
pub fn marked_record() -> [u64; 14]
    ensures { result ≡ each value_mark 14 }
{
    marked()
}

pub fn marked_values() -> [u64; 48]
    ensures { result ≡ each value_mark 48 }
{
    marked()
}

pub fn marked_numbers() -> [u32; 48]
    ensures { result ≡ marked_numbers (replicate 48 0) }
{
    let mut area = [0u32; 48];
    mark_words(&mut area);
    area
}

// The first m places have the words from a on, and the others their marks.
pub fn same_values(area: &[u64], m: usize, list: &[u8], a: usize) -> bool
    ensures { result ≡ values_stand area.now m list.now a }
{
    for i in 0..area.len() {
        if area[i] != wanted(list, a, m, i, 0x4000000000000000) {
            return false;
        }
    }
    true
}
