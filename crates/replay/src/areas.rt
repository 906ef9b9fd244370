// Areas of a replay: marked, taking the words of a list, and compared with them.
ghost use Rattle.std.specs.Prelude.{◌≡◌, ◌*◌, ◌≤◌, length, min, replicate, ◌==◌, to_bits};
ghost use Rattle.std.specs.Float.{binary64};
ghost use Rattle.laws.specs.Area.{bits, zero64};
ghost use Rattle.replay.specs.Replay.{word_of};
ghost use Rattle.replay.specs.Areas.{onward, marked, marked_numbers, words_copied, wanted_at, same_area, same_numbers};

use crate::word_at;

// A word's place further on.
pub fn plus(a: usize, b: usize) -> usize
    ensures { result ≡ onward a b }
{
    std::num::wrapping_add_usize(a, b)
}

// A product that is small.
pub fn times(a: usize, b: usize) -> usize
    requires { (a ≤ 4096) × (b ≤ 4096) }
    ensures { (result ≡ a * b) × (result ≤ 16777216) }
{
    a * b
}

// The value with the bits of word i.
pub fn value_at(list: &[u8], i: usize) -> f64
    ensures { result ≡ bits (word_of list.now i) }
{
    elementary::value_of(word_at(list, i))
}

// Whether the value has the bits of word i.
pub fn same_value(v: f64, list: &[u8], i: usize) -> bool
    ensures { result ≡ (to_bits binary64 v == word_of list.now i) }
{
    elementary::bits_of(v) == word_at(list, i)
}

// The word as a number of 32 bits; one that does not fit is cut down to the largest.
pub fn narrow(w: u64) -> u32
    ensures { result ≡ min w 4294967295 }
{
    u32::try_from(w).unwrap_or(u32::MAX)
}

// Place i holds the value with the bits 4000000000000000 + i.
pub fn mark(area: &mut [f64])
    ensures { area.new ≡ marked area.old }
{
    for i in 0..area.len() {
        area[i] = elementary::value_of(std::num::wrapping_add_u64(0x4000000000000000, i as u64));
    }
}

// Place i holds 40000000 + i, in hex.
pub fn mark_words(area: &mut [u32])
    ensures { area.new ≡ marked_numbers area.old }
{
    for i in 0..area.len() {
        area[i] = (0x40000000 + i % 0x40000000) as u32;
    }
}

// The first m places take the words from a on.
pub fn copy_words(area: &mut [f64], m: usize, list: &[u8], a: usize)
    requires { m ≤ length area.old }
    ensures { area.new ≡ words_copied list.now a m area.old }
{
    for i in 0..m {
        area[i] = value_at(list, plus(a, i));
    }
}

// An area of zeros whose first m places take the words from a on.
pub fn floats_at<const N: usize>(list: &[u8], a: usize, m: usize) -> [f64; N]
    requires { m ≤ N }
    ensures { result ≡ words_copied list.now a m (replicate N zero64) }
{
    let mut area = [0.0; N];
    copy_words(&mut area, m, list, a);
    area
}

// The same whose other places hold their marks.
pub fn ready_at<const N: usize>(list: &[u8], a: usize, m: usize) -> [f64; N]
    requires { m ≤ N }
    ensures { result ≡ words_copied list.now a m (marked (replicate N zero64)) }
{
    let mut ready = [0.0; N];
    mark(&mut ready);
    copy_words(&mut ready, m, list, a);
    ready
}

// What place i holds where the first m have the words from a on, and the others their marks.
pub fn wanted(list: &[u8], a: usize, m: usize, i: usize, mark: u64) -> u64
    ensures { result ≡ wanted_at list.now a m i mark }
{
    if i < m {
        return word_at(list, plus(a, i));
    }
    std::num::wrapping_add_u64(mark, i as u64)
}

// From place `from` on the area holds what is wanted: of its first m places the words from a on, then marks. An area of fewer places is wrong.
pub fn same_area(area: &[f64], from: usize, m: usize, list: &[u8], a: usize) -> bool
    ensures { result ≡ same_area area.now from m list.now a }
{
    if from > area.len() {
        return false;
    }
    if m > area.len() {
        return false;
    }
    for i in from..area.len() {
        if elementary::bits_of(area[i]) != wanted(list, a, m, i, 0x4000000000000000) {
            return false;
        }
    }
    true
}

// The same of numbers, from the first place on.
pub fn same_numbers(area: &[u32], m: usize, list: &[u8], a: usize) -> bool
    ensures { result ≡ same_numbers area.now m list.now a }
{
    if m > area.len() {
        return false;
    }
    for i in 0..area.len() {
        if area[i] as u64 != wanted(list, a, m, i, 0x40000000) {
            return false;
        }
    }
    true
}
