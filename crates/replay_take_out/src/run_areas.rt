// Areas of values and of numbers: taken from a list, and held against their digests; behind what is lent they hold marks.
ghost use Rattle.std.specs.Prelude.{◌≤◌, length};

use replay::areas::{mark_words, narrow, plus, same_area, wanted};
use replay::word_at;

// The first m places take the words from a on.
fn take_numbers(area: &mut [u32], m: usize, list: &[u8], a: usize)
    requires { m ≤ length area.old }
{
    for i in 0..m {
        area[i] = narrow(word_at(list, plus(a, i)));
    }
}

// An area whose first m numbers are the words from a on; its other places hold their marks.
pub(crate) fn numbers_at(list: &[u8], a: usize, m: usize) -> [u32; 64]
    requires { m ≤ 64 }
{
    let mut area = [0u32; 64];
    mark_words(&mut area);
    take_numbers(&mut area, m, list, a);
    area
}

// The same of values that are lent as words.
pub(crate) fn bits_at(list: &[u8], a: usize, m: usize) -> [u64; 96] {
    std::array::from_fn(|i| wanted(list, a, m, i, 0x4000000000000000))
}

// The digest with one word more.
fn more(digest: u64, word: u64) -> u64 {
    scatter::mix(digest.wrapping_add(word))
}

// From place m on each word is its mark.
fn bits_marked(area: &[u64], m: usize) -> bool {
    area.iter().enumerate().skip(m).all(|(i, x)| *x == 0x4000000000000000u64.wrapping_add(i as u64))
}

// From place m on each number is its mark.
fn still_marked(area: &[u32], m: usize) -> bool {
    area.iter()
        .enumerate()
        .skip(m)
        .all(|(i, x)| *x as u64 == 0x40000000u64.wrapping_add(i as u64))
}

// The first m places have the digest of word j, and the others their marks.
pub(crate) fn same_values(area: &[f64], m: usize, list: &[u8], j: usize) -> bool {
    if m > area.len() {
        return false;
    }
    let digest = area[..m]
        .iter()
        .fold(m as u64, |d, x| more(d, elementary::bits_of(*x)));
    digest == word_at(list, j) && same_area(area, m, 0, list, 0)
}

// The same of numbers.
pub(crate) fn same_numbers(area: &[u32], m: usize, list: &[u8], j: usize) -> bool {
    if m > area.len() {
        return false;
    }
    let digest = area[..m].iter().fold(m as u64, |d, x| more(d, *x as u64));
    digest == word_at(list, j) && still_marked(area, m)
}

// The same of values that are lent as words.
pub(crate) fn same_bits(area: &[u64], m: usize, list: &[u8], j: usize) -> bool {
    if m > area.len() {
        return false;
    }
    let digest = area[..m].iter().fold(m as u64, |d, x| more(d, *x));
    digest == word_at(list, j) && bits_marked(area, m)
}
