// Files and targets, byte by byte: the words of a list hold them, filled up with zeros to whole words.
ghost use Rattle.std.specs.Prelude.{◌≡◌, ◌<◌, ◌≤◌, ◌&&◌, ◌||◌, ◌==◌, nat_lt};
ghost use Rattle.laws.specs.Area.{num};
ghost use Rattle.laws.specs.Joined.{each};
ghost use Rattle.replay_areas.specs.Said.{list_byte, byte_mark, listed_byte, target_stands, marks_stay, file_stands, bytes_stand};

use replay::areas::plus;
use replay::word_at;

// How many words so many bytes take.
pub fn words_of(bytes: usize) -> usize
    requires { bytes ≤ 1408 }
    ensures { result ≤ 176 }
{
    (bytes + 7) / 8
}

// Byte i from word a on; 0 past the list's end.
fn byte_at(list: &[u8], a: usize, i: usize) -> u8
    ensures { result ≡ list_byte list.now a i }
{
    let w = word_at(list, plus(a, i / 8));
    ((w >> (8 * (i % 8))) % 256) as u8
}

// The bytes from word a on: as many as there is room for, of which a case lends those that are its own.
pub fn bytes_at(list: &[u8], a: usize) -> [u8; 1408]
    ensures { result ≡ each (list_byte list.now a) 1408 }
{
    std::array::from_fn(|i| byte_at(list, a, i))
}

// A target before a call: byte i is i mod 251 and one.
pub fn marked_target() -> [u8; 1408]
    ensures { result ≡ each byte_mark 1408 }
{
    std::array::from_fn(|i| (i % 251 + 1) as u8)
}

// What byte i of a target of m bytes is listed as: zeros follow the last.
fn listed(target: [u8; 1408], m: usize, i: usize) -> u8
    ensures { result ≡ listed_byte target m i }
{
    if i < m && i < 1408 { target[i] } else { 0 }
}

// The words from a on hold the first m bytes of the target, and nothing else.
pub fn same_target(target: [u8; 1408], m: usize, list: &[u8], a: usize) -> bool
    requires { m ≤ 1408 }
    ensures { result ≡ target_stands target m list.now a }
{
    let end = 8 * ((m + 7) / 8);
    for i in 0..end {
        if listed(target, m, i) != byte_at(list, a, i) {
            return false;
        }
    }
    true
}

// Whether byte i is one of the first m, or has its mark.
fn keeps_mark(target: [u8; 1408], m: usize, i: usize) -> bool
    requires { i < 1408 }
    ensures { result ≡ (nat_lt i m || num target i == byte_mark i) }
{
    i < m || target[i] == (i % 251 + 1) as u8
}

// Past the first m bytes the target has its marks.
pub fn still_marked(target: [u8; 1408], m: usize) -> bool
    ensures { result ≡ marks_stay target m }
{
    for i in 0..1408 {
        if !keeps_mark(target, m, i) {
            return false;
        }
    }
    true
}

// Whether the target's first bytes are the file.
pub fn same_file(file: &[u8], target: [u8; 1408]) -> bool
    ensures { result ≡ file_stands file.now target }
{
    let m = file.len();
    for i in 0..m {
        if file[i] != listed(target, m, i) {
            return false;
        }
    }
    true
}

// The first m bytes are the words from a on, one word each.
fn same_first(area: [u8; 1408], m: usize, list: &[u8], a: usize) -> bool
    requires { m ≤ 1408 }
    ensures { result ≡ bytes_stand area m list.now a }
{
    for i in 0..m {
        if area[i] as u64 != word_at(list, plus(a, i)) {
            return false;
        }
    }
    true
}

// The first m bytes are the words from a on, one word each, and the others have their marks.
pub fn same_bytes(area: [u8; 1408], m: usize, list: &[u8], a: usize) -> bool
    requires { m ≤ 1408 }
    ensures { result ≡ (bytes_stand area m list.now a && marks_stay area m) }
{
    same_first(area, m, list, a) && still_marked(area, m)
}
