// A case of narrowing: a value by its bits, and the bits that it is narrowed to, or none.
use monitor_narrow::{narrow, widen};
use replay::areas::plus;
use replay::word_at;

// What is listed for a value that no single-precision number is near enough to.
const NONE: u64 = 0x100000000;

// What the list has for it.
fn listed(a: Option<u32>) -> u64 {
    match a {
        Some(bits) => bits as u64,
        None => NONE,
    }
}

// Whether it is none, or its bits are widened to a value that is narrowed to the same bits.
fn comes_back(a: Option<u32>) -> bool {
    match a {
        Some(bits) => listed(narrow(widen(bits))) == bits as u64,
        None => true,
    }
}

// The case from word a on: the bits or none, and that the bits come back.
pub(crate) fn narrowed_right(list: &[u8], a: usize) -> bool {
    let r = narrow(word_at(list, a));
    listed(r) == word_at(list, plus(a, 1)) && comes_back(r)
}
