// Sides and fields: numbers of a byte, each with a word of its own in a list.
use replay::areas::plus;
use replay::word_at;

// The word as a byte; one that does not fit is cut down to the largest.
fn byte_of(w: u64) -> u8 {
    u8::try_from(w).unwrap_or(u8::MAX)
}

// A byte of each word from word a on: as many as there is room for, of which a case lends those that are its own.
pub(crate) fn sides_at(list: &[u8], a: usize) -> [u8; 16] {
    std::array::from_fn(|i| byte_of(word_at(list, plus(a, i))))
}
