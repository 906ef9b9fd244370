// What a case has in its words, as arrays.
ghost use Rattle.std.specs.Prelude.{◌≤◌};

use replay::areas::{narrow, plus};
use replay::word_at;

// The m numbers from word a on; one that does not fit is cut down to the largest.
pub(crate) fn numbers_at(list: &[u8], a: usize, m: usize) -> [u32; 401]
    requires { m ≤ 401 }
{
    let mut numbers = [0u32; 401];
    for i in 0..m {
        numbers[i] = narrow(word_at(list, plus(a, i)));
    }
    numbers
}
