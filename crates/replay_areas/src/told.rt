// What is told of a case: a number, and the value that comes with it.
ghost use Rattle.std.specs.Prelude.{◌≡◌, ◌&&◌};
ghost use Rattle.replay_areas.specs.Said.{told_stands};

use replay::areas::plus;
use replay::word_at;

// Number and value are the words from i on.
pub fn same_told(number: u64, value: u64, list: &[u8], i: usize) -> bool
    ensures { result ≡ told_stands number value list.now i }
{
    number == word_at(list, i) && value == word_at(list, plus(i, 1))
}

// What is told of a file that is read: number and value, and whether what was read is written as the same bytes.
#[derive(Debug, Clone, Copy, PartialEq, Eq)]
pub struct Told {
    pub number: u64,
    pub value: u64,
    pub again: bool,
}

impl Told {
    // Number and value are the words from i on, and what was read was written as the same bytes.
    pub fn same(self, list: &[u8], i: usize) -> bool
        ensures { result ≡ (told_stands self.number self.value list.now i && self.again) }
    {
        same_told(self.number, self.value, list, i) && self.again
    }
}
