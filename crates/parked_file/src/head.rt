// The first three records of a file: whether they stand, and how the file lies by them.
ghost use Rattle.std.specs.Prelude.{◌≡◌, true};
ghost use Rattle.little.specs.Little.{word_in};
ghost use Rattle.parked.specs.Fine.{layout_by};
ghost use Rattle.parked_file.specs.File.{record_stands, head_bad};

use little::word;
use parked::{Layout, layout_of};
use parked_fine::{first_fine, second_fine, third_fine};

fn first_stands(file: &[u8]) -> bool
    ensures { result ≡ record_stands file.now 0 }
{
    if file.len() < 32 {
        return false;
    }
    first_fine(word(file, 0), word(file, 8), word(file, 16), word(file, 24))
}

fn second_stands(file: &[u8]) -> bool
    requires { record_stands file.now 0 ≡ true }
    ensures { result ≡ record_stands file.now 1 }
{
    if file.len() < 64 {
        return false;
    }
    second_fine(
        word(file, 0),
        word(file, 8),
        word(file, 32),
        word(file, 40),
        word(file, 48),
        word(file, 56),
    )
}

fn third_stands(file: &[u8]) -> bool
    requires { (record_stands file.now 0 ≡ true) × (record_stands file.now 1 ≡ true) }
    ensures { result ≡ record_stands file.now 2 }
{
    if file.len() < 96 {
        return false;
    }
    third_fine(
        word(file, 0),
        word(file, 8),
        word(file, 32),
        word(file, 48),
        word(file, 64),
        word(file, 72),
        word(file, 80),
        word(file, 88),
    )
}

// The first of the three that is bad or missing; 3 where there is none.
pub fn head_bad(file: &[u8]) -> usize
    ensures { result ≡ head_bad file.now }
{
    if !first_stands(file) {
        return 0;
    }
    if !second_stands(file) {
        return 1;
    }
    if !third_stands(file) {
        return 2;
    }
    3
}

// How the file lies.
pub fn layout_read(file: &[u8]) -> Layout
    requires { head_bad file.now ≡ 3 }
    ensures { result ≡ layout_by (word_in file.now) }
{
    let m = word(file, 0);
    let n = word(file, 8) as usize;
    let c = word(file, 24) as usize;
    let links = word(file, 88) as usize;
    layout_of(m == 1, n, c, links)
}
