// The first bad record of a file.
ghost use Rattle.std.specs.Prelude.{◌≡◌};
ghost use Rattle.little.specs.Little.{word_in};
ghost use Rattle.parked.specs.Fine.{layout_by};
ghost use Rattle.parked_file.specs.File.{first_bad, head_bad, verdict_of};

use crate::Verdict;
use crate::head::{head_bad, layout_read};
use parked::Layout;
use parked_fine::words_fine;

// The first bad or missing record, where the first three stand.
fn first_bad(file: &[u8], l: Layout) -> usize
    requires { (head_bad file.now ≡ 3) × (l ≡ layout_by (word_in file.now)) }
    ensures { result ≡ first_bad file.now }
{
    let due = l.end / 4;
    let whole = file.len() / 32;
    for q in 3..due {
        if whole <= q {
            return q;
        }
        if !words_fine(file, l, q) {
            return q;
        }
    }
    due
}

// Whether a file is a parked run, and its first bad record.
pub fn judge(file: &[u8]) -> Verdict
    ensures { result ≡ verdict_of file.now }
{
    let h = head_bad(file);
    if h != 3 {
        return Verdict {
            parked: false,
            at: h,
        };
    }
    let l = layout_read(file);
    let q = first_bad(file, l);
    let due = l.end / 4;
    if q != due {
        return Verdict {
            parked: false,
            at: q,
        };
    }
    Verdict {
        parked: file.len() == 32 * due,
        at: q,
    }
}
