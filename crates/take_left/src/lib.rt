// The tests of what would be left, once those of a work call have passed. Nothing is changed.

#![tactic(auto)]

ghost use Rattle.std.specs.Prelude.{◌≡◌, true, ◌*◌, ◌≤◌, length};
ghost use Rattle.laws.specs.Domain.{most_frames};
ghost use Rattle.run_record.specs.Record.{GoodSettings, is_tree};
ghost use Rattle.take_gone.specs.Gone.{survivors, Climbs};
ghost use Rattle.take_lists.specs.Packed.{Listed};
ghost use Rattle.take_left.specs.Outlook.{thinned, thinned_run, crowded, outlook_of, denial_number, OutlookRoom, CountRoom};

use refusal::Numbered;
use run_record::counters::per;
use run_record::faults::{is_tree, late_fault, sizes_of};
use run_record::{Run, Settings};
use take_calm::is_calm_left;
use take_gone::gone_fine;
use take_lists::links_left;

// Why nothing is taken out.
#[derive(Clone, Copy, Debug, PartialEq, Eq)]
pub enum Denial {
    // 17: a unit of an iteration is done, and the iteration is not
    Inside,
    // 18: the list does not rise, or names no sample
    Unordered,
    // 9: fewer than two would be left
    Few,
    // 10: the perplexity is not below what would be left
    Perplexed,
    // 18: more links would be left than their lists hold
    Crowded,
    // 15: a centred position that it bars
    Barred,
}

impl Numbered for Denial {
    ghost number_of = { denial_number };

    fn number(self) -> u8 {
        match self {
            Denial::Inside => 17,
            Denial::Unordered => 18,
            Denial::Few => 9,
            Denial::Perplexed => 10,
            Denial::Crowded => 18,
            Denial::Barred => 15,
        }
    }
}

// The settings of m samples.
fn thinned_settings(s: Settings, m: usize) -> Settings
    ensures { result ≡ thinned s m }
{
    Settings {
        n: m,
        f: s.f,
        c: s.c,
        perplexity: s.perplexity,
        rate: s.rate,
        iterations: s.iterations,
        minimum: s.minimum,
        angle: s.angle,
        method: s.method,
    }
}

// Whether more links would be left than lists of t's samples hold. Where no more are listed now, none need be counted.
fn is_crowded(s: Settings, t: Settings, gone: &[u32], indices: &[u32], offsets: &[u32]) -> bool
    requires { CountRoom s t gone.now indices.now offsets.now }
    ensures { result ≡ crowded s (survivors gone.now s.n) indices.now offsets.now }
{
    let m = s.method;
    if !is_tree(m) {
        return false;
    }
    let n = s.n;
    let most = sizes_of(t).links;
    if offsets[n] as usize <= most {
        return false;
    }
    most < links_left(gone, n, indices, offsets)
}

// The tests in their order: how many are left, or why nothing is taken out.
pub fn look_ahead(
    r: Run,
    gone: &[u32],
    positions: &[f64],
    indices: &[u32],
    offsets: &[u32],
) -> Result<usize, Denial>
    requires { OutlookRoom r positions.now indices.now offsets.now }
    ensures { result ≡ outlook_of r gone.now positions.now indices.now offsets.now }
{
    if r.phase != 0 {
        return Err(Denial::Inside);
    }
    let s = r.settings;
    if !gone_fine(gone, s.n) {
        return Err(Denial::Unordered);
    }
    let m = s.n - gone.len();
    if m < 2 {
        return Err(Denial::Few);
    }
    let t = thinned_settings(s, m);
    if late_fault(t).is_err() {
        return Err(Denial::Perplexed);
    }
    if is_crowded(s, t, gone, indices, offsets) {
        return Err(Denial::Crowded);
    }
    if is_calm_left(positions, gone, s.n, s.c, m) {
        return Ok(m);
    }
    Err(Denial::Barred)
}

// The record of m survivors: the iterations done stay done.
pub fn thinned_run(r: Run, m: usize) -> Run
    requires { (m ≤ most_frames) × (r.done ≤ 65535) }
    ensures { result ≡ thinned_run r m }
{
    let s = r.settings;
    let standing = r.standing;
    let t = thinned_settings(s, m);
    let k = t.method;
    let units = r.done * per(k, m);
    Run {
        settings: t,
        standing: standing,
        done: r.done,
        phase: 0,
        units: units,
        used: r.used,
    }
}
