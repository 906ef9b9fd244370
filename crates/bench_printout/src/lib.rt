// What the bench prints of a frame file: the answer with its units and a line for each frame, or the refusal.

#![tactic(auto)]

ghost use Rattle.std.specs.Prelude.{◌≡◌, ◌+◌, ◌≤◌, length};
ghost use Rattle.io.specs.Counts.{IsPrefixLen};
ghost use Rattle.laws.specs.Joined.{joined, written};
ghost use Rattle.text.specs.Text.{Puts};
ghost use Rattle.frames.specs.Frames.{frame_of};
ghost use Rattle.descent.specs.Descent.{work_number};
ghost use Rattle.bench_mapping.specs.Mapping.{bench_frames};
ghost use Rattle.bench_printout.specs.Printed.{frame_text, frames_shown, map_text, answer_text, fault_text, told_text, printed};

use bench_lines::{put_label, put_position, put_record, put_refusal};
use bench_mapping::{BENCH_FRAMES, MapFault, map_file};
use descent::Answer;
use frames::{RECORD_BYTES, frame_at};
use text::{put, put_decimal};

// The whole records of the file, as far as the map has room for them.
fn count(file: &[u8]) -> usize
    ensures value { result ≡ frames_shown file.now }
    ensures upper_bound { result ≤ bench_frames }
{
    let whole = file.len() / RECORD_BYTES;
    if whole > BENCH_FRAMES {
        return BENCH_FRAMES;
    }
    whole
}

// A line for each frame.
fn put_frames(out: &mut [u8], from: usize, file: &[u8], positions: [f64; 128]) -> usize
    requires { from + 6208 ≤ length out.old }
    ensures { Puts (joined (frame_text file.now positions) (frames_shown file.now)) from out.old result out.new }
{
    let n = count(file);
    let mut at = from;
    for i in 0..n {
        let f = frame_at(file, i);
        let a = put_label(out, at, f);
        at = put_position(out, a, positions[2 * i], positions[2 * i + 1]);
    }
    at
}

// How the run stands, and the map.
fn put_map(out: &mut [u8], word: &[u8], units: u32, file: &[u8], positions: [f64; 128]) -> usize
    requires { (6400 ≤ length out.old) × (length word.now ≤ 8) }
    ensures { Puts (map_text word.now units file.now positions) 0 out.old result out.new }
{
    let a = put(out, 0, word);
    let b = put(out, a, b" ");
    let c = put_decimal(out, b, units as u64);
    let d = put(out, c, b"\n");
    put_frames(out, d, file, positions)
}

fn put_answer(out: &mut [u8], a: Answer, file: &[u8], positions: [f64; 128]) -> usize
    requires { 6400 ≤ length out.old }
    ensures { Puts (answer_text a file.now positions) 0 out.old result out.new }
{
    match a {
        Answer::Running(k) => put_map(out, b"running", k, file, positions),
        Answer::Stopped(k) => put_map(out, b"stopped", k, file, positions),
        Answer::Finished(k) => put_map(out, b"finished", k, file, positions),
        Answer::Full(_) => put_refusal(out, descent::number(a)),
        Answer::Wild(_) => put_refusal(out, descent::number(a)),
        Answer::Bad(_) => put_refusal(out, descent::number(a)),
    }
}

fn put_fault(out: &mut [u8], e: MapFault) -> usize
    requires { 6400 ≤ length out.old }
    ensures { Puts (fault_text e) 0 out.old result out.new }
{
    let k = bench_mapping::number(Err(e));
    match e {
        MapFault::Long => put_refusal(out, k),
        MapFault::Record(p) => put_record(out, k, p),
        MapFault::Refused(_) => put_refusal(out, k),
    }
}

fn put_told(
    out: &mut [u8],
    t: Result<Answer, MapFault>,
    file: &[u8],
    positions: [f64; 128],
) -> usize
    requires { 6400 ≤ length out.old }
    ensures { Puts (told_text t file.now positions) 0 out.old result out.new }
{
    match t {
        Err(e) => put_fault(out, e),
        Ok(a) => put_answer(out, a, file, positions),
    }
}

// What the bench says of the file, at the start of `out`; answers how many bytes it has.
pub fn text_of(file: &[u8], out: &mut [u8; 6400]) -> usize
    ensures prefix_len { IsPrefixLen result out.new }
    ensures value { result ≡ length (printed file.now) }
    ensures out_after { out.new ≡ written (printed file.now) 0 out.old }
{
    let m = map_file(file);
    let told = m.told;
    let positions = m.positions;
    put_told(out, told, file, positions)
}
