// The parts of what the bench prints: a frame's label and position, and a refusal.

#![tactic(auto)]

ghost use Rattle.std.specs.Prelude.{◌≡◌, ◌+◌, ◌≤◌, length};
ghost use Rattle.text.specs.Text.{Puts};
ghost use Rattle.bench_lines.specs.BenchLines.{label_text, position_text, refusal_text, record_text};

use frames::Frame;
use text::{put, put_decimal, put_hex};

// Picture, side and field of a frame.
pub fn put_label(out: &mut [u8], at: usize, f: Frame) -> usize
    requires { at + 63 ≤ length out.old }
    ensures puts { Puts (label_text f) at out.old result out.new }
    ensures upper_bound { result ≤ at + 63 }
{
    let p = put_decimal(out, at, f.picture as u64);
    let q = put(out, p, b" ");
    let s = put_decimal(out, q, f.side as u64);
    let t = put(out, s, b" ");
    let u = put_decimal(out, t, f.field as u64);
    put(out, u, b" ")
}

// The bits of both coordinates.
pub fn put_position(out: &mut [u8], at: usize, x: f64, y: f64) -> usize
    requires { at + 34 ≤ length out.old }
    ensures puts { Puts (position_text x y) at out.old result out.new }
    ensures upper_bound { result ≤ at + 34 }
{
    let p = put_hex(out, at, elementary::bits_of(x));
    let q = put(out, p, b" ");
    let s = put_hex(out, q, elementary::bits_of(y));
    put(out, s, b"\n")
}

// The refusal's number.
pub fn put_refusal(out: &mut [u8], number: u8) -> usize
    requires { 6400 ≤ length out.old }
    ensures { Puts (refusal_text number) 0 out.old result out.new }
{
    let a = put(out, 0, b"refused ");
    let b = put_decimal(out, a, number as u64);
    put(out, b, b"\n")
}

// The number and the place of a bad record.
pub fn put_record(out: &mut [u8], number: u8, place: usize) -> usize
    requires { 6400 ≤ length out.old }
    ensures { Puts (record_text number place) 0 out.old result out.new }
{
    let a = put(out, 0, b"refused ");
    let b = put_decimal(out, a, number as u64);
    let c = put(out, b, b" record ");
    let d = put_decimal(out, c, place as u64);
    put(out, d, b"\n")
}
