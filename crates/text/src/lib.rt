// Text in a lent area of bytes: strings, decimal numbers and hex digits, put one after the other.

#![tactic(auto)]

ghost use Rattle.std.specs.Prelude.{◌≡◌, ◌+◌, ◌≤◌, length};
ghost use Rattle.text.specs.Text.{decimal_of, hex_of, Puts};

// Puts the bytes at place `at`, and answers the place after them.
pub fn put(out: &mut [u8], at: usize, bytes: &[u8]) -> usize
    requires { at + length bytes.now ≤ length out.old }
    ensures { Puts bytes.now at out.old result out.new }
{
    let end = at + bytes.len();
    out[at..end].copy_from_slice(bytes);
    end
}

// Puts n in decimal digits: at most 20.
pub fn put_decimal(out: &mut [u8], at: usize, n: u64) -> usize
    requires { at + 20 ≤ length out.old }
    ensures puts { Puts (decimal_of n) at out.old result out.new }
    ensures upper_bound { result ≤ at + 20 }
{
    let mut text = [0u8; 20];
    let k = io::decimal(n, &mut text);
    put(out, at, &text[..k])
}

// Puts n in 16 hex digits.
pub fn put_hex(out: &mut [u8], at: usize, n: u64) -> usize
    requires { at + 16 ≤ length out.old }
    ensures puts { Puts (hex_of n) at out.old result out.new }
    ensures upper_bound { result ≤ at + 16 }
{
    let mut text = [0u8; 16];
    let k = io::hex(n, 16, &mut text);
    put(out, at, &text[..k])
}
