// Numbers and values in a string of bytes, the lowest byte first.

#![tactic(auto)]

ghost use Rattle.std.specs.Prelude.{◌≡◌, ◌+◌, ◌<◌, ◌≤◌, length};
ghost use Rattle.laws.specs.Joined.{written};
ghost use Rattle.little.specs.Little.{little_bytes, little_of, value_at};

// The number in the four bytes from a on.
pub fn half_word(bytes: &[u8], a: usize) -> u64
    requires { a + 4 ≤ length bytes.now }
    ensures { (result ≡ little_of bytes.now a 4) × (result < 4294967296) }
{
    u32::from_le_bytes([bytes[a], bytes[a + 1], bytes[a + 2], bytes[a + 3]]) as u64
}

// The number in the eight bytes from a on.
pub fn word(bytes: &[u8], a: usize) -> u64
    requires { a + 8 ≤ length bytes.now }
    ensures { result ≡ little_of bytes.now a 8 }
{
    u64::from_le_bytes([
        bytes[a],
        bytes[a + 1],
        bytes[a + 2],
        bytes[a + 3],
        bytes[a + 4],
        bytes[a + 5],
        bytes[a + 6],
        bytes[a + 7],
    ])
}

// The value with the bits in the eight bytes from a on.
pub fn value(bytes: &[u8], a: usize) -> f64
    requires { a + 8 ≤ length bytes.now }
    ensures { result ≡ value_at bytes.now a }
{
    elementary::value_of(word(bytes, a))
}

// Writes the eight bytes of v from a on.
pub fn put_word(bytes: &mut [u8], a: usize, v: u64)
    requires { a + 8 ≤ length bytes.old }
    ensures { bytes.new ≡ written (little_bytes 8 v) a bytes.old }
{
    bytes[a..a + 8].copy_from_slice(&v.to_le_bytes());
}

// Writes the four low bytes of v from a on.
pub fn put_half_word(bytes: &mut [u8], a: usize, v: u64)
    requires { a + 4 ≤ length bytes.old }
    ensures { bytes.new ≡ written (little_bytes 4 v) a bytes.old }
{
    bytes[a..a + 4].copy_from_slice(&v.to_le_bytes()[..4]);
}
