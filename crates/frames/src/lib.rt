// The frame file: records of 72 bytes, no header, little-endian. A record is good by itself or not, and stands in order or not;
// the reader answers how many there are, or the place of the first bad one.

#![tactic(auto)]

ghost use Rattle.std.specs.Prelude.{◌≡◌, ◌+◌, ◌*◌, ◌/◌, ◌<◌, ◌≤◌, length};
ghost use Rattle.frames.specs.Frames.{record_bytes, picture_at, field_at, picture_fine, side_fine, field_fine, spare_fine, values_fine, good_alone, may_follow, in_order, bad_at, frames_of, features_at, starts_at, frame_of};

// How long a record is.
pub const RECORD_BYTES: usize = 72;

// Pictures count from 1 to this.
const MOST_PICTURE: u64 = 79999;

// Why the reader does not take a file.
#[derive(Clone, Copy, Debug, PartialEq, Eq)]
pub struct BadRecord {
    // the place of the first bad record, from 0; a stray tail is one
    pub place: usize,
}

// One captured frame.
#[derive(Clone, Copy)]
pub struct Frame {
    // the picture's number on the disc
    pub picture: u32,
    // the disc's side, 1 or 2
    pub side: u8,
    // 0 a whole frame, 1 or 2 a field of a still
    pub field: u8,
    // the six numbers that the frame is boiled down to
    pub features: [f64; 6],
    // where its dot starts on the map
    pub starts: [f64; 2],
}

#[tactic(auto, unfolding(crate::specs::Frames::picture_fine))]
pub fn picture_fine(p: u64) -> bool
    ensures { result ≡ picture_fine p }
{
    1 <= p && p <= MOST_PICTURE
}

#[tactic(auto, unfolding(crate::specs::Frames::side_fine))]
pub fn side_fine(s: u8) -> bool
    ensures { result ≡ side_fine s }
{
    s == 1 || s == 2
}

#[tactic(auto, unfolding(crate::specs::Frames::field_fine))]
pub fn field_fine(b: u8) -> bool
    ensures { result ≡ field_fine b }
{
    b <= 2
}

// The two spare bytes of the record at a are zero.
#[tactic(auto, unfolding(crate::specs::Frames::spare_fine))]
pub fn spare_fine(file: &[u8], a: usize) -> bool
    requires { a + 8 ≤ length file.now }
    ensures { result ≡ spare_fine file.now a }
{
    file[a + 6] == 0 && file[a + 7] == 0
}

// The eight values of the record at a are finite and at most 2^20 in magnitude.
pub fn values_fine(file: &[u8], a: usize) -> bool
    requires { a + record_bytes ≤ length file.now }
    ensures { result ≡ values_fine file.now a }
{
    for k in 0..8 {
        let v = little::value(file, a + 8 + 8 * k);
        if !elementary::limits::in_domain(v) {
            return false;
        }
    }
    true
}

// The record at a is good by itself.
#[tactic(auto, unfolding(crate::specs::Frames::good_alone))]
fn good_alone(file: &[u8], a: usize) -> bool
    requires { a + record_bytes ≤ length file.now }
    ensures { result ≡ good_alone file.now a }
{
    picture_fine(little::half_word(file, a))
        && side_fine(file[a + 4])
        && field_fine(file[a + 5])
        && spare_fine(file, a)
        && values_fine(file, a)
}

// Picture q and field g may follow picture p and field e.
#[tactic(auto, unfolding(crate::specs::Frames::may_follow))]
pub fn may_follow(p: u64, e: u8, q: u64, g: u8) -> bool
    ensures { result ≡ may_follow p e q g }
{
    p < q || p == q && e != 0 && e < g
}

// The record at a may follow the record at b.
pub fn record_follows(file: &[u8], b: usize, a: usize) -> bool
    requires { (a + 6 ≤ length file.now) × (b + 6 ≤ length file.now) }
    ensures { result ≡ may_follow (picture_at file.now b) (field_at file.now b) (picture_at file.now a) (field_at file.now a) }
{
    may_follow(
        little::half_word(file, b),
        file[b + 5],
        little::half_word(file, a),
        file[a + 5],
    )
}

// Record i may follow the record before it.
#[tactic(auto, unfolding(crate::specs::Frames::in_order))]
fn in_order(file: &[u8], i: usize) -> bool
    requires { i * record_bytes + record_bytes ≤ length file.now }
    ensures { result ≡ in_order file.now i }
{
    i == 0 || record_follows(file, (i - 1) * RECORD_BYTES, i * RECORD_BYTES)
}

// Record i is bad by itself or out of order.
#[tactic(auto, unfolding(crate::specs::Frames::bad_at))]
fn is_bad(file: &[u8], i: usize) -> bool
    requires { i * record_bytes + record_bytes ≤ length file.now }
    ensures { result ≡ bad_at file.now i }
{
    !(good_alone(file, i * RECORD_BYTES) && in_order(file, i))
}

// How many records the file has, or the place of the first bad one.
pub fn read_frames(file: &[u8]) -> Result<usize, BadRecord>
    ensures { result ≡ frames_of file.now }
{
    let whole = file.len() / RECORD_BYTES;
    for i in 0..whole {
        if is_bad(file, i) {
            return Err(BadRecord { place: i });
        }
    }
    if file.len() % RECORD_BYTES != 0 {
        return Err(BadRecord { place: whole });
    }
    Ok(whole)
}

#[tactic(auto, unfolding(crate::specs::Frames::features_at))]
fn features_at(file: &[u8], a: usize) -> [f64; 6]
    requires { a + record_bytes ≤ length file.now }
    ensures { result ≡ features_at file.now a }
{
    [
        little::value(file, a + 8),
        little::value(file, a + 16),
        little::value(file, a + 24),
        little::value(file, a + 32),
        little::value(file, a + 40),
        little::value(file, a + 48),
    ]
}

#[tactic(auto, unfolding(crate::specs::Frames::starts_at))]
fn starts_at(file: &[u8], a: usize) -> [f64; 2]
    requires { a + record_bytes ≤ length file.now }
    ensures { result ≡ starts_at file.now a }
{
    [little::value(file, a + 56), little::value(file, a + 64)]
}

// The frame in record i of the file; past the whole records a frame of zeros.
#[tactic(auto, unfolding(crate::specs::Frames::frame_of))]
pub fn frame_at(file: &[u8], i: usize) -> Frame
    ensures { result ≡ frame_of file.now i }
{
    if i < file.len() / RECORD_BYTES {
        let a = i * RECORD_BYTES;
        let features = features_at(file, a);
        let starts = starts_at(file, a);
        return Frame {
            picture: little::half_word(file, a) as u32,
            side: file[a + 4],
            field: file[a + 5],
            features,
            starts,
        };
    }
    Frame {
        picture: 0,
        side: 0,
        field: 0,
        features: [0.0; 6],
        starts: [0.0; 2],
    }
}
