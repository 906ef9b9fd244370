// A scuffed frame file: the records that are good by themselves and in order after the last one kept are copied into a second area,
// the others are told by their place and the first rule that they broke.

#![tactic(auto)]

ghost use Rattle.std.specs.Prelude.{◌≡◌, ◌+◌, ◌*◌, ◌<◌, ◌≤◌, length};
ghost use Rattle.laws.specs.Joined.{written};
ghost use Rattle.frames.specs.Frames.{record_bytes, whole_records};
ghost use Rattle.refusal.specs.Refusal.{refusal_number, numbered};
ghost use Rattle.salvage.specs.Salvage.{rule_alone, follows_last, rule_after, record_at, records_read, lacks_room, salvage_outcome, salvage_of};
ghost use Rattle.salvage.specs.Steps.{sifting, sift_step, SiftFits, SiftRoom, sifted_by};

use frames::RECORD_BYTES;
use little::half_word;
use refusal::Refusal;

// The rules, in the order in which they are tested; 0 is no rule.
pub const PICTURE_RULE: u8 = 1;

pub const SIDE_RULE: u8 = 2;

pub const FIELD_RULE: u8 = 3;

pub const SPARE_RULE: u8 = 4;

pub const VALUE_RULE: u8 = 5;

pub const ORDER_RULE: u8 = 6;

pub const TAIL_RULE: u8 = 7;

// So many records are copied, and so many told.
#[derive(Clone, Copy, Debug, PartialEq, Eq)]
pub struct Saved {
    pub kept: usize,
    pub told: usize,
}

// Where the sifting stands.
#[derive(Clone, Copy)]
pub struct Sift {
    // one past the last record kept; 0 where none is
    pub last: usize,
    pub kept: usize,
    pub told: usize,
}

// The first rule that the record at a breaks by itself; 0 where there is none.
fn rule_alone(file: &[u8], a: usize) -> u8
    requires { a + record_bytes ≤ length file.now }
    ensures { result ≡ rule_alone file.now a }
{
    if !frames::picture_fine(half_word(file, a)) {
        return PICTURE_RULE;
    }
    if !frames::side_fine(file[a + 4]) {
        return SIDE_RULE;
    }
    if !frames::field_fine(file[a + 5]) {
        return FIELD_RULE;
    }
    if !frames::spare_fine(file, a) {
        return SPARE_RULE;
    }
    if !frames::values_fine(file, a) {
        return VALUE_RULE;
    }
    0
}

// Record i may follow the last record kept; `last` is one past that one's number, 0 where none is kept.
#[tactic(auto, unfolding(crate::specs::Salvage::follows_last))]
fn follows_last(file: &[u8], last: usize, i: usize) -> bool
    requires { (last ≤ i) × (i * record_bytes + record_bytes ≤ length file.now) }
    ensures { result ≡ follows_last file.now last i }
{
    last == 0 || frames::record_follows(file, (last - 1) * RECORD_BYTES, i * RECORD_BYTES)
}

// The first rule that record i breaks; 0 where it is to be kept.
fn rule_after(file: &[u8], last: usize, i: usize) -> u8
    requires { (last ≤ i) × (i * record_bytes + record_bytes ≤ length file.now) }
    ensures { result ≡ rule_after file.now last i }
{
    let k = rule_alone(file, i * RECORD_BYTES);
    if k != 0 {
        return k;
    }
    if follows_last(file, last, i) {
        return 0;
    }
    ORDER_RULE
}

// Copies the record at a of the file to byte `to` of the second area.
fn copy_record(good: &mut [u8], to: usize, file: &[u8], a: usize)
    requires { (to + record_bytes ≤ length good.old) × (a + record_bytes ≤ length file.now) }
    ensures { good.new ≡ written (record_at file.now a) to good.old }
{
    good[to..to + RECORD_BYTES].copy_from_slice(&file[a..a + RECORD_BYTES]);
}

// Record i is copied, or told.
fn sift_one(
    file: &[u8],
    good: &mut [u8],
    places: &mut [u64],
    rules: &mut [u8],
    s: Sift,
    i: usize,
) -> Sift
    requires { SiftFits file.now i (sifting s good.old places.old rules.old) }
    ensures { sifting result good.new places.new rules.new
        ≡ sift_step file.now i (sifting s good.old places.old rules.old) }
{
    let last = s.last;
    let kept = s.kept;
    let told = s.told;
    let k = rule_after(file, last, i);
    if k == 0 {
        copy_record(good, kept * RECORD_BYTES, file, i * RECORD_BYTES);
        return Sift {
            last: i + 1,
            kept: kept + 1,
            told,
        };
    }
    places[told] = i as u64;
    rules[told] = k;
    Sift {
        last,
        kept,
        told: told + 1,
    }
}

// Each whole record is copied, or told.
fn sift_all(file: &[u8], good: &mut [u8], places: &mut [u64], rules: &mut [u8]) -> Sift
    requires { SiftRoom file.now good.old places.old rules.old }
    ensures { sifting result good.new places.new rules.new
        ≡ sifted_by file.now (whole_records file.now) good.old places.old rules.old }
{
    let whole = file.len() / RECORD_BYTES;
    let mut s = Sift {
        last: 0,
        kept: 0,
        told: 0,
    };
    for i in 0..whole {
        s = sift_one(file, good, places, rules, s, i);
    }
    s
}

// How many records the file has, a stray tail counted.
#[tactic(auto, unfolding(crate::specs::Salvage::records_read))]
fn records_read(file: &[u8]) -> usize
    ensures { result ≡ records_read file.now }
{
    if file.len() % RECORD_BYTES == 0 {
        return file.len() / RECORD_BYTES;
    }
    file.len() / RECORD_BYTES + 1
}

// One of the areas, by their lengths, is too short.
#[tactic(auto, unfolding(crate::specs::Salvage::lacks_room))]
fn lacks_room(file: &[u8], good: usize, places: usize, rules: usize) -> bool
    ensures { result ≡ lacks_room file.now good places rules }
{
    let n = records_read(file);
    good < file.len() / RECORD_BYTES * RECORD_BYTES || places < n || rules < n
}

// Copies the good records in order, and tells the others.
pub fn salvage(
    file: &[u8],
    good: &mut [u8],
    places: &mut [u64],
    rules: &mut [u8],
) -> Result<Saved, Refusal>
    ensures { salvage_outcome (numbered refusal_number result) good.new places.new rules.new
        ≡ salvage_of file.now good.old places.old rules.old }
{
    if lacks_room(file, good.len(), places.len(), rules.len()) {
        return Err(Refusal::Short);
    }
    let s = sift_all(file, good, places, rules);
    let kept = s.kept;
    let told = s.told;
    let stray = file.len() % RECORD_BYTES;
    if stray == 0 {
        return Ok(Saved { kept, told });
    }
    places[told] = (file.len() / RECORD_BYTES) as u64;
    rules[told] = TAIL_RULE;
    let all = told + 1;
    Ok(Saved { kept, told: all })
}
