// Starting positions and the frame file, with plain words.

#![tactic(auto)]

ghost use Rattle.std.specs.Prelude.{◌≡◌};
ghost use Rattle.scatter.specs.Scatter.{scatter_of};
ghost use Rattle.record_words.specs.RecordWords.{worded};
ghost use Rattle.frames.specs.Frames.{or_zero};
ghost use Rattle.desk_files.specs.Files.{host_frames, host_frame};

use frame_words::put_frame;

// Starting positions from a seed. Answers 0, or 1, 7 or 12; then nothing is changed.
pub fn host_scatter(positions: &mut [f64], n: u32, c: u32, seed: u64) -> u32
    ensures { (result ≡ or_zero (scatter_of n c seed positions.old).number) × (positions.new ≡ (scatter_of n c seed positions.old).positions) }
{
    refusal::number(scatter::scatter(positions, n, c, seed)) as u32
}

// How many records a frame file has, or 16 and the place of the first bad one, in the first word of the area.
pub fn host_frames(file: &[u8], place: &mut [u64]) -> u32
    ensures { worded result place.new ≡ host_frames file.now place.old }
{
    if place.len() == 0 {
        return 12;
    }
    match frames::read_frames(file) {
        Ok(n) => {
            place[0] = n as u64;
            0
        }
        Err(bad) => {
            place[0] = bad.place as u64;
            16
        }
    }
}

// Picture, side, field, six features and two starts of record i, in eleven words; zeros past the whole records. Answers 0, or 12.
pub fn host_frame(file: &[u8], i: usize, frame: &mut [u64]) -> u32
    ensures { worded result frame.new ≡ host_frame file.now i frame.old }
{
    if frame.len() < 11 {
        return 12;
    }
    let f = frames::frame_at(file, i);
    put_frame(frame, f);
    0
}
