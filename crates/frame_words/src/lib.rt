// A frame as plain words of 64 bits.

#![tactic(auto)]

ghost use Rattle.std.specs.Prelude.{◌≡◌, ◌≤◌, length};
ghost use Rattle.frame_words.specs.FrameWords.{features_put, starts_put, frame_put};

use elementary::words::bits_of;
use frames::Frame;

fn put_features(words: &mut [u64], f: Frame)
    requires { 11 ≤ length words.old }
    ensures { words.new ≡ features_put f.features words.old }
{
    for k in 0..6 {
        words[3 + k] = bits_of(f.features[k]);
    }
}

fn put_starts(words: &mut [u64], f: Frame)
    requires { 11 ≤ length words.old }
    ensures { words.new ≡ starts_put f.starts words.old }
{
    for k in 0..2 {
        words[9 + k] = bits_of(f.starts[k]);
    }
}

pub fn put_frame(words: &mut [u64], f: Frame)
    requires { 11 ≤ length words.old }
    ensures { words.new ≡ frame_put f words.old }
{
    words[0] = f.picture as u64;
    words[1] = f.side as u64;
    words[2] = f.field as u64;
    put_features(words, f);
    put_starts(words, f);
}
