// Salvaging a frame file, with the answer as plain words.

#![tactic(auto)]

ghost use Rattle.std.specs.Prelude.{◌≡◌, ◌≤◌, length};
ghost use Rattle.refusal.specs.Refusal.{refusal_number, numbered};
ghost use Rattle.salvage.specs.Salvage.{salvage_number};
ghost use Rattle.desk_salvage.specs.HostSalvage.{salvaged_words, host_salvaged, host_salvage};

use refusal::{Refusal, number};
use salvage::{Saved, salvage};

// Tells the records kept and the records told, or 0. Answers the number.
#[tactic(auto, unfolding(crate::specs::HostSalvage::salvaged_words, salvage::specs::Salvage::salvage_number))]
fn put_salvaged(answer: &mut [u64], s: Result<Saved, Refusal>) -> u32
    requires { 2 ≤ length answer.old }
    ensures { (result ≡ salvage_number (numbered refusal_number s)) × (answer.new ≡ salvaged_words (numbered refusal_number s) answer.old) }
{
    match s {
        Ok(saved) => {
            answer[0] = saved.kept as u64;
            answer[1] = saved.told as u64;
        }
        Err(_) => {
            answer[0] = 0;
        }
    }
    number(s) as u32
}

// Copies the good records in order, and tells the others. Answers 0, or 12; then none of the areas is changed.
pub fn host_salvage(
    file: &[u8],
    good: &mut [u8],
    places: &mut [u64],
    rules: &mut [u8],
    answer: &mut [u64],
) -> u32
    ensures { host_salvaged result good.new places.new rules.new answer.new
        ≡ host_salvage
        file.now
        good.old
        places.old
        rules.old
        answer.old }
{
    if answer.len() < 2 {
        return 12;
    }
    let s = salvage(file, good, places, rules);
    put_salvaged(answer, s)
}
