// The strip profile: the settings with which frames are mapped along one line.

#![tactic(auto)]

ghost use Rattle.std.specs.Prelude.{◌≡◌};
ghost use Rattle.strip_profile.specs.Profile.{in_profile};

use run_record::Settings;
use run_record::faults::is_tree;

pub const MOST_STRIP: usize = 1024;

// Whether the settings are in it.
pub fn in_profile(s: Settings) -> bool
    ensures { result ≡ in_profile s }
{
    s.c == 1 && is_tree(s.method) && s.angle <= 0.5 && s.n <= MOST_STRIP
}
