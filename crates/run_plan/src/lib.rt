// What an iteration goes by, and which of its units is next.

#![tactic(auto)]

ghost use Rattle.std.specs.Prelude.{◌≡◌, ◌≤◌};
ghost use Rattle.laws.specs.Domain.{most_frames};
ghost use Rattle.run_plan.specs.Plan.{exaggeration_of, momentum_of, group_of, group_number};

use laws::EARLY_ITERATIONS;
use run_record::Run;
use run_record::faults::is_tree;

pub fn exaggeration(r: Run) -> f64
    ensures { result ≡ exaggeration_of r }
{
    if r.done < EARLY_ITERATIONS {
        return 12.0;
    }
    1.0
}

pub fn momentum(r: Run) -> f64
    ensures { result ≡ momentum_of r }
{
    if r.done < EARLY_ITERATIONS {
        return 0.5;
    }
    0.8
}

// The units of an iteration, by what they work on.
#[derive(Clone, Copy, Debug, PartialEq, Eq)]
pub enum Group {
    // a point more in the tree, or its box
    Tree,
    // the forces on a point
    Forces,
    Finish,
}

// Which unit is next.
pub fn next_group(r: Run) -> Group
    requires { r.settings.n ≤ most_frames }
    ensures { group_number result ≡ group_of r }
{
    let s = r.settings;
    if is_tree(s.method) {
        if r.phase <= s.n {
            return Group::Tree;
        }
        if r.phase <= 2 * s.n {
            return Group::Forces;
        }
        return Group::Finish;
    }
    if r.phase < 2 * s.n {
        return Group::Forces;
    }
    Group::Finish
}
