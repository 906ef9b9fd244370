// What a case of a run's areas lends and compares, for the replays: areas of values by their bits and of numbers, files and targets, by value.

#![tactic(auto)]

pub mod bytes;
pub mod lengths;
pub mod told;
pub mod values;
pub mod wanted;

ghost use Rattle.std.specs.Prelude.{◌≡◌, replicate};
ghost use Rattle.replay_areas.specs.Said.{empty_cell};

use tree_node::Cell;

// Nodes of zeros.
pub fn empty_cells() -> [Cell; 4]
    ensures { result ≡ replicate 4 empty_cell }
{
    let zero = [0.0; 3];
    let v = Cell {
        centre: zero,
        half: zero,
        mass: zero,
        count: 0,
        first: 0,
        leaf: 0,
    };
    [v; 4]
}
