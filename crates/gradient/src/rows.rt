// The exact gradient, row by row: first the total of the numerators, then each frame's gradient.
ghost use Rattle.std.specs.Prelude.{◌≡◌, ◌+◌, ◌*◌, ◌<◌, ◌≤◌, length};
ghost use Rattle.laws.specs.Loops.{loop};
ghost use Rattle.gradient.specs.Exact.{total_row, slope_step, gradient_row};

use gradient_pairs::Pulls;
use gradient_pairs::exact::{Map, Pairs};

// The unit of total row i: one running sum at place n·c, which the first row sets to +0.0.
pub fn total_row(map: Map, i: usize, forces: &mut [f64])
    requires { (i < map.n) × (map.n * map.c ≤ length map.positions.now) × (map.n * map.c < length forces.old) }
    ensures { forces.new ≡ total_row map.entry.positions.now map.entry.n map.entry.c i forces.old }
{
    let place = map.n * map.c;
    let sum = if i == 0 { 0.0 } else { forces[place] };
    forces[place] = map.add_row(i, sum);
}

// Frame i's gradient into its c places.
fn slopes(forces: &mut [f64], positions: &[f64], a: usize, c: usize, x: Pulls)
    requires { (c ≤ 8) × (a + c ≤ length positions.now) × (a + c ≤ length forces.old) }
    ensures { forces.new ≡ loop (slope_step x positions.now a) c 0 forces.old }
{
    for d in 0..c {
        forces[a + d] = (positions[a + d] * x.sum - x.along[d]) * 4.0;
    }
}

// The unit of gradient row i.
pub fn gradient_row(map: Map, affinities: &[f64], exaggeration: f64, i: usize, forces: &mut [f64])
    requires { (map.c ≤ 8) × (i < map.n) × (map.n * map.c ≤ length map.positions.now) × (map.n * map.n ≤ length affinities.now) × (map.n * map.c < length forces.old) }
    ensures { forces.new ≡ gradient_row map.entry.positions.now affinities.now exaggeration map.entry.n map.entry.c i forces.old }
{
    let pairs = Pairs {
        map,
        affinities,
        exaggeration,
        total: forces[map.n * map.c],
    };
    slopes(forces, map.positions, i * map.c, map.c, pairs.gather(i));
}
