// The two shares of each pair of frames together, in place: shares by rows become affinities.

#![tactic(auto)]

ghost use Rattle.std.specs.Prelude.{◌≡◌, ◌+◌, ◌*◌, ◌<◌, ◌≤◌, length};
ghost use Rattle.laws.specs.Domain.{most_frames};
ghost use Rattle.affinity_joins.specs.Joins.{pair_step, frame_joined, symmetrized};

// A lower frame j and a higher frame i: both places get the two shares together, divided by the norm.
fn join_pair(affinities: &mut [f64], n: usize, norm: f64, i: usize, j: usize)
    requires { (j * n + i < length affinities.old) × (i * n + j < length affinities.old) }
    ensures { affinities.new ≡ pair_step n norm i j affinities.old }
{
    let low = j * n + i;
    let high = i * n + j;
    let affinity = (affinities[low] + affinities[high]) / norm;
    affinities[low] = affinity;
    affinities[high] = affinity;
}

// Frame i with each lower frame; with itself it has none.
fn join_frame(affinities: &mut [f64], n: usize, norm: f64, i: usize)
    requires { (i < n) × (n * n ≤ length affinities.old) }
    ensures { affinities.new ≡ frame_joined n norm i affinities.old }
{
    for j in 0..i {
        join_pair(affinities, n, norm, i, j);
    }
    affinities[i * n + i] = 0.0;
}

// The shares by rows become affinities, in place.
pub fn symmetrize_probabilities(affinities: &mut [f64], n: usize)
    requires { (n ≤ most_frames) × (n * n ≤ length affinities.old) }
    ensures { affinities.new ≡ symmetrized n affinities.old }
{
    let norm = 2.0 * n as f64;
    for i in 0..n {
        join_frame(affinities, n, norm, i);
    }
}
