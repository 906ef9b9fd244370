// What one link pulls.
ghost use Rattle.std.specs.Prelude.{◌≡◌};
ghost use Rattle.tree_node.specs.Node.{Axes};
ghost use Rattle.gradient_pairs.specs.Links.{pull_of, pulled};

use tree_bodies::{gap, pushed};

// How strongly a link of weight w pulls.
fn pull(exaggeration: f64, w: f64, c: usize, p: [f64; 3], q: [f64; 3]) -> f64
    requires { Axes c }
    ensures { result ≡ pull_of exaggeration w c p q }
{
    exaggeration * w / (1.0 + gap(p, q, c))
}

// The attraction so far, with one link more.
pub fn attract(
    exaggeration: f64,
    c: usize,
    p: [f64; 3],
    q: [f64; 3],
    w: f64,
    t: [f64; 3],
) -> [f64; 3]
    requires { Axes c }
    ensures { result ≡ pulled exaggeration c p q w t }
{
    pushed(t, p, q, pull(exaggeration, w, c, p, q), c)
}
