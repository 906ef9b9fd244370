// The root's cell: the span of all points in each component, padded.
ghost use Rattle.std.specs.Prelude.{◌≡◌, ◌*◌, ◌<◌, ◌≤◌, length};
ghost use Rattle.tree_node.specs.Node.{Axes};
ghost use Rattle.tree_bounds.specs.Bounds.{lower as lower_of, higher as higher_of, widened, span_of, middle_of, reach_of, box_of};

use crate::Span;
use tree_node::Node;
use tree_node::cells::fresh;

fn lower(a: f64, v: f64) -> f64
    ensures { result ≡ lower_of a v }
{
    if v < a {
        return v;
    }
    a
}

fn higher(a: f64, v: f64) -> f64
    ensures { result ≡ higher_of a v }
{
    if v > a {
        return v;
    }
    a
}

impl Span {
    // The span with one coordinate more.
    fn widen(self, v: f64) -> Span
        ensures { result ≡ widened self v }
    {
        Span {
            low: lower(self.low, v),
            high: higher(self.high, v),
        }
    }

    fn middle(self) -> f64
        ensures { result ≡ middle_of self }
    {
        (self.low + self.high) / 2.0
    }

    // Half the span, at least 1e-12, and 1e-12 more: every point lies inside.
    fn reach(self) -> f64
        ensures { result ≡ reach_of self }
    {
        elementary::unless_above(1e-12, (self.high - self.low) / 2.0) + 1e-12
    }
}

// The span of component d over n points.
fn span(positions: &[f64], n: usize, c: usize, d: usize) -> Span
    requires { (d < c) × (n * c ≤ length positions.now) }
    ensures { result ≡ span_of positions.now n c d }
{
    let mut s = Span {
        low: 1.0 / 0.0,
        high: -1.0 / 0.0,
    };
    for i in 0..n {
        s = s.widen(positions[i * c + d]);
    }
    s
}

// An empty leaf over the padded span of n points.
pub fn bounding_box(positions: &[f64], n: usize, c: usize) -> Node
    requires { (Axes c) × (n * c ≤ length positions.now) }
    ensures { result ≡ box_of positions.now n c }
{
    let mut centre = [0.0; 3];
    let mut half = [0.0; 3];
    for d in 0..c {
        let s = span(positions, n, c, d);
        centre[d] = s.middle();
        half[d] = s.reach();
    }
    fresh(centre, half)
}
