// The front of an area: filled with one value, or copied from another area. What lies past it is kept.

#![tactic(auto)]

ghost use Rattle.std.specs.Prelude.{◌≡◌, ◌+◌, ◌≤◌, length};
ghost use Rattle.laws.specs.Joined.{pasted};
ghost use Rattle.areas.specs.Filled.{filled};

// The first n places become x.
pub fn fill<T: Copy>(area: &mut [T], n: usize, x: T)
    requires { n ≤ length area.old }
    ensures { area.new ≡ filled x n area.old }
{
    for t in 0..n {
        area[t] = x;
    }
}

// The first k places of `to` become those of `from` from a on.
pub fn copy_front<T: Copy>(to: &mut [T], from: &[T], a: usize, k: usize)
    requires { (k ≤ length to.old) × (a + k ≤ length from.now) }
    ensures { to.new ≡ pasted from.now a k to.old }
{
    for t in 0..k {
        to[t] = from[a + t];
    }
}
