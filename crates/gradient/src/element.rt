// One element of the gradient by method, the normaliser, and the largest element.
ghost use Rattle.std.specs.Prelude.{◌≡◌, ◌+◌, ◌*◌, ◌<◌, ◌≤◌, length};
ghost use Rattle.gradient.specs.Element.{share_sum_of, normaliser_of, gradient_of, norm_of};

// The sum of the shares by rising point.
pub fn share_sum(forces: &[f64], n: usize, c: usize) -> f64
    requires { (c ≤ 8) × (n * (2 * c + 1) ≤ length forces.now) }
    ensures { result ≡ share_sum_of forces.now n c }
{
    let mut s = 0.0;
    for i in 0..n {
        s = s + forces[i * (2 * c + 1) + 2 * c];
    }
    s
}

// Z: that sum, at least 2^-52.
pub fn normaliser(forces: &[f64], n: usize, c: usize) -> f64
    requires { (c ≤ 8) × (n * (2 * c + 1) ≤ length forces.now) }
    ensures { result ≡ normaliser_of forces.now n c }
{
    elementary::unless_above(2.220446049250313e-16, share_sum(forces, n, c))
}

// Element e of the gradient: an exact run's stands in its place, a Barnes-Hut run's is made of the forces and z.
pub fn gradient_at(exact: bool, forces: &[f64], z: f64, n: usize, c: usize, e: usize) -> f64
    requires { (0 < c) × (c ≤ 8) × (e < n * c) × (n * (2 * c + 1) ≤ length forces.now) }
    ensures { result ≡ gradient_of exact forces.now z c e }
{
    if exact {
        return forces[e];
    }
    let a = e / c * (2 * c + 1) + e % c;
    4.0 * (forces[a] - forces[a + c] / z)
}

// The largest absolute element of the first m.
pub fn norm(exact: bool, forces: &[f64], z: f64, n: usize, c: usize, m: usize) -> f64
    requires { (0 < c) × (c ≤ 8) × (m ≤ n * c) × (n * (2 * c + 1) ≤ length forces.now) }
    ensures { result ≡ norm_of (gradient_of exact forces.now z c) m }
{
    let mut w = 0.0;
    for e in 0..m {
        let g = gradient_at(exact, forces, z, n, c, e);
        w = elementary::unless_above(w, elementary::absolute(g));
    }
    w
}
