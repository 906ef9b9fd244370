// The exact gradient by pairs of frames: the numerators, and the sums of a row's weights.
ghost use Rattle.std.specs.Prelude.{◌≡◌, ◌+◌, ◌*◌, ◌<◌, ◌≤◌, length};
ghost use Rattle.laws.specs.Loops.{loop};
ghost use Rattle.tree_bodies.specs.Bodies.{gap_of};
ghost use Rattle.gradient_pairs.specs.Exact.{on_map, num_of, num_step, push_of, along_step, pull_by, pull_step, pulls_of, num_laid, weight_laid, weighed_step};

use crate::Pulls;

// How many frames of a row are taken together, which lets the machine divide for two at a time.
pub const TOGETHER: usize = 16;

// The map: c values for each of n frames, one frame after the other.
#[derive(Clone, Copy)]
pub struct Map<'a> {
    pub positions: &'a [f64],
    pub n: usize,
    pub c: usize,
}

// What an exact run's gradient is made of: the map, the affinities and their exaggeration, and the total of the numerators.
#[derive(Clone, Copy)]
pub struct Pairs<'a> {
    pub map: Map<'a>,
    pub affinities: &'a [f64],
    pub exaggeration: f64,
    pub total: f64,
}

// The sums along each component, with c values from place b on, weighed by w, more.
fn add_along(along: [f64; 8], positions: &[f64], b: usize, c: usize, w: f64) -> [f64; 8]
    requires { (c ≤ 8) × (b + c ≤ length positions.now) }
    ensures { result ≡ loop (along_step w positions.now b) c 0 along }
{
    let mut t = along;
    if c == 0 {
        return t;
    }
    t[0] = t[0] + w * positions[b];
    if c <= 1 {
        return t;
    }
    t[1] = t[1] + w * positions[b + 1];
    if c <= 2 {
        return t;
    }
    t[2] = t[2] + w * positions[b + 2];
    if c <= 3 {
        return t;
    }
    t[3] = t[3] + w * positions[b + 3];
    if c <= 4 {
        return t;
    }
    t[4] = t[4] + w * positions[b + 4];
    if c <= 5 {
        return t;
    }
    t[5] = t[5] + w * positions[b + 5];
    if c <= 6 {
        return t;
    }
    t[6] = t[6] + w * positions[b + 6];
    if c <= 7 {
        return t;
    }
    t[7] = t[7] + w * positions[b + 7];
    t
}

impl<'a> Map<'a> {
    // The squared distance of frames i and j on the map.
    pub fn apart(self, i: usize, j: usize) -> f64
        requires { (i * self.c + self.c ≤ length self.positions.now) × (j * self.c + self.c ≤ length self.positions.now) }
        ensures { result ≡ gap_of self.entry.c (on_map self.entry.positions.now self.entry.c i) (on_map self.entry.positions.now self.entry.c j) }
    {
        let a = i * self.c;
        let b = j * self.c;
        let mut s = 0.0;
        for d in 0..self.c {
            let g = self.positions[a + d] - self.positions[b + d];
            s = s + g * g;
        }
        s
    }

    // The Student-t numerator of frames i and j; nothing for a frame and itself.
    pub fn num(self, i: usize, j: usize) -> f64
        requires { (i * self.c + self.c ≤ length self.positions.now) × (j * self.c + self.c ≤ length self.positions.now) }
        ensures { result ≡ num_of self.entry.positions.now self.entry.c i j }
    {
        if i == j {
            return 0.0;
        }
        1.0 / (1.0 + self.apart(i, j))
    }

    // The numerators of row i, by rising frame, onto a sum.
    pub fn add_row(self, i: usize, sum: f64) -> f64
        requires { (i < self.n) × (self.n * self.c ≤ length self.positions.now) }
        ensures { result ≡ loop (num_step self.entry.positions.now self.entry.c i) self.entry.n 0 sum }
    {
        let mut s = sum;
        for j in 0..self.n {
            s = s + self.num(i, j);
        }
        s
    }

    // The numerators of frame i and the m frames from j on.
    fn lay_nums(self, nums: &mut [f64], i: usize, j: usize, m: usize)
        requires { (i < self.n) × (j + m ≤ self.n) × (self.n * self.c ≤ length self.positions.now) × (m ≤ length nums.old) }
        ensures { nums.new ≡ loop (num_laid self.entry.positions.now self.entry.c i j) m 0 nums.old }
    {
        for k in 0..m {
            nums[k] = self.num(i, j + k);
        }
    }

    // The sums, with frame j of weight w more.
    fn add_frame(self, x: Pulls, j: usize, w: f64) -> Pulls
        requires { (self.c ≤ 8) × (j * self.c + self.c ≤ length self.positions.now) }
        ensures { result ≡ pull_by w self.entry.positions.now self.entry.c j x }
    {
        Pulls {
            sum: x.sum + w,
            along: add_along(x.along, self.positions, j * self.c, self.c, w),
        }
    }

    // The sums, with m frames from j on more, of the weights given.
    fn add_frames(self, x: Pulls, weights: &[f64], j: usize, m: usize) -> Pulls
        requires { (self.c ≤ 8) × (j + m ≤ self.n) × (self.n * self.c ≤ length self.positions.now) × (m ≤ length weights.now) }
        ensures { result ≡ loop (weighed_step weights.now self.entry.positions.now self.entry.c j) m 0 x }
    {
        let mut so_far = x;
        for k in 0..m {
            so_far = self.add_frame(so_far, j + k, weights[k]);
        }
        so_far
    }
}

impl<'a> Pairs<'a> {
    // What a frame of affinity p and numerator num weighs in the gradient of another.
    fn push(self, p: f64, num: f64) -> f64
        ensures { result ≡ push_of p self.entry.exaggeration num self.entry.total }
    {
        let q = elementary::unless_above(2.220446049250313e-16, num / self.total);
        (p * self.exaggeration - q) * num
    }

    // What the m frames from j on weigh in the gradient of frame i.
    fn lay_weights(self, weights: &mut [f64], nums: &[f64], i: usize, j: usize, m: usize)
        requires { (i < self.map.n) × (j + m ≤ self.map.n) × (self.map.n * self.map.n ≤ length self.affinities.now) × (m ≤ length nums.now) × (m ≤ length weights.old) }
        ensures { weights.new ≡ loop (weight_laid nums.now self.entry.affinities.now self.entry.exaggeration self.entry.total self.entry.map.n i j) m 0 weights.old }
    {
        for k in 0..m {
            weights[k] = self.push(self.affinities[i * self.map.n + (j + k)], nums[k]);
        }
    }

    // The sums of gradient row i so far, with the m frames from j on more.
    fn gather_some(self, x: Pulls, i: usize, j: usize, m: usize) -> Pulls
        requires { (self.map.c ≤ 8) × (i < self.map.n) × (j + m ≤ self.map.n) × (m ≤ 16) × (self.map.n * self.map.c ≤ length self.map.positions.now) × (self.map.n * self.map.n ≤ length self.affinities.now) }
        ensures { result ≡ loop (pull_step self.entry.map.positions.now self.entry.affinities.now self.entry.exaggeration self.entry.total self.entry.map.n self.entry.map.c i) m j x }
    {
        let mut nums = [0.0; TOGETHER];
        self.map.lay_nums(&mut nums, i, j, m);
        let mut weights = [0.0; TOGETHER];
        self.lay_weights(&mut weights, &nums, i, j, m);
        self.map.add_frames(x, &weights, j, m)
    }

    // The sums of gradient row i over all frames.
    pub fn gather(self, i: usize) -> Pulls
        requires { (self.map.c ≤ 8) × (i < self.map.n) × (self.map.n * self.map.c ≤ length self.map.positions.now) × (self.map.n * self.map.n ≤ length self.affinities.now) }
        ensures { result ≡ pulls_of self.entry.map.positions.now self.entry.affinities.now self.entry.exaggeration self.entry.total self.entry.map.n self.entry.map.c i }
    {
        let mut x = Pulls {
            sum: 0.0,
            along: [0.0; 8],
        };
        for j in (0..self.map.n).step_by(TOGETHER) {
            let m = (self.map.n - j).min(TOGETHER);
            x = self.gather_some(x, i, j, m);
        }
        x
    }
}
