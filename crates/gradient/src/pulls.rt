// What the links of a point pull, over its list, and the places that its forces take.
ghost use Rattle.std.specs.Prelude.{◌≡◌, ℕ, ◌+◌, ◌*◌, ◌<◌, ◌≤◌, length};
ghost use Rattle.laws.specs.Area.{at, num};
ghost use Rattle.laws.specs.Loops.{loop};
ghost use Rattle.tree_node.specs.Node.{Axes, zeros3, point_of};
ghost use Rattle.gradient_pairs.specs.Links.{pulled};
ghost use Rattle.gradient.specs.Forces.{link_step, attraction_of, Below, Linked, place_of, put_step, stored};

use crate::forces::Lists;
use gradient_pairs::exact::Map;
use gradient_pairs::links::attract;
use tree_bodies::Acc;
use tree_node::cells::point;

// The attraction so far, with the link at a place of the lists more.
fn follow(
    map: Map,
    lists: Lists,
    exaggeration: f64,
    p: [f64; 3],
    place: usize,
    t: [f64; 3],
) -> [f64; 3]
    requires { (Axes map.c) × (map.n * map.c ≤ length map.positions.now) × (place < length lists.weights.now) × (place < length lists.indices.now) × (num lists.indices.now place < map.n) }
    ensures { result ≡ pulled exaggeration map.entry.c p (point_of map.entry.positions.now map.entry.c (num lists.entry.indices.now place)) (at lists.entry.weights.now place) t }
{
    let q = point(map.positions, lists.indices[place] as usize, map.c);
    attract(exaggeration, map.c, p, q, lists.weights[place], t)
}

// What the links from place a on pull, by rising place.
fn follow_all(
    map: Map,
    lists: Lists,
    exaggeration: f64,
    p: [f64; 3],
    a: usize,
    links: usize,
) -> [f64; 3]
    requires axes { (Axes map.c) × (map.n * map.c ≤ length map.positions.now) × (a + links ≤ length lists.weights.now) × (a + links ≤ length lists.indices.now) }
    requires below { Below map.n (a + links) lists.indices.now }
    ensures { result ≡ loop (link_step exaggeration map.entry.c map.entry.positions.now lists.entry.weights.now lists.entry.indices.now p a) links 0 zeros3 }
{
    let mut t = [0.0, 0.0, 0.0];
    for k in 0..links {
        let s = follow(map, lists, exaggeration, p, a + k, t);
        t = s;
    }
    t
}

// Point i's attraction over its list.
fn attraction(map: Map, lists: Lists, i: usize, exaggeration: f64) -> [f64; 3]
    requires axes { (Axes map.c) × (i < map.n) × (map.n * map.c ≤ length map.positions.now) }
    requires linked { Linked map.n lists.weights.now lists.indices.now lists.offsets.now i }
    ensures { result ≡ attraction_of exaggeration map.entry.c map.entry.positions.now lists.entry.weights.now lists.entry.indices.now lists.entry.offsets.now i }
{
    let p = point(map.positions, i, map.c);
    let a = lists.offsets[i] as usize;
    let e = lists.offsets[i + 1] as usize;
    follow_all(map, lists, exaggeration, p, a, e - a)
}

// c values into the places from a on.
fn put(forces: &mut [f64], a: usize, x: [f64; 3], c: usize)
    requires { (Axes c) × (a + c ≤ length forces.old) }
    ensures { forces.new ≡ loop (put_step x a) c 0 forces.old }
{
    forces[a] = x[0];
    if c == 1 {
        return;
    }
    forces[a + 1] = x[1];
    if c == 2 {
        return;
    }
    forces[a + 2] = x[2];
}

// Attraction, repulsion and share of point i take their places.
fn store(forces: &mut [f64], c: usize, i: usize, t: [f64; 3], acc: Acc)
    requires { (Axes c) × (place_of c i + (2 * c + 1) ≤ length forces.old) }
    ensures { forces.new ≡ stored c i t acc forces.old }
{
    let a = i * (2 * c + 1);
    put(forces, a, t, c);
    put(forces, a + c, acc.neg, c);
    forces[a + 2 * c] = acc.sum;
}

// Point i's forces take their places, once it is known what the tree does to it.
pub(crate) fn place_forces(
    map: Map,
    lists: Lists,
    i: usize,
    exaggeration: f64,
    acc: Acc,
    forces: &mut [f64],
)
    requires { (Axes map.c) × (i < map.n) × (map.n * map.c ≤ length map.positions.now) × (map.n * (2 * map.c + 1) ≤ length forces.old) × Linked map.n lists.weights.now lists.indices.now lists.offsets.now i }
    ensures { forces.new
        ≡ stored map.entry.c i
        (attraction_of exaggeration map.entry.c
        map.entry.positions.now
        lists.entry.weights.now
        lists.entry.indices.now
        lists.entry.offsets.now
        i)
        acc
        forces.old }
{
    let t = attraction(map, lists, i, exaggeration);
    store(forces, map.c, i, t, acc);
}
