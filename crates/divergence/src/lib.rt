// The Kullback-Leibler figure of the iteration just finished, or why there is none. No area is changed.

#![tactic(auto)]

ghost use Rattle.std.specs.Prelude.{◌≡◌, true};
ghost use Rattle.run_entry.specs.State.{memory};
ghost use Rattle.run_entry.specs.Entry.{is_fine};
ghost use Rattle.divergence.specs.Divergence.{last_exaggeration, total_of, just_ended, too_early, figure_of, after_tests, divergence_of, divergence_fault_number, TotalRoom, FigureRoom};

use divergence_sums::{barnes_hut_kl, kl_divergence};
use gradient::element::{normaliser, share_sum};
use gradient::forces::Lists;
use gradient_pairs::exact::{Map, Pairs};
use laws::EARLY_ITERATIONS;
use refusal::Numbered;
use run_entry::{Fault, Lengths, fault_at};
use run_record::Run;
use run_record::faults::is_tree;
use tree_node::Cell;

// Why there is no figure.
#[derive(Clone, Copy, Debug, PartialEq, Eq)]
pub enum DivergenceFault {
    // 17: no iteration has just ended, or the forces give a total of 0
    Early,
    // what the entry tests found
    Bad(Fault),
}

impl Numbered for DivergenceFault {
    ghost number_of = { divergence_fault_number };

    fn number(self) -> u8 {
        match self {
            DivergenceFault::Early => 17,
            DivergenceFault::Bad(f) => f.number(),
        }
    }
}

fn last_exaggeration(r: Run) -> f64
    ensures { result ≡ last_exaggeration r }
{
    if r.done <= EARLY_ITERATIONS {
        return 12.0;
    }
    1.0
}

// What the forces give in all.
fn total(r: Run, forces: &[f64]) -> f64
    requires { TotalRoom r forces.now }
    ensures { result ≡ total_of r forces.now }
{
    let s = r.settings;
    let m = s.method;
    if is_tree(m) {
        return share_sum(forces, s.n, s.c);
    }
    forces[s.n * s.c]
}

// Whether an iteration has just ended: one is done, and no unit of the next.
#[tactic(auto, unfolding(crate::specs::Divergence::just_ended))]
fn just_ended(r: Run) -> bool
    ensures { result ≡ just_ended r }
{
    r.done != 0 && r.phase == 0
}

// Whether it is 17: none has just ended, or the forces give a total of 0.
#[tactic(auto, unfolding(crate::specs::Divergence::too_early))]
fn too_early(r: Run, forces: &[f64]) -> bool
    requires { TotalRoom r forces.now }
    ensures { result ≡ too_early r forces.now }
{
    !just_ended(r) || total(r, forces) == 0.0
}

// The figure by method.
fn figure(
    r: Run,
    affinities: &[f64],
    indices: &[u32],
    offsets: &[u32],
    forces: &[f64],
    copy: &[f64],
) -> f64
    requires { FigureRoom r affinities.now indices.now offsets.now forces.now copy.now }
    ensures { result ≡ figure_of r affinities.now indices.now offsets.now forces.now copy.now }
{
    let s = r.settings;
    let m = s.method;
    let e = last_exaggeration(r);
    let map = Map {
        positions: copy,
        n: s.n,
        c: s.c,
    };
    if is_tree(m) {
        let z = normaliser(forces, s.n, s.c);
        let lists = Lists {
            weights: affinities,
            indices,
            offsets,
        };
        return barnes_hut_kl(map, lists, e, z);
    }
    let t = total(r, forces);
    kl_divergence(Pairs {
        map,
        affinities,
        exaggeration: e,
        total: t,
    })
}

// What is answered once the entry tests have found f.
fn after_tests(
    f: Result<(), Fault>,
    r: Run,
    affinities: &[f64],
    indices: &[u32],
    offsets: &[u32],
    forces: &[f64],
    copy: &[f64],
) -> Result<f64, DivergenceFault>
    requires { is_fine f ≡ true → FigureRoom r affinities.now indices.now offsets.now forces.now copy.now }
    ensures { result ≡ after_tests f r affinities.now indices.now offsets.now forces.now copy.now }
{
    if let Err(b) = f {
        return Err(DivergenceFault::Bad(b));
    }
    if too_early(r, forces) {
        return Err(DivergenceFault::Early);
    }
    Ok(figure(r, affinities, indices, offsets, forces, copy))
}

// The figure, with any record and any areas; the copy holds the positions before the last step.
pub fn divergence(
    r: Run,
    positions: &[f64],
    increments: &[f64],
    gains: &[f64],
    affinities: &[f64],
    indices: &[u32],
    offsets: &[u32],
    forces: &[f64],
    cells: &[Cell],
    copy: &[f64],
) -> Result<f64, DivergenceFault>
    ensures { result
        ≡ divergence_of r
        (memory
        positions.now
        increments.now
        gains.now
        affinities.now
        indices.now
        offsets.now
        forces.now
        cells.now)
        copy.now }
{
    let least = positions.len().min(copy.len());
    let l = Lengths {
        positions: least,
        increments: increments.len(),
        gains: gains.len(),
        affinities: affinities.len(),
        forces: forces.len(),
    };
    let f = fault_at(r, l, indices, offsets, cells);
    let a = after_tests(f, r, affinities, indices, offsets, forces, copy);
    a
}
