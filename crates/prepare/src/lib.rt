// Preparation: the tests 1 to 12 in their order, then the affinities by method, the areas as a run begins, and its record.

#![tactic(auto)]

ghost use Rattle.std.specs.Prelude.{◌≡◌, ◌+◌, ◌*◌, ◌≤◌, length};
ghost use Rattle.laws.specs.Area.{zero64, one64};
ghost use Rattle.laws.specs.Joined.{pasted};
ghost use Rattle.areas.specs.Filled.{filled};
ghost use Rattle.affinity_lists.specs.Lists.{areas};
ghost use Rattle.affinity_distances.specs.Distances.{squares_of};
ghost use Rattle.affinity.specs.Exact.{exact_of};
ghost use Rattle.refusal.specs.Refusal.{refusal_number, number_told, numbered};
ghost use Rattle.run_record.specs.Record.{GoodSettings};
ghost use Rattle.prepare.specs.Room.{RouteRoom};
ghost use Rattle.prepare.specs.Prepare.{all_inside, lengths_fit, prepare_fault, routed, lent, prepare_outcome, prepared};

use areas::{copy_front, fill};
use elementary::in_domain;
use refusal::Refusal;
use run_entry::areas_fit;
use run_record::faults::{early_fault, is_tree, late_fault, sizes_of, times};
use run_record::progress::fresh_run;
use run_record::{Run, Settings, Sizes};

// The lengths of the areas that are lent, and the nodes of the arena.
#[derive(Clone, Copy)]
pub struct Lengths {
    pub areas: run_entry::Lengths,
    pub indices: usize,
    pub offsets: usize,
    pub nodes: usize,
    // of the two preparation rows
    pub values: usize,
    pub places: usize,
}

fn all_in(t: &[f64], m: usize) -> bool
    requires { m ≤ length t.now }
    ensures { result ≡ all_inside t.now m }
{
    for i in 0..m {
        if !in_domain(t[i]) {
            return false;
        }
    }
    true
}

fn lengths_fit(s: Settings, l: Lengths) -> bool
    requires { GoodSettings s }
    ensures { result ≡ lengths_fit s l }
{
    if !areas_fit(s, l.areas, l.indices, l.offsets, l.nodes) {
        return false;
    }
    if l.values < s.n {
        return false;
    }
    s.n <= l.places
}

// The first test that fails.
pub fn prepare_fault(s: Settings, table: &[f64], start: &[f64], l: Lengths) -> Result<(), Refusal>
    ensures { number_told refusal_number result ≡ prepare_fault s table.now start.now l }
{
    early_fault(s)?;
    let nf = times(s.n, s.f);
    if table.len() != nf {
        return Err(Refusal::Size);
    }
    if !all_in(table, nf) {
        return Err(Refusal::Value);
    }
    late_fault(s)?;
    let nc = times(s.n, s.c);
    if start.len() != nc {
        return Err(Refusal::Start);
    }
    if !all_in(start, nc) {
        return Err(Refusal::Start);
    }
    if lengths_fit(s, l) {
        return Ok(());
    }
    Err(Refusal::Short)
}

// Positions, increments, gains and forces as a run begins.
fn set_out(
    z: Sizes,
    start: &[f64],
    positions: &mut [f64],
    increments: &mut [f64],
    gains: &mut [f64],
    forces: &mut [f64],
)
    requires { (z.cells ≤ length start.now) × (z.cells ≤ length positions.old) × (z.cells ≤ length increments.old) × (z.cells ≤ length gains.old) × (z.forces ≤ length forces.old) }
    ensures { (positions.new ≡ pasted start.now 0 z.cells positions.old)
        × (increments.new ≡ filled zero64 z.cells increments.old)
        × (gains.new ≡ filled one64 z.cells gains.old)
        × (forces.new ≡ filled zero64 z.forces forces.old) }
{
    copy_front(positions, start, 0, z.cells);
    fill(increments, z.cells, 0.0);
    fill(gains, z.cells, 1.0);
    fill(forces, z.forces, 0.0);
}

// The affinities by method; on the way the squares of the frames.
fn route(
    s: Settings,
    table: &[f64],
    affinities: &mut [f64],
    indices: &mut [u32],
    offsets: &mut [u32],
    squares: &mut [f64],
    row_values: &mut [f64],
    row_indices: &mut [u32],
)
    requires { RouteRoom s
        (length table.now)
        (length affinities.old)
        (length indices.old)
        (length offsets.old)
        (length squares.old)
        (length row_values.old)
        (length row_indices.old) }
    ensures row_indices_after { areas
        affinities.new
        indices.new
        offsets.new
        row_values.new
        row_indices.new
        ≡ routed s table.now (areas
        affinities.old
        indices.old
        offsets.old
        row_values.old
        row_indices.old) }
    ensures squares_after { squares.new ≡ squares_of table.now s.n s.f squares.old }
{
    let m = s.method;
    if is_tree(m) {
        affinity::neighbours::neighbor_probabilities(
            table,
            s.n,
            s.f,
            s.perplexity,
            affinities,
            indices,
            offsets,
            squares,
            row_values,
            row_indices,
        );
        return;
    }
    affinity::exact::exact_affinities(
        table,
        s.n,
        s.f,
        s.perplexity,
        affinities,
        squares,
        row_values,
    );
    fill(row_indices, s.n, 0);
}

// Prepares a run: takes any settings and any areas, and answers its record or the first test that fails. Of the arena it asks
// only how many nodes it has.
pub fn prepare(
    s: Settings,
    table: &[f64],
    start: &[f64],
    positions: &mut [f64],
    increments: &mut [f64],
    gains: &mut [f64],
    affinities: &mut [f64],
    indices: &mut [u32],
    offsets: &mut [u32],
    forces: &mut [f64],
    row_values: &mut [f64],
    row_indices: &mut [u32],
    nodes: usize,
) -> Result<Run, Refusal>
    ensures { prepare_outcome (numbered refusal_number result) (lent
        positions.new
        increments.new
        gains.new
        affinities.new
        indices.new
        offsets.new
        forces.new
        row_values.new
        row_indices.new)
        ≡ prepared s
        table.now
        start.now
        nodes
        (lent
        positions.old
        increments.old
        gains.old
        affinities.old
        indices.old
        offsets.old
        forces.old
        row_values.old
        row_indices.old) }
{
    let areas = run_entry::Lengths {
        positions: positions.len(),
        increments: increments.len(),
        gains: gains.len(),
        affinities: affinities.len(),
        forces: forces.len(),
    };
    let l = Lengths {
        areas,
        indices: indices.len(),
        offsets: offsets.len(),
        nodes,
        values: row_values.len(),
        places: row_indices.len(),
    };
    prepare_fault(s, table, start, l)?;
    let z = sizes_of(s);
    route(
        s,
        table,
        affinities,
        indices,
        offsets,
        forces,
        row_values,
        row_indices,
    );
    set_out(z, start, positions, increments, gains, forces);
    Ok(fresh_run(s))
}
