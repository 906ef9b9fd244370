// One unit of either method, over all areas.

#![tactic(auto)]

ghost use Rattle.std.specs.Prelude.{◌≡◌, ◌+◌, ◌-◌, ◌*◌, ◌<◌, ◌≤◌, length, eqb};
ghost use Rattle.laws.specs.Domain.{most_frames};
ghost use Rattle.tree_node.specs.Arena.{nodes_of};
ghost use Rattle.run_record.specs.Record.{is_tree, is_ended, advanced_of};
ghost use Rattle.run_entry.specs.State.{memory, state};
ghost use Rattle.run_entry.specs.Entry.{Workable};
ghost use Rattle.run_finish.specs.Finish.{run_left, why_of};
ghost use Rattle.run_finish.specs.FinishRoom.{Small};
ghost use Rattle.run_units.specs.Units.{inserted_of, tree_turn, tree_unit, force_unit, row_unit, turned, unit};
ghost use Rattle.run_units.specs.Room.{TreeRoom, ForceRoom, RowRoom};

use gradient::forces::{Lists, point_forces};
use gradient_pairs::exact::Map;
use run_finish::{Halt, finish_unit};
use run_plan::{Group, exaggeration, next_group};
use run_record::Run;
use run_record::counters::is_ended;
use run_record::faults::is_tree;
use run_record::progress::advanced;
use tree::insertion::insert;
use tree::root::plant;
use tree_node::Cell;

// ---- the units of the tree

// Whether the next unit of the tree is the box.
fn is_box(r: Run) -> bool
    ensures { result ≡ eqb r.phase 0 }
{
    r.phase == 0
}

// The point that goes in next.
fn point_next(r: Run) -> u32
    requires { (Small r) × (0 < r.phase) }
    ensures { result ≡ r.phase - 1 }
{
    (r.phase - 1) as u32
}

// The record after an insertion, which may be refused.
fn inserted(r: Run, full: bool, used: usize) -> Result<Run, Halt>
    requires { Small r }
    ensures { result ≡ inserted_of r full used }
{
    if full {
        return Err(Halt::Full);
    }
    Ok(advanced(r, used))
}

// The box unit, or the insertion of a point, which may be refused.
pub(crate) fn tree_unit(r: Run, positions: &[f64], cells: &mut [Cell]) -> Result<Run, Halt>
    requires { TreeRoom r (length positions.now) (nodes_of cells.old) }
    ensures { tree_turn (run_left r result) (nodes_of cells.new) (why_of result) ≡ tree_unit r positions.now (nodes_of cells.old) }
{
    let s = r.settings;
    let first = is_box(r);
    if first {
        plant(cells, positions, s.n, s.c);
        return Ok(advanced(r, 1));
    }
    let j = point_next(r);
    let a = insert(cells, positions, s.n, r.used, j, s.c);
    inserted(r, a.full, a.used)
}

// ---- the units of the forces

fn by_tree(r: Run) -> bool
    ensures { result ≡ is_tree r.settings.method }
{
    let s = r.settings;
    let m = s.method;
    is_tree(m)
}

// The point whose forces are next.
fn point_seen(r: Run) -> usize
    requires { r.settings.n < r.phase }
    ensures { result ≡ r.phase - r.settings.n - 1 }
{
    let s = r.settings;
    r.phase - s.n - 1
}

// A row of the total or of the gradient, in an exact run.
fn row_unit(r: Run, positions: &[f64], affinities: &[f64], forces: &mut [f64])
    requires { RowRoom r (length positions.now) (length affinities.now) (length forces.old) }
    ensures { forces.new ≡ row_unit r positions.now affinities.now forces.old }
{
    let s = r.settings;
    let map = Map {
        positions,
        n: s.n,
        c: s.c,
    };
    if r.phase < s.n {
        gradient::rows::total_row(map, r.phase, forces);
        return;
    }
    gradient::rows::gradient_row(map, affinities, exaggeration(r), r.phase - s.n, forces);
}

// A point's forces, a row of the total or a row of the gradient.
pub(crate) fn force_unit(
    r: Run,
    positions: &[f64],
    affinities: &[f64],
    indices: &[u32],
    offsets: &[u32],
    cells: &[Cell],
    forces: &mut [f64],
) -> Run
    requires { ForceRoom r (length positions.now) (length affinities.now) (length forces.old) affinities.now indices.now offsets.now (nodes_of cells.now) }
    ensures { (result ≡ advanced_of r r.used)
        × (forces.new
        ≡ force_unit r
        positions.now
        affinities.now
        indices.now
        offsets.now
        (nodes_of cells.now)
        forces.old) }
{
    let tree = by_tree(r);
    if tree {
        let s = r.settings;
        let i = point_seen(r);
        let e = exaggeration(r);
        let map = Map {
            positions,
            n: s.n,
            c: s.c,
        };
        let lists = Lists {
            weights: affinities,
            indices,
            offsets,
        };
        point_forces(cells, r.used, map, lists, i, e, s.angle, forces);
        let t = advanced(r, r.used);
        return t;
    }
    row_unit(r, positions, affinities, forces);
    let t = advanced(r, r.used);
    t
}

// ---- the next unit

fn is_over(r: Run) -> bool
    ensures { result ≡ is_ended r.standing }
{
    let st = r.standing;
    is_ended(st)
}

// The next unit, whichever it is.
pub fn one_unit(
    r: Run,
    positions: &mut [f64],
    increments: &mut [f64],
    gains: &mut [f64],
    affinities: &[f64],
    indices: &[u32],
    offsets: &[u32],
    forces: &mut [f64],
    cells: &mut [Cell],
) -> Result<Run, Halt>
    requires { Workable (state r (memory positions.old increments.old gains.old affinities.now indices.now offsets.now forces.old cells.old)) }
    ensures { turned
        (state (run_left r result) (memory
        positions.new
        increments.new
        gains.new
        affinities.now
        indices.now
        offsets.now
        forces.new
        cells.new))
        (why_of result)
        ≡ unit (state r (memory
        positions.old
        increments.old
        gains.old
        affinities.now
        indices.now
        offsets.now
        forces.old
        cells.old)) }
{
    if is_over(r) {
        return Err(Halt::Over);
    }
    match next_group(r) {
        Group::Tree => tree_unit(r, positions, cells),
        Group::Forces => Ok(force_unit(r, positions, affinities, indices, offsets, cells, forces)),
        Group::Finish => finish_unit(r, positions, increments, gains, forces),
    }
}
