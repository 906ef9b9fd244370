// The work call with the record and the arena by value: it lends both from locals.
ghost use Rattle.std.specs.Prelude.{◌≡◌, ◌≤◌, take};
ghost use Rattle.run_entry.specs.State.{memory, state};
ghost use Rattle.run_budget.specs.Budget.{worked};
ghost use Rattle.descent.specs.Descent.{work};
ghost use Rattle.replay_arena.specs.Fronts.{behind};
ghost use Rattle.replay_descent.specs.Lending.{left_of};

use crate::Left;
use descent::Answer;
use run_record::Run;
use tree_node::Cell;

pub(crate) fn left_of(run: Run, answer: Answer, cells: [Cell; 512]) -> Left
    ensures { result ≡ left_of run answer cells }
{
    Left { run, answer, cells }
}

// A call that is lent the first k cells; those behind them stay.
pub(crate) fn work_lent(
    r: Run,
    positions: &mut [f64],
    increments: &mut [f64],
    gains: &mut [f64],
    affinities: &[f64],
    indices: &[u32],
    offsets: &[u32],
    forces: &mut [f64],
    cells: [Cell; 512],
    k: usize,
    budget: u32,
) -> Left
    requires { k ≤ 512 }
    ensures { (worked result.answer (state result.run (memory
        positions.new
        increments.new
        gains.new
        affinities.now
        indices.now
        offsets.now
        forces.new
        (take k result.cells)))
        ≡ work budget (state r (memory
        positions.old
        increments.old
        gains.old
        affinities.now
        indices.now
        offsets.now
        forces.old
        (take k cells))))
        × (behind k result.cells ≡ behind k cells) }
{
    let mut run = r;
    let mut own = cells;
    let a = descent::work(
        &mut run,
        positions,
        increments,
        gains,
        affinities,
        indices,
        offsets,
        forces,
        &mut own[..k],
        budget,
    );
    let l = left_of(run, a, own);
    l
}
