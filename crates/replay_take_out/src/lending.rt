// The call with the record and the arena by value: it lends both from locals.
ghost use Rattle.std.specs.Prelude.{◌≡◌, ◌≤◌, take};
ghost use Rattle.tree_node.specs.Arena.{nodes_of};
ghost use Rattle.take_out.specs.TakeOut.{holdings, took_out, take_out};

use run_record::Run;
use take_out::TakeFault;
use tree_node::Cell;

// An answer with the record afterwards.
#[derive(Clone, Copy)]
pub(crate) struct Took {
    pub(crate) answer: Result<usize, TakeFault>,
    pub(crate) run: Run,
}

// The call that is lent the first k cells.
pub(crate) fn take_lent(
    r: Run,
    positions: &mut [f64],
    increments: &mut [u64],
    gains: &mut [u64],
    affinities: &mut [u64],
    indices: &mut [u32],
    offsets: &mut [u32],
    forces: &mut [f64],
    cells: [Cell; 4],
    k: usize,
    table: &mut [u64],
    gone: &[u32],
    old: &mut [u32],
) -> Took
    requires { k ≤ 4 }
    ensures { took_out result.answer result.run
        (holdings positions.new increments.new gains.new affinities.new indices.new offsets.new forces.new table.new old.new)
        ≡ take_out gone.now r
        (holdings positions.old increments.old gains.old affinities.old indices.old offsets.old forces.old table.old old.old)
        (nodes_of (take k cells)) }
{
    let mut run = r;
    let own = cells;
    let answer = take_out::take_out(
        &mut run,
        positions,
        increments,
        gains,
        affinities,
        indices,
        offsets,
        forces,
        &own[..k],
        table,
        gone,
        old,
    );
    Took { answer, run }
}
