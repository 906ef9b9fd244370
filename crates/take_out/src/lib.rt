// Takes frames out of a run: the tests first, then every area is packed in place.

#![tactic(auto)]

ghost use Rattle.std.specs.Prelude.{◌≡◌, true, ◌*◌, length};
ghost use Rattle.laws.specs.Area.{zero64};
ghost use Rattle.tree_node.specs.Arena.{nodes_of};
ghost use Rattle.run_entry.specs.Entry.{is_fine};
ghost use Rattle.take_gone.specs.Gone.{survivors};
ghost use Rattle.take_rows.specs.Rows.{shrunk, kept_rows, centred_rows};
ghost use Rattle.take_out.specs.declared.TakeFault.TheVariants.{Denied, Bad};
ghost use Rattle.take_out.specs.TakeOut.{holdings, lent_positions, affinities_after, indices_after, offsets_after, packed_areas, took_out, take_tested, take_out, take_fault_number, TakeRoom, ValuesRoom, LinksRoom, PackRoom};

use areas::fill;
use refusal::Numbered;
use run_entry::{Fault, Lengths, fault_at};
use run_record::faults::{is_tree, settings_fault, times};
use run_record::{Run, Settings};
use take_calm::means_left;
use take_gone::put_survivors;
use take_left::{Denial, look_ahead, thinned_run};
use take_lists::pack_lists;
use take_rows::{pack_centred, pack_rows, pack_square};
use tree_node::Cell;

// Why nothing is taken out.
#[derive(Clone, Copy, Debug, PartialEq, Eq)]
pub enum TakeFault {
    // what the tests of what would be left say
    Denied(Denial),
    // what the entry tests found
    Bad(Fault),
}

impl Numbered for TakeFault {
    ghost number_of = { take_fault_number };

    fn number(self) -> u8 {
        match self {
            TakeFault::Denied(d) => d.number(),
            TakeFault::Bad(f) => f.number(),
        }
    }
}

impl From<Denial> for TakeFault {
    ghost from_gives = { λ d e. e ≡ Denied d };

    fn from(d: Denial) -> TakeFault {
        TakeFault::Denied(d)
    }
}

impl From<Fault> for TakeFault {
    ghost from_gives = { λ f e. e ≡ Bad f };

    fn from(f: Fault) -> TakeFault {
        TakeFault::Bad(f)
    }
}

// How many positions count as lent: none where the table is below n·f or fewer than n old places are lent.
fn lent_positions(s: Settings, p: usize, t: usize, q: usize) -> usize
    ensures { result ≡ lent_positions s p t q }
{
    if settings_fault(s).is_err() {
        return p;
    }
    if t < times(s.n, s.f) {
        return 0;
    }
    if q < s.n {
        return 0;
    }
    p
}

// Positions, increments, gains and table: the rows of the frames in `keep`.
fn pack_values(
    s: Settings,
    gone: &[u32],
    keep: &[u32],
    positions: &mut [f64],
    increments: &mut [u64],
    gains: &mut [u64],
    table: &mut [u64],
)
    requires { ValuesRoom s gone.now keep.now (length positions.old) (length increments.old) (length gains.old) (length table.old) }
    ensures { (positions.new ≡ shrunk zero64 (s.n * s.c) (centred_rows keep.now s.c positions.old) positions.old)
        × (increments.new ≡ shrunk 0 (s.n * s.c) (kept_rows keep.now s.c increments.old) increments.old)
        × (gains.new ≡ shrunk 0 (s.n * s.c) (kept_rows keep.now s.c gains.old) gains.old)
        × (table.new ≡ shrunk 0 (s.n * s.f) (kept_rows keep.now s.f table.old) table.old) }
{
    let mut means = [0.0; 8];
    means_left(positions, gone, s.n, s.c, keep.len(), &mut means);
    pack_centred(positions, s.n, s.c, keep, &means);
    pack_rows(increments, s.n, s.c, keep);
    pack_rows(gains, s.n, s.c, keep);
    pack_rows(table, s.n, s.f, keep);
}

// The lists of a Barnes-Hut run, the matrix of an exact one.
fn pack_affinities(
    s: Settings,
    keep: &[u32],
    affinities: &mut [u64],
    indices: &mut [u32],
    offsets: &mut [u32],
)
    requires { LinksRoom s keep.now (length affinities.old) (length indices.old) offsets.old }
    ensures { (affinities.new ≡ affinities_after s keep.now affinities.old indices.old offsets.old)
        × (indices.new ≡ indices_after s keep.now indices.old offsets.old)
        × (offsets.new ≡ offsets_after s keep.now indices.old offsets.old) }
{
    let m = s.method;
    if is_tree(m) {
        pack_lists(affinities, indices, offsets, s.n, keep);
        return;
    }
    pack_square(affinities, s.n, keep);
}

// Packs every area.
fn pack_run(
    s: Settings,
    gone: &[u32],
    positions: &mut [f64],
    increments: &mut [u64],
    gains: &mut [u64],
    affinities: &mut [u64],
    indices: &mut [u32],
    offsets: &mut [u32],
    forces: &mut [f64],
    table: &mut [u64],
    old: &mut [u32],
)
    requires { PackRoom s gone.now (holdings positions.old increments.old gains.old affinities.old indices.old offsets.old forces.old table.old old.old) }
    ensures { holdings positions.new increments.new gains.new affinities.new indices.new offsets.new forces.new table.new old.new
        ≡ packed_areas s (survivors gone.now s.n) (holdings positions.old increments.old gains.old affinities.old indices.old offsets.old forces.old table.old old.old) }
{
    let m = put_survivors(gone, s.n, old);
    pack_values(s, gone, &old[..m], positions, increments, gains, table);
    pack_affinities(s, &old[..m], affinities, indices, offsets);
    fill(forces, times(s.n, 2 * s.c + 1), 0.0);
}

// Once the entry tests have found f: refuses, or takes the frames out.
fn take_tested(
    f: Result<(), Fault>,
    run: &mut Run,
    gone: &[u32],
    positions: &mut [f64],
    increments: &mut [u64],
    gains: &mut [u64],
    affinities: &mut [u64],
    indices: &mut [u32],
    offsets: &mut [u32],
    forces: &mut [f64],
    table: &mut [u64],
    old: &mut [u32],
) -> Result<usize, TakeFault>
    requires { is_fine f ≡ true → TakeRoom run.old (holdings positions.old increments.old gains.old affinities.old indices.old offsets.old forces.old table.old old.old) }
    ensures { took_out result run.new (holdings positions.new increments.new gains.new affinities.new indices.new offsets.new forces.new table.new old.new)
        ≡ take_tested f run.old gone.now (holdings positions.old increments.old gains.old affinities.old indices.old offsets.old forces.old table.old old.old) }
{
    f?;
    let r = *run;
    let left = look_ahead(r, gone, positions, indices, offsets)?;
    *run = thinned_run(r, left);
    pack_run(
        r.settings, gone, positions, increments, gains, affinities, indices, offsets, forces,
        table, old,
    );
    Ok(left)
}

// The samples in `gone` taken out of a run, with any record, list and areas. Values that are only moved are lent as words, by their bits. The nodes are only looked at.
pub fn take_out(
    run: &mut Run,
    positions: &mut [f64],
    increments: &mut [u64],
    gains: &mut [u64],
    affinities: &mut [u64],
    indices: &mut [u32],
    offsets: &mut [u32],
    forces: &mut [f64],
    cells: &[Cell],
    table: &mut [u64],
    gone: &[u32],
    old: &mut [u32],
) -> Result<usize, TakeFault>
    ensures { took_out result run.new (holdings positions.new increments.new gains.new affinities.new indices.new offsets.new forces.new table.new old.new)
        ≡ take_out gone.now run.old (holdings positions.old increments.old gains.old affinities.old indices.old offsets.old forces.old table.old old.old) (nodes_of cells.now) }
{
    let r = *run;
    let s = r.settings;
    let lent = lent_positions(s, positions.len(), table.len(), old.len());
    let l = Lengths {
        positions: lent,
        increments: increments.len(),
        gains: gains.len(),
        affinities: affinities.len(),
        forces: forces.len(),
    };
    let f = fault_at(r, l, indices, offsets, cells);
    take_tested(
        f, run, gone, positions, increments, gains, affinities, indices, offsets, forces, table,
        old,
    )
}
