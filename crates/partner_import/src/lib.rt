// A Barnes-Hut run begun from a partner's list: the tests in their order, then lists and areas as a run begins, and its record.

#![tactic(auto)]

ghost use Rattle.std.specs.Prelude.{◌≡◌, true, ◌+◌, ◌*◌, ◌≤◌, length};
ghost use Rattle.laws.specs.Joined.{pasted};
ghost use Rattle.areas.specs.Filled.{filled};
ghost use Rattle.refusal.specs.Refusal.{refusal_number, number_told};
ghost use Rattle.run_record.specs.Record.{GoodSettings, sizes_of};
ghost use Rattle.partner.specs.Partner.{is_partner};
ghost use Rattle.partner_load.specs.Loaded.{indices_loaded, weights_loaded, offsets_loaded};
ghost use Rattle.partner_import.specs.Import.{loading, tree_settings, start_fine, import_fault, one_bits, import_outcome, judged_list, import_of, import_fault_number};
ghost use Rattle.partner_import.specs.declared.ImportFault.TheVariants.{Refused};

use areas::{copy_front, fill};
use elementary::in_domain;
use elementary::words::value_of;
use partner::{first_bad_link, given_links};
use partner_load::{load_links, load_offsets};
use refusal::{Numbered, Refusal};
use run_entry::{Lengths, areas_fit};
use run_record::faults::{settings_fault, sizes_of, times};
use run_record::progress::fresh_run;
use run_record::{Method, Run, Settings, Sizes};

// Why no run is begun.
#[derive(Clone, Copy, Debug, PartialEq, Eq)]
pub enum ImportFault {
    // 1 to 7 and 9 to 12: the first test that failed
    Refused(Refusal),
    // 19: the first record at which a rule fails
    BadRecord(usize),
}

impl From<Refusal> for ImportFault {
    ghost from_gives = { λ r e. e ≡ Refused r };

    fn from(r: Refusal) -> ImportFault {
        ImportFault::Refused(r)
    }
}

impl Numbered for ImportFault {
    ghost number_of = { import_fault_number };

    fn number(self) -> u8 {
        match self {
            ImportFault::Refused(r) => r.number(),
            ImportFault::BadRecord(_) => 19,
        }
    }
}

// The lengths of the areas that are lent, and the nodes of the arena.
#[derive(Clone, Copy)]
pub struct LentLengths {
    pub positions: usize,
    pub increments: usize,
    pub gains: usize,
    pub affinities: usize,
    pub indices: usize,
    pub offsets: usize,
    pub forces: usize,
    pub nodes: usize,
}

// The same settings for a Barnes-Hut run.
pub fn tree_settings(s: Settings) -> Settings
    ensures { result ≡ tree_settings s }
{
    Settings {
        n: s.n,
        f: s.f,
        c: s.c,
        perplexity: s.perplexity,
        rate: s.rate,
        iterations: s.iterations,
        minimum: s.minimum,
        angle: s.angle,
        method: Method::BarnesHut,
    }
}

// Whether the first m values are in the domain.
fn start_fine(start: &[u64], m: usize) -> bool
    requires { m ≤ length start.now }
    ensures { result ≡ start_fine start.now m }
{
    for i in 0..m {
        if !in_domain(value_of(start[i])) {
            return false;
        }
    }
    true
}

// The first test that fails, 1 to 12.
pub fn import_fault(s: Settings, start: &[u64], l: LentLengths) -> Result<(), Refusal>
    ensures { number_told refusal_number result ≡ import_fault s start.now l }
{
    settings_fault(s)?;
    let m = times(s.n, s.c);
    if start.len() != m || !start_fine(start, m) {
        return Err(Refusal::Start);
    }
    let areas = Lengths {
        positions: l.positions,
        increments: l.increments,
        gains: l.gains,
        affinities: l.affinities,
        forces: l.forces,
    };
    if !areas_fit(s, areas, l.indices, l.offsets, l.nodes) {
        return Err(Refusal::Short);
    }
    Ok(())
}

// Positions, increments, gains and forces as a run begins.
fn set_out_words(
    z: Sizes,
    start: &[u64],
    positions: &mut [u64],
    increments: &mut [u64],
    gains: &mut [u64],
    forces: &mut [u64],
)
    requires { (z.cells ≤ length start.now) × (z.cells ≤ length positions.old) × (z.cells ≤ length increments.old) × (z.cells ≤ length gains.old) × (z.forces ≤ length forces.old) }
    ensures { (positions.new ≡ pasted start.now 0 z.cells positions.old)
        × (increments.new ≡ filled 0 z.cells increments.old)
        × (gains.new ≡ filled one_bits z.cells gains.old)
        × (forces.new ≡ filled 0 z.forces forces.old) }
{
    copy_front(positions, start, 0, z.cells);
    fill(increments, z.cells, 0);
    fill(gains, z.cells, 1f64.to_bits());
    fill(forces, z.forces, 0);
}

// The lists as an accepted file has them.
fn load_lists(
    file: &[u8],
    s: Settings,
    affinities: &mut [u64],
    indices: &mut [u32],
    offsets: &mut [u32],
)
    requires { GoodSettings s × (is_partner s.n (sizes_of s).links file.now ≡ true) × ((sizes_of s).links ≤ length affinities.old) × ((sizes_of s).links ≤ length indices.old) × (s.n + 1 ≤ length offsets.old) }
    ensures { (affinities.new ≡ weights_loaded file.now affinities.old)
        × (indices.new ≡ indices_loaded file.now indices.old)
        × (offsets.new ≡ offsets_loaded file.now s.n offsets.old) }
{
    load_links(file, indices, affinities);
    load_offsets(file, s.n, offsets);
}

// Begins a run from a partner's list: takes any settings, any file and any areas. Of the arena it asks only how many nodes it has.
pub fn import(
    s: Settings,
    start: &[u64],
    file: &[u8],
    positions: &mut [u64],
    increments: &mut [u64],
    gains: &mut [u64],
    affinities: &mut [u64],
    indices: &mut [u32],
    offsets: &mut [u32],
    forces: &mut [u64],
    nodes: usize,
) -> Result<Run, ImportFault>
    ensures { import_outcome result (loading
        positions.new
        increments.new
        gains.new
        affinities.new
        indices.new
        offsets.new
        forces.new)
        ≡ import_of s
        start.now
        file.now
        nodes
        (loading
        positions.old
        increments.old
        gains.old
        affinities.old
        indices.old
        offsets.old
        forces.old) }
{
    let t = tree_settings(s);
    let l = LentLengths {
        positions: positions.len(),
        increments: increments.len(),
        gains: gains.len(),
        affinities: affinities.len(),
        indices: indices.len(),
        offsets: offsets.len(),
        forces: forces.len(),
        nodes,
    };
    import_fault(t, start, l)?;
    let z = sizes_of(t);
    let b = first_bad_link(file, t.n, z.links);
    if b != given_links(file) {
        return Err(ImportFault::BadRecord(b));
    }
    load_lists(file, t, affinities, indices, offsets);
    set_out_words(z, start, positions, increments, gains, forces);
    Ok(fresh_run(t))
}
