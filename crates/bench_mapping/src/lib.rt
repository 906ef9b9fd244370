// The bench's map: from the bytes of a frame file to an answer and positions. The limit of bytes comes first, then the records,
// then preparation with the bench's settings, then one work call that no run outlasts.

#![tactic(auto)]

ghost use Rattle.std.specs.Prelude.{◌≡◌, ◌≤◌, length, replicate};
ghost use Rattle.tree_node.specs.Arena.{void};
ghost use Rattle.run_entry.specs.State.{memory, state};
ghost use Rattle.descent.specs.Descent.{work};
ghost use Rattle.bench_mapping.specs.Mapping.{bench_frames, bench_settings, bench_table, bench_start, descended, mapped, map_of, map_fault_number, map_number};

use descent::Answer;
use frames::{RECORD_BYTES, frame_at, read_frames};
use laws::MOST_BUDGET;
use refusal::{Numbered, Refusal};
use run_record::{Method, Run, Settings};
use tree_node::Cell;

// The most frames that the bench takes.
pub const BENCH_FRAMES: usize = 64;

// Their bytes.
const BENCH_BYTES: usize = BENCH_FRAMES * RECORD_BYTES;

// Why a file has no map.
#[derive(Clone, Copy, Debug, PartialEq, Eq)]
pub enum MapFault {
    // 7: more bytes than the bench takes
    Long,
    // 16: the place of the first bad record, from 0
    Record(usize),
    // what preparation refused by
    Refused(Refusal),
}

impl Numbered for MapFault {
    ghost number_of = { map_fault_number };

    fn number(self) -> u8 {
        match self {
            MapFault::Long => 7,
            MapFault::Record(_) => 16,
            MapFault::Refused(e) => e.number(),
        }
    }
}

// What the work call answered, and the positions afterwards: two for each frame, then zeros.
#[derive(Clone, Copy)]
pub struct Mapped {
    pub told: Result<Answer, MapFault>,
    pub positions: [f64; 128],
}

// The bench's settings for n frames.
fn settings(n: usize) -> Settings
    ensures { result ≡ bench_settings n }
{
    Settings {
        n: n,
        f: 6,
        c: 2,
        perplexity: 1.0,
        rate: 5.0,
        iterations: 1,
        minimum: 0.0,
        angle: 0.0,
        method: Method::BarnesHut,
    }
}

// The features of the frames, row by row: m values.
fn table_of(file: &[u8], m: usize) -> [f64; 384]
    requires { m ≤ 384 }
    ensures value { 384 ≡ length result }
    ensures value_2 { result ≡ bench_table file.now m }
{
    let mut table = [0.0; 384];
    for k in 0..m {
        let f = frame_at(file, k / 6);
        table[k] = f.features[k % 6];
    }
    table
}

// The start positions of the frames, row by row: m values.
fn start_of(file: &[u8], m: usize) -> [f64; 128]
    requires { m ≤ 128 }
    ensures value { 128 ≡ length result }
    ensures value_2 { result ≡ bench_start file.now m }
{
    let mut start = [0.0; 128];
    for k in 0..m {
        let f = frame_at(file, k / 2);
        start[k] = f.starts[k % 2];
    }
    start
}

// The cells of an arena that nothing has been laid into.
fn zero_cells() -> [Cell; 256]
    ensures { result ≡ replicate 256 void }
{
    let none = [0.0, 0.0, 0.0];
    let v = Cell {
        centre: none,
        half: none,
        mass: none,
        count: 0,
        first: 0,
        leaf: 0,
    };
    [v; 256]
}

// The work call, with the record and the arena by value; neither is looked at afterwards.
fn work_on(
    r: Run,
    positions: &mut [f64],
    increments: &mut [f64],
    gains: &mut [f64],
    affinities: &[f64],
    indices: &[u32],
    offsets: &[u32],
    forces: &mut [f64],
    cells: [Cell; 256],
    budget: u32,
) -> Answer
    ensures { (result
        ≡ (work budget (state r (memory
        positions.old
        increments.old
        gains.old
        affinities.now
        indices.now
        offsets.now
        forces.old
        cells))).answer)
        × (positions.new
        ≡ (work budget (state r (memory
        positions.old
        increments.old
        gains.old
        affinities.now
        indices.now
        offsets.now
        forces.old
        cells))).left.memory.positions) }
{
    let mut run = r;
    let mut own = cells;
    let a = descent::work(
        &mut run, positions, increments, gains, affinities, indices, offsets, forces, &mut own,
        budget,
    );
    a
}

// Preparation on areas of zeros, then the work call; 256 nodes.
fn descend(s: Settings, table: &[f64], start: &[f64]) -> Mapped
    ensures { result ≡ descended s table.now start.now }
{
    let mut positions = [0.0; 128];
    let mut increments = [0.0; 128];
    let mut gains = [0.0; 128];
    let mut affinities = [0.0; 512];
    let mut indices = [0u32; 512];
    let mut offsets = [0u32; 65];
    let mut forces = [0.0; 320];
    let mut row_values = [0.0; 64];
    let mut row_indices = [0u32; 64];
    let cells = zero_cells();
    let p = prepare::prepare(
        s,
        table,
        start,
        &mut positions,
        &mut increments,
        &mut gains,
        &mut affinities,
        &mut indices,
        &mut offsets,
        &mut forces,
        &mut row_values,
        &mut row_indices,
        256,
    );
    match p {
        Err(e) => Mapped {
            told: Err(MapFault::Refused(e)),
            positions,
        },
        Ok(run) => {
            let answer = work_on(
                run,
                &mut positions,
                &mut increments,
                &mut gains,
                &affinities,
                &indices,
                &offsets,
                &mut forces,
                cells,
                MOST_BUDGET,
            );
            Mapped {
                told: Ok(answer),
                positions,
            }
        }
    }
}

// The map of n frames, all good.
fn map_frames(file: &[u8], n: usize) -> Mapped
    requires { n ≤ bench_frames }
    ensures { result ≡ mapped file.now n }
{
    let table = table_of(file, n * 6);
    let start = start_of(file, n * 2);
    let s = settings(n);
    descend(s, &table[..n * 6], &start[..n * 2])
}

// The map of a frame file: takes any bytes.
pub fn map_file(file: &[u8]) -> Mapped
    ensures { result ≡ map_of file.now }
{
    if file.len() > BENCH_BYTES {
        return Mapped {
            told: Err(MapFault::Long),
            positions: [0.0; 128],
        };
    }
    match read_frames(file) {
        Err(bad) => Mapped {
            told: Err(MapFault::Record(bad.place)),
            positions: [0.0; 128],
        },
        Ok(n) => map_frames(file, n),
    }
}

// ---- the number of an answer

// The number that the file is refused by; 0: it has a map.
pub fn number(t: Result<Answer, MapFault>) -> u8
    ensures { result ≡ map_number t }
{
    match t {
        Err(e) => e.number(),
        Ok(a) => descent::number(a),
    }
}
