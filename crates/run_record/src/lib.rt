// A run's settings and its record, by value: the tests 1 to 10 on settings, the counters, and what a unit does to the record.

#![tactic(auto)]

pub mod counters;
pub mod faults;
pub mod progress;

// Which gradient the run goes by.
#[derive(Clone, Copy, Debug, PartialEq, Eq)]
pub enum Method {
    Exact,
    BarnesHut,
}

// How a run stands.
#[derive(Clone, Copy, Debug, PartialEq, Eq)]
pub enum Standing {
    Running,
    // the norm was below the minimum
    Stopped,
    // all iterations are done
    Finished,
}

#[derive(Clone, Copy)]
pub struct Settings {
    // samples, the frames on the map
    pub n: usize,
    // features of a frame
    pub f: usize,
    // components of the map
    pub c: usize,
    pub perplexity: f64,
    // the learning rate
    pub rate: f64,
    pub iterations: usize,
    // the gradient norm below which a run stops; NaN, zero or negative never stops one
    pub minimum: f64,
    // the Barnes-Hut angle; not looked at in an exact run
    pub angle: f64,
    pub method: Method,
}

// The run record.
#[derive(Clone, Copy)]
pub struct Run {
    pub settings: Settings,
    pub standing: Standing,
    // iterations done
    pub done: usize,
    // units done in the current iteration
    pub phase: usize,
    // units done in all
    pub units: usize,
    // nodes in use
    pub used: usize,
}

// How many elements the areas must have.
#[derive(Clone, Copy)]
pub struct Sizes {
    // positions, increments, gains
    pub cells: usize,
    pub forces: usize,
    // weights and indices of the Barnes-Hut lists
    pub links: usize,
    // the exact affinities
    pub square: usize,
}
