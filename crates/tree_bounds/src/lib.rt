// The box: the root's cell over all points.

#![tactic(auto)]

pub mod root;

pub use root::bounding_box;

// The lowest and the highest coordinate met in one component.
#[derive(Clone, Copy)]
pub struct Span {
    pub low: f64,
    pub high: f64,
}
