// What one frame does to another: the pull of a link, and both frames' part in the exact gradient.

#![tactic(auto)]

pub mod exact;
pub mod links;

// The sum of a gradient row's weights, and their sum along each component.
#[derive(Clone, Copy)]
pub struct Pulls {
    pub sum: f64,
    pub along: [f64; 8],
}
