// Frames near each other: the k nearest of a frame by their distances, and their order by index.

#![tactic(auto)]

pub mod neighbours;
