// Affinities between the frames of a table, by both routes, on lent areas: the exact matrix and the Barnes-Hut lists.

#![tactic(auto)]

pub mod exact;
pub mod neighbours;
