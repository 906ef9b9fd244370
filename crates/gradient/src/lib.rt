// What moves the dots: a point's forces and the exact gradient's rows, as the units of the descent need them, and one element of the gradient.

#![tactic(auto)]

pub mod element;
pub mod forces;
mod pulls;
pub mod rows;
