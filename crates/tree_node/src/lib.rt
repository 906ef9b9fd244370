// A node of the tree by value, and the cell in which it lies in memory.

#![tactic(auto)]

pub mod arena;
pub mod cells;

// A node of the tree, by value.
#[derive(Clone, Copy)]
pub struct Node {
    // the middle of the cell; components from c up are not looked at
    pub centre: [f64; 3],
    // half its width in each component
    pub half: [f64; 3],
    // the mean of the points in it
    pub mass: [f64; 3],
    // how many points are in it
    pub count: u32,
    // the number of its first child, or 0 where it has none
    pub first: u32,
    // what it holds while it has no children: the number of its point, the first that came
    pub leaf: Option<u32>,
}

// A node as it lies in memory: plain numbers, in this order, 88 bytes; every bit pattern is one.
#[repr(C)]
#[derive(Clone, Copy)]
pub struct Cell {
    // as those of `Node`
    pub centre: [f64; 3],
    pub half: [f64; 3],
    pub mass: [f64; 3],
    pub count: u32,
    pub first: u32,
    // 0 where it is empty, else the number of its point and one
    pub leaf: u32,
}
