// Whether a file is a parked run: every record stands, or one is the first that does not.

#![tactic(auto)]

pub mod head;
pub mod records;

// What is said of a file.
#[derive(Clone, Copy)]
pub struct Verdict {
    // every record stands, and no byte follows
    pub parked: bool,
    // the first bad record; where there is none, the number of records
    pub at: usize,
}
