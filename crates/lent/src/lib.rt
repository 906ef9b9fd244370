// No code: it held how slices of structs, and structs, are lent on from one function to another, as rules for proofs by hand.
// The borrow checker of the kit follows such code by itself today.

#![tactic(auto)]
