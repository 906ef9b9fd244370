// exp and ln as the scope paper and request 2026-05 fix them, and the small tests on numbers that every layer above needs.

#![tactic(auto)]

pub mod exponential;
pub mod limits;
pub mod logarithm;
pub mod words;

pub use exponential::exp;
pub use limits::{absolute, in_domain, is_calm, neighbours, unless_above};
pub use logarithm::ln;
pub use words::{bits_of, value_of};
