//! Predicates and proofs bound to a type, and their values.
#![tactic(auto)]

pub mod bind;
pub mod bound;
pub mod clone;
pub mod laws;
pub mod make;
pub mod stats;
pub mod types;
pub mod value;
