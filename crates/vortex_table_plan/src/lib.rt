//! The preparation of scans: the predicate judged against a table's type and bound, the proofs and
//! the cut; and descriptions of columns, from their statistics.
#![tactic(auto)]

pub mod bind;
pub mod describe;
pub mod make;
pub mod plan;
mod rules;
