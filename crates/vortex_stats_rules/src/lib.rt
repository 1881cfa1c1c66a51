//! Proofs over statistics, as they are made of predicates: by the built-in rules and by rules of
//! callers.
#![tactic(auto)]

mod answers;
mod joined;
pub mod laws;
mod like_variant;
pub mod meter;
pub mod negation;
pub mod null_comparison;
pub mod push_not;
pub mod rewrite;
pub mod rule;
mod stats;
