//! Truths of bound expressions at the rows of a `Scope` and over its statistics, statistics and
//! placeholders read with their types, and laws for readers that bind proofs to statistics.
#![tactic(auto)]

pub mod bound;
pub mod column;
pub mod evaluate;
pub mod laws;
pub mod markers;
pub mod provider;
pub mod provider_ext;
mod reading;
pub mod rows;
pub mod scope;
pub mod stat_fn;
pub mod stat_scalar;
pub mod stats_set_ext;
mod truths;
