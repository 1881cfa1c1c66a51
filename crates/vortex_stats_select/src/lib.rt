//! The rows at which a predicate has a wanted truth, found by whole columns.
#![tactic(auto)]

mod asked;
pub mod columns;
mod compare;
pub mod leaf;
pub mod leaves;
mod like;
mod matches;
mod narrow;
mod nulls;
mod operand;
pub mod select;
mod spread;
mod validity;
