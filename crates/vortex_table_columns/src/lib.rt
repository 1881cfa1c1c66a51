//! Columns of leaves or of any type that grow cell by cell, and the arrays that they become.
#![tactic(auto)]

pub mod byte_string;
mod cells;
pub mod column;
mod fault;
mod inside;
pub mod nested;
pub mod numbers;
pub mod text;
mod views;

pub use fault::DoesNotFit;
