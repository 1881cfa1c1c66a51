//! The zero and the default value of a type, and the test for zero.
pub mod defaults;
pub mod is_zero;
pub mod laws;
mod zero;
