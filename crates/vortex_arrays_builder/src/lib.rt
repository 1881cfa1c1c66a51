//! Arrays built of values, in plain layout or as constants, tests of which layouts fit a column,
//! and arrays of integers read from bytes.
#![tactic(auto)]

pub mod constant;
pub mod fits;
mod integers;
mod items;
pub mod laws;
pub mod leaves;
mod nested;
pub mod plain;
pub mod primitive_array_bytes;
pub mod rows;
pub mod strings;
