//! Values without a type: `ScalarValue` with its integers, union and variant values, their parts,
//! clones, equality and order of integers, little-endian bytes, and the error type of calls on
//! scalars.
#![tactic(auto)]

pub mod bits;
pub mod clone;
pub mod cmp;
pub mod error;
mod from_numbers;
mod from_values;
pub mod natives;
pub mod parts;
pub mod pvalue;
pub mod scalar_value;
pub mod union_value;
pub mod variant_value;
