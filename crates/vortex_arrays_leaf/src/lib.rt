//! Typed arrays of booleans, of integers, of strings and bytes, and of one repeated value.
#![tactic(auto)]

pub mod bool_array;
mod check_views;
pub mod constant_array;
pub mod options;
pub mod primitive_array;
pub mod view_array;
