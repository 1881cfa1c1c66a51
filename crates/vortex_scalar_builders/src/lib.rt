//! Constructors of scalars, of leaves and of nested values from their parts, and bounds of strings
//! and bytes shortened to a given length, with their laws.
#![tactic(auto)]

pub mod byte_bounds;
pub mod characters;
pub mod constructors;
mod extensions;
pub mod laws;
mod leaves;
mod lists;
pub mod nested;
pub mod private;
pub mod raising;
pub mod string_like;
pub mod text_bounds;
pub mod truncation;
