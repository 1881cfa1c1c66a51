//! Dictionaries built of values or encoded from arrays, columns of equal rows, integers as native
//! buffers, in the narrowest type and reinterpreted, and booleans as masks.
#![tactic(auto)]

pub mod bool_array_ext;
pub mod build;
mod byte_key;
mod cast;
mod codes;
pub mod constant;
pub mod encode;
mod extremes;
mod firsts;
mod keyed;
mod narrow;
pub mod native_buffer;
mod number;
mod places;
pub mod primitive_array_ext;
mod reinterpret;
mod values;
