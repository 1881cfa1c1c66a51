//! Native integers as traits with their primitive types and little-endian bytes, macros that call a
//! function by a primitive type known only at run time, and traits of downcasts and upcasts.
#![tactic(auto)]

pub mod by_kind;
pub mod downcast;
pub mod little_endian;
pub mod native;
pub mod private;

pub use vortex_dtype_ptype::ptype;
