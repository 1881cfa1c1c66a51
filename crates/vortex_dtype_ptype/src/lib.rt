//! The parts of types: primitive types, nullability, decimal types, field names with their
//! iterators, and the error type of calls on types.
#![tactic(auto)]

pub mod decimal;
pub mod error;
pub mod field_names;
pub mod field_names_iter;
pub mod nullability;
pub mod ptype;
