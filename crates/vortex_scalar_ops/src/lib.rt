//! Operations on values without a type: validity for a type, casts, order, equality and hash, their
//! laws, and native values as values of a column.
#![tactic(auto)]

pub mod cast;
pub mod compare;
pub mod eq;
pub mod hash;
mod identity;
pub mod laws;
mod leaves;
mod lists;
pub mod native_row;
pub mod native_value;
mod tagged;
pub mod validate;
