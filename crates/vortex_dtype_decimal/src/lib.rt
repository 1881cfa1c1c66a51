//! The integer types that store decimals, the native integers of these types, and the precisions
//! and scales that a native integer holds.
#![tactic(auto)]

pub mod decimal_type;
pub mod native;
pub mod precision_scale;
