//! Conversions of scalars: native values read from scalars, scalars of extension types, zeros and
//! defaults of types, and laws of casts and of the order.
#![tactic(auto)]

pub mod casts;
pub mod defaults;
pub mod ext_dtype_scalar_ext;
pub mod from_scalar;
pub mod laws;
mod leaves;
mod lists;
