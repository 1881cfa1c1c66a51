//! Values with their type: `Scalar` with its constructors, tests, cast, equality, hash and order,
//! reinterpreted integers, and conversions from and to native values.
#![tactic(auto)]

pub mod compare;
pub mod from_native;
pub mod into_native;
pub mod methods;
mod reading;
pub mod reinterpret;
pub mod scalar;
