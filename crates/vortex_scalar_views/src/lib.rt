//! Typed views of scalars: of booleans, integers, strings, bytes, unions and `Variant` values, with
//! their equality, hash and order, and checked arithmetic of integers.
#![tactic(auto)]

pub mod arithmetic;
pub mod binary_scalar;
pub mod bool_scalar;
pub mod cmp;
pub mod conversions;
pub mod copies;
pub mod hashing;
pub mod numeric_operator;
pub mod ordering;
pub mod primitive_scalar;
pub mod scalar_views;
pub mod union_cmp;
pub mod union_conversions;
pub mod union_scalar;
pub mod utf8_scalar;
pub mod variant_scalar;
