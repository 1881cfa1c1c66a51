//! Typed views of scalars with parts: of lists, structs, maps and extensions, with their parts,
//! equality, hash and order, and views of any scalar by its type.
#![tactic(auto)]

pub mod cmp;
pub mod conversions;
pub mod copies;
pub mod ext_scalar;
pub mod list_scalar;
pub mod map_scalar;
pub mod nested_views;
pub mod ordering;
pub mod struct_scalar;
