//! Calls on types and their parts: fields by name, structs made from others, union variants by name
//! and tag, entries of maps, element sizes, and the logical types of native values.
#![tactic(auto)]

pub mod dtype_ext;
pub mod field_dtype;
mod hash;
pub mod laws;
pub mod map_dtype_ext;
pub mod native_dtype;
pub mod struct_fields_ext;
pub mod union_variants_ext;
pub mod variants_iter;
mod widths;
