//! Iterators over the parts of scalars: list elements, map entries, keys and values, and struct
//! fields; and structs cast and projected.
#![tactic(auto)]

pub mod list_elements_iter;
pub mod list_scalar_ext;
pub mod map_entries_iter;
pub mod map_keys_iter;
pub mod map_scalar_ext;
pub mod map_values_iter;
mod projection;
pub mod struct_fields_iter;
pub mod struct_scalar_ext;
pub mod union_scalar_ext;
