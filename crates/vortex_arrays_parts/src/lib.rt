//! The child arrays of typed arrays, borrowed and owned, the validity of any array, further calls
//! of the typed arrays, and arrays of strings and bytes from iterators.
#![tactic(auto)]

pub mod array_ref_ext;
mod build;
mod check;
pub mod constant_array_ext;
pub mod data;
pub mod dict_array_ext;
pub mod fixed_size_list_array_ext;
mod lend;
mod of_items;
pub mod slots;
pub mod struct_array_ext;
pub mod var_bin_view_array_ext;
pub mod var_bin_view_array_iter;
