//! Paths into types by field names and list elements: their steps, sets of paths, masks, the types
//! at paths, and laws of all of these.
#![tactic(auto)]

pub mod field;
pub mod laws;
pub mod mask;
pub mod path;
pub mod path_set;
mod path_tree;
pub mod resolve;
