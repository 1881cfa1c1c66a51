//! Type messages and the types that they describe: reading, writing, sessions of extension plugins,
//! extension types with a vtable, and laws of reading and writing.
#![tactic(auto)]

pub mod ext_dtype;
pub mod ext_dtype_ref_ext;
pub mod foreign;
pub mod laws;
pub mod message;
mod nodes;
pub mod plugin;
pub mod read;
pub mod session;
pub mod shape_test;
pub mod vtable;
pub mod write;
