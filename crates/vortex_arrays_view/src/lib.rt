//! Views of strings and bytes in sixteen bytes, views of many values over the fewest buffers, and
//! the errors of arrays.
#![tactic(auto)]

pub mod build;
pub mod error;
pub mod inlined;
pub mod laws;
pub mod lengths;
pub mod order;
pub mod reference;
pub mod shared;
pub mod view;

pub use error::ArrayError;
pub use view::BinaryView;
