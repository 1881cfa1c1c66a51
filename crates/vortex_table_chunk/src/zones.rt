//! Statistics of one leaf column in the rows of a chunk.
pub(crate) mod carried;
pub mod join;
