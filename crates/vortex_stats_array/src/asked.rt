//! The column that statistics are computed of.

use std::alloc::Global;
use vortex_dtype_core::dtype::DType;

/// The column that statistics are computed of: its type, its number of rows, the most bytes of its
/// bounds if they are strings or bytes, and the allocator for these.
#[derive(Clone, Copy)]
pub(crate) struct Asked<'a> {
    pub(crate) dtype: &'a DType,
    pub(crate) row_count: usize,
    pub(crate) max_length: usize,
    pub(crate) alloc: Global,
}
