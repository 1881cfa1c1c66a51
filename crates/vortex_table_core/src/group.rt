//! Groups of neighbouring chunks.

use vortex_stats_array::array_stats::ArrayStats;

/// A group of neighbouring chunks, which a scan looks at before it looks at the chunks.
#[derive(Clone, Drop)]
pub struct Group {
    /// The index of its first chunk in the table.
    pub first: usize,
    /// The number of its chunks, at least one.
    pub chunks: usize,
    /// The number of rows in its chunks.
    pub rows: usize,
    /// The statistics of each leaf column in the rows of all its chunks. `None` for a group of one
    /// chunk, which has its own.
    pub joined: Option<Vec<ArrayStats>>,
}
