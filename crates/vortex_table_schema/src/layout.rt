//! The layout of a column of a batch, as whoever appends it may hint.

/// A hint of how a column of an appended batch is to be laid out. One that does not fit is ignored.
#[derive(Clone, Copy, Debug, PartialEq, Eq)]
pub enum Layout {
    /// One value for each row.
    Plain,
    /// Distinct values, and for each row a code that refers to one of them.
    Dictionary,
    /// One value for every row.
    Constant,
}
