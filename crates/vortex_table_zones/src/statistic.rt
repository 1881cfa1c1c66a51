//! What a zone has of a column.

/// What a zone has of a column.
#[derive(Clone, Copy, Debug, PartialEq, Eq)]
pub enum Statistic {
    /// A bound from below.
    Lower,
    /// A bound from above.
    Upper,
    /// How many values are null.
    NullCount,
}
