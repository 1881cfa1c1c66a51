//! Statistics of a column that a proof may ask for by a placeholder.

/// A statistic of the values of an expression, as the aggregate functions of Vortex. A placeholder
/// for one is of a nullable type, since the statistic may not be known.
#[derive(Clone, Copy, Debug, PartialEq, Eq)]
pub enum AggregateFn {
    /// A bound from below, of the type of the values. Null where no value is known to be there.
    Min,
    /// A bound from above, of the type of the values.
    Max,
    /// The sum: a u64 for booleans and unsigned integers, an i64 for signed ones, an f64 for
    /// floats.
    Sum,
    /// The number of rows that are null, a u64.
    NullCount,
    /// The number of rows that are NaN, a u64. Only floats have it.
    NanCount,
    /// The size of the values in bytes before any compression, a u64.
    UncompressedSizeInBytes,
    /// A record of the bounds `min` and `max`.
    MinMax,
    /// Whether every row is null.
    AllNull,
    /// Whether no row is null.
    AllNonNull,
    /// Whether every row is NaN. Only floats have it.
    AllNan,
    /// Whether no row is NaN. Only floats have it.
    AllNonNan,
}
