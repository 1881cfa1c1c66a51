//! The functions at the roots of expressions.

/// The function of an expression's root, as the ids of Vortex's scalar functions. Rules that
/// rewrite expressions are chosen by it.
#[derive(Clone, Copy, Debug, PartialEq, Eq)]
pub enum ScalarFnId {
    Literal,
    Column,
    /// A comparison, AND or OR.
    Binary,
    Between,
    Not,
    IsNull,
    IsNotNull,
    IsNan,
    Like,
    RowCount,
    /// A placeholder for a statistic.
    Stat,
}
