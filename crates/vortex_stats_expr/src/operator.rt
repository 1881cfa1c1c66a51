//! Operators between two expressions.
ghost use Rattle.std.specs.Prelude.{◌≡◌};
ghost use Rattle.vortex_model_table.specs.Truth.{test_of};
ghost use Rattle.vortex_stats_expr.specs.Tree.{comparison_of};

use std::cmp::Ordering;

/// A comparison or a connective, as Vortex's `Operator`. `binary` makes an expression by one.
#[derive(Clone, Copy, Debug, PartialEq, Eq)]
pub enum Operator {
    /// The values are equal.
    Eq,
    /// The values differ.
    NotEq,
    /// The left value is greater.
    Gt,
    /// The left value is greater, or they are equal.
    Gte,
    /// The left value is less.
    Lt,
    /// The left value is less, or they are equal.
    Lte,
    /// Both are true.
    And,
    /// One is true.
    Or,
}

/// The operators that compare two values, which are six of upstream's `Operator`.
#[derive(Clone, Copy, Debug, PartialEq, Eq)]
pub enum Comparison {
    Eq,
    NotEq,
    Gt,
    Gte,
    Lt,
    Lte,
}

impl Comparison {
    /// Whether the comparison is true of two values in this order.
    pub fn holds(self, order: Ordering) -> bool
        ensures { result ≡ test_of (comparison_of self) order }
    {
        match self {
            Comparison::Eq => order.is_eq(),
            Comparison::NotEq => order.is_ne(),
            Comparison::Gt => order.is_gt(),
            Comparison::Gte => order.is_ge(),
            Comparison::Lt => order.is_lt(),
            Comparison::Lte => order.is_le(),
        }
    }
}
