//! Why a call on statistics is refused.
ghost use Rattle.std.specs.Prelude.{◌≡◌};
ghost use Rattle.vortex_stats_expr.specs.declared.error.StatsError.TheVariants.{Memory};
ghost use Rattle.vortex_stats_expr.specs.Refusals.{number_of_error, name_of_error};

use std::alloc::{AllocError, AllocFailed};
use thiserror::Error;

/// Why a call of this member is refused: one enum for statistics, predicates and proofs.
#[derive(Clone, Copy, Debug, PartialEq, Eq, Drop, Error)]
pub enum StatsError {
    /// There is no memory.
    #[error("out of memory")]
    Memory = 1,
    /// Two statistics of the same rows can't both be honest.
    #[error("two statistics of the same rows don't overlap")]
    NoOverlap = 2,
    /// A path leads to no column.
    #[error("there is no such column")]
    UnknownColumn = 3,
    /// Operands have types that the operator doesn't take.
    #[error("the operator doesn't take operands of these types")]
    UnequalTypes = 4,
    /// A predicate, or an operand of AND, OR or NOT, has another type than boolean.
    #[error("not of truth type")]
    NotBoolean = 5,
    /// An aggregate function doesn't take values of the type.
    #[error("the aggregate function doesn't take the type")]
    UnsupportedAggregate = 6,
    /// A rule of the caller failed, or its proof can't be evaluated as one.
    #[error("a rewrite rule failed")]
    RuleFault = 7,
    /// The expression has no value here: it compares floats, or its pattern isn't supported.
    #[error("the expression can't be evaluated")]
    NotEvaluable = 8,
    /// No statistic has the number.
    #[error("there is no such statistic")]
    NoSuchStat = 9,
    /// A stored value has no type, isn't valid for it or doesn't read as the type asked for.
    #[error("the stored value doesn't fit the statistic")]
    InvalidStat = 10,
}

impl StatsError {
    /// The number of the refusal.
    pub fn number(self) -> u8
        ensures { result ≡ number_of_error self }
    {
        self as u8
    }

    /// The name of the refusal.
    pub fn name(self) -> &'static str
        ensures { result.now ≡ name_of_error self }
    {
        match self {
            StatsError::Memory => "Memory",
            StatsError::NoOverlap => "NoOverlap",
            StatsError::UnknownColumn => "UnknownColumn",
            StatsError::UnequalTypes => "UnequalTypes",
            StatsError::NotBoolean => "NotBoolean",
            StatsError::UnsupportedAggregate => "UnsupportedAggregate",
            StatsError::RuleFault => "RuleFault",
            StatsError::NotEvaluable => "NotEvaluable",
            StatsError::NoSuchStat => "NoSuchStat",
            StatsError::InvalidStat => "InvalidStat",
        }
    }
}

impl From<AllocError> for StatsError {
    ghost from_gives = { λ _ e. e ≡ Memory };

    fn from(_error: AllocError) -> StatsError {
        StatsError::Memory
    }
}

impl<T: Drop> From<AllocFailed<T>> for StatsError {
    ghost from_gives = { λ _ e. e ≡ Memory };

    fn from(_error: AllocFailed<T>) -> StatsError {
        StatsError::Memory
    }
}
