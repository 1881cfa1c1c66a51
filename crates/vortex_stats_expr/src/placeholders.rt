//! Placeholders for the statistics of an expression, one function each, as Vortex's constructors.
//!
//! `stat` makes one for any aggregate function. Each is of a nullable type, and null where the
//! statistic isn't known.
ghost use Rattle.std.specs.Prelude.{◌≡◌, IfOk};
ghost use Rattle.vortex_model_table.specs.Expression.{statistic, sum, null_count, nan_count, min_max, all_null, all_non_null, all_nan, all_non_nan};

use crate::aggregate::AggregateFn;
use crate::expression::{Expression, stat};
use std::alloc::{AllocError, Global};

/// A record of the bounds `min` and `max`.
pub fn min_max(alloc: Global, input: Expression) -> Result<Expression, AllocError>
    ensures { IfOk result (λ e. e ≡ statistic input min_max) }
{
    stat(alloc, AggregateFn::MinMax, input)
}

/// The sum: a u64, an i64 or an f64, by the type of the values.
pub fn sum(alloc: Global, input: Expression) -> Result<Expression, AllocError>
    ensures { IfOk result (λ e. e ≡ statistic input sum) }
{
    stat(alloc, AggregateFn::Sum, input)
}

/// The number of rows that are null, a u64.
pub fn null_count(alloc: Global, input: Expression) -> Result<Expression, AllocError>
    ensures { IfOk result (λ e. e ≡ statistic input null_count) }
{
    stat(alloc, AggregateFn::NullCount, input)
}

/// Whether every row is null.
pub fn all_null(alloc: Global, input: Expression) -> Result<Expression, AllocError>
    ensures { IfOk result (λ e. e ≡ statistic input all_null) }
{
    stat(alloc, AggregateFn::AllNull, input)
}

/// Whether every row is NaN. Only floats have it.
pub fn all_nan(alloc: Global, input: Expression) -> Result<Expression, AllocError>
    ensures { IfOk result (λ e. e ≡ statistic input all_nan) }
{
    stat(alloc, AggregateFn::AllNan, input)
}

/// Whether no row is null.
pub fn all_non_null(alloc: Global, input: Expression) -> Result<Expression, AllocError>
    ensures { IfOk result (λ e. e ≡ statistic input all_non_null) }
{
    stat(alloc, AggregateFn::AllNonNull, input)
}

/// Whether no row is NaN. Only floats have it.
pub fn all_non_nan(alloc: Global, input: Expression) -> Result<Expression, AllocError>
    ensures { IfOk result (λ e. e ≡ statistic input all_non_nan) }
{
    stat(alloc, AggregateFn::AllNonNan, input)
}

/// The number of rows that are NaN, a u64. Only floats have it.
pub fn nan_count(alloc: Global, input: Expression) -> Result<Expression, AllocError>
    ensures { IfOk result (λ e. e ≡ statistic input nan_count) }
{
    stat(alloc, AggregateFn::NanCount, input)
}
