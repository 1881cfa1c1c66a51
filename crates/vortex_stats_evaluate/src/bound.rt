//! Placeholders for the statistics of a bound expression, one function each, as Vortex's
//! constructors over bound inputs.
//!
//! `stat` of `vortex_stats_bind` makes one for any aggregate function. Each is of a nullable type,
//! and null where the statistic isn't known. `UnsupportedAggregate` is answered where the function
//! doesn't take the type of the values.
ghost use Rattle.std.specs.Prelude.{IfOk, IfErr};
ghost use Rattle.vortex_model_table.specs.Expression.{sum, null_count, nan_count, min_max, all_null, all_non_null, all_nan, all_non_nan};
ghost use Rattle.vortex_stats_bind.specs.Placeholders.{IsPlaceholderOf, IsPlaceholderFault};

use std::alloc::Global;
use vortex_stats_bind::bound::BoundExpression;
use vortex_stats_bind::make::stat;
use vortex_stats_expr::aggregate::AggregateFn;
use vortex_stats_expr::error::StatsError;

/// A record of the bounds `min` and `max`.
pub fn min_max(
    alloc: Global,
    input: Box<BoundExpression>,
) -> Result<Box<BoundExpression>, StatsError>
    ensures placeholder { IfOk result
        (λ bound. IsPlaceholderOf min_max input.value bound.value) }
    ensures refused { IfErr result (IsPlaceholderFault min_max input.value) }
{
    stat(alloc, AggregateFn::MinMax, input)
}

/// The sum: a u64, an i64 or an f64, by the type of the values.
pub fn sum(alloc: Global, input: Box<BoundExpression>) -> Result<Box<BoundExpression>, StatsError>
    ensures placeholder { IfOk result
        (λ bound. IsPlaceholderOf sum input.value bound.value) }
    ensures refused { IfErr result (IsPlaceholderFault sum input.value) }
{
    stat(alloc, AggregateFn::Sum, input)
}

/// The number of rows that are null, a u64.
pub fn null_count(
    alloc: Global,
    input: Box<BoundExpression>,
) -> Result<Box<BoundExpression>, StatsError>
    ensures placeholder { IfOk result
        (λ bound. IsPlaceholderOf null_count input.value bound.value) }
    ensures refused { IfErr result (IsPlaceholderFault null_count input.value) }
{
    stat(alloc, AggregateFn::NullCount, input)
}

/// Whether every row is null.
pub fn all_null(
    alloc: Global,
    input: Box<BoundExpression>,
) -> Result<Box<BoundExpression>, StatsError>
    ensures placeholder { IfOk result
        (λ bound. IsPlaceholderOf all_null input.value bound.value) }
    ensures refused { IfErr result (IsPlaceholderFault all_null input.value) }
{
    stat(alloc, AggregateFn::AllNull, input)
}

/// Whether every row is NaN. Only floats have it.
pub fn all_nan(
    alloc: Global,
    input: Box<BoundExpression>,
) -> Result<Box<BoundExpression>, StatsError>
    ensures placeholder { IfOk result
        (λ bound. IsPlaceholderOf all_nan input.value bound.value) }
    ensures refused { IfErr result (IsPlaceholderFault all_nan input.value) }
{
    stat(alloc, AggregateFn::AllNan, input)
}

/// Whether no row is null.
pub fn all_non_null(
    alloc: Global,
    input: Box<BoundExpression>,
) -> Result<Box<BoundExpression>, StatsError>
    ensures placeholder { IfOk result
        (λ bound. IsPlaceholderOf all_non_null input.value bound.value) }
    ensures refused { IfErr result (IsPlaceholderFault all_non_null input.value) }
{
    stat(alloc, AggregateFn::AllNonNull, input)
}

/// Whether no row is NaN. Only floats have it.
pub fn all_non_nan(
    alloc: Global,
    input: Box<BoundExpression>,
) -> Result<Box<BoundExpression>, StatsError>
    ensures placeholder { IfOk result
        (λ bound. IsPlaceholderOf all_non_nan input.value bound.value) }
    ensures refused { IfErr result (IsPlaceholderFault all_non_nan input.value) }
{
    stat(alloc, AggregateFn::AllNonNan, input)
}

/// The number of rows that are NaN, a u64. Only floats have it.
pub fn nan_count(
    alloc: Global,
    input: Box<BoundExpression>,
) -> Result<Box<BoundExpression>, StatsError>
    ensures placeholder { IfOk result
        (λ bound. IsPlaceholderOf nan_count input.value bound.value) }
    ensures refused { IfErr result (IsPlaceholderFault nan_count input.value) }
{
    stat(alloc, AggregateFn::NanCount, input)
}
