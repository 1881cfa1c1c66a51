//! Bound expressions made of others, each tested for the types of its parts, as Vortex's in
//! `expr::bound`.
//!
//! What is bound is handed on in boxes, in which it ends up anyway.
ghost use Rattle.std.specs.Prelude.{◌≡◌, ◌&&◌, IfOk, IfErr};
ghost use Rattle.vortex_model.specs.LogicalType.{LogicalType, equal_ignoring_nullability};
ghost use Rattle.vortex_model_table.specs.Expression.{Expression, literal, compare, both, either, negation, is_null, is_not_null, is_nan, between, like, row_count, statistic};
ghost use Rattle.vortex_dtype_core.specs.Parts.{is_boolean_type, is_utf8_type};
ghost use Rattle.vortex_scalar_core.specs.Scalar.{scalar_type, scalar_content};
ghost use Rattle.vortex_stats_bind.specs.Bound.{value_type};
ghost use Rattle.vortex_stats_bind.specs.Bindings.{IsBound, IsBoxed};
ghost use Rattle.vortex_stats_bind.specs.Placeholders.{IsPlaceholderOf, IsPlaceholderFault};
ghost use Rattle.vortex_stats_expr.specs.Tree.{comparison_of, is_strict};
ghost use Rattle.vortex_stats_expr.specs.Aggregate.{aggregate_of};

use crate::bound::{
    BoundExpression, bound_and, bound_between, bound_compare, bound_is_nan, bound_is_not_null,
    bound_is_null, bound_like, bound_literal, bound_not, bound_or, bound_row_count, bound_stat,
};
use std::alloc::{AllocError, Global};
use vortex_scalar_core::scalar::Scalar;
use vortex_stats_expr::aggregate::AggregateFn;
use vortex_stats_expr::aggregate_dtype::aggregate_dtype;
use vortex_stats_expr::error::StatsError;
use vortex_stats_expr::operator::Comparison;
use vortex_stats_expr::options::{BetweenOptions, LikeOptions};

/// A literal.
pub fn lit(alloc: Global, value: Scalar) -> Result<Box<BoundExpression>, StatsError>
    ensures { (k : LogicalType) →
        IsBoxed k (literal (scalar_type value) (scalar_content value)) result }
{
    Ok(bound_literal(alloc, value)?)
}

/// A comparison. `UnequalTypes` where the sides are of two types, nullability aside.
pub fn compare(
    alloc: Global,
    comparison: Comparison,
    left: Box<BoundExpression>,
    right: Box<BoundExpression>,
) -> Result<Box<BoundExpression>, StatsError>
    ensures { (k : LogicalType) (x y : Expression) → IsBound k x left.value
        → IsBound k y right.value
        → IsBoxed k (compare (comparison_of comparison) x y) result }
{
    if !left.is_alike(&right)? {
        return Err(StatsError::UnequalTypes);
    }
    Ok(bound_compare(alloc, comparison, left, right)?)
}

fn are_boolean(left: &BoundExpression, right: &BoundExpression) -> bool
    ensures { result ≡ (is_boolean_type (value_type left.now)
        && is_boolean_type (value_type right.now)) }
{
    left.is_boolean() && right.is_boolean()
}

/// AND in Kleene's logic. `NotBoolean` where a side isn't boolean.
pub fn and(
    alloc: Global,
    left: Box<BoundExpression>,
    right: Box<BoundExpression>,
) -> Result<Box<BoundExpression>, StatsError>
    ensures { (k : LogicalType) (x y : Expression) → IsBound k x left.value
        → IsBound k y right.value → IsBoxed k (both x y) result }
{
    if !are_boolean(&left, &right) {
        return Err(StatsError::NotBoolean);
    }
    Ok(bound_and(alloc, left, right)?)
}

/// OR in Kleene's logic. `NotBoolean` where a side isn't boolean.
pub fn or(
    alloc: Global,
    left: Box<BoundExpression>,
    right: Box<BoundExpression>,
) -> Result<Box<BoundExpression>, StatsError>
    ensures { (k : LogicalType) (x y : Expression) → IsBound k x left.value
        → IsBound k y right.value → IsBoxed k (either x y) result }
{
    if !are_boolean(&left, &right) {
        return Err(StatsError::NotBoolean);
    }
    Ok(bound_or(alloc, left, right)?)
}

/// NOT in Kleene's logic. `NotBoolean` where the input isn't boolean.
pub fn not(alloc: Global, input: Box<BoundExpression>) -> Result<Box<BoundExpression>, StatsError>
    ensures { (k : LogicalType) (x : Expression) → IsBound k x input.value
        → IsBoxed k (negation x) result }
{
    if !input.is_boolean() {
        return Err(StatsError::NotBoolean);
    }
    Ok(bound_not(alloc, input)?)
}

/// Whether the value is null.
pub fn is_null(
    alloc: Global,
    input: Box<BoundExpression>,
) -> Result<Box<BoundExpression>, StatsError>
    ensures { (k : LogicalType) (x : Expression) → IsBound k x input.value
        → IsBoxed k (is_null x) result }
{
    Ok(bound_is_null(alloc, input)?)
}

/// Whether the value is not null.
pub fn is_not_null(
    alloc: Global,
    input: Box<BoundExpression>,
) -> Result<Box<BoundExpression>, StatsError>
    ensures { (k : LogicalType) (x : Expression) → IsBound k x input.value
        → IsBoxed k (is_not_null x) result }
{
    Ok(bound_is_not_null(alloc, input)?)
}

/// Whether a float is NaN. `UnequalTypes` where the input is of no float type.
pub fn is_nan(
    alloc: Global,
    input: Box<BoundExpression>,
) -> Result<Box<BoundExpression>, StatsError>
    ensures { (k : LogicalType) (x : Expression) → IsBound k x input.value
        → IsBoxed k (is_nan x) result }
{
    if !input.is_of_floats() {
        return Err(StatsError::UnequalTypes);
    }
    Ok(bound_is_nan(alloc, input)?)
}

// Whether both ends are of the value's type, nullability aside.
fn are_alike(
    value: &BoundExpression,
    lower: &BoundExpression,
    upper: &BoundExpression,
) -> Result<bool, AllocError>
    ensures { IfOk result (λ alike. alike
        ≡ (equal_ignoring_nullability (value_type value.now) (value_type lower.now)
        && equal_ignoring_nullability (value_type value.now) (value_type upper.now))) }
{
    let is_lower = value.is_alike(lower)?;
    let is_upper = value.is_alike(upper)?;
    Ok(is_lower && is_upper)
}

/// Whether the value lies between the two ends. `UnequalTypes` where an end is of another type than
/// the value, nullability aside.
pub fn between(
    alloc: Global,
    value: Box<BoundExpression>,
    lower: Box<BoundExpression>,
    upper: Box<BoundExpression>,
    options: BetweenOptions,
) -> Result<Box<BoundExpression>, StatsError>
    ensures { (k : LogicalType) (x lo hi : Expression) → IsBound k x value.value
        → IsBound k lo lower.value → IsBound k hi upper.value
        → IsBoxed k (between x lo hi (is_strict options.lower_strict)
        (is_strict options.upper_strict)) result }
{
    if !are_alike(&value, &lower, &upper)? {
        return Err(StatsError::UnequalTypes);
    }
    Ok(bound_between(alloc, value, lower, upper, options)?)
}

fn are_utf8(value: &BoundExpression, pattern: &BoundExpression) -> bool
    ensures { result ≡ (is_utf8_type (value_type value.now)
        && is_utf8_type (value_type pattern.now)) }
{
    value.is_utf8() && pattern.is_utf8()
}

/// Whether the whole string matches the pattern. `UnequalTypes` where a side isn't a UTF-8 string.
pub fn like(
    alloc: Global,
    value: Box<BoundExpression>,
    pattern: Box<BoundExpression>,
    options: LikeOptions,
) -> Result<Box<BoundExpression>, StatsError>
    ensures { (k : LogicalType) (x form : Expression) → IsBound k x value.value
        → IsBound k form pattern.value
        → IsBoxed k (like x form options.negated options.case_insensitive) result }
{
    if !are_utf8(&value, &pattern) {
        return Err(StatsError::UnequalTypes);
    }
    Ok(bound_like(alloc, value, pattern, options)?)
}

/// The number of rows that a proof is about, a u64.
pub fn row_count(alloc: Global) -> Result<Box<BoundExpression>, StatsError>
    ensures { (k : LogicalType) → IsBoxed k row_count result }
{
    Ok(bound_row_count(alloc)?)
}

/// A placeholder, in a proof, for a statistic of the values of an expression. It is of a nullable
/// type, since a statistic may be missing. `UnsupportedAggregate` where the function doesn't take
/// the type of the values.
pub fn stat(
    alloc: Global,
    aggregate: AggregateFn,
    input: Box<BoundExpression>,
) -> Result<Box<BoundExpression>, StatsError>
    ensures bound { (k : LogicalType) (x : Expression) → IsBound k x input.value
        → IsBoxed k (statistic x (aggregate_of aggregate)) result }
    ensures placeholder { IfOk result
        (λ bound. IsPlaceholderOf (aggregate_of aggregate) input.value bound.value) }
    ensures refused { IfErr result (IsPlaceholderFault (aggregate_of aggregate) input.value) }
{
    let dtype = input.dtype()?;
    match aggregate_dtype(alloc, aggregate, &dtype)? {
        Some(dtype) => Ok(bound_stat(alloc, aggregate, input, dtype)?),
        None => Err(StatsError::UnsupportedAggregate),
    }
}
