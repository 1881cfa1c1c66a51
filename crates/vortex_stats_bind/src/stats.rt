//! Placeholders replaced by what a source of statistics has for them.
ghost use Rattle.std.specs.Prelude.{◌≡◌, IfOk, Option, Some, None, option_copied};
ghost use Rattle.std.specs.Option.{unwrap_or};
ghost use Rattle.vortex_model.specs.LogicalType.{LogicalType};
ghost use Rattle.vortex_model_table.specs.Expression.{Aggregate};
ghost use Rattle.vortex_dtype_core.specs.View.{type_of};
ghost use Rattle.vortex_stats_bind.specs.Bound.{Bound, range_test};
ghost use Rattle.vortex_stats_bind.specs.Replaced.{answered, replaced, typed_null};
ghost use Rattle.vortex_stats_expr.specs.Tree.{is_strict};
ghost use Rattle.vortex_stats_expr.specs.Aggregate.{aggregate_of};

use crate::bound::{
    BoundExpression, BoundNode, bound_and, bound_between, bound_compare, bound_is_nan,
    bound_is_not_null, bound_is_null, bound_like, bound_literal, bound_not, bound_or,
};
use std::alloc::{AllocError, Global};
use vortex_dtype_core::dtype::DType;
use vortex_dtype_ptype::nullability::Nullability;
use vortex_scalar_core::scalar::Scalar;
use vortex_stats_expr::aggregate::AggregateFn;
use vortex_stats_expr::options::BetweenOptions;

/// A source of statistics of some rows, as Vortex's `StatBinder`: a zone map answers columns of its
/// table of zones, a file's footer literals.
pub trait StatBinder {
    /// The answer for a statistic of the values of an expression, if the source has it.
    ghost answers: { Self → Bound → Aggregate → Option Bound };

    /// The expression for statistics that the source hasn't: null of their type.
    ghost missing: { Self → LogicalType → Bound } = { λ _ k. typed_null k };

    /// The expression that has the statistic's value, which is of the type `stat_dtype`, and `None`
    /// where it isn't known.
    fn bind_aggregate(
        &self,
        alloc: Global,
        input: &BoundExpression,
        aggregate: AggregateFn,
        stat_dtype: &DType,
    ) -> Result<Option<BoundExpression>, AllocError>
        ensures { IfOk result
            (λ found. found ≡ answers self.now input.now (aggregate_of aggregate)) };

    /// The expression for a statistic of this type that isn't known.
    fn missing_stat(&self, alloc: Global, dtype: &DType) -> Result<BoundExpression, AllocError>
        ensures { IfOk result (λ b. b ≡ missing self.now (type_of dtype.now)) };
}

/// Null of the type, made nullable: what a `StatBinder` answers for missing statistics unless it
/// has something better.
pub fn null_of(alloc: Global, dtype: &DType) -> Result<BoundExpression, AllocError>
    ensures { IfOk result (λ b. b ≡ typed_null (type_of dtype.now)) }
{
    let dtype = dtype.with_nullability(Nullability::Nullable)?;
    let bound = bound_literal(alloc, Scalar::null(dtype))?;
    Ok(Box::into_inner(bound))
}

/// The proof with each placeholder replaced by what the binder answers, or by its `missing_stat`
/// where it answers none, as Vortex's `bind_stats`. It asks the binder once for each placeholder,
/// and looks for none in what it answers.
pub fn bind_stats<B: StatBinder>(
    alloc: Global,
    proof: &BoundExpression,
    binder: &B,
) -> Result<BoundExpression, AllocError>
    ensures { IfOk result (λ bound. bound
        ≡ replaced (answered None (B.answers binder.now) (B.missing binder.now)) proof.now) }
{
    let bound = bind_boxed(alloc, proof, binder, None)?;
    Ok(Box::into_inner(bound))
}

/// As `bind_stats`, to a source that answers columns of a table of zones, a row for each. There the
/// number of rows is the column of `row_counts`, and a column of the rows themselves is null.
pub fn bind_stats_in_zones<B: StatBinder>(
    alloc: Global,
    proof: &BoundExpression,
    binder: &B,
    row_counts: &BoundExpression,
) -> Result<BoundExpression, AllocError>
    ensures { IfOk result (λ bound. bound ≡ replaced
        (answered (Some row_counts.now) (B.answers binder.now) (B.missing binder.now)) proof.now) }
{
    let bound = bind_boxed(alloc, proof, binder, Some(row_counts))?;
    Ok(Box::into_inner(bound))
}

fn copied(alloc: Global, e: &BoundExpression) -> Result<Box<BoundExpression>, AllocError>
    ensures { IfOk result (λ copy. copy.value ≡ e.now) }
{
    Ok(Box::new(alloc, e.clone()?)?)
}

#[cycle(bind)]
fn bind_boxed<B: StatBinder>(
    alloc: Global,
    proof: &BoundExpression,
    binder: &B,
    row_counts: Option<&BoundExpression>,
) -> Result<Box<BoundExpression>, AllocError>
    ensures { IfOk result (λ bound. bound.value
        ≡ replaced (answered (option_copied row_counts.entry) (B.answers binder.now)
        (B.missing binder.now)) proof.now) }
{
    match &proof.node {
        BoundNode::Literal(_) => copied(alloc, proof),
        BoundNode::Column(column) => match row_counts {
            Some(_) => Ok(Box::new(alloc, null_of(alloc, &column.dtype)?)?),
            None => copied(alloc, proof),
        },
        BoundNode::RowCount => copied(alloc, row_counts.unwrap_or(proof)),
        BoundNode::Compare(comparison, x, y) => {
            let (left, right) = bind_both(alloc, x, y, binder, row_counts)?;
            bound_compare(alloc, *comparison, left, right)
        }
        BoundNode::And(x, y) => {
            let (left, right) = bind_both(alloc, x, y, binder, row_counts)?;
            bound_and(alloc, left, right)
        }
        BoundNode::Or(x, y) => {
            let (left, right) = bind_both(alloc, x, y, binder, row_counts)?;
            bound_or(alloc, left, right)
        }
        BoundNode::Not(x) => {
            let input = bind_boxed(alloc, x, binder, row_counts)?;
            bound_not(alloc, input)
        }
        BoundNode::IsNull(x) => {
            let input = bind_boxed(alloc, x, binder, row_counts)?;
            bound_is_null(alloc, input)
        }
        BoundNode::IsNotNull(x) => {
            let input = bind_boxed(alloc, x, binder, row_counts)?;
            bound_is_not_null(alloc, input)
        }
        BoundNode::Between(x, lower, upper, options) => {
            bind_range(alloc, x, lower, upper, *options, binder, row_counts)
        }
        BoundNode::Like(x, pattern, options) => {
            let (value, pattern) = bind_both(alloc, x, pattern, binder, row_counts)?;
            bound_like(alloc, value, pattern, *options)
        }
        BoundNode::IsNan(x) => {
            let input = bind_boxed(alloc, x, binder, row_counts)?;
            bound_is_nan(alloc, input)
        }
        BoundNode::Stat(aggregate, input, dtype) => {
            bind_stat(alloc, *aggregate, input, dtype, binder)
        }
    }
}

#[cycle(bind)]
fn bind_both<B: StatBinder>(
    alloc: Global,
    x: &BoundExpression,
    y: &BoundExpression,
    binder: &B,
    row_counts: Option<&BoundExpression>,
) -> Result<(Box<BoundExpression>, Box<BoundExpression>), AllocError>
    ensures left { IfOk result (λ bound. bound.0.value
        ≡ replaced (answered (option_copied row_counts.entry) (B.answers binder.now)
        (B.missing binder.now)) x.now) }
    ensures right { IfOk result (λ bound. bound.1.value
        ≡ replaced (answered (option_copied row_counts.entry) (B.answers binder.now)
        (B.missing binder.now)) y.now) }
{
    let left = bind_boxed(alloc, x, binder, row_counts)?;
    let right = bind_boxed(alloc, y, binder, row_counts)?;
    Ok((left, right))
}

#[cycle(bind)]
fn bind_range<B: StatBinder>(
    alloc: Global,
    x: &BoundExpression,
    lower: &BoundExpression,
    upper: &BoundExpression,
    options: BetweenOptions,
    binder: &B,
    row_counts: Option<&BoundExpression>,
) -> Result<Box<BoundExpression>, AllocError>
    ensures { IfOk result (λ bound. bound.value
        ≡ replaced (answered (option_copied row_counts.entry) (B.answers binder.now)
        (B.missing binder.now))
        (range_test x.now lower.now upper.now (is_strict options.lower_strict)
        (is_strict options.upper_strict))) }
{
    let (lower, upper) = bind_both(alloc, lower, upper, binder, row_counts)?;
    let value = bind_boxed(alloc, x, binder, row_counts)?;
    bound_between(alloc, value, lower, upper, options)
}

fn bind_stat<B: StatBinder>(
    alloc: Global,
    aggregate: AggregateFn,
    input: &BoundExpression,
    dtype: &DType,
    binder: &B,
) -> Result<Box<BoundExpression>, AllocError>
    ensures { IfOk result (λ bound. bound.value
        ≡ unwrap_or (B.answers binder.now input.now (aggregate_of aggregate))
        (B.missing binder.now (type_of dtype.now))) }
{
    let found = match binder.bind_aggregate(alloc, input, aggregate, dtype)? {
        Some(found) => found,
        None => binder.missing_stat(alloc, dtype)?,
    };
    Ok(Box::new(alloc, found)?)
}
