//! Binding: columns become positions, and each node gets a type.
ghost use Rattle.std.specs.Prelude.{OnOk, IfOk};
ghost use Rattle.vortex_model.specs.LogicalType.{LogicalType};
ghost use Rattle.vortex_model.specs.Valid.{IsContent};
ghost use Rattle.vortex_model_table.specs.Expression.{literal, column, HasFormedLiterals};
ghost use Rattle.vortex_dtype_core.specs.View.{type_of};
ghost use Rattle.vortex_scalar_core.specs.Scalar.{scalar_type, scalar_content};
ghost use Rattle.vortex_stats_bind.specs.Bindings.{IsBinding, IsBoxed, AreBound, IsResolved};

use crate::bound::{BoundColumn, BoundExpression, BoundNode};
use crate::make::{
    and, between, compare, is_nan, is_not_null, is_null, like, lit, not, or, row_count, stat,
};
use std::alloc::{AllocError, Global};
use vortex_dtype_core::dtype::DType;
use vortex_dtype_ptype::field_names::FieldNames;
use vortex_dtype_ptype::nullability::Nullability;
use vortex_scalar_core::scalar::Scalar;
use vortex_stats_expr::error::StatsError;
use vortex_stats_expr::expression::{Expression, Node};
use vortex_stats_expr::types::field_named;

/// Resolves the columns of an expression over rows of this type, as Vortex's `Expression::bind`.
///
/// The first fault decides the refusal, children before their parent, left before right:
/// `UnknownColumn`, `UnequalTypes`, `NotBoolean`, `UnsupportedAggregate`. The expression is copied,
/// in time linear in its size.
pub fn bind(alloc: Global, e: &Expression, dtype: &DType) -> Result<BoundExpression, StatsError>
    ensures bound { IsBinding (type_of dtype.now) e.now result }
    ensures formed { OnOk result (HasFormedLiterals e.now) }
{
    let bound = bind_boxed(alloc, e, dtype)?;
    Ok(Box::into_inner(bound))
}

#[cycle(bind)]
fn bind_boxed(
    alloc: Global,
    e: &Expression,
    dtype: &DType,
) -> Result<Box<BoundExpression>, StatsError>
    ensures bound { IsBoxed (type_of dtype.now) e.now result }
    ensures formed { OnOk result (HasFormedLiterals e.now) }
{
    match &e.node {
        Node::Literal(value) => bind_literal(alloc, value),
        Node::Column(path) => bind_column(alloc, path, dtype),
        Node::Compare(comparison, x, y) => {
            let (left, right) = bind_both(alloc, x, y, dtype)?;
            compare(alloc, *comparison, left, right)
        }
        Node::And(x, y) => {
            let (left, right) = bind_both(alloc, x, y, dtype)?;
            and(alloc, left, right)
        }
        Node::Or(x, y) => {
            let (left, right) = bind_both(alloc, x, y, dtype)?;
            or(alloc, left, right)
        }
        Node::Not(x) => {
            let input = bind_boxed(alloc, x, dtype)?;
            not(alloc, input)
        }
        Node::IsNull(x) => {
            let input = bind_boxed(alloc, x, dtype)?;
            is_null(alloc, input)
        }
        Node::IsNotNull(x) => {
            let input = bind_boxed(alloc, x, dtype)?;
            is_not_null(alloc, input)
        }
        Node::IsNan(x) => {
            let input = bind_boxed(alloc, x, dtype)?;
            is_nan(alloc, input)
        }
        Node::Between(x, lower, upper, options) => {
            let value = bind_boxed(alloc, x, dtype)?;
            let (lower, upper) = bind_both(alloc, lower, upper, dtype)?;
            between(alloc, value, lower, upper, *options)
        }
        Node::Like(x, pattern, options) => {
            let (value, pattern) = bind_both(alloc, x, pattern, dtype)?;
            like(alloc, value, pattern, *options)
        }
        Node::RowCount => row_count(alloc),
        Node::Stat(aggregate, x) => {
            let input = bind_boxed(alloc, x, dtype)?;
            stat(alloc, *aggregate, input)
        }
    }
}

#[cycle(bind)]
fn bind_both(
    alloc: Global,
    left: &Expression,
    right: &Expression,
    dtype: &DType,
) -> Result<(Box<BoundExpression>, Box<BoundExpression>), StatsError>
    ensures bound { AreBound (type_of dtype.now) left.now right.now result }
    ensures formed { OnOk result (HasFormedLiterals left.now) }
    ensures formed_right { OnOk result (HasFormedLiterals right.now) }
{
    let first = bind_boxed(alloc, left, dtype)?;
    let second = bind_boxed(alloc, right, dtype)?;
    Ok((first, second))
}

#[tactic(auto, using(crate::proofs::FormedLiterals::scalar_is_formed))]
fn bind_literal(alloc: Global, value: &Scalar) -> Result<Box<BoundExpression>, StatsError>
    ensures bound { (k : LogicalType)
        → IsBoxed k (literal (scalar_type value.now) (scalar_content value.now)) result }
    ensures formed { IsContent (scalar_type value.now) (scalar_content value.now) }
{
    lit(alloc, value.clone()?)
}

// The column at a path of names.
fn bind_column(
    alloc: Global,
    path: &FieldNames,
    dtype: &DType,
) -> Result<Box<BoundExpression>, StatsError>
    ensures { IsBoxed (type_of dtype.now) (column path.now) result }
{
    match resolve(alloc, path, dtype)? {
        Some(column) => {
            let bound = BoundExpression::boxed(alloc, BoundNode::Column(column))?;
            Ok(bound)
        }
        None => Err(StatsError::UnknownColumn),
    }
}

/// The column that a path of names leads to in rows of this type, and `None` where it leads
/// nowhere.
pub fn resolve(
    alloc: Global,
    path: &FieldNames,
    dtype: &DType,
) -> Result<Option<BoundColumn>, AllocError>
    ensures { IfOk result (λ found. IsResolved (type_of dtype.now) path.now found) }
{
    let mut positions = Vec::with_capacity(alloc, path.len())?;
    let mut part = dtype;
    let mut around = Nullability::NonNullable;
    for name in path.as_slice() {
        let Some((position, next)) = field_named(part, name) else {
            return Ok(None);
        };
        around = around | part.nullability();
        positions.push(position)?;
        part = next;
    }
    Ok(Some(BoundColumn {
        names: path.clone()?,
        positions,
        dtype: part.union_nullability(around)?,
    }))
}
