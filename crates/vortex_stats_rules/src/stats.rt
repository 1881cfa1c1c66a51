//! Proofs and their parts: statistics of bound expressions, of which those of a literal are known
//! and all others are placeholders, and literals.
ghost use Rattle.std.specs.Prelude.{◌≡◌, IfOk};
ghost use Rattle.vortex_dtype_core.specs.View.{type_of};
ghost use Rattle.vortex_stats_bind.specs.Bound.{test, placeholder_type};
ghost use Rattle.vortex_stats_expr.specs.Aggregate.{aggregate_of};
ghost use Rattle.vortex_stats_expr.specs.Tree.{comparison_of};
ghost use Rattle.vortex_stats_rules.specs.Table.{unboxed, fixed_truth, fixed_count, fixed_text, stat_of, end_of_values, nulls_of, nans_of};

use std::alloc::{AllocError, Global};
use vortex_dtype_core::BufferString;
use vortex_dtype_core::dtype::DType;
use vortex_dtype_ptype::nullability::Nullability;
use vortex_dtype_ptype::ptype::PType;
use vortex_scalar_builders::constructors::ScalarConstructors;
use vortex_scalar_core::scalar::Scalar;
use vortex_scalar_value::pvalue::PValue;
use vortex_scalar_value::scalar_value::ScalarValue;
use vortex_stats_bind::bound::{BoundExpression, bound_compare, bound_literal, bound_stat};
use vortex_stats_expr::aggregate::AggregateFn;
use vortex_stats_expr::aggregate_dtype::aggregate_dtype;
use vortex_stats_expr::operator::Comparison;

/// A proof, or a part of one. It is in a box from the start, since it ends up in one where it is
/// joined with others.
pub(crate) type Proof = Box<BoundExpression>;

/// A copy in a box.
pub(crate) fn copied(alloc: Global, x: &BoundExpression) -> Result<Proof, AllocError>
    ensures { IfOk result (λ copy. copy.value ≡ x.now) }
{
    let copy = x.clone()?;
    Ok(Box::new(alloc, copy)?)
}

/// The comparison of copies of the two.
pub(crate) fn compared(
    alloc: Global,
    comparison: Comparison,
    x: &BoundExpression,
    y: &BoundExpression,
) -> Result<Proof, AllocError>
    ensures { IfOk result
        (λ bound. bound.value ≡ test (comparison_of comparison) x.now y.now) }
{
    let left = copied(alloc, x)?;
    let right = copied(alloc, y)?;
    bound_compare(alloc, comparison, left, right)
}

/// The expression in the box, where there is one.
pub(crate) fn out_of_box(proof: Option<Proof>) -> Option<BoundExpression>
    ensures { result ≡ unboxed proof }
{
    match proof {
        Some(proof) => Some(Box::into_inner(proof)),
        None => None,
    }
}

/// The least or the greatest value. Each of a literal is the literal itself.
#[tactic(auto, using(crate::proofs::OfLiterals::ends))]
pub(crate) fn end_of_values(
    alloc: Global,
    aggregate: AggregateFn,
    x: &BoundExpression,
) -> Result<Proof, AllocError>
    ensures { IfOk result (λ end. end.value ≡ end_of_values (aggregate_of aggregate) x.now) }
{
    match x.as_literal() {
        Some(_) => copied(alloc, x),
        None => placeholder(alloc, aggregate, x),
    }
}

/// How many values are null. Of a literal one is, or none.
#[tactic(auto, using(crate::proofs::OfLiterals::null_counts))]
pub(crate) fn null_count(alloc: Global, x: &BoundExpression) -> Result<Proof, AllocError>
    ensures { IfOk result (λ nulls. nulls.value ≡ nulls_of x.now) }
{
    match x.as_literal() {
        Some(value) => count(alloc, u64::from(value.is_null())),
        None => placeholder(alloc, AggregateFn::NullCount, x),
    }
}

/// How many values are NaN. Of a literal none is, since no literal holds NaN.
#[tactic(auto, using(crate::proofs::OfLiterals::nan_counts))]
pub(crate) fn nan_count(alloc: Global, x: &BoundExpression) -> Result<Proof, AllocError>
    ensures { IfOk result (λ nans. nans.value ≡ nans_of x.now) }
{
    match x.as_literal() {
        Some(_) => count(alloc, 0),
        None => placeholder(alloc, AggregateFn::NanCount, x),
    }
}

pub(crate) fn placeholder(
    alloc: Global,
    aggregate: AggregateFn,
    x: &BoundExpression,
) -> Result<Proof, AllocError>
    ensures { IfOk result (λ found. found.value ≡ stat_of (aggregate_of aggregate) x.now) }
{
    let dtype = placeholder_dtype(alloc, aggregate, x)?;
    let input = copied(alloc, x)?;
    bound_stat(alloc, aggregate, input, dtype)
}

// The type of the statistic, and null's where the function doesn't take that of the values.
fn placeholder_dtype(
    alloc: Global,
    aggregate: AggregateFn,
    x: &BoundExpression,
) -> Result<DType, AllocError>
    ensures { IfOk result
        (λ dtype. type_of dtype ≡ placeholder_type (aggregate_of aggregate) x.now) }
{
    let dtype = x.dtype()?;
    match aggregate_dtype(alloc, aggregate, &dtype)? {
        Some(dtype) => Ok(dtype),
        None => Ok(DType::Null),
    }
}

/// A literal boolean, of the type without null.
#[tactic(auto, using(crate::proofs::Views::one_level))]
pub(crate) fn truth(alloc: Global, value: bool) -> Result<Proof, AllocError>
    ensures { IfOk result (λ found. found.value ≡ fixed_truth value) }
{
    let value = Scalar::new_unchecked(
        DType::Bool(Nullability::NonNullable),
        Some(ScalarValue::Bool(value)),
    );
    bound_literal(alloc, value)
}

/// A literal number of rows, of the type without null.
#[tactic(auto, using(crate::proofs::Views::one_level))]
pub(crate) fn count(alloc: Global, rows: u64) -> Result<Proof, AllocError>
    ensures { IfOk result (λ found. found.value ≡ fixed_count rows) }
{
    let value = Scalar::new_unchecked(
        DType::Primitive(PType::U64, Nullability::NonNullable),
        Some(ScalarValue::Primitive(PValue::U64(rows))),
    );
    bound_literal(alloc, value)
}

/// A literal string, of the type without null.
pub(crate) fn text(alloc: Global, value: BufferString) -> Result<Proof, AllocError>
    ensures { IfOk result (λ found. found.value ≡ fixed_text value) }
{
    bound_literal(alloc, Scalar::utf8(value, Nullability::NonNullable))
}
