//! Proofs bound to zone maps: their placeholders as columns of them.
ghost use Rattle.std.specs.Prelude.{◌≡◌, IfOk};
ghost use Rattle.std.specs.List.{position};
ghost use Rattle.vortex_model.specs.LogicalType.{nullable, with_nullability};
ghost use Rattle.vortex_model.specs.Path.{eq_positions};
ghost use Rattle.vortex_model_table.specs.Expression.{equal};
ghost use Rattle.vortex_dtype_core.specs.View.{type_of};
ghost use Rattle.vortex_stats_bind.specs.Bound.{test};
ghost use Rattle.vortex_stats_expr.specs.Aggregate.{aggregate_of};
ghost use Rattle.vortex_table_zonemaps.specs.Answers.{zone_column, null_counts, row_counts, no_rows, leaf_answer};
ghost use Rattle.vortex_table_zonemaps.specs.Proved.{zone_proved, IsResolved};

use crate::operands::ZoneRow;
use crate::place::{ZoneStat, positions_of};
use std::alloc::{AllocError, Global};
use vortex_dtype_core::dtype::DType;
use vortex_dtype_ptype::field_names::FieldNames;
use vortex_dtype_ptype::nullability::Nullability;
use vortex_scalar_core::scalar::Scalar;
use vortex_stats_bind::bound::{
    BoundColumn, BoundExpression, BoundNode, bound_compare, bound_literal,
};
use vortex_stats_bind::stats::{StatBinder, bind_stats_in_zones, null_of};
use vortex_stats_expr::aggregate::AggregateFn;
use vortex_stats_expr::operator::Comparison;
use vortex_stats_expr::stat::count_dtype;
use vortex_table_schema::leaves::LeafPath;

/// Whether the statistics of a zone make the proof true. No proof is never true.
pub fn is_proved(proof: &Option<BoundExpression>, zone: &ZoneRow) -> bool
    ensures { result ≡ zone_proved zone.now.bounds.now zone.now.rows proof.now }
{
    match proof {
        Some(proof) => proof.holds(zone),
        None => false,
    }
}

// A column of zone maps, of this type. It has no name, since nothing asks for one.
fn zone_column(
    alloc: Global,
    stat: ZoneStat,
    dtype: DType,
) -> Result<Box<BoundExpression>, AllocError>
    ensures { IfOk result (λ bound. bound.value ≡ zone_column (type_of dtype) stat) }
{
    let column = BoundColumn {
        names: FieldNames::empty(alloc),
        positions: positions_of(alloc, stat)?,
        dtype,
    };
    let node = BoundNode::Column(column);
    Ok(Box::new(alloc, BoundExpression { node })?)
}

fn bound_column(
    alloc: Global,
    stat: ZoneStat,
    dtype: &DType,
) -> Result<Box<BoundExpression>, AllocError>
    ensures { IfOk result (λ bound. bound.value
        ≡ zone_column (with_nullability nullable (type_of dtype.now)) stat) }
{
    let dtype = dtype.with_nullability(Nullability::Nullable)?;
    zone_column(alloc, stat, dtype)
}

fn null_counts(alloc: Global, leaf: usize) -> Result<Box<BoundExpression>, AllocError>
    ensures { IfOk result (λ bound. bound.value ≡ null_counts leaf) }
{
    zone_column(alloc, ZoneStat::NullCount(leaf), count_dtype())
}

fn row_counts(alloc: Global) -> Result<Box<BoundExpression>, AllocError>
    ensures { IfOk result (λ bound. bound.value ≡ row_counts) }
{
    zone_column(alloc, ZoneStat::Rows, count_dtype())
}

// Whether as many rows of the leaf are null as a zone has.
fn all_null(alloc: Global, leaf: usize) -> Result<Box<BoundExpression>, AllocError>
    ensures { IfOk result (λ bound. bound.value ≡ test equal (null_counts leaf) row_counts) }
{
    let nulls = null_counts(alloc, leaf)?;
    let all = row_counts(alloc)?;
    bound_compare(alloc, Comparison::Eq, nulls, all)
}

fn none_null(alloc: Global, leaf: usize) -> Result<Box<BoundExpression>, AllocError>
    ensures { IfOk result (λ bound. bound.value ≡ test equal (null_counts leaf) no_rows) }
{
    let nulls = null_counts(alloc, leaf)?;
    let none = bound_literal(alloc, Scalar::from(0u64))?;
    bound_compare(alloc, Comparison::Eq, nulls, none)
}

// What zone maps have for a statistic of the values, of this type, of the leaf at an index.
fn leaf_answer(
    alloc: Global,
    leaf: usize,
    dtype: &DType,
    aggregate: AggregateFn,
) -> Result<Option<BoundExpression>, AllocError>
    ensures { IfOk result
        (λ found. found ≡ leaf_answer leaf (type_of dtype.now) (aggregate_of aggregate)) }
{
    match aggregate {
        AggregateFn::Min => {
            let low = bound_column(alloc, ZoneStat::Low(leaf), dtype)?;
            Ok(Some(Box::into_inner(low)))
        }
        AggregateFn::Max => {
            let high = bound_column(alloc, ZoneStat::High(leaf), dtype)?;
            Ok(Some(Box::into_inner(high)))
        }
        AggregateFn::NullCount => {
            let nulls = null_counts(alloc, leaf)?;
            Ok(Some(Box::into_inner(nulls)))
        }
        AggregateFn::AllNull => {
            let all = all_null(alloc, leaf)?;
            Ok(Some(Box::into_inner(all)))
        }
        AggregateFn::AllNonNull => {
            let none = none_null(alloc, leaf)?;
            Ok(Some(Box::into_inner(none)))
        }
        AggregateFn::Sum => Ok(None),
        AggregateFn::NanCount => Ok(None),
        AggregateFn::UncompressedSizeInBytes => Ok(None),
        AggregateFn::MinMax => Ok(None),
        AggregateFn::AllNan => Ok(None),
        AggregateFn::AllNonNan => Ok(None),
    }
}

// The index of the leaf at these positions.
fn index_of(leaves: &[LeafPath], path: &[usize]) -> Option<usize>
    ensures { result ≡ position (λ leaf. eq_positions leaf path.now) leaves.now }
{
    leaves.iter().position(|leaf| leaf.equals(path))
}

/// The zone maps of leaf columns as a source of statistics, which answers columns of them.
#[derive(Clone, Copy)]
pub struct ZoneBinder<'a> {
    pub leaves: &'a [LeafPath],
}

impl StatBinder for ZoneBinder<'_> {
    ghost use Rattle.vortex_table_zonemaps.specs.Answers.{zone_answers};

    ghost answers = { λ binder. zone_answers binder.leaves.now };

    fn bind_aggregate(
        &self,
        alloc: Global,
        input: &BoundExpression,
        aggregate: AggregateFn,
        _stat_dtype: &DType,
    ) -> Result<Option<BoundExpression>, AllocError> {
        let Some(path) = input.as_column() else {
            return Ok(None);
        };
        let Some(leaf) = index_of(self.leaves, path) else {
            return Ok(None);
        };
        let dtype = input.dtype()?;
        leaf_answer(alloc, leaf, &dtype, aggregate)
    }

    fn missing_stat(&self, alloc: Global, dtype: &DType) -> Result<BoundExpression, AllocError> {
        null_of(alloc, dtype)
    }
}

/// The proof as a predicate over zone maps of these leaf columns, in time linear in the proof and
/// in the leaves for each placeholder.
pub fn resolve(
    alloc: Global,
    leaves: &[LeafPath],
    proof: &Option<BoundExpression>,
) -> Result<Option<BoundExpression>, AllocError>
    ensures { IfOk result (λ resolved. IsResolved leaves.now proof.now resolved) }
{
    let Some(proof) = proof else {
        return Ok(None);
    };
    let rows = row_counts(alloc)?;
    let bound = bind_stats_in_zones(alloc, proof, &ZoneBinder { leaves }, &rows)?;
    Ok(Some(bound))
}
