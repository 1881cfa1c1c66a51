//! Columns of a table of zones as a source of statistics.
//!
//! A row of the table is a zone: the number of its rows, a record of lower bounds, one of upper
//! bounds and one of null counts, the last three with a field for each column of the rows. So the
//! statistics of a leaf column are at its own path, below the first, second and third field.
ghost use Rattle.std.specs.Prelude.{◌≡◌, ◌∷◌, [], IfOk};
ghost use Rattle.vortex_dtype_core.specs.View.{type_of};
ghost use Rattle.vortex_stats_bind.specs.Bound.{place};
ghost use Rattle.vortex_stats_expr.specs.Aggregate.{aggregate_of};
ghost use Rattle.example_reader.specs.Zones.{row_counts, column_answer};

use std::alloc::{AllocError, Global};
use vortex_dtype::{DType, FieldNames, Nullability, PType};
use vortex_stats::{AggregateFn, BoundColumn, BoundExpression, BoundNode, StatBinder, null_of};

// The column of the table at this path below one of its fields. It has no name, since nothing asks
// for one.
fn column(
    alloc: Global,
    field: usize,
    path: &[usize],
    dtype: DType,
) -> Result<BoundExpression, AllocError>
    ensures { IfOk result (λ bound. bound ≡ place [] (field ∷ path.now) (type_of dtype)) }
{
    let mut positions = vec![in alloc; field]?;
    positions.extend_from_slice(path)?;
    let names = FieldNames::empty(alloc);
    let node = BoundNode::Column(BoundColumn {
        names,
        positions,
        dtype,
    });
    Ok(BoundExpression { node })
}

/// The column with the number of rows of each zone.
pub fn row_counts(alloc: Global) -> Result<BoundExpression, AllocError>
    ensures { IfOk result (λ bound. bound ≡ row_counts) }
{
    let count = DType::Primitive(PType::U64, Nullability::NonNullable);
    column(alloc, 0, &[], count)
}

// What the table has for a statistic of the column at this path, whose values are of this type.
#[tactic(auto, using(crate::proofs::ZoneLemmas::others))]
fn column_answer(
    alloc: Global,
    path: &[usize],
    dtype: &DType,
    aggregate: AggregateFn,
) -> Result<Option<BoundExpression>, AllocError>
    ensures { IfOk result
        (λ found. found ≡ column_answer path.now (type_of dtype.now) (aggregate_of aggregate)) }
{
    let (field, dtype) = match aggregate {
        AggregateFn::Min => (1, dtype.as_nullable()?),
        AggregateFn::Max => (2, dtype.as_nullable()?),
        AggregateFn::NullCount => (3, DType::Primitive(PType::U64, Nullability::Nullable)),
        _ => return Ok(None),
    };
    let found = column(alloc, field, path, dtype)?;
    Ok(Some(found))
}

/// The columns of a table of zones as a source of statistics.
#[derive(Clone, Copy, Drop)]
pub struct ZoneColumns {}

impl StatBinder for ZoneColumns {
    ghost use Rattle.example_reader.specs.Zones.{zone_answers};

    ghost answers = { λ _. zone_answers };

    fn bind_aggregate(
        &self,
        alloc: Global,
        input: &BoundExpression,
        aggregate: AggregateFn,
        _stat_dtype: &DType,
    ) -> Result<Option<BoundExpression>, AllocError> {
        match &input.node {
            BoundNode::Column(column) => {
                if !column.dtype.is_leaf() {
                    return Ok(None);
                }
                column_answer(alloc, &column.positions, &column.dtype, aggregate)
            }
            _ => Ok(None),
        }
    }

    fn missing_stat(&self, alloc: Global, dtype: &DType) -> Result<BoundExpression, AllocError> {
        null_of(alloc, dtype)
    }
}
