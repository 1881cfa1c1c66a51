//! What bound expressions are evaluated over.
ghost use Rattle.std.specs.Prelude.{◌≡◌, ◌≢◌, [], IfOk, IfErr, OnOk, OnErr, option_copied};
ghost use Rattle.vortex_dtype_core.specs.View.{type_of};
ghost use Rattle.vortex_arrays_model.specs.Layout.{array_type_of};
ghost use Rattle.vortex_stats_evaluate.specs.Scopes.{IsOf, IsAdded, stats_at, IsScopeFault};
ghost use Rattle.vortex_stats_evaluate.specs.Scopes.{answer_of};
ghost use Rattle.vortex_stats_expr.specs.Aggregate.{aggregate_of};
ghost use Rattle.vortex_stats_expr.specs.declared.error.StatsError.TheVariants.{Memory};

use crate::column::ColumnStats;
use crate::stat_scalar::stat_scalar;
use std::alloc::{AllocError, Global};
use vortex_arrays_core::array::ArrayRef;
use vortex_dtype_core::dtype::DType;
use vortex_dtype_ptype::field_names::FieldNames;
use vortex_stats_bind::bind::resolve;
use vortex_stats_bind::bound::{BoundExpression, bound_literal};
use vortex_stats_bind::stats::{StatBinder, null_of};
use vortex_stats_expr::aggregate::AggregateFn;
use vortex_stats_expr::error::StatsError;
use vortex_stats_set::stats_set::StatsSet;

/// Rows with statistics about them: what a bound expression is evaluated over.
#[derive(Clone, Drop)]
pub struct Scope {
    /// The rows at which predicates are evaluated. Proofs don't look at them.
    pub array: ArrayRef,
    /// The number of rows that the statistics are of, the value of a row count in an expression.
    pub rows: usize,
    columns: Vec<ColumnStats>,
}

impl Scope {
    /// A scope without statistics over `rows` rows, of which those of the array are a part or all.
    pub fn new(alloc: Global, array: ArrayRef, rows: usize) -> Scope
        ensures array { result.array ≡ array }
        ensures rows { result.rows ≡ rows }
        ensures columns { result.columns.items ≡ [] }
    {
        Scope {
            array,
            rows,
            columns: Vec::new(alloc),
        }
    }

    /// Adds the statistics of the column at a path of names. Where two sets are of one column, the
    /// first counts.
    ///
    /// `UnknownColumn` where the path leads nowhere in the array's type, and else `InvalidStat`
    /// where a statistic has a value that such a column can't have.
    pub fn add_stats(
        &mut self,
        alloc: Global,
        path: FieldNames,
        stats: StatsSet,
    ) -> Result<(), StatsError>
        ensures added { OnOk result (IsAdded (array_type_of self.old.array) path stats
            self.old.columns.items self.new.columns.items) }
        ensures array { self.new.array ≡ self.old.array }
        ensures rows { self.new.rows ≡ self.old.rows }
        ensures refused { IfErr result (λ e. e ≢ Memory
            → IsScopeFault (array_type_of self.old.array) path stats e) }
        ensures kept { OnErr result (self.new.columns.items ≡ self.old.columns.items) }
    {
        let column = column_of(alloc, self.array.dtype(), path, stats)?;
        self.columns.push(column)?;
        Ok(())
    }
}

// The first statistics of the column at these positions.
fn column_at<'a>(columns: &'a [ColumnStats], path: &[usize]) -> Option<&'a ColumnStats>
    ensures { option_copied result ≡ stats_at columns.now path.now }
{
    for column in columns {
        if column.is_at(path) {
            return Some(column);
        }
    }
    None
}

// The statistics of the column that a path of names leads to in rows of the type.
#[tactic(auto, using(crate::proofs::Adding::of_column))]
fn column_of(
    alloc: Global,
    dtype: &DType,
    path: FieldNames,
    stats: StatsSet,
) -> Result<ColumnStats, StatsError>
    ensures of { IfOk result (λ column. IsOf (type_of dtype.now) path stats column) }
    ensures refused { IfErr result (λ e. e ≢ Memory
        → IsScopeFault (type_of dtype.now) path stats e) }
{
    let Some(column) = resolve(alloc, &path, dtype)? else {
        return Err(StatsError::UnknownColumn);
    };
    if !stats.is_valid_for(&column.dtype) {
        return Err(StatsError::InvalidStat);
    }
    Ok(ColumnStats {
        path: column.positions,
        dtype: column.dtype,
        stats,
    })
}

/// A scope answers a placeholder by a literal of its value, which comes from the statistics at the
/// path of its column.
impl StatBinder for Scope {
    ghost use Rattle.vortex_stats_evaluate.specs.Scopes.{answers_by};

    ghost answers = { λ scope. answers_by scope.columns.items scope.rows };

    #[tactic(auto, using(crate::proofs::Telling::answered_by_scopes))]
    fn bind_aggregate(
        &self,
        alloc: Global,
        input: &BoundExpression,
        aggregate: AggregateFn,
        _stat_dtype: &DType,
    ) -> Result<Option<BoundExpression>, AllocError> {
        let Some(path) = input.as_column() else {
            return Ok(None);
        };
        match column_at(&self.columns, path) {
            Some(column) => bind_column(alloc, column, aggregate, self.rows),
            None => Ok(None),
        }
    }

    fn missing_stat(&self, alloc: Global, dtype: &DType) -> Result<BoundExpression, AllocError> {
        null_of(alloc, dtype)
    }
}

// A literal of the placeholder's value, and none where the column has no such placeholder.
#[tactic(auto, using(crate::proofs::Telling::answered_by_scopes))]
fn bind_column(
    alloc: Global,
    column: &ColumnStats,
    aggregate: AggregateFn,
    rows: usize,
) -> Result<Option<BoundExpression>, AllocError>
    ensures { IfOk result (λ found. found ≡ answer_of column.now rows (aggregate_of aggregate)) }
{
    match stat_scalar(alloc, aggregate, &column.stats, &column.dtype, rows) {
        Ok(scalar) => {
            let bound = bound_literal(alloc, scalar)?;
            Ok(Some(Box::into_inner(bound)))
        }
        Err(StatsError::Memory) => Err(AllocError),
        Err(_) => Ok(None),
    }
}
