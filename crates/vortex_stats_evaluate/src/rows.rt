//! The rows of an array by its columns.
ghost use Rattle.std.specs.Prelude.{◌≡◌, map, IfOk};
ghost use Rattle.vortex_arrays_model.specs.Layout.{rows_of};
ghost use Rattle.vortex_stats_bind.specs.Bound.{evaluate_bound};
ghost use Rattle.vortex_stats_bind.specs.OperandValue.{truth_content};
ghost use Rattle.vortex_stats_mask.specs.Wanted.{is_wanted};
ghost use Rattle.vortex_stats_select.specs.Wants.{row_among, wanted_rows};

use std::alloc::{AllocError, Global};
use vortex_arrays_builder::rows::row_value;
use vortex_arrays_core::array::ArrayRef;
use vortex_arrays_struct::part::part_at_positions;
use vortex_scalar_value::scalar_value::ScalarValue;
use vortex_stats_bind::bound::{BoundExpression, Operands, part_at, value_of};
use vortex_stats_bind::value::{Value, read, truth_of};
use vortex_stats_expr::aggregate::AggregateFn;
use vortex_stats_mask::column::Column;
use vortex_stats_select::columns::Columns;

// A row, one of a number of rows, where `None` is null, as the source of its columns.
#[derive(Drop)]
pub(crate) struct Row {
    pub(crate) value: Option<ScalarValue>,
    pub(crate) rows: u64,
}

impl Operands for Row {
    ghost use Rattle.vortex_scalar_value.specs.View.{content_in};
    ghost use Rattle.vortex_stats_select.specs.Wants.{row_among};

    ghost provided = { λ row. row_among row.rows (content_in row.value) };

    #[tactic(auto, using(crate::proofs::RowLemmas::nulls))]
    fn column<'a>(&'a self, path: &[usize]) -> Value<'a> {
        match &self.value {
            Some(row) => read(part_at(row, path)),
            None => Value::Null,
        }
    }

    fn statistic<'a>(&'a self, _input: &BoundExpression, _aggregate: AggregateFn) -> Value<'a> {
        Value::Null
    }

    fn rows(&self) -> u64 {
        self.rows
    }
}

#[tactic(auto, using(crate::proofs::RowLemmas::nulls))]
fn is_wanted(want: bool, truth: Option<bool>) -> bool
    ensures { result ≡ is_wanted want (truth_content truth) }
{
    match truth {
        Some(truth) => { if want { truth } else { !truth } }
        None => false,
    }
}

/// Whether the predicate has the wanted truth, where its columns and placeholders have these
/// values.
#[tactic(auto, using(crate::proofs::RowLemmas::told))]
pub fn is_wanted_at<S: Operands>(predicate: &BoundExpression, want: bool, source: &S) -> bool
    ensures { result ≡ is_wanted want (evaluate_bound (S.provided source.now) predicate.now) }
{
    is_wanted(want, truth_of(value_of(predicate, source)))
}

// By a look at each row.
fn test_each(
    alloc: Global,
    predicate: &BoundExpression,
    want: bool,
    array: &ArrayRef,
    rows: u64,
) -> Result<Vec<bool>, AllocError>
    ensures { IfOk result (λ mask. mask.items
        ≡ wanted_rows want predicate.now (map (row_among rows) (rows_of array.now))) }
{
    let len = array.len();
    let mut mask = Vec::with_capacity(alloc, len)?;
    for i in 0..len {
        let value = row_value(alloc, array, i)?;
        let row = Row { value, rows };
        mask.push(is_wanted_at(predicate, want, &row))?;
    }
    Ok(mask)
}

/// The rows of an array, which is a part of `rows` rows.
#[derive(Clone, Copy)]
pub struct ArrayColumns<'a> {
    pub array: &'a ArrayRef,
    pub rows: u64,
}

impl Columns for ArrayColumns<'_> {
    ghost use Rattle.std.specs.Prelude.{map};
    ghost use Rattle.vortex_arrays_model.specs.Layout.{rows_of};
    ghost use Rattle.vortex_stats_select.specs.Wants.{row_among};

    ghost rows = { λ columns. map (row_among columns.rows) (rows_of columns.array.now) };

    #[tactic(auto, using(crate::proofs::RowLemmas::counts))]
    fn len(&self) -> usize {
        self.array.len()
    }

    #[tactic(auto, using(crate::proofs::RowLemmas::parts))]
    fn column(&self, alloc: Global, path: &[usize]) -> Result<Option<ArrayRef>, AllocError> {
        part_at_positions(alloc, self.array, path)
    }

    fn leaf(&self, _path: &[usize]) -> Option<Column<'_>> {
        None
    }

    fn test_rows(
        &self,
        alloc: Global,
        predicate: &BoundExpression,
        want: bool,
    ) -> Result<Vec<bool>, AllocError> {
        test_each(alloc, predicate, want, self.array, self.rows)
    }
}
