//! The rows of an array as values, and rows of values as an array.
ghost use Rattle.std.specs.Prelude.{◌≡◌, true, [], None, Option, map, IfOk, OnOk, IfErr, IsTrue, All};
ghost use Rattle.std.specs.List.{list_all};
ghost use Rattle.vortex_model.specs.Kept.{type_fault};
ghost use Rattle.vortex_model.specs.Refusal.{Refusal};
ghost use Rattle.vortex_model.specs.Valid.{valid};
ghost use Rattle.vortex_dtype_core.specs.View.{type_of};
ghost use Rattle.vortex_scalar_value.specs.View.{raw_of, raw_in, raw_at, content_in};
ghost use Rattle.vortex_table_schema.specs.Rows.{row_content};
ghost use Rattle.vortex_table_schema.specs.Error.{Explains};
ghost use Rattle.vortex_arrays_model.specs.Layout.{array_type_of, rows_of};
ghost use Rattle.vortex_arrays_builder.specs.TooLarge.{AreTooLarge};
ghost use Rattle.vortex_table_layout.specs.Hinted.{IsPlainLayout, HasHintedColumns};

use std::alloc::{AllocError, Global};
use vortex_arrays_builder::plain::build_plain;
use vortex_arrays_builder::rows::row_value;
use vortex_arrays_core::array::ArrayRef;
use vortex_arrays_view::error::ArrayError;
use vortex_dtype_core::dtype::DType;
use vortex_scalar_value::scalar_value::ScalarValue;
use vortex_table_schema::error::TableError;

/// The values of all rows, in order, and `None` for null.
#[tactic(auto, using(crate::proofs::RowLemmas::rows))]
pub fn row_values(alloc: Global, array: &ArrayRef) -> Result<Vec<Option<ScalarValue>>, AllocError>
    ensures rows { IfOk result (λ rows. map content_in rows.items ≡ rows_of array.now) }
    ensures valid { IfOk result
        (λ rows. All (λ row. valid (array_type_of array.now) (raw_in row) ≡ true) rows.items) }
{
    let len = array.len();
    let mut rows = Vec::with_capacity(alloc, len)?;
    for i in 0..len {
        let row = row_value(alloc, array, i)?;
        rows.push(row)?;
    }
    Ok(rows)
}

/// The rows as an array of the type in plain layout. `Total` where a column of strings or bytes is
/// too large for views and buffers.
#[tactic(auto, using(crate::proofs::RowLemmas::plain))]
pub fn plain_rows(
    alloc: Global,
    dtype: &DType,
    rows: &[ScalarValue],
) -> Result<ArrayRef, TableError>
    requires kept { type_fault (type_of dtype.now) ≡ None }
    requires valid { IsTrue (list_all (λ row. valid (type_of dtype.now) (raw_of row)) rows.now) }
    ensures dtype { IfOk result (λ array. array_type_of array ≡ type_of dtype.now) }
    ensures rows { IfOk result (λ array. rows_of array ≡ map row_content rows.now) }
    ensures layout { IfOk result (λ array. IsPlainLayout array) }
    ensures columns { IfOk result (λ array. HasHintedColumns [] array) }
    ensures accepted { OnOk result
        (¬ AreTooLarge (type_of dtype.now) (map row_content rows.now)) }
    ensures refused { IfErr result (λ e. (fault : Option Refusal)
        → Explains (AreTooLarge (type_of dtype.now) (map row_content rows.now)) fault e) }
{
    let values = borrowed(alloc, rows)?;
    match build_plain(alloc, dtype, values.as_slice()) {
        Ok(array) => Ok(array),
        Err(ArrayError::Memory) => Err(TableError::Memory),
        Err(ArrayError::Total) => Err(TableError::Total),
        Err(_) => unreachable!(),
    }
}

// The rows, borrowed one by one.
#[tactic(auto, using(crate::proofs::RowLemmas::lent))]
fn borrowed<'a>(
    alloc: Global,
    rows: &'a [ScalarValue],
) -> Result<Vec<Option<&'a ScalarValue>>, AllocError>
    ensures { IfOk result (λ values. map raw_at values.items ≡ map raw_of rows.now) }
{
    let mut values = Vec::with_capacity(alloc, rows.len())?;
    for row in rows {
        values.push(Some(row))?;
    }
    Ok(values)
}
