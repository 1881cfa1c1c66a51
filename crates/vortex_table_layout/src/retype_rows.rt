//! The rows of an array converted to another type.
ghost use Rattle.std.specs.Prelude.{◌≡◌, ◌<◌, ◌+◌, ◌^◌, true, None, Option, map, IfOk, OnOk, IfErr, IsTrue};
ghost use Rattle.std.specs.List.{list_all};
ghost use Rattle.vortex_model.specs.Convert.{converts};
ghost use Rattle.vortex_model.specs.Refusal.{Refusal, not_convertible};
ghost use Rattle.vortex_model.specs.Valid.{valid};
ghost use Rattle.vortex_model.specs.Kept.{type_fault};
ghost use Rattle.vortex_model_table.specs.Command.{unless, first_unconvertible};
ghost use Rattle.vortex_arrays_model.specs.Layout.{len_of, array_type_of, content_at, rows_of};
ghost use Rattle.vortex_arrays_builder.specs.Types.{IsPlainLayout};
ghost use Rattle.vortex_dtype_core.specs.View.{type_of};
ghost use Rattle.vortex_scalar_core.specs.Scalar.{scalar_type, scalar_content};
ghost use Rattle.vortex_scalar_value.specs.View.{raw_of};
ghost use Rattle.vortex_table_schema.specs.Rows.{row_content};
ghost use Rattle.vortex_table_schema.specs.Error.{Explains};
ghost use Rattle.vortex_arrays_builder.specs.TooLarge.{AreTooLarge};

use crate::ranges::find_ranges;
use crate::rows::plain_rows;
use std::alloc::Global;
use vortex_arrays_cast::cast::cast_array_within;
use vortex_arrays_cast::ranges::LeafRange;
use vortex_arrays_core::array::ArrayRef;
use vortex_arrays_view::error::ArrayError;
use vortex_dtype_core::dtype::DType;
use vortex_scalar_core::scalar::Scalar;
use vortex_scalar_value::scalar_value::ScalarValue;
use vortex_table_chunk::chunk::Chunk;
use vortex_table_schema::append::convert_row;
use vortex_table_schema::error::TableError;

// The row at the index, as a value of the array's type.
fn row_at(alloc: Global, array: &ArrayRef, index: usize) -> Result<Scalar, TableError>
    requires { index < len_of array.now }
    ensures dtype { IfOk result (λ row. scalar_type row ≡ array_type_of array.now) }
    ensures content { IfOk result (λ row. scalar_content row ≡ content_at array.now index) }
    ensures refused { IfErr result (λ e. (fault : Option Refusal) → Explains ⊥ fault e) }
{
    match array.execute_scalar(alloc, index) {
        Ok(row) => Ok(row),
        Err(ArrayError::Memory) => Err(TableError::Memory),
        Err(_) => unreachable!(),
    }
}

// The row at the index, cast to the target type.
fn converted_row(
    alloc: Global,
    target: &DType,
    first: usize,
    array: &ArrayRef,
    index: usize,
) -> Result<ScalarValue, TableError>
    requires kept { type_fault (type_of target.now) ≡ None }
    requires within { index < len_of array.now }
    requires fits { first + len_of array.now < 2 ^ 64 }
    ensures converts { OnOk result (converts (array_type_of array.now) (type_of target.now)
        (content_at array.now index) ≡ true) }
    ensures content { IfOk result (λ row. row_content row ≡ content_at array.now index) }
    ensures valid { IfOk result (λ row. valid (type_of target.now) (raw_of row) ≡ true) }
    ensures refused { IfErr result (λ e. Explains ⊥
        (unless (converts (array_type_of array.now) (type_of target.now)
        (content_at array.now index)) (not_convertible (first + index))) e) }
{
    let row = row_at(alloc, array, index)?;
    let converted = convert_row(alloc, row.dtype(), target, first + index, row.value())?;
    Ok(converted)
}

/// The rows cast to the target type. `NotConvertible` has the index of the first row that the
/// target can't have, where the first row has the index `first`.
pub fn convert_rows(
    alloc: Global,
    target: &DType,
    first: usize,
    array: &ArrayRef,
) -> Result<Vec<ScalarValue>, TableError>
    requires kept { type_fault (type_of target.now) ≡ None }
    requires fits { first + len_of array.now < 2 ^ 64 }
    ensures converts { OnOk result (first_unconvertible first (array_type_of array.now)
        (type_of target.now) (rows_of array.now) ≡ None) }
    ensures content { IfOk result (λ new. map row_content new.items ≡ rows_of array.now) }
    ensures valid { IfOk result
        (λ new. IsTrue (list_all (λ row. valid (type_of target.now) (raw_of row)) new.items)) }
    ensures refused { IfErr result (λ e. Explains ⊥ (first_unconvertible first
        (array_type_of array.now) (type_of target.now) (rows_of array.now)) e) }
{
    let len = array.len();
    let mut converted = Vec::with_capacity(alloc, len)?;
    for index in 0..len {
        let row = converted_row(alloc, target, first, array, index)?;
        converted.push(row)?;
    }
    Ok(converted)
}

// The rows of the array, read and cast one by one, in plain layout.
fn convert_by_rows(
    alloc: Global,
    target: &DType,
    first: usize,
    array: &ArrayRef,
) -> Result<ArrayRef, TableError>
    requires kept { type_fault (type_of target.now) ≡ None }
    requires fits { first + len_of array.now < 2 ^ 64 }
    ensures dtype { IfOk result (λ new. array_type_of new ≡ type_of target.now) }
    ensures rows { IfOk result (λ new. rows_of new ≡ rows_of array.now) }
    ensures layout { IfOk result (λ new. IsPlainLayout new) }
    ensures converts { OnOk result (first_unconvertible first (array_type_of array.now)
        (type_of target.now) (rows_of array.now) ≡ None) }
    ensures refused { IfErr result (λ e. Explains
        (AreTooLarge (type_of target.now) (rows_of array.now)) (first_unconvertible first
        (array_type_of array.now) (type_of target.now) (rows_of array.now)) e) }
{
    let rows = convert_rows(alloc, target, first, array)?;
    let new = plain_rows(alloc, target, &rows)?;
    Ok(new)
}

/// The rows of the chunk as an array of the target type in plain layout: column by column if that
/// is possible, and else row by row, which finds the row at fault. `NotConvertible` has the index
/// of the first row that the target can't have, where the first row has the index `first`. `Total`
/// where a column of strings or bytes is too large for views and buffers.
///
/// The integers of a leaf column are not tested if the target has their least and their greatest.
/// `ranges` is a buffer for that. Names of fields are shared with `other` where that has the same
/// ones.
#[inline(never)]
#[tactic(auto, using(crate::proofs::ConvertedRows::all_convertible))]
pub(crate) fn convert_chunk<'a>(
    alloc: Global,
    ranges: &mut Vec<LeafRange<'a>>,
    target: &DType,
    first: usize,
    chunk: &'a Chunk,
    other: Option<&ArrayRef>,
) -> Result<ArrayRef, TableError>
    requires kept { type_fault (type_of target.now) ≡ None }
    requires fits { first + len_of chunk.now.array < 2 ^ 64 }
    ensures dtype { IfOk result (λ new. array_type_of new ≡ type_of target.now) }
    ensures rows { IfOk result (λ new. rows_of new ≡ rows_of chunk.now.array) }
    ensures layout { IfOk result (λ new. IsPlainLayout new) }
    ensures converts { OnOk result (first_unconvertible first (array_type_of chunk.now.array)
        (type_of target.now) (rows_of chunk.now.array) ≡ None) }
    ensures refused { IfErr result (λ e. Explains
        (AreTooLarge (type_of target.now) (rows_of chunk.now.array)) (first_unconvertible first
        (array_type_of chunk.now.array) (type_of target.now) (rows_of chunk.now.array)) e) }
{
    find_ranges(ranges, chunk)?;
    match cast_array_within(alloc, &chunk.array, target, ranges, other)? {
        Some(cast) => Ok(cast),
        None => convert_by_rows(alloc, target, first, &chunk.array),
    }
}
