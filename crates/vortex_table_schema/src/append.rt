//! The rows of an append: judged by the batch's type, and converted to the table's.
ghost use Rattle.std.specs.Prelude.{◌≡◌, ◌<◌, ◌+◌, ◌++◌, ◌∷◌, [], true, None, length, drop, map, option_map, IfOk, OnOk, IfErr, IsTrue};
ghost use Rattle.std.specs.Cow.{cow_slice_items};
ghost use Rattle.std.specs.List.{list_all};
ghost use Rattle.vortex_model.specs.Content.{content_of};
ghost use Rattle.vortex_model.specs.Valid.{valid};
ghost use Rattle.vortex_model.specs.Convert.{converts};
ghost use Rattle.vortex_model.specs.Kept.{type_fault};
ghost use Rattle.vortex_model.specs.Refusal.{invalid_value, not_convertible, or_else};
ghost use Rattle.vortex_model_table.specs.Command.{unless, first_invalid, first_unconvertible};
ghost use Rattle.vortex_dtype_core.specs.View.{type_of};
ghost use Rattle.vortex_scalar_value.specs.View.{raw_of, raw_in, raw_at, content_at};
ghost use Rattle.vortex_table_schema.specs.Rows.{row_content};
ghost use Rattle.vortex_table_schema.specs.Error.{Explains};

use crate::check::check_type;
use crate::error::TableError;
use std::alloc::{AllocError, Global};
use std::borrow::CowSlice;
use vortex_dtype_core::dtype::DType;
use vortex_scalar_ops::cast::convert_value;
use vortex_scalar_ops::validate::validate;
use vortex_scalar_value::error::ScalarError;
use vortex_scalar_value::scalar_value::ScalarValue;

// The index of the first row that isn't valid for the type.
fn first_invalid(dtype: &DType, values: &[Option<ScalarValue>]) -> Option<usize>
    ensures { option_map invalid_value result ≡ first_invalid 0 (type_of dtype.now)
        (map raw_in values.now) }
{
    for (index, value) in values.iter().enumerate() {
        if !validate(dtype, value.as_ref()) {
            return Some(index);
        }
    }
    None
}

/// Tests a batch before anything is kept of it: first its type, as `check_type`, and then each row,
/// `InvalidValue` with the index of the first that isn't valid for it.
pub fn check_batch(
    alloc: Global,
    dtype: &DType,
    values: &[Option<ScalarValue>],
) -> Result<(), TableError>
    ensures kept { OnOk result (type_fault (type_of dtype.now) ≡ None) }
    ensures valid { OnOk result (first_invalid 0 (type_of dtype.now) (map raw_in values.now)
        ≡ None) }
    ensures refused { IfErr result (λ e. Explains ⊥
        (or_else (type_fault (type_of dtype.now))
        (first_invalid 0 (type_of dtype.now) (map raw_in values.now))) e) }
{
    check_type(alloc, dtype)?;
    match first_invalid(dtype, values) {
        Some(row) => Err(TableError::InvalidValue(row)),
        None => Ok(()),
    }
}

/// The value, which is null or one of the source type, cast to the target type. Where that can't
/// hold it, `NotConvertible` with the index.
pub fn convert_row(
    alloc: Global,
    source: &DType,
    target: &DType,
    index: usize,
    value: Option<&ScalarValue>,
) -> Result<ScalarValue, TableError>
    requires kept { type_fault (type_of target.now) ≡ None }
    requires valid { valid (type_of source.now) (raw_at value) ≡ true }
    ensures converts { OnOk result
        (converts (type_of source.now) (type_of target.now) (content_at value.entry) ≡ true) }
    ensures content { IfOk result (λ row. row_content row ≡ content_at value.entry) }
    ensures valid { IfOk result (λ row. valid (type_of target.now) (raw_of row) ≡ true) }
    ensures refused { IfErr result (λ e. Explains ⊥
        (unless (converts (type_of source.now) (type_of target.now) (content_at value.entry))
        (not_convertible index)) e) }
{
    match convert_value(alloc, source, target, value) {
        Ok(Some(row)) => Ok(row),
        Ok(None) => Err(TableError::NotConvertible(index)),
        Err(ScalarError::Memory) => Err(TableError::Memory),
        Err(ScalarError::Invalid) => Err(TableError::NotConvertible(index)),
        Err(ScalarError::NotConvertible) => Err(TableError::NotConvertible(index)),
    }
}

// Pushes the value, cast to the target type. A refusal has the index that the row would have.
fn push_converted(
    alloc: Global,
    source: &DType,
    target: &DType,
    value: Option<&ScalarValue>,
    rows: &mut Vec<ScalarValue>,
) -> Result<(), TableError>
    requires kept { type_fault (type_of target.now) ≡ None }
    requires valid { valid (type_of source.now) (raw_at value) ≡ true }
    ensures converts { OnOk result
        (converts (type_of source.now) (type_of target.now) (content_at value.entry) ≡ true) }
    ensures content { OnOk result (map row_content rows.new.items ≡ map row_content rows.old.items
        ++ content_at value.entry ∷ []) }
    ensures valid { OnOk result
        (IsTrue (list_all (λ row. valid (type_of target.now) (raw_of row)) rows.old.items)
        → IsTrue (list_all (λ row. valid (type_of target.now) (raw_of row)) rows.new.items)) }
    ensures refused { IfErr result (λ e. Explains ⊥
        (unless (converts (type_of source.now) (type_of target.now) (content_at value.entry))
        (not_convertible (length rows.old.items))) e) }
{
    let row = convert_row(alloc, source, target, rows.len(), value)?;
    rows.push(row)?;
    Ok(())
}

// Frees the row, once it isn't read any more, where the rows were handed over.
fn free_row(values: &mut CowSlice<'_, Option<ScalarValue>>, index: usize)
    requires { index < length (cow_slice_items values.old) }
    ensures len { length (cow_slice_items values.new) ≡ length (cow_slice_items values.old) }
    ensures behind { drop (index + 1) (cow_slice_items values.new)
        ≡ drop (index + 1) (cow_slice_items values.old) }
{
    if let CowSlice::Owned(rows) = values {
        rows[index] = None;
    }
}

// As `convert_rows`, with each row cast, also where the types are the same.
fn cast_rows(
    alloc: Global,
    source: &DType,
    target: &DType,
    mut values: CowSlice<'_, Option<ScalarValue>>,
) -> Result<Vec<ScalarValue>, TableError>
    requires kept { type_fault (type_of target.now) ≡ None }
    requires valid { first_invalid 0 (type_of source.now) (map raw_in (cow_slice_items values))
        ≡ None }
    ensures converts { OnOk result (first_unconvertible 0 (type_of source.now) (type_of target.now)
        (map content_of (map raw_in (cow_slice_items values.entry))) ≡ None) }
    ensures content { IfOk result (λ rows. map row_content rows.items
        ≡ map content_of (map raw_in (cow_slice_items values.entry))) }
    ensures valid { IfOk result
        (λ rows. IsTrue (list_all (λ row. valid (type_of target.now) (raw_of row)) rows.items)) }
    ensures refused { IfErr result
        (λ e. Explains ⊥ (first_unconvertible 0 (type_of source.now) (type_of target.now)
        (map content_of (map raw_in (cow_slice_items values.entry)))) e) }
{
    let len = values.len();
    let mut rows = Vec::with_capacity(alloc, len)?;
    for index in 0..len {
        push_converted(
            alloc,
            source,
            target,
            values.as_slice()[index].as_ref(),
            &mut rows,
        )?;
        free_row(&mut values, index);
    }
    Ok(rows)
}

// The rows themselves, none of which is null, since a table's type has no null row.
fn keep_rows(
    alloc: Global,
    dtype: &DType,
    values: Vec<Option<ScalarValue>>,
) -> Result<Vec<ScalarValue>, AllocError>
    requires kept { type_fault (type_of dtype.now) ≡ None }
    requires valid { first_invalid 0 (type_of dtype.now) (map raw_in values.items) ≡ None }
    ensures content { IfOk result
        (λ rows. map row_content rows.items ≡ map content_of (map raw_in values.items)) }
    ensures valid { IfOk result
        (λ rows. IsTrue (list_all (λ row. valid (type_of dtype.now) (raw_of row)) rows.items)) }
{
    let mut rows = Vec::with_capacity(alloc, values.len())?;
    for value in values {
        let Some(row) = value else { unreachable!() };
        rows.push(row)?;
    }
    Ok(rows)
}

/// The rows cast from the source to the target type: `NotConvertible` with the index of the first
/// that the target can't hold. None after it is read. Rows that are handed over are kept as they
/// are where the types are the same, and else freed one by one as they are cast, so that the two
/// lists are never both in memory in full.
pub fn convert_rows(
    alloc: Global,
    source: &DType,
    target: &DType,
    values: CowSlice<'_, Option<ScalarValue>>,
) -> Result<Vec<ScalarValue>, TableError>
    requires kept { type_fault (type_of target.now) ≡ None }
    requires valid { first_invalid 0 (type_of source.now) (map raw_in (cow_slice_items values))
        ≡ None }
    ensures converts { OnOk result (first_unconvertible 0 (type_of source.now) (type_of target.now)
        (map content_of (map raw_in (cow_slice_items values.entry))) ≡ None) }
    ensures content { IfOk result (λ rows. map row_content rows.items
        ≡ map content_of (map raw_in (cow_slice_items values.entry))) }
    ensures valid { IfOk result
        (λ rows. IsTrue (list_all (λ row. valid (type_of target.now) (raw_of row)) rows.items)) }
    ensures refused { IfErr result
        (λ e. Explains ⊥ (first_unconvertible 0 (type_of source.now) (type_of target.now)
        (map content_of (map raw_in (cow_slice_items values.entry)))) e) }
{
    match values {
        CowSlice::Owned(values) => {
            if *source == *target {
                let rows = keep_rows(alloc, target, values)?;
                return Ok(rows);
            }
            cast_rows(alloc, source, target, CowSlice::Owned(values))
        }
        CowSlice::Borrowed(values) => {
            cast_rows(alloc, source, target, CowSlice::Borrowed(values))
        }
    }
}
