//! Columns of any type end to end: leaves, and the columns in structs and lists.
ghost use Rattle.std.specs.Prelude.{◌≡◌, ◌<◌, length, IfOk, IfSome};
ghost use Rattle.vortex_arrays_concat.specs.EndToEnd.{rows_in_all};
ghost use Rattle.vortex_arrays_concat.specs.Columns.{AreFields, IsJoined};

use crate::columns::{concat_leaves, concat_validity};
use crate::fixed_lists::elements_of_all;
use crate::lists::{Lists, lists_of_all, of_lists};
use crate::plain_parts::plain_parts;
use crate::records::{are_records, field_of_all};
use std::alloc::{AllocError, Global};
use vortex_arrays_core::array::{ArrayLayout, ArrayRef};
use vortex_dtype_core::dtype::DType;
use vortex_dtype_core::struct_fields::StructField;

/// The rows of arrays of a type, one array after another, `count` in all: column by column where
/// the arrays have one layout, and else after each is put into plain layout. `None` where neither
/// is possible.
#[cycle(concat)]
#[tactic(auto, using(crate::proofs::PlainLemmas::joined))]
pub(crate) fn concat_column(
    alloc: Global,
    dtype: &DType,
    arrays: &[ArrayRef],
    count: usize,
) -> Result<Option<ArrayRef>, AllocError>
    requires { count ≡ rows_in_all arrays.now }
    ensures { IfOk result (λ found. IfSome found (λ a. IsJoined arrays.now a)) }
{
    if let Some(array) = concat_alike(alloc, dtype, arrays, count)? {
        return Ok(Some(array));
    }
    let Some(parts) = plain_parts(alloc, dtype, arrays)? else {
        return Ok(None);
    };
    concat_alike(alloc, dtype, parts.as_slice(), count)
}

// The rows of arrays of one layout, without dictionaries and constants.
#[cycle(concat)]
fn concat_alike(
    alloc: Global,
    dtype: &DType,
    arrays: &[ArrayRef],
    count: usize,
) -> Result<Option<ArrayRef>, AllocError>
    requires { count ≡ rows_in_all arrays.now }
    ensures { IfOk result (λ found. IfSome found (λ a. IsJoined arrays.now a)) }
{
    if arrays.is_empty() {
        return Ok(None);
    }
    match dtype {
        DType::Struct(fields, _) => concat_records(alloc, fields.as_slice(), arrays, count),
        DType::FixedSizeList(element, size, _) => {
            concat_fixed_lists(alloc, element, *size, arrays, count)
        }
        DType::List(element, _) => concat_lists(alloc, dtype, element, arrays, count),
        _ => concat_leaves(alloc, arrays, count),
    }
}

// Struct arrays, field by field.
#[cycle(concat)]
#[tactic(auto, using(crate::proofs::RecordLemmas::joined))]
fn concat_records(
    alloc: Global,
    types: &[StructField],
    arrays: &[ArrayRef],
    count: usize,
) -> Result<Option<ArrayRef>, AllocError>
    requires some { 0 < length arrays.now }
    requires count { count ≡ rows_in_all arrays.now }
    ensures { IfOk result (λ found. IfSome found (λ a. IsJoined arrays.now a)) }
{
    let ArrayLayout::Struct(names, own, _, _) = arrays[0].layout() else {
        return Ok(None);
    };
    if own.len() != types.len() {
        return Ok(None);
    }
    if !are_records(arrays) {
        return Ok(None);
    }
    let Some(fields) = concat_fields(alloc, types, arrays, count)? else {
        return Ok(None);
    };
    let validity = concat_validity(alloc, arrays, count)?;
    let array = ArrayRef::of_records(alloc, names.clone()?, fields, count, validity)?;
    Ok(Some(array))
}

// The fields by position, each of all arrays, if all have them.
#[cycle(concat)]
#[tactic(auto, using(crate::proofs::RecordLemmas::fields_made))]
fn concat_fields(
    alloc: Global,
    types: &[StructField],
    arrays: &[ArrayRef],
    count: usize,
) -> Result<Option<Vec<ArrayRef>>, AllocError>
    requires { count ≡ rows_in_all arrays.now }
    ensures { IfOk result
        (λ found. IfSome found (λ fields. AreFields arrays.now (length types.now) fields.items)) }
{
    let mut fields = Vec::with_capacity(alloc, types.len())?;
    for i in 0..types.len() {
        let Some(parts) = field_of_all(alloc, arrays, i)? else {
            return Ok(None);
        };
        let Some(field) = concat_column(alloc, &types[i].dtype, parts.as_slice(), count)? else {
            return Ok(None);
        };
        // Proves that its parts fit together.
        let _rows = field.len();
        fields.push(field)?;
    }
    Ok(Some(fields))
}

// Fixed-size lists, by their elements.
#[cycle(concat)]
#[tactic(auto, using(crate::proofs::FixedLemmas::fixed))]
fn concat_fixed_lists(
    alloc: Global,
    element: &DType,
    size: u32,
    arrays: &[ArrayRef],
    count: usize,
) -> Result<Option<ArrayRef>, AllocError>
    requires some { 0 < length arrays.now }
    requires count { count ≡ rows_in_all arrays.now }
    ensures { IfOk result (λ found. IfSome found (λ a. IsJoined arrays.now a)) }
{
    let Some(parts) = elements_of_all(alloc, size, arrays)? else {
        return Ok(None);
    };
    let Some(total) = count.checked_mul(size as usize) else {
        return Ok(None);
    };
    let Some(elements) = concat_column(alloc, element, parts.as_slice(), total)? else {
        return Ok(None);
    };
    let validity = concat_validity(alloc, arrays, count)?;
    let array = ArrayRef::of_fixed_lists(alloc, elements, size, count, validity)?;
    Ok(Some(array))
}

// Lists of any size without gaps, for arrays in plain layout.
#[cycle(concat)]
fn concat_lists(
    alloc: Global,
    dtype: &DType,
    element: &DType,
    arrays: &[ArrayRef],
    count: usize,
) -> Result<Option<ArrayRef>, AllocError>
    requires { count ≡ rows_in_all arrays.now }
    ensures { IfOk result (λ found. IfSome found (λ a. IsJoined arrays.now a)) }
{
    let Some(parts) = plain_parts(alloc, dtype, arrays)? else {
        return Ok(None);
    };
    let Some(lists) = lists_of_all(alloc, parts.as_slice(), count)? else {
        return Ok(None);
    };
    let Lists {
        elements,
        offsets,
        sizes,
        total,
    } = lists;
    let Some(joined) = concat_column(alloc, element, elements.as_slice(), total)? else {
        return Ok(None);
    };
    let validity = concat_validity(alloc, parts.as_slice(), count)?;
    let array = of_lists(alloc, joined, offsets, sizes, validity)?;
    Ok(Some(array))
}
