//! Arrays of any layout put into plain layout one by one.
ghost use Rattle.std.specs.Prelude.{◌≡◌, ◌↔◌, IsTrue, IfOk, IfErr, IfSome};
ghost use Rattle.vortex_dtype_core.specs.View.{type_of};
ghost use Rattle.vortex_arrays_model.specs.Layout.{array_type_of};
ghost use Rattle.vortex_arrays_builder.specs.Types.{HasPlain};
ghost use Rattle.vortex_arrays_concat.specs.PlainParts.{IsPlainPart, ArePlainParts};

use crate::plain_types::has_plain;
use crate::rows::{lend, rows_in};
use std::alloc::{AllocError, Global};
use vortex_arrays_builder::plain::build_plain;
use vortex_arrays_cast::cast::cast_array;
use vortex_arrays_core::array::ArrayRef;
use vortex_arrays_view::error::ArrayError;
use vortex_dtype_core::dtype::DType;

/// The arrays, each in plain layout. `None` where there is none, where they are not all of this
/// type, where it has no plain layout, or where an array's strings or bytes are too large for one.
#[tactic(auto, using(crate::proofs::PlainLemmas::gathered))]
pub(crate) fn plain_parts(
    alloc: Global,
    dtype: &DType,
    arrays: &[ArrayRef],
) -> Result<Option<Vec<ArrayRef>>, AllocError>
    ensures { IfOk result (λ found. IfSome found
        (λ parts. ArePlainParts (type_of dtype.now) arrays.now parts.items)) }
{
    if arrays.is_empty() {
        return Ok(None);
    }
    if !has_plain(dtype) {
        return Ok(None);
    }
    let mut parts = Vec::with_capacity(alloc, arrays.len())?;
    for array in arrays {
        let Some(part) = plain_part(alloc, dtype, array)? else {
            return Ok(None);
        };
        parts.push(part)?;
    }
    Ok(Some(parts))
}

// The array cast column by column, or else built of the values of its rows.
#[tactic(auto, using(crate::proofs::PlainLemmas::cast))]
fn plain_part(
    alloc: Global,
    dtype: &DType,
    array: &ArrayRef,
) -> Result<Option<ArrayRef>, AllocError>
    requires { HasPlain (type_of dtype.now) }
    ensures { IfOk result
        (λ found. IfSome found (λ part. IsPlainPart (type_of dtype.now) array.now part)) }
{
    if !is_of_type(array, dtype) {
        return Ok(None);
    }
    if let Some(part) = cast_array(alloc, array, dtype)? {
        return Ok(Some(part));
    }
    match build_part(alloc, dtype, array) {
        Ok(part) => Ok(Some(part)),
        Err(ArrayError::Memory) => Err(AllocError),
        Err(_total) => Ok(None),
    }
}

// The array built of the values of its rows.
#[tactic(auto, using(crate::proofs::PlainLemmas::built))]
fn build_part(alloc: Global, dtype: &DType, array: &ArrayRef) -> Result<ArrayRef, ArrayError>
    requires kind { HasPlain (type_of dtype.now) }
    requires own { array_type_of array.now ≡ type_of dtype.now }
    ensures { IfOk result (IsPlainPart (type_of dtype.now) array.now) }
{
    let rows = rows_in(alloc, array)?;
    let lent = lend(alloc, rows.as_slice())?;
    build_plain(alloc, dtype, lent.as_slice())
}

/// Whether the array is of the type.
pub(crate) fn is_of_type(array: &ArrayRef, dtype: &DType) -> bool
    ensures { IsTrue result ↔ (array_type_of array.now ≡ type_of dtype.now) }
{
    *array.dtype() == *dtype
}
