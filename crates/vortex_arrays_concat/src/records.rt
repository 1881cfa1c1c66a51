//! The fields of struct arrays.
ghost use Rattle.std.specs.Prelude.{◌≡◌, IsTrue, IfOk, IfSome, All};
ghost use Rattle.vortex_arrays_struct.specs.Records.{AreRecords};
ghost use Rattle.vortex_arrays_concat.specs.Columns.{HaveField, fields_at, field_at, HasField};

use std::alloc::{AllocError, Global};
use vortex_arrays_core::array::{ArrayLayout, ArrayRef};

/// Whether all arrays are struct arrays.
#[tactic(auto, using(crate::proofs::RecordLemmas::records_seen))]
pub(crate) fn are_records(arrays: &[ArrayRef]) -> bool
    ensures { IsTrue result → All AreRecords arrays.now }
{
    for array in arrays {
        if !is_records(array) {
            return false;
        }
    }
    true
}

fn is_records(array: &ArrayRef) -> bool
    ensures { IsTrue result → AreRecords array.now }
{
    match array.layout() {
        ArrayLayout::Struct(_, _, _, _) => true,
        _ => false,
    }
}

/// The arrays of a field, if all have it.
#[tactic(auto, using(crate::proofs::RecordLemmas::fields_gathered))]
pub(crate) fn field_of_all(
    alloc: Global,
    arrays: &[ArrayRef],
    i: usize,
) -> Result<Option<Vec<ArrayRef>>, AllocError>
    ensures there { IfOk result (λ found. IfSome found (λ parts. HaveField arrays.now i)) }
    ensures parts { IfOk result
        (λ found. IfSome found (λ parts. parts.items ≡ fields_at i arrays.now)) }
{
    let mut parts = Vec::with_capacity(alloc, arrays.len())?;
    for array in arrays {
        match field_of(array, i) {
            Some(field) => parts.push(field.clone()?)?,
            None => return Ok(None),
        }
    }
    Ok(Some(parts))
}

#[tactic(auto, using(crate::proofs::RecordLemmas::field_there))]
fn field_of(array: &ArrayRef, i: usize) -> Option<&ArrayRef>
    ensures there { IfSome result (λ field. HasField i array.now) }
    ensures field { IfSome result (λ field. field.now ≡ field_at i array.now) }
{
    match array.layout() {
        ArrayLayout::Struct(_, fields, _, _) if i < fields.len() => Some(&fields[i]),
        _ => None,
    }
}
