//! Columns whose rows are all equal.
ghost use Rattle.std.specs.Prelude.{◌≡◌, ◌<◌, List, length, false, is_some, slice_index_or, IfOk, IfSome};
ghost use Rattle.std.specs.Ordering.{int_eq};
ghost use Rattle.vortex_model.specs.Content.{Content, null, equal_content};
ghost use Rattle.vortex_scalar_ops.specs.Equality.{holds_variant};
ghost use Rattle.vortex_arrays_model.specs.Layout.{rows_of};
ghost use Rattle.vortex_arrays_buffer.specs.PrimitiveBuffers.{integers_of};
ghost use Rattle.vortex_arrays_builder.specs.Fits.{fits_constant};
ghost use Rattle.vortex_arrays_dictionary.specs.Columns.{is_plain_leaf};
ghost use Rattle.vortex_arrays_dictionary.specs.Firsts.{AreKeysOf};
ghost use Rattle.vortex_arrays_dictionary.specs.Keyed.{AreKeyed, AreAsMany};

use crate::keyed::{KeyedRows, Keys, keyed_rows};
use std::alloc::{AllocError, Global};
use vortex_arrays_buffer::primitive_buffer::PrimitiveBuffer;
use vortex_arrays_core::array::ArrayRef;

/// Whether an array of booleans, integers, strings or bytes has rows and all are equal, where nulls
/// are equal, as Vortex's `is_constant`. It makes no value of a row, and compares keys of rows up
/// to the first that differs. `None` where the array is not in plain layout.
#[tactic(auto, using(crate::proofs::KeyedLemmas::told))]
pub fn is_constant(alloc: Global, array: &ArrayRef) -> Result<Option<bool>, AllocError>
    ensures when { IfOk result (λ found. is_some found ≡ is_plain_leaf array.now) }
    ensures equal { IfOk result
        (λ found. IfSome found (λ equal. equal ≡ fits_constant (rows_of array.now))) }
{
    let Some(rows) = keyed_rows(alloc, array)? else {
        return Ok(None);
    };
    let equal = are_equal(&rows);
    Ok(Some(equal))
}

// Whether there are rows and all are equal. The type of their keys is matched once.
fn are_equal(rows: &KeyedRows<'_>) -> bool
    requires { AreAsMany rows.now }
    ensures { (cs : List Content) → AreKeyed rows.now cs → result ≡ fits_constant cs }
{
    let present = rows.present.as_slice();
    match &rows.keys {
        Keys::Truths(keys) => all_equal(keys.as_slice(), present),
        Keys::Integers(items) => items_equal(items, present),
        Keys::Bytes(keys) => all_equal(keys.as_slice(), present),
    }
}

// Whether there are rows and all are equal, with integers as keys. Their type is matched once.
fn items_equal(items: &PrimitiveBuffer, present: &[bool]) -> bool
    requires { length present.now ≡ length (integers_of items.now) }
    ensures { (cs : List Content) → AreKeysOf int_eq (integers_of items.now) present.now cs
        → holds_variant (slice_index_or cs 0 null) ≡ false → result ≡ fits_constant cs }
{
    match items {
        PrimitiveBuffer::U8(items) => all_equal(items.as_slice(), present),
        PrimitiveBuffer::U16(items) => all_equal(items.as_slice(), present),
        PrimitiveBuffer::U32(items) => all_equal(items.as_slice(), present),
        PrimitiveBuffer::U64(items) => all_equal(items.as_slice(), present),
        PrimitiveBuffer::I8(items) => all_equal(items.as_slice(), present),
        PrimitiveBuffer::I16(items) => all_equal(items.as_slice(), present),
        PrimitiveBuffer::I32(items) => all_equal(items.as_slice(), present),
        PrimitiveBuffer::I64(items) => all_equal(items.as_slice(), present),
    }
}

// Whether there are rows and each is equal to the first.
fn all_equal<K: Copy + Eq>(keys: &[K], present: &[bool]) -> bool
    requires { length present.now ≡ length keys.now }
    ensures { (cs : List Content) → AreKeysOf K.eq keys.now present.now cs
        → holds_variant (slice_index_or cs 0 null) ≡ false → result ≡ fits_constant cs }
{
    for i in 0..keys.len() {
        if !are_same(keys, present, 0, i) {
            return false;
        }
    }
    !keys.is_empty()
}

// Whether two rows are null or have equal keys.
fn are_same<K: Copy + Eq>(keys: &[K], present: &[bool], i: usize, j: usize) -> bool
    requires many { length present.now ≡ length keys.now }
    requires one { i < length keys.now }
    requires other { j < length keys.now }
    ensures { (cs : List Content) → AreKeysOf K.eq keys.now present.now cs
        → result ≡ equal_content (slice_index_or cs i null) (slice_index_or cs j null) }
{
    if present[i] && present[j] {
        keys[i] == keys[j]
    } else {
        present[i] == present[j]
    }
}
