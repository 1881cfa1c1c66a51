//! Keys for the rows of a column.
ghost use Rattle.std.specs.Prelude.{◌≡◌, ◌<◌, ℕ, List, [], length, map, false, is_some, slice_index_or, IsTrue, IfOk, IfSome};
ghost use Rattle.std.specs.List.{range_with_len};
ghost use Rattle.vortex_arrays_view.specs.Views.{HasValue};
ghost use Rattle.vortex_arrays_model.specs.Layout.{Strings, bools, numbers, strings, is_valid, by_array, rows_of, HasLength, len_of};
ghost use Rattle.vortex_arrays_buffer.specs.PrimitiveBuffers.{kind_of_numbers, integers_of};
ghost use Rattle.vortex_arrays_core.specs.LayoutOf.{valid_of};
ghost use Rattle.vortex_arrays_dictionary.specs.Columns.{is_plain_leaf, valid_flags, bytes_or_none};
ghost use Rattle.vortex_arrays_dictionary.specs.Keyed.{AreKeyed};

use crate::byte_key::ByteKey;
use bytes::Bytes;
use std::alloc::{AllocError, Global};
use vortex_arrays_buffer::bit_buffer::BitBuffer;
use vortex_arrays_buffer::primitive_buffer::PrimitiveBuffer;
use vortex_arrays_core::array::{ArrayLayout, ArrayRef, Validity};
use vortex_arrays_view::view::BinaryView;

/// A key for each row, meaningless where the row is null.
pub(crate) enum Keys<'a> {
    Truths(Vec<bool>),
    Integers(&'a PrimitiveBuffer),
    Bytes(Vec<ByteKey<'a>>),
}

impl<'a> Drop for Keys<'a> {
    fn drop(self) {
        match self {
            Keys::Truths(_keys) => {}
            Keys::Integers(_items) => {}
            Keys::Bytes(_keys) => {}
        }
    }
}

/// The keys of rows, and which rows are not null.
#[derive(Drop)]
pub(crate) struct KeyedRows<'a> {
    pub(crate) keys: Keys<'a>,
    pub(crate) present: Vec<bool>,
}

/// The keys of the rows of a plain column of booleans, integers, strings or bytes: its items.
/// `None` for any other column.
pub(crate) fn keyed_rows(
    alloc: Global,
    array: &ArrayRef,
) -> Result<Option<KeyedRows<'_>>, AllocError>
    ensures when { IfOk result (λ found. is_some found ≡ is_plain_leaf array.now) }
    ensures keyed { IfOk result
        (λ found. IfSome found (λ rows. AreKeyed rows (rows_of array.now))) }
{
    match array.layout() {
        ArrayLayout::Bool(bits, validity) => {
            let rows = keyed_bools(alloc, bits, validity)?;
            Ok(Some(rows))
        }
        ArrayLayout::Primitive(items, validity) => {
            let rows = keyed_integers(alloc, items, validity)?;
            Ok(Some(rows))
        }
        ArrayLayout::VarBinView(_, views, buffers, validity) => {
            let rows = keyed_strings(alloc, views.as_slice(), buffers.as_slice(), validity)?;
            Ok(Some(rows))
        }
        _ => Ok(None),
    }
}

fn keyed_bools<'a>(
    alloc: Global,
    bits: &'a BitBuffer,
    validity: &'a Validity,
) -> Result<KeyedRows<'a>, AllocError>
    requires { HasLength (valid_of validity.now) (length bits.now) }
    ensures { IfOk result
        (λ rows. AreKeyed rows (rows_of (bools bits.now (valid_of validity.now)))) }
{
    let present = present_rows(alloc, validity, bits.len())?;
    let truths = bits.to_bools(alloc)?;
    Ok(KeyedRows {
        keys: Keys::Truths(truths),
        present,
    })
}

// Integers are their own keys.
fn keyed_integers<'a>(
    alloc: Global,
    items: &'a PrimitiveBuffer,
    validity: &'a Validity,
) -> Result<KeyedRows<'a>, AllocError>
    requires { HasLength (valid_of validity.now) (length (integers_of items.now)) }
    ensures { IfOk result (λ rows. AreKeyed rows (rows_of (numbers (kind_of_numbers items.now)
        (integers_of items.now) (valid_of validity.now)))) }
{
    let present = present_rows(alloc, validity, items.len())?;
    Ok(KeyedRows {
        keys: Keys::Integers(items),
        present,
    })
}

#[tactic(auto, using(crate::proofs::ColumnLemmas::strings_there))]
fn keyed_strings<'a>(
    alloc: Global,
    views: &'a [BinaryView],
    buffers: &'a [Bytes],
    validity: &'a Validity,
) -> Result<KeyedRows<'a>, AllocError>
    requires values { (i : ℕ) → i < length views.now → IsTrue (is_valid (valid_of validity.now) i)
        → HasValue (slice_index_or views.now i []) buffers.now }
    requires fits { HasLength (valid_of validity.now) (length views.now) }
    ensures { IfOk result (λ rows. (s : Strings)
        → AreKeyed rows (rows_of (strings s views.now buffers.now (valid_of validity.now)))) }
{
    let present = present_rows(alloc, validity, views.len())?;
    let keys = byte_keys(alloc, views, buffers, present.as_slice())?;
    Ok(KeyedRows {
        keys: Keys::Bytes(keys),
        present,
    })
}

// The strings or bytes of the rows, borrowed. A null row has no bytes.
fn byte_keys<'a>(
    alloc: Global,
    views: &'a [BinaryView],
    buffers: &'a [Bytes],
    present: &[bool],
) -> Result<Vec<ByteKey<'a>>, AllocError>
    requires count { length present.now ≡ length views.now }
    requires values { (i : ℕ) → i < length views.now → IsTrue (slice_index_or present.now i false)
        → HasValue (slice_index_or views.now i []) buffers.now }
    ensures { IfOk result (λ keys. map (λ key. key.bytes.now) keys.items
        ≡ map (bytes_or_none views.now buffers.now present.now)
        (range_with_len 0 (length views.now))) }
{
    (0..views.len())
        .map(|i| byte_key_at(views, buffers, present, i))
        .collect(alloc)
}

fn byte_key_at<'a>(
    views: &'a [BinaryView],
    buffers: &'a [Bytes],
    present: &[bool],
    i: usize,
) -> ByteKey<'a>
    requires row { i < length views.now }
    requires count { length present.now ≡ length views.now }
    requires values { (i : ℕ) → i < length views.now → IsTrue (slice_index_or present.now i false)
        → HasValue (slice_index_or views.now i []) buffers.now }
    ensures { result.bytes.now ≡ bytes_or_none views.now buffers.now present.now i }
{
    if present[i] {
        let bytes = views[i].bytes(buffers);
        ByteKey { bytes }
    } else {
        ByteKey { bytes: &[] }
    }
}

// Whether each of `len` rows is not null.
#[tactic(auto, using(crate::proofs::ColumnLemmas::flags))]
fn present_rows(alloc: Global, validity: &Validity, len: usize) -> Result<Vec<bool>, AllocError>
    requires { HasLength (valid_of validity.now) len }
    ensures { IfOk result (λ rows. rows.items ≡ valid_flags (valid_of validity.now) len) }
{
    match validity {
        Validity::NonNullable => vec![in alloc; true; len],
        Validity::AllValid => vec![in alloc; true; len],
        Validity::AllInvalid => vec![in alloc; false; len],
        Validity::Array(rows) => truths_of(alloc, rows),
    }
}

// Whether each row is true.
fn truths_of(alloc: Global, rows: &ArrayRef) -> Result<Vec<bool>, AllocError>
    ensures { IfOk result
        (λ truths. truths.items ≡ valid_flags (by_array rows.now) (len_of rows.now)) }
{
    match packed_truths(rows) {
        Some(bits) => bits.to_bools(alloc),
        None => looked_up(alloc, rows),
    }
}

// The packed bits of booleans without null.
#[tactic(auto, using(crate::proofs::ColumnLemmas::packed))]
fn packed_truths(rows: &ArrayRef) -> Option<&BitBuffer>
    ensures { IfSome result
        (λ bits. bits.now ≡ valid_flags (by_array rows.now) (len_of rows.now)) }
{
    match rows.layout() {
        ArrayLayout::Bool(bits, Validity::NonNullable) => Some(bits),
        _ => None,
    }
}

// Whether each row is true, row by row.
fn looked_up(alloc: Global, rows: &ArrayRef) -> Result<Vec<bool>, AllocError>
    ensures { IfOk result
        (λ truths. truths.items ≡ valid_flags (by_array rows.now) (len_of rows.now)) }
{
    (0..rows.len()).map(|i| rows.truth(i)).collect(alloc)
}
