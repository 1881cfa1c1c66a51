//! Columns without children.
ghost use Rattle.std.specs.Prelude.{◌≡◌, ◌<◌, ◌≤◌, ◌+◌, ◌++◌, OnOk, codes, false, length, map};
ghost use Rattle.vortex_arrays_model.specs.Layout.{
  bools,
  numbers,
  strings,
  content_at,
  span,
  HasLength,
  IsSound,
};
ghost use Rattle.vortex_arrays_buffer.specs.PrimitiveBuffers.{kind_of_numbers, integers_of};
ghost use Rattle.vortex_arrays_core.specs.LayoutOf.{valid_of, strings_of};
ghost use Rattle.vortex_table_response.specs.Text.{content_text, contents_text};

use crate::native::Digits;
use bytes::Bytes;
use std::alloc::AllocError;
use vortex_arrays_buffer::{BitBuffer, PrimitiveBuffer};
use vortex_arrays_core::array::{StringKind, Validity};
use vortex_arrays_view::view::BinaryView;
use vortex_table_response::type_texts::{push_comma, push_text};
use vortex_table_response::{push_bytes, push_flag};

/// Writes `null`.
pub(crate) fn push_null(out: &mut Vec<u8>) -> Result<(), AllocError>
    ensures { OnOk result (out.new.items ≡ out.old.items ++ codes "null") }
{
    out.extend_from_slice(b"null")
}

/// Writes the boolean of a row.
pub(crate) fn push_truth(
    out: &mut Vec<u8>,
    bits: &BitBuffer,
    validity: &Validity,
    i: usize,
) -> Result<(), AllocError>
    requires within { i < length bits.now }
    requires fits { HasLength (valid_of validity.now) (length bits.now) }
    ensures { OnOk result (out.new.items ≡ out.old.items
        ++ content_text (content_at (bools bits.now (valid_of validity.now)) i)) }
{
    if validity.is_valid(i, bits.len()) {
        push_flag(out, bits.value(i))
    } else {
        push_null(out)
    }
}

/// Writes the string or the bytes of a row.
pub(crate) fn push_string(
    out: &mut Vec<u8>,
    kind: StringKind,
    views: &[BinaryView],
    buffers: &[Bytes],
    validity: &Validity,
    i: usize,
) -> Result<(), AllocError>
    requires within { i < length views.now }
    requires sound { IsSound
        (strings (strings_of kind) views.now buffers.now (valid_of validity.now)) }
    ensures { OnOk result (out.new.items ≡ out.old.items ++ content_text
        (content_at (strings (strings_of kind) views.now buffers.now (valid_of validity.now)) i)) }
{
    if !validity.is_valid(i, views.len()) {
        return push_null(out);
    }
    let bytes = views[i].bytes(buffers);
    match kind {
        StringKind::Utf8 => push_text(out, bytes),
        StringKind::Binary => push_bytes(out, bytes),
    }
}

/// Writes the integers of `count` rows from `start` on, with commas between. Their type is looked
/// at once.
pub(crate) fn push_integers(
    out: &mut Vec<u8>,
    items: &PrimitiveBuffer,
    validity: &Validity,
    start: usize,
    count: usize,
) -> Result<(), AllocError>
    requires within { start + count ≤ length (integers_of items.now) }
    requires fits { HasLength (valid_of validity.now) (length (integers_of items.now)) }
    ensures { OnOk result (out.new.items ≡ out.old.items ++ contents_text false (span
        (content_at (numbers (kind_of_numbers items.now) (integers_of items.now)
        (valid_of validity.now))) start count)) }
{
    match items {
        PrimitiveBuffer::U8(items) => push_native(out, items.as_slice(), validity, start, count),
        PrimitiveBuffer::U16(items) => push_native(out, items.as_slice(), validity, start, count),
        PrimitiveBuffer::U32(items) => push_native(out, items.as_slice(), validity, start, count),
        PrimitiveBuffer::U64(items) => push_native(out, items.as_slice(), validity, start, count),
        PrimitiveBuffer::I8(items) => push_native(out, items.as_slice(), validity, start, count),
        PrimitiveBuffer::I16(items) => push_native(out, items.as_slice(), validity, start, count),
        PrimitiveBuffer::I32(items) => push_native(out, items.as_slice(), validity, start, count),
        PrimitiveBuffer::I64(items) => push_native(out, items.as_slice(), validity, start, count),
    }
}

// Writes the integers of one type, with commas between.
fn push_native<T: Digits>(
    out: &mut Vec<u8>,
    items: &[T],
    validity: &Validity,
    start: usize,
    count: usize,
) -> Result<(), AllocError>
    requires within { start + count ≤ length items.now }
    requires fits { HasLength (valid_of validity.now) (length items.now) }
    ensures { OnOk result (out.new.items ≡ out.old.items ++ contents_text false (span
        (content_at (numbers T.kind (map T.integer items.now) (valid_of validity.now)))
        start count)) }
{
    let mut later = false;
    for k in 0..count {
        push_comma(out, later)?;
        push_item(out, items, validity, start + k)?;
        later = true;
    }
    Ok(())
}

// Writes the integer of a row.
fn push_item<T: Digits>(
    out: &mut Vec<u8>,
    items: &[T],
    validity: &Validity,
    i: usize,
) -> Result<(), AllocError>
    requires within { i < length items.now }
    requires fits { HasLength (valid_of validity.now) (length items.now) }
    ensures { OnOk result (out.new.items ≡ out.old.items ++ content_text
        (content_at (numbers T.kind (map T.integer items.now) (valid_of validity.now)) i)) }
{
    if validity.is_valid(i, items.len()) {
        items[i].push(out)
    } else {
        push_null(out)
    }
}

/// Writes the integer of a row.
pub(crate) fn push_integer(
    out: &mut Vec<u8>,
    items: &PrimitiveBuffer,
    validity: &Validity,
    i: usize,
) -> Result<(), AllocError>
    requires within { i < length (integers_of items.now) }
    requires fits { HasLength (valid_of validity.now) (length (integers_of items.now)) }
    ensures { OnOk result (out.new.items ≡ out.old.items ++ content_text
        (content_at (numbers (kind_of_numbers items.now) (integers_of items.now)
        (valid_of validity.now)) i)) }
{
    match items {
        PrimitiveBuffer::U8(items) => push_item(out, items.as_slice(), validity, i),
        PrimitiveBuffer::U16(items) => push_item(out, items.as_slice(), validity, i),
        PrimitiveBuffer::U32(items) => push_item(out, items.as_slice(), validity, i),
        PrimitiveBuffer::U64(items) => push_item(out, items.as_slice(), validity, i),
        PrimitiveBuffer::I8(items) => push_item(out, items.as_slice(), validity, i),
        PrimitiveBuffer::I16(items) => push_item(out, items.as_slice(), validity, i),
        PrimitiveBuffer::I32(items) => push_item(out, items.as_slice(), validity, i),
        PrimitiveBuffer::I64(items) => push_item(out, items.as_slice(), validity, i),
    }
}
