//! Values of arrays of one layout, each read once.
ghost use Rattle.std.specs.Prelude.{◌≡◌, ◌<◌, List, length, map};
ghost use Rattle.vortex_model.specs.Content.{Content, boolean, integer, text, byte_string};
ghost use Rattle.vortex_arrays_model.specs.Layout.{bools, numbers, strings, texts, byte_strings, content_at, IsSound};
ghost use Rattle.vortex_arrays_core.specs.LayoutOf.{valid_of};
ghost use Rattle.vortex_stats_array.specs.Counted.{CountsEach, StandIn};
ghost use Rattle.vortex_stats_array.specs.Running.{content_or_null, IsSeen};

use crate::counts::Counts;
use crate::leaf_value::{ByteString, Number, Text};
use crate::nulls::is_valid_at;
use crate::running::Running;
use crate::seen::seen;
use bytes::Bytes;
use vortex_arrays_buffer::BitBuffer;
use vortex_arrays_core::array::Validity;
use vortex_arrays_view::view::BinaryView;
use vortex_dtype_native::native::NativePType;

fn number_at<T: NativePType>(items: &[T], validity: &Validity, i: usize) -> Option<Number<T>>
    requires within { i < length items.now }
    requires sound { IsSound (numbers T.kind (map T.integer items.now) (valid_of validity.now)) }
    ensures { content_or_null (λ v. integer (T.integer v.0)) result
        ≡ content_at (numbers T.kind (map T.integer items.now) (valid_of validity.now)) i }
{
    if is_valid_at(validity, i, items.len()) {
        Some(Number(items[i]))
    } else {
        None
    }
}

/// Statistics so far of integers.
pub(crate) fn seen_numbers<T: NativePType>(
    items: &[T],
    validity: &Validity,
    counts: Option<&Counts>,
) -> Running<Number<T>>
    requires sound { IsSound (numbers T.kind (map T.integer items.now) (valid_of validity.now)) }
    requires counted { CountsEach counts (length items.now) }
    ensures { (rows : List Content) → StandIn counts.entry
        (content_at (numbers T.kind (map T.integer items.now) (valid_of validity.now)))
        (length items.now) rows → IsSeen (λ v. integer (T.integer v.0)) result rows }
{
    seen(items.len(), counts, |i| number_at(items, validity, i))
}

fn bool_at(bits: &BitBuffer, validity: &Validity, i: usize) -> Option<bool>
    requires within { i < length bits.now }
    requires sound { IsSound (bools bits.now (valid_of validity.now)) }
    ensures { content_or_null boolean result
        ≡ content_at (bools bits.now (valid_of validity.now)) i }
{
    if is_valid_at(validity, i, bits.len()) {
        Some(bits.value(i))
    } else {
        None
    }
}

/// Statistics so far of booleans.
pub(crate) fn seen_bools(
    bits: &BitBuffer,
    validity: &Validity,
    counts: Option<&Counts>,
) -> Running<bool>
    requires sound { IsSound (bools bits.now (valid_of validity.now)) }
    requires counted { CountsEach counts (length bits.now) }
    ensures { (rows : List Content)
        → StandIn counts.entry (content_at (bools bits.now (valid_of validity.now)))
        (length bits.now) rows → IsSeen boolean result rows }
{
    seen(bits.len(), counts, |i| bool_at(bits, validity, i))
}

fn text_at<'a>(
    views: &'a [BinaryView],
    buffers: &'a [Bytes],
    validity: &Validity,
    i: usize,
) -> Option<Text<'a>>
    requires within { i < length views.now }
    requires sound { IsSound (strings texts views.now buffers.now (valid_of validity.now)) }
    ensures { content_or_null (λ v. text v.bytes.now) result
        ≡ content_at (strings texts views.now buffers.now (valid_of validity.now)) i }
{
    if is_valid_at(validity, i, views.len()) {
        Some(Text::new(views[i].bytes(buffers)))
    } else {
        None
    }
}

/// Statistics so far of strings, compared without a copy.
pub(crate) fn seen_texts<'a>(
    views: &'a [BinaryView],
    buffers: &'a [Bytes],
    validity: &Validity,
    counts: Option<&Counts>,
) -> Running<Text<'a>>
    requires sound { IsSound (strings texts views.now buffers.now (valid_of validity.now)) }
    requires counted { CountsEach counts (length views.now) }
    ensures { (rows : List Content) → StandIn counts.entry
        (content_at (strings texts views.now buffers.now (valid_of validity.now)))
        (length views.now) rows → IsSeen (λ v. text v.bytes.now) result rows }
{
    seen(
        views.len(),
        counts,
        |i| text_at(views, buffers, validity, i),
    )
}

fn bytes_at<'a>(
    views: &'a [BinaryView],
    buffers: &'a [Bytes],
    validity: &Validity,
    i: usize,
) -> Option<ByteString<'a>>
    requires within { i < length views.now }
    requires sound { IsSound (strings byte_strings views.now buffers.now (valid_of validity.now)) }
    ensures { content_or_null (λ v. byte_string v.0.now) result
        ≡ content_at (strings byte_strings views.now buffers.now (valid_of validity.now)) i }
{
    if is_valid_at(validity, i, views.len()) {
        Some(ByteString(views[i].bytes(buffers)))
    } else {
        None
    }
}

/// Statistics so far of bytes, compared without a copy.
pub(crate) fn seen_byte_strings<'a>(
    views: &'a [BinaryView],
    buffers: &'a [Bytes],
    validity: &Validity,
    counts: Option<&Counts>,
) -> Running<ByteString<'a>>
    requires sound { IsSound (strings byte_strings views.now buffers.now (valid_of validity.now)) }
    requires counted { CountsEach counts (length views.now) }
    ensures { (rows : List Content) → StandIn counts.entry
        (content_at (strings byte_strings views.now buffers.now (valid_of validity.now)))
        (length views.now) rows → IsSeen (λ v. byte_string v.0.now) result rows }
{
    seen(
        views.len(),
        counts,
        |i| bytes_at(views, buffers, validity, i),
    )
}
