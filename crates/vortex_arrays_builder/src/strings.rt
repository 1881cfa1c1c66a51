//! Columns of strings and of bytes: values of at most twelve bytes are inline in their views,
//! longer ones end to end in the fewest buffers.
ghost use Rattle.std.specs.Prelude.{◌≡◌, ◌<◌, ℕ, [], true, length, map, cond, leb, slice_index_or, IfOk, OnOk, IfErr, All};
ghost use Rattle.std.specs.List.{flat_map};
ghost use Rattle.vortex_model.specs.Content.{raw_null};
ghost use Rattle.vortex_dtype_ptype.specs.View.{nullability_of_flag};
ghost use Rattle.vortex_scalar_value.specs.View.{raw_at, content_at};
ghost use Rattle.vortex_arrays_view.specs.Made.{short_view};
ghost use Rattle.vortex_arrays_view.specs.declared.error.ArrayError.TheVariants.{Total};
ghost use Rattle.vortex_arrays_model.specs.Layout.{type_of_strings};
ghost use Rattle.vortex_arrays_core.specs.LayoutOf.{strings_of};
ghost use Rattle.vortex_arrays_builder.specs.Strings.{bytes_in, buffered, buffered_len, AreViewsOf, IsStringsFault};
ghost use Rattle.vortex_arrays_builder.specs.Plain.{is_held, IsPlain, IsPlainFault};
ghost use Rattle.vortex_arrays_builder.specs.TooLarge.{AreTooLarge};

use crate::leaves::nulls_of;
use bytes::Bytes;
use std::alloc::{AllocError, Global};
use std::rc::Rc;
use vortex_arrays_buffer::buffer::Buffer;
use vortex_arrays_core::array::{ArrayRef, StringKind};
use vortex_arrays_view::build::{MAX_BUFFER_LEN, build_views};
use vortex_arrays_view::error::ArrayError;
use vortex_arrays_view::view::{BinaryView, MAX_INLINED_SIZE};
use vortex_dtype_ptype::nullability::Nullability;
use vortex_scalar_value::scalar_value::ScalarValue;

/// An array of strings or bytes. `Total` where a value is longer than a buffer can be, or there
/// would be more than 2^32 buffers.
#[tactic(auto, using(crate::proofs::StringLemmas::plain))]
pub fn of_strings(
    alloc: Global,
    kind: StringKind,
    nullability: Nullability,
    values: &[Option<&ScalarValue>],
) -> Result<ArrayRef, ArrayError>
    requires { All
        (λ r. is_held (type_of_strings (strings_of kind) (nullability_of_flag nullability)) r
        ≡ true) (map raw_at values.now) }
    ensures plain { IfOk result
        (λ array. IsPlain (type_of_strings (strings_of kind) (nullability_of_flag nullability))
        (map raw_at values.now) array) }
    ensures accepted { OnOk result
        (¬ AreTooLarge (type_of_strings (strings_of kind) (nullability_of_flag nullability))
        (map content_at values.now)) }
    ensures refused { IfErr result
        (λ e. IsPlainFault e (type_of_strings (strings_of kind) (nullability_of_flag nullability))
        (map content_at values.now)) }
{
    let (buffers, views) = views_of(alloc, values)?;
    let views = Buffer::from_vec(views)?;
    let buffers = Rc::new(alloc, buffers)?;
    let validity = nulls_of(alloc, nullability, values)?;
    let array = ArrayRef::of_strings(alloc, kind, views, buffers, validity)?;
    Ok(array)
}

// Buffers, and a view of each value.
#[tactic(auto, using(crate::proofs::StringLemmas::viewed))]
fn views_of(
    alloc: Global,
    values: &[Option<&ScalarValue>],
) -> Result<(Vec<Bytes>, Vec<BinaryView>), ArrayError>
    ensures views { IfOk result
        (λ made. AreViewsOf (map raw_at values.now) made.0.items made.1.items) }
    ensures accepted { OnOk result (¬ IsStringsFault Total (map raw_at values.now)) }
    ensures refused { IfErr result (λ e. IsStringsFault e (map raw_at values.now)) }
{
    let (bytes, lengths) = long_values(alloc, values)?;
    let bytes = Bytes::from_vec(bytes)?;
    let (buffers, mut views) = build_views(alloc, 0, MAX_BUFFER_LEN, bytes, lengths.as_slice())?;
    inline_short(&mut views, values);
    Ok((buffers, views))
}

// The bytes of the values of more than twelve bytes, end to end, and the number of bytes of each
// value there.
#[tactic(auto, using(crate::proofs::StringLemmas::bytes_more))]
fn long_values(
    alloc: Global,
    values: &[Option<&ScalarValue>],
) -> Result<(Vec<u8>, Vec<u64>), AllocError>
    ensures bytes { IfOk result
        (λ made. made.0.items ≡ flat_map buffered (map raw_at values.now)) }
    ensures lengths { IfOk result
        (λ made. made.1.items ≡ map buffered_len (map raw_at values.now)) }
{
    let lengths = long_lengths(alloc, values)?;
    let mut bytes = Vec::new(alloc);
    for value in values {
        let value = buffered_bytes(*value);
        bytes.extend_from_slice(value)?;
    }
    Ok((bytes, lengths))
}

// The number of bytes of each value in the buffers.
fn long_lengths(alloc: Global, values: &[Option<&ScalarValue>]) -> Result<Vec<u64>, AllocError>
    ensures { IfOk result (λ lengths. lengths.items ≡ map buffered_len (map raw_at values.now)) }
{
    values
        .iter()
        .map(|value| buffered_bytes(*value).len() as u64)
        .collect(alloc)
}

// Makes the view of each value of at most twelve bytes.
#[tactic(auto, using(crate::proofs::StringLemmas::inlined))]
fn inline_short(views: &mut [BinaryView], values: &[Option<&ScalarValue>])
    requires { length views.old ≡ length values.now }
    ensures count { length views.new ≡ length views.old }
    ensures views { (i : ℕ) → i < length values.now → slice_index_or views.new i []
        ≡ cond (leb (length (bytes_in (slice_index_or (map raw_at values.now) i raw_null))) 12)
        (short_view (bytes_in (slice_index_or (map raw_at values.now) i raw_null)))
        (slice_index_or views.old i []) }
{
    for i in 0..values.len() {
        let value = bytes_of(values[i]);
        if value.len() <= MAX_INLINED_SIZE {
            views[i] = BinaryView::new_inlined(value);
        }
    }
}

// The bytes of a value in the buffers: all of them, or none where there are at most twelve.
fn buffered_bytes(value: Option<&ScalarValue>) -> &[u8]
    ensures { result.now ≡ buffered (raw_at value.entry) }
{
    let bytes = bytes_of(value);
    if bytes.len() <= MAX_INLINED_SIZE {
        return &[];
    }
    bytes
}

// The bytes of a string or of bytes, and none of any other value.
#[tactic(auto, using(vortex_scalar_value::proofs::Views::one_level))]
fn bytes_of(value: Option<&ScalarValue>) -> &[u8]
    ensures { result.now ≡ bytes_in (raw_at value.entry) }
{
    match value {
        Some(ScalarValue::Utf8(text)) => text.as_bytes().as_slice(),
        Some(ScalarValue::Binary(bytes)) => bytes.as_slice(),
        Some(ScalarValue::Bool(_)) | Some(ScalarValue::Primitive(_)) => &[],
        Some(ScalarValue::Tuple(_)) | Some(ScalarValue::Union(_)) => &[],
        Some(ScalarValue::Variant(_)) | None => &[],
    }
}
