//! Arrays of strings and of bytes: values of at most twelve bytes are inline in their views, longer
//! ones end to end in the fewest buffers.
ghost use Rattle.std.specs.Prelude.{◌≡◌, ◌<◌, ℕ, None, [], length, map, cond, leb, is_some, slice_index_or, All, IfOk, IfErr, OnOk};
ghost use Rattle.std.specs.List.{flat_map};
ghost use Rattle.vortex_model.specs.LogicalType.{nullable};
ghost use Rattle.vortex_dtype_ptype.specs.View.{nullability_of_flag};
ghost use Rattle.vortex_dtype_core.specs.View.{type_of};
ghost use Rattle.vortex_arrays_view.specs.Made.{short_view};
ghost use Rattle.vortex_arrays_model.specs.Layout.{byte_strings, type_of_strings};
ghost use Rattle.vortex_arrays_core.specs.LayoutOf.{valid_of, strings_of};
ghost use Rattle.vortex_arrays_builder.specs.Plain.{MarksNulls};
ghost use Rattle.vortex_arrays_builder.specs.Strings.{buffered, buffered_len, IsStringsFault};
ghost use Rattle.vortex_arrays_parts.specs.Values.{lent, bytes_or_none, raw_of_bytes, AreTooLarge, AreViewed, HaveNulls, IsHeld, IsOfValues, IsValuesFault};

use crate::check::{are_held, are_present, check_nulls, string_kind};
use bytes::Bytes;
use std::alloc::{AllocError, Global};
use std::rc::Rc;
use vortex_arrays_buffer::bit_buffer::BitBuffer;
use vortex_arrays_buffer::buffer::Buffer;
use vortex_arrays_core::array::{ArrayRef, StringKind, Validity};
use vortex_arrays_leaf::view_array::VarBinViewArray;
use vortex_arrays_view::build::{MAX_BUFFER_LEN, build_views};
use vortex_arrays_view::error::ArrayError;
use vortex_arrays_view::view::{BinaryView, MAX_INLINED_SIZE};
use vortex_dtype_core::dtype::DType;
use vortex_dtype_ptype::nullability::Nullability;

/// An array of any values, if the type has them.
#[tactic(auto, using(crate::proofs::FaultLemmas::checked))]
pub(crate) fn of_any_values(
    alloc: Global,
    dtype: &DType,
    values: &[Option<&[u8]>],
) -> Result<VarBinViewArray, ArrayError>
    requires { All (IsHeld byte_strings) (map lent values.now) }
    ensures made { IfOk result (λ a. IsOfValues (type_of dtype.now) (map lent values.now) a) }
    ensures refused { IfErr result
        (λ e. IsValuesFault e (type_of dtype.now) (map lent values.now)) }
{
    let Some(kind) = string_kind(dtype) else {
        return Err(ArrayError::WrongType);
    };
    check_nulls(dtype.nullability(), values)?;
    let (buffers, views) = views_of(alloc, values)?;
    if !are_held(kind, values) {
        return Err(ArrayError::NotUtf8);
    }
    let array = of_views(alloc, kind, dtype.nullability(), values, buffers, views)?;
    Ok(array)
}

/// An array of values that the type has.
#[tactic(auto, using(crate::proofs::FaultLemmas::held))]
pub(crate) fn of_held_values(
    alloc: Global,
    kind: StringKind,
    nullability: Nullability,
    values: &[Option<&[u8]>],
) -> Result<VarBinViewArray, ArrayError>
    requires held { All (IsHeld (strings_of kind)) (map lent values.now) }
    requires nulls { HaveNulls (nullability_of_flag nullability) (map lent values.now) }
    ensures made { IfOk result
        (λ a. IsOfValues (type_of_strings (strings_of kind) (nullability_of_flag nullability))
        (map lent values.now) a) }
    ensures refused { IfErr result
        (λ e. IsValuesFault e (type_of_strings (strings_of kind) (nullability_of_flag nullability))
        (map lent values.now)) }
{
    let (buffers, views) = views_of(alloc, values)?;
    let array = of_views(alloc, kind, nullability, values, buffers, views)?;
    Ok(array)
}

// An array of values with their views.
fn of_views(
    alloc: Global,
    kind: StringKind,
    nullability: Nullability,
    values: &[Option<&[u8]>],
    buffers: Vec<Bytes>,
    views: Vec<BinaryView>,
) -> Result<VarBinViewArray, AllocError>
    requires held { All (IsHeld (strings_of kind)) (map lent values.now) }
    requires nulls { HaveNulls (nullability_of_flag nullability) (map lent values.now) }
    requires views { AreViewed (map lent values.now) buffers.items views.items }
    ensures { IfOk result
        (λ a. IsOfValues (type_of_strings (strings_of kind) (nullability_of_flag nullability))
        (map lent values.now) a) }
{
    let validity = nulls_of(alloc, nullability, values)?;
    let views = Buffer::from_vec(views)?;
    let buffers = Rc::new(alloc, buffers)?;
    let dtype = dtype_of(kind, nullability);
    VarBinViewArray::new_unchecked(alloc, views, buffers, dtype, validity)
}

fn dtype_of(kind: StringKind, nullability: Nullability) -> DType
    ensures { type_of result ≡ type_of_strings (strings_of kind) (nullability_of_flag nullability) }
{
    match kind {
        StringKind::Utf8 => DType::Utf8(nullability),
        StringKind::Binary => DType::Binary(nullability),
    }
}

// The validity whose null rows are those without a value, if the nullability has null.
#[tactic(auto, using(crate::proofs::RowLemmas::nulls_marked))]
fn nulls_of(
    alloc: Global,
    nullability: Nullability,
    values: &[Option<&[u8]>],
) -> Result<Validity, AllocError>
    ensures { IfOk result (λ validity. MarksNulls (nullability_of_flag nullability)
        (map raw_of_bytes (map lent values.now)) (valid_of validity)) }
{
    match nullability {
        Nullability::NonNullable => Ok(Validity::NonNullable),
        Nullability::Nullable => missing_of(alloc, values),
    }
}

// The validity whose null rows are those without a value.
#[tactic(auto, using(crate::proofs::RowLemmas::nulls_marked))]
fn missing_of(alloc: Global, values: &[Option<&[u8]>]) -> Result<Validity, AllocError>
    ensures { IfOk result (λ validity. MarksNulls nullable
        (map raw_of_bytes (map lent values.now)) (valid_of validity)) }
{
    if are_present(values) {
        return Ok(Validity::AllValid);
    }
    let bits = present_bits(alloc, values)?;
    let array = ArrayRef::of_bools(alloc, bits, Validity::NonNullable)?;
    Ok(Validity::Array(array))
}

// A bit for each value, true where it is not missing.
fn present_bits(alloc: Global, values: &[Option<&[u8]>]) -> Result<BitBuffer, AllocError>
    ensures { IfOk result (λ bits. bits ≡ map is_some (map lent values.now)) }
{
    BitBuffer::collect_bool(alloc, values.len(), |i| values[i].is_some())
}

// Buffers of the values of more than twelve bytes, and a view of each value.
#[tactic(auto, using(crate::proofs::ViewLemmas::viewed))]
fn views_of(
    alloc: Global,
    values: &[Option<&[u8]>],
) -> Result<(Vec<Bytes>, Vec<BinaryView>), ArrayError>
    ensures views { IfOk result
        (λ made. AreViewed (map lent values.now) made.0.items made.1.items) }
    ensures refused { IfErr result
        (λ e. IsStringsFault e (map raw_of_bytes (map lent values.now))) }
{
    let (bytes, lengths) = long_values(alloc, values)?;
    let bytes = Bytes::from_vec(bytes)?;
    let (buffers, mut views) = build_views(alloc, 0, MAX_BUFFER_LEN, bytes, lengths.as_slice())?;
    inline_short(&mut views, values);
    Ok((buffers, views))
}

// The bytes of the values of more than twelve bytes, end to end, and the number of bytes of each
// value there.
#[tactic(auto, using(crate::proofs::ViewLemmas::bytes_more))]
fn long_values(alloc: Global, values: &[Option<&[u8]>]) -> Result<(Vec<u8>, Vec<u64>), AllocError>
    ensures bytes { IfOk result (λ made. made.0.items
        ≡ flat_map buffered (map raw_of_bytes (map lent values.now))) }
    ensures lengths { IfOk result (λ made. made.1.items
        ≡ map buffered_len (map raw_of_bytes (map lent values.now))) }
{
    let lengths = long_lengths(alloc, values)?;
    let mut bytes = Vec::new(alloc);
    for value in values {
        let value = long_bytes(*value);
        bytes.extend_from_slice(value)?;
    }
    Ok((bytes, lengths))
}

// The number of bytes of each value in the buffers.
fn long_lengths(alloc: Global, values: &[Option<&[u8]>]) -> Result<Vec<u64>, AllocError>
    ensures { IfOk result (λ lengths. lengths.items
        ≡ map buffered_len (map raw_of_bytes (map lent values.now))) }
{
    values
        .iter()
        .map(|value| long_bytes(*value).len() as u64)
        .collect(alloc)
}

// Makes the view of each value of at most twelve bytes.
#[tactic(auto, using(crate::proofs::ViewLemmas::inlined))]
fn inline_short(views: &mut [BinaryView], values: &[Option<&[u8]>])
    requires { length views.old ≡ length values.now }
    ensures count { length views.new ≡ length views.old }
    ensures views { (i : ℕ) → i < length values.now → slice_index_or views.new i []
        ≡ cond (leb (length (bytes_or_none (slice_index_or (map lent values.now) i None))) 12)
        (short_view (bytes_or_none (slice_index_or (map lent values.now) i None)))
        (slice_index_or views.old i []) }
{
    for i in 0..values.len() {
        let value = values[i].unwrap_or(&[]);
        if value.len() <= MAX_INLINED_SIZE {
            views[i] = BinaryView::new_inlined(value);
        }
    }
}

// The bytes of a value of more than twelve bytes, and none of any other.
fn long_bytes(value: Option<&[u8]>) -> &[u8]
    ensures { result.now ≡ buffered (raw_of_bytes (lent value.entry)) }
{
    let bytes = value.unwrap_or(&[]);
    if bytes.len() <= MAX_INLINED_SIZE {
        return &[];
    }
    bytes
}
