//! Values of rows.
ghost use Rattle.std.specs.Prelude.{◌≡◌, ◌<◌, ◌≤◌, ◌+◌, ◌*◌, IfOk, IfErr, All, length, map};
ghost use Rattle.vortex_arrays_model.specs.Layout.{bools, numbers, strings, len_of, array_type_of, content_at, number_in, IsOffsets, IsView, IsString, IsSound};
ghost use Rattle.vortex_arrays_buffer.specs.PrimitiveBuffers.{kind_of_numbers, integers_of};
ghost use Rattle.vortex_scalar_core.specs.Scalar.{scalar_type, scalar_content};
ghost use Rattle.vortex_scalar_value.specs.View.{raw_of, raw_in, raws_in, raws_from};
ghost use Rattle.vortex_arrays_core.specs.LayoutOf.{valid_of, strings_of};
ghost use Rattle.vortex_arrays_core.specs.RawRows.{raw_string, raw_row, raw_span, IsRowFault};

use crate::array::{ArrayLayout, ArrayRef, StringKind, Validity};
use bytes::Bytes;
use std::alloc::{AllocError, Global};
use vortex_arrays_buffer::{BitBuffer, Buffer, PrimitiveBuffer};
use vortex_arrays_view::shared::shared_bytes;
use vortex_arrays_view::{ArrayError, BinaryView};
use vortex_dtype_core::BufferString;
use vortex_model::laws::tests_of_validity_are_right;
use vortex_scalar_core::scalar::Scalar;
use vortex_scalar_value::clone::clone_value;
use vortex_scalar_value::scalar_value::ScalarValue;

impl ArrayRef {
    /// The value at an index, with the type of the array, as Vortex's `execute_scalar`.
    /// `OutOfRange` where there is no such row.
    ///
    /// A string or bytes of more than twelve bytes share their buffer and are not copied.
    pub fn execute_scalar(&self, alloc: Global, i: usize) -> Result<Scalar, ArrayError>
        ensures made { IfOk result (λ s. (i < len_of self.now)
            × (scalar_type s ≡ array_type_of self.now)
            × (scalar_content s ≡ content_at self.now i)) }
        ensures refused { IfErr result (λ e. IsRowFault e self.now i) }
    {
        if i >= self.len() {
            return Err(ArrayError::OutOfRange);
        }
        let value = self.value(alloc, i)?;
        let dtype = self.dtype().clone()?;
        // Both prove that the value is one of the type.
        self.is_sound();
        tests_of_validity_are_right();
        Ok(Scalar::new_unchecked(dtype, value))
    }

    // The value at an index, and `None` for null.
    #[cycle(value)]
    #[tactic(auto, using(crate::proofs::RawRowsLemmas::values))]
    fn value(&self, alloc: Global, i: usize) -> Result<Option<ScalarValue>, AllocError>
        requires { i < len_of self.now }
        ensures { IfOk result (λ value. raw_in value ≡ raw_row self.now i) }
    {
        match &self.data.layout {
            ArrayLayout::Bool(bits, validity) => Ok(truth_value(bits, validity, i)),
            ArrayLayout::Primitive(items, validity) => Ok(number_value(items, validity, i)),
            ArrayLayout::VarBinView(kind, views, buffers, validity) => {
                let value = string_value(alloc, *kind, views, buffers.as_slice(), validity, i)?;
                Ok(value)
            }
            ArrayLayout::Constant(scalar, _) => {
                let value = clone_value(scalar.value())?;
                Ok(value)
            }
            ArrayLayout::Dict(codes, values, _) => {
                let _count = values.len();
                match codes.integer(i) {
                    Some(code) => {
                        let value = values.value(alloc, code as usize)?;
                        Ok(value)
                    }
                    None => Ok(None),
                }
            }
            ArrayLayout::FixedSizeList(elements, size, len, validity) => {
                if validity.is_valid(i, *len) {
                    let start = fixed_start(i, *size, *len, elements.len());
                    let items = values_from(elements, alloc, start, *size as usize)?;
                    Ok(Some(ScalarValue::Tuple(items)))
                } else {
                    Ok(None)
                }
            }
            ArrayLayout::ListView(elements, offsets, sizes, _, validity) => {
                if validity.is_valid(i, offsets.len()) {
                    let (start, count) = view_at(offsets, sizes, i, elements.len());
                    let items = values_from(elements, alloc, start, count)?;
                    Ok(Some(ScalarValue::Tuple(items)))
                } else {
                    Ok(None)
                }
            }
            ArrayLayout::Struct(_, fields, len, validity) => {
                if validity.is_valid(i, *len) {
                    let items = values_at(fields, alloc, i)?;
                    Ok(Some(ScalarValue::Tuple(items)))
                } else {
                    Ok(None)
                }
            }
        }
    }
}

// The boolean at an index, and `None` for null.
#[tactic(auto, using(vortex_scalar_value::proofs::Views::one_level))]
fn truth_value(bits: &BitBuffer, validity: &Validity, i: usize) -> Option<ScalarValue>
    requires within { i < length bits.now }
    requires sound { IsSound (bools bits.now (valid_of validity.now)) }
    ensures { raw_in result ≡ raw_row (bools bits.now (valid_of validity.now)) i }
{
    if validity.is_valid(i, bits.len()) {
        Some(ScalarValue::Bool(bits.value(i)))
    } else {
        None
    }
}

// The integer at an index, and `None` for null.
#[tactic(auto, using(vortex_scalar_value::proofs::Views::one_level))]
fn number_value(items: &PrimitiveBuffer, validity: &Validity, i: usize) -> Option<ScalarValue>
    requires within { i < length (integers_of items.now) }
    requires sound { IsSound (numbers (kind_of_numbers items.now) (integers_of items.now)
        (valid_of validity.now)) }
    ensures { raw_in result
        ≡ raw_row (numbers (kind_of_numbers items.now) (integers_of items.now)
        (valid_of validity.now)) i }
{
    if validity.is_valid(i, items.len()) {
        Some(ScalarValue::Primitive(items.value(i)))
    } else {
        None
    }
}

// The string or the bytes at an index, and `None` for null.
#[tactic(auto, using(vortex_scalar_value::proofs::Views::one_level))]
fn string_value(
    alloc: Global,
    kind: StringKind,
    views: &Buffer<BinaryView>,
    buffers: &[Bytes],
    validity: &Validity,
    i: usize,
) -> Result<Option<ScalarValue>, AllocError>
    requires within { i < length views.now }
    requires sound { IsSound
        (strings (strings_of kind) views.now buffers.now (valid_of validity.now)) }
    ensures { IfOk result
        (λ value. raw_in value
        ≡ raw_row (strings (strings_of kind) views.now buffers.now (valid_of validity.now)) i) }
{
    if validity.is_valid(i, views.len()) {
        let bytes = shared_bytes(alloc, &views.get(i), buffers)?;
        Ok(Some(of_bytes(kind, bytes)))
    } else {
        Ok(None)
    }
}

// The bytes as a string or as bytes.
#[tactic(auto, using(vortex_scalar_value::proofs::Views::one_level))]
fn of_bytes(kind: StringKind, bytes: Bytes) -> ScalarValue
    requires { IsString (strings_of kind) bytes }
    ensures { raw_of result ≡ raw_string (strings_of kind) bytes }
{
    match kind {
        StringKind::Utf8 => ScalarValue::Utf8(BufferString::from_known_utf8(bytes)),
        StringKind::Binary => ScalarValue::Binary(bytes),
    }
}

// The first element of list i of `len` lists of this size, which have `count` elements.
#[tactic(auto, using(crate::proofs::RawRowsLemmas::fixed_within))]
fn fixed_start(i: usize, size: u32, len: usize, count: usize) -> usize
    requires within { i < len }
    requires elements { count ≡ len * size }
    ensures start { result ≡ i * size }
    ensures within { result + size ≤ count }
{
    i * size as usize
}

/// The offset and the size of a list within `count` elements.
#[tactic(auto, using(vortex_arrays_model::proofs::CanonicalLemmas::offsets_are_integers))]
pub fn view_at(offsets: &ArrayRef, sizes: &ArrayRef, i: usize, count: usize) -> (usize, usize)
    requires offset_within { i < len_of offsets.now }
    requires size_within { i < len_of sizes.now }
    requires offsets_kind { IsOffsets (array_type_of offsets.now) }
    requires sizes_kind { IsOffsets (array_type_of sizes.now) }
    requires view { IsView count (content_at offsets.now i) (content_at sizes.now i) }
    ensures start { result.0 ≡ number_in (content_at offsets.now i) }
    ensures size { result.1 ≡ number_in (content_at sizes.now i) }
    ensures within { result.0 + result.1 ≤ count }
{
    match (offsets.integer(i), sizes.integer(i)) {
        (Some(start), Some(size)) => (start as usize, size as usize),
        _ => unreachable!(),
    }
}

// The values of rows from an index on.
#[cycle(value)]
#[tactic(auto, using(crate::proofs::RawRowsLemmas::values))]
fn values_from(
    elements: &ArrayRef,
    alloc: Global,
    start: usize,
    count: usize,
) -> Result<Vec<Option<ScalarValue>>, AllocError>
    requires { start + count ≤ len_of elements.now }
    ensures { IfOk result (λ items. raws_in items.items
        ≡ raw_span (λ j. raw_row elements.now j) start count) }
{
    let _len = elements.len();
    let mut items = Vec::with_capacity(alloc, count)?;
    for k in 0..count {
        let item = elements.value(alloc, start + k)?;
        items.push(item)?;
    }
    Ok(items)
}

// A row's value in each field.
#[cycle(value)]
#[tactic(auto, using(crate::proofs::RawRowsLemmas::values))]
fn values_at(
    fields: &Vec<ArrayRef>,
    alloc: Global,
    i: usize,
) -> Result<Vec<Option<ScalarValue>>, AllocError>
    requires { All (λ field. i < len_of field) fields.now.items }
    ensures { IfOk result (λ items. raws_in items.items
        ≡ raws_from (map (λ field. raw_row field i) fields.now.items)) }
{
    let mut items = Vec::with_capacity(alloc, fields.len())?;
    for field in fields {
        let item = field.value(alloc, i)?;
        items.push(item)?;
    }
    Ok(items)
}
