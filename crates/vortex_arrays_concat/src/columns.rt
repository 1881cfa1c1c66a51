//! Columns of leaves end to end, and which rows of any columns are null.
ghost use Rattle.std.specs.Prelude.{◌≡◌, ◌<◌, length, map, flat_map, IfOk, IfSome, All};
ghost use Rattle.vortex_arrays_model.specs.Parts.{valid_in};
ghost use Rattle.vortex_arrays_core.specs.LayoutOf.{valid_of};
ghost use Rattle.vortex_arrays_buffer.specs.PrimitiveBuffers.{kind_of_numbers, integers_of};
ghost use Rattle.vortex_arrays_concat.specs.EndToEnd.{parts_of, rows_in_all, HaveLengths, IsEndToEnd};
ghost use Rattle.vortex_arrays_concat.specs.Columns.{validities, numbers_in, bits_in, AreNumbers, AreBools, IsJoined};

use crate::strings::concat_strings;
use crate::validity_concat::join;
use std::alloc::{AllocError, Global};
use vortex_arrays_buffer::bit_buffer::BitBuffer;
use vortex_arrays_buffer::buffer::Buffer;
use vortex_arrays_buffer::element::Element;
use vortex_arrays_buffer::primitive_buffer::PrimitiveBuffer;
use vortex_arrays_core::array::{ArrayLayout, ArrayRef, Validity};

/// The rows of arrays of leaves, one array after another, `count` in all. `None` unless all are
/// arrays of booleans, of integers of one type, or of strings or bytes by views.
pub(crate) fn concat_leaves(
    alloc: Global,
    arrays: &[ArrayRef],
    count: usize,
) -> Result<Option<ArrayRef>, AllocError>
    requires some { 0 < length arrays.now }
    requires count { count ≡ rows_in_all arrays.now }
    ensures { IfOk result (λ found. IfSome found (λ a. IsJoined arrays.now a)) }
{
    match arrays[0].layout() {
        ArrayLayout::Primitive(items, _) => concat_numbers(alloc, items, arrays, count),
        ArrayLayout::Bool(_, _) => concat_bools(alloc, arrays, count),
        ArrayLayout::VarBinView(kind, _, _, _) => concat_strings(alloc, *kind, arrays, count),
        _ => Ok(None),
    }
}

// The rows of arrays of integers of the type of `like`, if all arrays are such.
#[tactic(auto, using(crate::proofs::ColumnLemmas::numbers_joined))]
fn concat_numbers(
    alloc: Global,
    like: &PrimitiveBuffer,
    arrays: &[ArrayRef],
    count: usize,
) -> Result<Option<ArrayRef>, AllocError>
    requires some { 0 < length arrays.now }
    requires count { count ≡ rows_in_all arrays.now }
    ensures { IfOk result (λ found. IfSome found (λ a. IsJoined arrays.now a)) }
{
    let Some(items) = numbers_of(alloc, like, arrays, count)? else {
        return Ok(None);
    };
    let validity = concat_validity(alloc, arrays, count)?;
    let array = ArrayRef::of_numbers(alloc, items, validity)?;
    Ok(Some(array))
}

// The integers of the arrays, if all have the type of `like`.
fn numbers_of(
    alloc: Global,
    like: &PrimitiveBuffer,
    arrays: &[ArrayRef],
    count: usize,
) -> Result<Option<PrimitiveBuffer>, AllocError>
    ensures kinds { IfOk result (λ found. IfSome found
        (λ items. All (AreNumbers (kind_of_numbers items)) arrays.now)) }
    ensures numbers { IfOk result (λ found. IfSome found
        (λ items. integers_of items ≡ flat_map numbers_in arrays.now)) }
{
    match like {
        PrimitiveBuffer::U8(_) => numbers_of_kind::<u8>(alloc, arrays, count),
        PrimitiveBuffer::U16(_) => numbers_of_kind::<u16>(alloc, arrays, count),
        PrimitiveBuffer::U32(_) => numbers_of_kind::<u32>(alloc, arrays, count),
        PrimitiveBuffer::U64(_) => numbers_of_kind::<u64>(alloc, arrays, count),
        PrimitiveBuffer::I8(_) => numbers_of_kind::<i8>(alloc, arrays, count),
        PrimitiveBuffer::I16(_) => numbers_of_kind::<i16>(alloc, arrays, count),
        PrimitiveBuffer::I32(_) => numbers_of_kind::<i32>(alloc, arrays, count),
        PrimitiveBuffer::I64(_) => numbers_of_kind::<i64>(alloc, arrays, count),
    }
}

// The integers of the arrays, if all have this type.
fn numbers_of_kind<T: Element>(
    alloc: Global,
    arrays: &[ArrayRef],
    count: usize,
) -> Result<Option<PrimitiveBuffer>, AllocError>
    ensures kinds { IfOk result (λ found. IfSome found
        (λ items. All (AreNumbers (kind_of_numbers items)) arrays.now)) }
    ensures numbers { IfOk result (λ found. IfSome found
        (λ items. integers_of items ≡ flat_map numbers_in arrays.now)) }
{
    let Some(items) = items_of_all::<T>(alloc, arrays, count)? else {
        return Ok(None);
    };
    let items = Buffer::from_vec(items)?;
    Ok(Some(PrimitiveBuffer::from_buffer(items)))
}

#[tactic(auto, using(crate::proofs::ColumnLemmas::items_gathered))]
fn items_of_all<T: Element>(
    alloc: Global,
    arrays: &[ArrayRef],
    count: usize,
) -> Result<Option<Vec<T>>, AllocError>
    ensures kinds { IfOk result (λ found. IfSome found
        (λ items. All (AreNumbers T.kind) arrays.now)) }
    ensures numbers { IfOk result (λ found. IfSome found
        (λ items. map T.integer items.items ≡ flat_map numbers_in arrays.now)) }
{
    let mut all = Vec::with_capacity(alloc, count)?;
    for array in arrays {
        match items_of::<T>(array) {
            Some(items) => all.extend_from_slice(items)?,
            None => return Ok(None),
        }
    }
    Ok(Some(all))
}

fn items_of<T: Element>(array: &ArrayRef) -> Option<&[T]>
    ensures kind { IfSome result (λ items. AreNumbers T.kind array.now) }
    ensures numbers { IfSome result (λ items. map T.integer items.now ≡ numbers_in array.now) }
{
    match array.layout() {
        ArrayLayout::Primitive(items, _) => items.as_slice::<T>(),
        _ => None,
    }
}

// The rows of arrays of booleans, if all arrays are such.
#[tactic(auto, using(crate::proofs::ColumnLemmas::bools_joined))]
fn concat_bools(
    alloc: Global,
    arrays: &[ArrayRef],
    count: usize,
) -> Result<Option<ArrayRef>, AllocError>
    requires some { 0 < length arrays.now }
    requires count { count ≡ rows_in_all arrays.now }
    ensures { IfOk result (λ found. IfSome found (λ a. IsJoined arrays.now a)) }
{
    let Some(bits) = bits_of_all(alloc, arrays, count)? else {
        return Ok(None);
    };
    let bits = BitBuffer::from_bools(alloc, bits.as_slice())?;
    let validity = concat_validity(alloc, arrays, count)?;
    let array = ArrayRef::of_bools(alloc, bits, validity)?;
    Ok(Some(array))
}

#[tactic(auto, using(crate::proofs::ColumnLemmas::bits_gathered))]
fn bits_of_all(
    alloc: Global,
    arrays: &[ArrayRef],
    count: usize,
) -> Result<Option<Vec<bool>>, AllocError>
    ensures kinds { IfOk result (λ found. IfSome found (λ bits. All AreBools arrays.now)) }
    ensures bits { IfOk result
        (λ found. IfSome found (λ bits. bits.items ≡ flat_map bits_in arrays.now)) }
{
    let mut all = Vec::with_capacity(alloc, count)?;
    for array in arrays {
        match bits_of(array) {
            Some(bits) => all.extend_from_slice(&bits.to_bools(alloc)?)?,
            None => return Ok(None),
        }
    }
    Ok(Some(all))
}

fn bits_of(array: &ArrayRef) -> Option<&BitBuffer>
    ensures kind { IfSome result (λ bits. AreBools array.now) }
    ensures bits { IfSome result (λ bits. bits.now ≡ bits_in array.now) }
{
    match array.layout() {
        ArrayLayout::Bool(bits, _) => Some(bits),
        _ => None,
    }
}

/// Which rows of the arrays are null, one array after another.
#[tactic(auto, using(crate::proofs::ColumnLemmas::validities_joined))]
pub(crate) fn concat_validity(
    alloc: Global,
    arrays: &[ArrayRef],
    count: usize,
) -> Result<Validity, AllocError>
    requires some { 0 < length arrays.now }
    requires count { count ≡ rows_in_all arrays.now }
    ensures { IfOk result (λ v. IsEndToEnd (validities arrays.now) (valid_of v)) }
{
    let parts = validities_of(alloc, arrays)?;
    join(alloc, parts.as_slice(), count)
}

#[tactic(auto, using(crate::proofs::ColumnLemmas::validities_gathered))]
fn validities_of(alloc: Global, arrays: &[ArrayRef]) -> Result<Vec<(Validity, usize)>, AllocError>
    ensures parts { IfOk result (λ parts. parts_of parts.items ≡ validities arrays.now) }
    ensures fit { IfOk result (λ parts. HaveLengths (parts_of parts.items)) }
{
    let mut parts = Vec::with_capacity(alloc, arrays.len())?;
    for array in arrays {
        let validity = validity_of(array)?;
        parts.push((validity, array.len()))?;
    }
    Ok(parts)
}

// The validity that the layout has itself, and one without nulls for a layout that has none.
fn validity_of(array: &ArrayRef) -> Result<Validity, AllocError>
    ensures { IfOk result (λ validity. valid_of validity ≡ valid_in array.now) }
{
    match array.layout() {
        ArrayLayout::Bool(_, validity) => validity.clone(),
        ArrayLayout::Primitive(_, validity) => validity.clone(),
        ArrayLayout::VarBinView(_, _, _, validity) => validity.clone(),
        ArrayLayout::FixedSizeList(_, _, _, validity) => validity.clone(),
        ArrayLayout::ListView(_, _, _, _, validity) => validity.clone(),
        ArrayLayout::Struct(_, _, _, validity) => validity.clone(),
        ArrayLayout::Constant(_, _) | ArrayLayout::Dict(_, _, _) => Ok(Validity::NonNullable),
    }
}
