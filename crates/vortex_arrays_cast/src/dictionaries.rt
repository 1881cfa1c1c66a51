//! Dictionaries of booleans, integers, strings or bytes as arrays of another type.
ghost use Rattle.std.specs.Prelude.{◌≡◌, ◌<◌, length, false, All, IfOk, IfSome};
ghost use Rattle.vortex_model.specs.LogicalType.{nullability_of};
ghost use Rattle.vortex_dtype_ptype.specs.Numbers.{integral};
ghost use Rattle.vortex_dtype_ptype.specs.View.{number_kind_of};
ghost use Rattle.vortex_dtype_core.specs.View.{type_of};
ghost use Rattle.vortex_arrays_buffer.specs.PrimitiveBuffers.{kind_of_numbers, integers_of};
ghost use Rattle.vortex_arrays_model.specs.Layout.{bools, numbers, strings, dictionary, len_of, array_type_of, content_at, IsSound, HasLength};
ghost use Rattle.vortex_arrays_model.specs.Picks.{PicksSomeValid, position_of};
ghost use Rattle.vortex_arrays_core.specs.LayoutOf.{valid_of, strings_of};
ghost use Rattle.vortex_arrays_cast.specs.Cast.{IsCast};
ghost use Rattle.vortex_arrays_cast.specs.Dictionaries.{integers_at};
ghost use Rattle.vortex_arrays_cast.specs.Ranges.{LieIn, Keeps};

use crate::leaves::{cast_bools, cast_strings, cast_validity};
use crate::numbers::numbers_as;
use bytes::Bytes;
use std::alloc::{AllocError, Global};
use std::rc::Rc;
use vortex_arrays_buffer::bit_buffer::BitBuffer;
use vortex_arrays_buffer::buffer::Buffer;
use vortex_arrays_buffer::primitive_buffer::PrimitiveBuffer;
use vortex_arrays_core::array::{ArrayLayout, ArrayRef, StringKind, Validity};
use vortex_arrays_validity::places::places_or;
use vortex_arrays_view::error::ArrayError;
use vortex_arrays_view::view::BinaryView;
use vortex_dtype_core::dtype::DType;
use vortex_dtype_ptype::ptype::PType;

// Which rows are null: those whose code is null or refers to a null value. `None` where the codes
// have a signed type.
fn coded_validity(
    alloc: Global,
    codes: &ArrayRef,
    validity: &Validity,
    count: usize,
) -> Result<Option<Validity>, AllocError>
    requires { HasLength (valid_of validity.now) count }
    ensures { IfOk result (λ found. IfSome found (λ rows.
        PicksSomeValid (valid_of validity.now) (valid_of rows)
        (nullability_of (array_type_of codes.now)) (len_of codes.now)
        (λ i. position_of (content_at codes.now i)))) }
{
    match validity.take(alloc, codes, count) {
        Ok(rows) => Ok(Some(rows)),
        Err(ArrayError::Memory) => Err(AllocError),
        Err(_) => Ok(None),
    }
}

// The integers at the indices, in another type, and `None` where that does not have each of them.
// Where there are no more integers than indices, all are cast once if the type has them all. One at
// no index doesn't matter.
#[tactic(auto, using(crate::proofs::DictionaryLemmas::at_places))]
fn numbers_at(
    alloc: Global,
    ptype: PType,
    numbers: &PrimitiveBuffer,
    places: &[usize],
    range: Option<(i128, i128)>,
) -> Result<Option<PrimitiveBuffer>, AllocError>
    requires { All (λ i. i < length (integers_of numbers.now)) places.now }
    ensures kind { IfOk result
        (λ cast. IfSome cast (λ c. integral (kind_of_numbers c) ≡ number_kind_of ptype)) }
    ensures integers { IfOk result (λ cast. IfSome cast
        (λ c. Keeps range (integers_at (integers_of numbers.now) places.now) (integers_of c))) }
{
    if numbers.len() <= places.len() {
        if let Some(cast) = numbers_as(alloc, ptype, numbers, None)? {
            let cast = cast.gather(alloc, places)?;
            return Ok(Some(cast));
        }
    }
    let coded = numbers.gather(alloc, places)?;
    numbers_as(alloc, ptype, &coded, range)
}

// The booleans at the codes.
#[tactic(auto, using(crate::proofs::DictionaryLemmas::coded))]
fn cast_coded_bools(
    alloc: Global,
    codes: &ArrayRef,
    bits: &BitBuffer,
    validity: &Validity,
    target: &DType,
) -> Result<Option<ArrayRef>, AllocError>
    requires some { 0 < length bits.now }
    requires sound { IsSound (dictionary codes.now (bools bits.now (valid_of validity.now)) false) }
    ensures { IfOk result (λ cast. IfSome cast (IsCast (type_of target.now)
        (dictionary codes.now (bools bits.now (valid_of validity.now)) false))) }
{
    let Some(rows) = coded_validity(alloc, codes, validity, bits.len())? else {
        return Ok(None);
    };
    let places = places_or(alloc, codes, 0)?;
    let coded = bits.gather(alloc, &places)?;
    cast_bools(alloc, &coded, &rows, target)
}

// The integers at the codes.
#[tactic(auto, using(crate::proofs::DictionaryLemmas::coded))]
fn cast_coded_numbers(
    alloc: Global,
    codes: &ArrayRef,
    items: &PrimitiveBuffer,
    validity: &Validity,
    target: &DType,
    range: Option<(i128, i128)>,
) -> Result<Option<ArrayRef>, AllocError>
    requires some { 0 < length (integers_of items.now) }
    requires sound { IsSound (dictionary codes.now (numbers (kind_of_numbers items.now)
        (integers_of items.now) (valid_of validity.now)) false) }
    requires range { LieIn range (dictionary codes.now (numbers (kind_of_numbers items.now)
        (integers_of items.now) (valid_of validity.now)) false) }
    ensures { IfOk result (λ cast. IfSome cast (IsCast (type_of target.now)
        (dictionary codes.now (numbers (kind_of_numbers items.now) (integers_of items.now)
        (valid_of validity.now)) false))) }
{
    let DType::Primitive(ptype, nullability) = target else {
        return Ok(None);
    };
    let Some(rows) = coded_validity(alloc, codes, validity, items.len())? else {
        return Ok(None);
    };
    let Some(rows) = cast_validity(&rows, *nullability, codes.len())? else {
        return Ok(None);
    };
    let places = places_or(alloc, codes, 0)?;
    let Some(coded) = numbers_at(alloc, *ptype, items, &places, range)? else {
        return Ok(None);
    };
    // Proves that each integer is within its type.
    let _count = coded.len();
    let cast = ArrayRef::of_numbers(alloc, coded, rows)?;
    Ok(Some(cast))
}

// The strings or bytes at the codes, which share the buffers.
#[tactic(auto, using(crate::proofs::DictionaryLemmas::coded))]
fn cast_coded_strings(
    alloc: Global,
    codes: &ArrayRef,
    kind: StringKind,
    views: &Buffer<BinaryView>,
    buffers: &Rc<Vec<Bytes>>,
    validity: &Validity,
    target: &DType,
) -> Result<Option<ArrayRef>, AllocError>
    requires some { 0 < length views.now }
    requires sound { IsSound (dictionary codes.now
        (strings (strings_of kind) views.now buffers.now.value.items (valid_of validity.now))
        false) }
    ensures { IfOk result (λ cast. IfSome cast (IsCast (type_of target.now) (dictionary codes.now
        (strings (strings_of kind) views.now buffers.now.value.items (valid_of validity.now))
        false))) }
{
    let Some(rows) = coded_validity(alloc, codes, validity, views.len())? else {
        return Ok(None);
    };
    let places = places_or(alloc, codes, 0)?;
    let coded = views.gather(alloc, &places)?;
    cast_strings(alloc, kind, &coded, buffers, &rows, target)
}

/// The rows of a dictionary of booleans, integers, strings or bytes, in plain layout. Only values
/// that a row refers to have to be ones of the target. `None` also where the codes have a signed
/// type, and where the values have another layout.
#[tactic(auto, using(crate::proofs::DictionaryLemmas::arms))]
pub(crate) fn cast_dictionary(
    alloc: Global,
    codes: &ArrayRef,
    values: &ArrayRef,
    target: &DType,
    range: Option<(i128, i128)>,
) -> Result<Option<ArrayRef>, AllocError>
    requires sound { IsSound (dictionary codes.now values.now false) }
    requires range { LieIn range (dictionary codes.now values.now false) }
    ensures { IfOk result (λ cast. IfSome cast
        (IsCast (type_of target.now) (dictionary codes.now values.now false))) }
{
    if values.is_empty() {
        return Ok(None);
    }
    match values.layout() {
        ArrayLayout::Bool(bits, validity) => cast_coded_bools(alloc, codes, bits, validity, target),
        ArrayLayout::Primitive(items, validity) => {
            cast_coded_numbers(alloc, codes, items, validity, target, range)
        }
        ArrayLayout::VarBinView(kind, views, buffers, validity) => {
            cast_coded_strings(alloc, codes, *kind, views, buffers, validity, target)
        }
        ArrayLayout::Constant(_, _) | ArrayLayout::Dict(_, _, _) => Ok(None),
        ArrayLayout::FixedSizeList(_, _, _, _) => Ok(None),
        ArrayLayout::ListView(_, _, _, _, _) => Ok(None),
        ArrayLayout::Struct(_, _, _, _) => Ok(None),
    }
}
