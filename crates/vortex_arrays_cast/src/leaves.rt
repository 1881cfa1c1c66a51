//! Booleans, integers, strings and bytes as those of another type.
ghost use Rattle.std.specs.Prelude.{◌≡◌, length, IfOk, IfSome};
ghost use Rattle.vortex_dtype_ptype.specs.View.{nullability_of_flag};
ghost use Rattle.vortex_dtype_core.specs.View.{type_of};
ghost use Rattle.vortex_arrays_buffer.specs.PrimitiveBuffers.{kind_of_numbers, integers_of};
ghost use Rattle.vortex_arrays_model.specs.Layout.{bools, numbers, strings, type_of_strings, HasLength, IsSound};
ghost use Rattle.vortex_arrays_core.specs.LayoutOf.{valid_of, strings_of};
ghost use Rattle.vortex_arrays_validity.specs.Validities.{IsRecast};
ghost use Rattle.vortex_arrays_cast.specs.Cast.{IsCast};
ghost use Rattle.vortex_arrays_cast.specs.Ranges.{LieIn};

use crate::numbers::numbers_as;
use bytes::Bytes;
use std::alloc::{AllocError, Global};
use std::rc::Rc;
use vortex_arrays_buffer::bit_buffer::BitBuffer;
use vortex_arrays_buffer::buffer::Buffer;
use vortex_arrays_buffer::primitive_buffer::PrimitiveBuffer;
use vortex_arrays_core::array::{ArrayRef, StringKind, Validity};
use vortex_arrays_validity::validity_ext::ValidityExt;
use vortex_arrays_view::view::BinaryView;
use vortex_dtype_core::dtype::DType;
use vortex_dtype_ptype::nullability::Nullability;

/// The validity with this nullability. `None` where it has no null and a row is null.
#[tactic(auto, using(crate::proofs::CastLemmas::none_null))]
pub(crate) fn cast_validity(
    validity: &Validity,
    nullability: Nullability,
    len: usize,
) -> Result<Option<Validity>, AllocError>
    requires { HasLength (valid_of validity.now) len }
    ensures { IfOk result (λ cast. IfSome cast (λ v. IsRecast (valid_of validity.now) (valid_of v)
        (nullability_of_flag nullability) len)) }
{
    match nullability {
        Nullability::Nullable => {
            let same = validity.clone()?;
            Ok(Some(same.into_nullable()))
        }
        Nullability::NonNullable => {
            if validity.execute_no_nulls(len) {
                Ok(Some(Validity::NonNullable))
            } else {
                Ok(None)
            }
        }
    }
}

/// An array of booleans. The bits are shared.
#[tactic(auto, using(crate::proofs::CastLemmas::leaves))]
pub(crate) fn cast_bools(
    alloc: Global,
    bits: &BitBuffer,
    validity: &Validity,
    target: &DType,
) -> Result<Option<ArrayRef>, AllocError>
    requires { HasLength (valid_of validity.now) (length bits.now) }
    ensures { IfOk result (λ cast. IfSome cast
        (IsCast (type_of target.now) (bools bits.now (valid_of validity.now)))) }
{
    let DType::Bool(nullability) = target else {
        return Ok(None);
    };
    let Some(validity) = cast_validity(validity, *nullability, bits.len())? else {
        return Ok(None);
    };
    let bits = bits.clone()?;
    let cast = ArrayRef::of_bools(alloc, bits, validity)?;
    Ok(Some(cast))
}

/// An array of integers of a type that has the range of the valid ones, or else has each of them,
/// also those of null rows.
#[tactic(auto, using(crate::proofs::CastLemmas::leaves))]
pub(crate) fn cast_numbers(
    alloc: Global,
    items: &PrimitiveBuffer,
    validity: &Validity,
    target: &DType,
    range: Option<(i128, i128)>,
) -> Result<Option<ArrayRef>, AllocError>
    requires fits { HasLength (valid_of validity.now) (length (integers_of items.now)) }
    requires range { LieIn range
        (numbers (kind_of_numbers items.now) (integers_of items.now) (valid_of validity.now)) }
    ensures { IfOk result (λ cast. IfSome cast (IsCast (type_of target.now)
        (numbers (kind_of_numbers items.now) (integers_of items.now) (valid_of validity.now)))) }
{
    let DType::Primitive(ptype, nullability) = target else {
        return Ok(None);
    };
    let Some(validity) = cast_validity(validity, *nullability, items.len())? else {
        return Ok(None);
    };
    let Some(items) = numbers_as(alloc, *ptype, items, range)? else {
        return Ok(None);
    };
    // Proves that each integer is within its type.
    let _count = items.len();
    let cast = ArrayRef::of_numbers(alloc, items, validity)?;
    Ok(Some(cast))
}

/// An array of strings from one of strings, or of bytes from one of bytes. Views and buffers are
/// shared.
#[tactic(auto, using(crate::proofs::CastLemmas::leaves))]
pub(crate) fn cast_strings(
    alloc: Global,
    kind: StringKind,
    views: &Buffer<BinaryView>,
    buffers: &Rc<Vec<Bytes>>,
    validity: &Validity,
    target: &DType,
) -> Result<Option<ArrayRef>, AllocError>
    requires { IsSound
        (strings (strings_of kind) views.now buffers.now.value.items (valid_of validity.now)) }
    ensures { IfOk result (λ cast. IfSome cast (IsCast (type_of target.now)
        (strings (strings_of kind) views.now buffers.now.value.items (valid_of validity.now)))) }
{
    let Some(nullability) = nullability_of(kind, target) else {
        return Ok(None);
    };
    let Some(validity) = cast_validity(validity, nullability, views.len())? else {
        return Ok(None);
    };
    let views = views.clone()?;
    let buffers = buffers.clone()?;
    let cast = ArrayRef::of_strings(alloc, kind, views, buffers, validity)?;
    Ok(Some(cast))
}

// The nullability of a type of this kind, and `None` for any other type.
fn nullability_of(kind: StringKind, dtype: &DType) -> Option<Nullability>
    ensures { IfSome result (λ nullability.
        type_of dtype.now ≡ type_of_strings (strings_of kind) (nullability_of_flag nullability)) }
{
    match (kind, dtype) {
        (StringKind::Utf8, DType::Utf8(nullability)) => Some(*nullability),
        (StringKind::Binary, DType::Binary(nullability)) => Some(*nullability),
        _ => None,
    }
}
