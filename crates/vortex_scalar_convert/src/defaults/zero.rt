//! The zero of a type.
ghost use Rattle.std.specs.Prelude.{◌≡◌, IfOk, Some, option_map};
ghost use Rattle.vortex_model.specs.LogicalType.{non_nullable};
ghost use Rattle.vortex_model.specs.Content.{raw_tuple};
ghost use Rattle.vortex_dtype_ptype.specs.Numbers.{type_of_numbers};
ghost use Rattle.vortex_dtype_ptype.specs.View.{number_kind_of};
ghost use Rattle.vortex_dtype_core.specs.View.{type_of, fields_of, variants_of};
ghost use Rattle.vortex_scalar_value.specs.View.{raw_of, raws_in};
ghost use Rattle.vortex_scalar_convert.specs.defaults.Zero.{zero_of, zeros_of, first_zero, times};

use std::alloc::{AllocError, Global};
use vortex_dtype_core::dtype::DType;
use vortex_dtype_core::struct_fields::StructField;
use vortex_dtype_core::union_variants::UnionVariant;
use vortex_dtype_core::{BufferString, ByteBuffer};
use vortex_dtype_ptype::ptype::PType;
use vortex_scalar_value::pvalue::PValue;
use vortex_scalar_value::scalar_value::ScalarValue;
use vortex_scalar_value::union_value::UnionValue;

/// The zero of the type, and `None` where it has none. Takes time linear in the sizes of the type
/// and of its zero.
#[cycle(zero)]
#[tactic(auto, using(crate::proofs::defaults::Made::values))]
pub(crate) fn zero_of(alloc: Global, dtype: &DType) -> Result<Option<ScalarValue>, AllocError>
    ensures { IfOk result (λ zero. option_map raw_of zero ≡ zero_of (type_of dtype.now)) }
{
    match dtype {
        DType::Bool(_) => Ok(Some(ScalarValue::Bool(false))),
        DType::Primitive(ptype, _) => Ok(zero_number(*ptype)),
        DType::Utf8(_) => Ok(Some(ScalarValue::Utf8(BufferString::new()))),
        DType::Binary(_) => Ok(Some(ScalarValue::Binary(ByteBuffer::new()))),
        DType::List(_, _) | DType::Map(_, _) => Ok(Some(ScalarValue::Tuple(Vec::new(alloc)))),
        DType::FixedSizeList(element, size, _) => zero_list(alloc, element, *size),
        DType::Struct(fields, _) => zero_record(alloc, fields.as_slice()),
        DType::Union(variants, _) => zero_choice(alloc, variants.as_slice()),
        DType::Extension(extension) => zero_of(alloc, extension.storage_dtype()),
        DType::Null | DType::Decimal(_, _) | DType::Variant(_) => Ok(None),
    }
}

// Zero of an integer type.
#[tactic(auto, using(crate::proofs::defaults::Made::numbers))]
fn zero_number(ptype: PType) -> Option<ScalarValue>
    ensures { option_map raw_of result
        ≡ zero_of (type_of_numbers (number_kind_of ptype) non_nullable) }
{
    let zero = PValue::of(ptype, 0)?;
    Some(ScalarValue::Primitive(zero))
}

// A list of `size` zeros.
#[cycle(zero)]
#[tactic(auto, using(vortex_scalar_value::proofs::Views::one_level))]
fn zero_list(alloc: Global, element: &DType, size: u32) -> Result<Option<ScalarValue>, AllocError>
    ensures { IfOk result (λ zero. option_map raw_of zero
        ≡ option_map raw_tuple (times size (zero_of (type_of element.now)))) }
{
    if size == 0 {
        return Ok(Some(ScalarValue::Tuple(Vec::new(alloc))));
    }
    let Some(zero) = zero_of(alloc, element)? else {
        return Ok(None);
    };
    let zeros = copies_of(alloc, &zero, size)?;
    Ok(Some(ScalarValue::Tuple(zeros)))
}

// A list of `count` clones of the value.
fn copies_of(
    alloc: Global,
    value: &ScalarValue,
    count: u32,
) -> Result<Vec<Option<ScalarValue>>, AllocError>
    ensures { IfOk result (λ copies. Some (raws_in copies.items)
        ≡ times count (Some (raw_of value.now))) }
{
    let count = count as usize;
    let mut copies = Vec::with_capacity(alloc, count)?;
    for _ in 0..count {
        let copy = value.clone()?;
        copies.push(Some(copy))?;
    }
    Ok(copies)
}

// A struct of the zeros of the fields.
#[cycle(zero)]
fn zero_record(alloc: Global, fields: &[StructField]) -> Result<Option<ScalarValue>, AllocError>
    ensures { IfOk result (λ zero. option_map raw_of zero
        ≡ option_map raw_tuple (zeros_of (fields_of fields.now))) }
{
    let mut zeros = Vec::with_capacity(alloc, fields.len())?;
    for field in fields {
        let Some(zero) = zero_of(alloc, &field.dtype)? else {
            return Ok(None);
        };
        zeros.push(Some(zero))?;
    }
    Ok(Some(ScalarValue::Tuple(zeros)))
}

// The zero of the first variant, with its tag.
#[cycle(zero)]
fn zero_choice(alloc: Global, variants: &[UnionVariant]) -> Result<Option<ScalarValue>, AllocError>
    ensures { IfOk result (λ zero. option_map raw_of zero ≡ first_zero (variants_of variants.now)) }
{
    let [first, ..] = variants else {
        return Ok(None);
    };
    let Some(zero) = zero_of(alloc, &first.dtype)? else {
        return Ok(None);
    };
    let union = UnionValue::try_new(alloc, first.tag, Some(zero))?;
    Ok(Some(ScalarValue::Union(union)))
}
