//! The sizes of values in bytes.
ghost use Rattle.std.specs.Prelude.{◌≡◌, ◌≤◌, ◌&&◌, ◌^◌, nat_lt, true, SomeIff};
ghost use Rattle.vortex_dtype_core.specs.View.{type_of, fields_of};
ghost use Rattle.vortex_dtype_fields.specs.Widths.{decimal_width, is_fixed, are_fixed, bytes_of, bytes_of_fields, is_countable, are_countable};

use vortex_dtype_core::dtype::DType;
use vortex_dtype_core::struct_fields::StructField;

/// Whether all values have one size.
#[cycle(fixed)]
#[tactic(auto, using(vortex_dtype_core::proofs::Sizes::levels))]
pub(crate) fn has_fixed_width(dtype: &DType) -> bool
    ensures { result ≡ is_fixed (type_of dtype.now) }
{
    match dtype {
        DType::Null | DType::Bool(_) | DType::Primitive(_, _) | DType::Decimal(_, _) => true,
        DType::Utf8(_) | DType::Binary(_) | DType::List(_, _) => false,
        DType::Map(_, _) | DType::Union(_, _) | DType::Variant(_) => false,
        DType::FixedSizeList(element, _, _) => has_fixed_width(element),
        DType::Struct(fields, _) => have_fixed_widths(fields.as_slice()),
        DType::Extension(extension) => has_fixed_width(extension.storage_dtype()),
    }
}

#[cycle(fixed)]
#[tactic(auto, using(vortex_dtype_core::proofs::Sizes::levels))]
fn have_fixed_widths(fields: &[StructField]) -> bool
    ensures { result ≡ are_fixed (fields_of fields.now) }
{
    for field in fields {
        if !has_fixed_width(&field.dtype) {
            return false;
        }
    }
    true
}

/// The size of a value, and `None` where it, or that of a part, is 2^64 bytes or more.
#[cycle(bytes)]
#[tactic(auto, using(vortex_dtype_core::proofs::Sizes::levels))]
pub(crate) fn counted_bytes(dtype: &DType) -> Option<usize>
    ensures { SomeIff result (is_countable (type_of dtype.now) ≡ true)
        (bytes_of (type_of dtype.now)) }
{
    match dtype {
        DType::Null => Some(0),
        DType::Bool(_) => Some(1),
        DType::Primitive(ptype, _) => Some(ptype.byte_width()),
        DType::Decimal(decimal, _) => Some(bytes_of_digits(decimal.precision())),
        DType::Utf8(_) | DType::Binary(_) | DType::List(_, _) => Some(0),
        DType::Map(_, _) | DType::Union(_, _) | DType::Variant(_) => Some(0),
        DType::FixedSizeList(element, size, _) => {
            let bytes = counted_bytes(element)?;
            bytes.checked_mul(*size as usize)
        }
        DType::Struct(fields, _) => counted_bytes_of_fields(fields.as_slice()),
        DType::Extension(extension) => counted_bytes(extension.storage_dtype()),
    }
}

#[cycle(bytes)]
#[tactic(auto, using(vortex_dtype_core::proofs::Sizes::levels))]
fn counted_bytes_of_fields(fields: &[StructField]) -> Option<usize>
    ensures { SomeIff result
        ((are_countable (fields_of fields.now) && nat_lt (bytes_of_fields (fields_of fields.now))
        (2 ^ 64)) ≡ true) (bytes_of_fields (fields_of fields.now)) }
{
    let mut all = 0usize;
    for field in fields {
        let bytes = counted_bytes(&field.dtype)?;
        all = all.checked_add(bytes)?;
    }
    Some(all)
}

// The width of the narrowest integer type that holds each number of `digits` digits.
fn bytes_of_digits(digits: u8) -> usize
    requires { digits ≤ 76 }
    ensures { result ≡ decimal_width digits }
{
    if digits <= 2 {
        1
    } else if digits <= 4 {
        2
    } else if digits <= 9 {
        4
    } else if digits <= 18 {
        8
    } else if digits <= 38 {
        16
    } else {
        32
    }
}
