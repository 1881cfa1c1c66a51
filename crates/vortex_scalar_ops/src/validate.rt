//! Validity of values for a type.
ghost use Rattle.std.specs.Prelude.{◌≡◌};
ghost use Rattle.vortex_model.specs.Content.{raw_tuple, raw_first, no_raws};
ghost use Rattle.vortex_model.specs.Valid.{valid, has, all_have, entries_have, fields_have};
ghost use Rattle.vortex_dtype_core.specs.View.{type_of, fields_of};
ghost use Rattle.vortex_scalar_value.specs.View.{raw_at, raws_in, raw_of_union, raw_of_variant};

use crate::leaves::{has_bytes, has_number, has_text};
use crate::tagged::dtype_tagged;
use vortex_dtype_core::dtype::DType;
use vortex_dtype_core::struct_fields::StructField;
use vortex_scalar_value::scalar_value::ScalarValue;
use vortex_scalar_value::union_value::UnionValue;
use vortex_scalar_value::variant_value::VariantValue;

/// Whether the type has the value. `None` is null. Takes time linear in the size of the value.
#[cycle(validate)]
#[tactic(auto, using(crate::proofs::Views::valid_values))]
pub fn validate(dtype: &DType, value: Option<&ScalarValue>) -> bool
    ensures { result ≡ valid (type_of dtype.now) (raw_at value.entry) }
{
    let Some(value) = value else {
        return dtype.is_nullable();
    };
    let stored = dtype.stored_dtype();
    match value {
        ScalarValue::Bool(_) => stored.is_boolean(),
        ScalarValue::Primitive(number) => has_number(stored, *number),
        ScalarValue::Utf8(text) => has_text(stored, text.as_str()),
        ScalarValue::Binary(bytes) => has_bytes(stored, bytes.as_slice()),
        ScalarValue::Tuple(items) => validate_tuple(stored, items.as_slice()),
        ScalarValue::Union(union) => validate_union(stored, union),
        ScalarValue::Variant(variant) => validate_variant(stored, variant),
    }
}

// Whether the union has the value's tag, and that variant's type has the value under it. The type
// is not an extension.
#[cycle(validate)]
fn validate_union(dtype: &DType, union: &UnionValue) -> bool
    ensures { result ≡ has (type_of dtype.now) (raw_of_union union.now) }
{
    let Some(variants) = dtype.as_union_variants_opt() else {
        return false;
    };
    match dtype_tagged(variants.as_slice(), union.type_id()) {
        Some(dtype) => validate(dtype, union.child_value()),
        None => false,
    }
}

// Whether the type is `Variant`, and the value inside is valid for the type inside. The type is not
// an extension.
#[cycle(validate)]
fn validate_variant(dtype: &DType, variant: &VariantValue) -> bool
    ensures { result ≡ has (type_of dtype.now) (raw_of_variant variant.now) }
{
    dtype.is_variant() && validate(variant.dtype(), variant.value())
}

// Whether the type is a list, a map or a struct that has these items. The type is not an extension.
#[cycle(validate)]
#[tactic(auto, using(crate::proofs::Views::valid_tuples))]
fn validate_tuple(dtype: &DType, items: &[Option<ScalarValue>]) -> bool
    ensures { result ≡ has (type_of dtype.now) (raw_tuple (raws_in items.now)) }
{
    match dtype {
        DType::List(element, _) => validate_items(element, items),
        DType::FixedSizeList(element, size, _) => {
            items.len() == *size as usize && validate_items(element, items)
        }
        DType::Map(map, _) => validate_entries(map.key_dtype(), map.value_dtype(), items),
        DType::Struct(fields, _) => validate_fields(fields.as_slice(), items),
        DType::Null | DType::Bool(_) | DType::Primitive(_, _) | DType::Decimal(_, _) => false,
        DType::Utf8(_) | DType::Binary(_) | DType::Variant(_) => false,
        DType::Union(_, _) | DType::Extension(_) => false,
    }
}

#[cycle(validate)]
fn validate_items(element: &DType, items: &[Option<ScalarValue>]) -> bool
    ensures { result ≡ all_have (type_of element.now) (raws_in items.now) }
{
    for item in items {
        if !validate(element, item.as_ref()) {
            return false;
        }
    }
    true
}

#[cycle(validate)]
fn validate_entries(key: &DType, value: &DType, items: &[Option<ScalarValue>]) -> bool
    ensures { result ≡ entries_have (type_of key.now) (type_of value.now) (raws_in items.now) }
{
    for entry in items {
        if !validate_entry(key, value, entry.as_ref()) {
            return false;
        }
    }
    true
}

// Whether the entry is a pair of a key and a value.
#[cycle(validate)]
#[tactic(auto, using(vortex_scalar_value::proofs::Views::one_level))]
fn validate_entry(key: &DType, value: &DType, entry: Option<&ScalarValue>) -> bool
    ensures { result ≡ entries_have (type_of key.now) (type_of value.now)
        (raw_first (raw_at entry.entry) no_raws) }
{
    match entry {
        Some(ScalarValue::Tuple(pair)) => match pair.as_slice() {
            [first, second] => validate(key, first.as_ref()) && validate(value, second.as_ref()),
            _ => false,
        },
        Some(ScalarValue::Bool(_)) | Some(ScalarValue::Primitive(_)) => false,
        Some(ScalarValue::Utf8(_)) | Some(ScalarValue::Binary(_)) => false,
        Some(ScalarValue::Union(_)) | Some(ScalarValue::Variant(_)) | None => false,
    }
}

#[cycle(validate)]
#[tactic(auto, using(crate::proofs::Views::valid_fields))]
fn validate_fields(fields: &[StructField], items: &[Option<ScalarValue>]) -> bool
    ensures { result ≡ fields_have (fields_of fields.now) (raws_in items.now) }
{
    if fields.len() != items.len() {
        return false;
    }
    for (i, item) in items.iter().enumerate() {
        if !validate(&fields[i].dtype, item.as_ref()) {
            return false;
        }
    }
    true
}
