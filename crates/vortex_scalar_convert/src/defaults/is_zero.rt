//! The test for zero.
ghost use Rattle.std.specs.Prelude.{◌≡◌};
ghost use Rattle.vortex_model.specs.Content.{raw_tuple};
ghost use Rattle.vortex_dtype_core.specs.View.{type_of, fields_of};
ghost use Rattle.vortex_scalar_value.specs.View.{raw_at, raws_in, raw_of_union};
ghost use Rattle.vortex_scalar_convert.specs.defaults.Zero.{is_zero_value, is_zero_in, are_zero, fields_are_zero};

use vortex_dtype_core::dtype::DType;
use vortex_dtype_core::struct_fields::StructField;
use vortex_scalar_value::scalar_value::ScalarValue;
use vortex_scalar_value::union_value::UnionValue;

/// Whether the value is the zero of its type; a `Variant` value is where the value inside is the
/// zero of the type inside. `None` is null, which is not zero. Allocates nothing, and takes time
/// linear in the size of the value.
#[cycle(zero)]
#[tactic(auto, using(vortex_scalar_value::proofs::Views::one_level))]
pub fn is_zero_value(dtype: &DType, value: Option<&ScalarValue>) -> bool
    ensures { result ≡ is_zero_value (type_of dtype.now) (raw_at value.entry) }
{
    let Some(value) = value else {
        return false;
    };
    match value {
        ScalarValue::Bool(flag) => !*flag,
        ScalarValue::Primitive(number) => number.is_zero(),
        ScalarValue::Utf8(text) => text.is_empty(),
        ScalarValue::Binary(bytes) => bytes.is_empty(),
        ScalarValue::Tuple(items) => is_zero_tuple(dtype.stored_dtype(), items.as_slice()),
        ScalarValue::Union(union) => is_zero_union(dtype.stored_dtype(), union),
        ScalarValue::Variant(variant) => is_zero_value(variant.dtype(), variant.value()),
    }
}

// Whether a union's value is the zero of the first variant. The type is not an extension.
#[cycle(zero)]
fn is_zero_union(dtype: &DType, union: &UnionValue) -> bool
    ensures { result ≡ is_zero_in (type_of dtype.now) (raw_of_union union.now) }
{
    let Some(variants) = dtype.as_union_variants_opt() else {
        return false;
    };
    match variants.as_slice() {
        [first, ..] => {
            first.tag == union.type_id() && is_zero_value(&first.dtype, union.child_value())
        }
        [] => false,
    }
}

// Whether a list, a map or a struct of these items is zero. The type is not an extension.
#[cycle(zero)]
#[tactic(auto, using(crate::proofs::defaults::Tests::tuples))]
fn is_zero_tuple(dtype: &DType, items: &[Option<ScalarValue>]) -> bool
    ensures { result ≡ is_zero_in (type_of dtype.now) (raw_tuple (raws_in items.now)) }
{
    if let Some(element) = dtype.as_fixed_size_list_element_opt() {
        return are_zero(element, items);
    }
    match dtype.as_struct_fields_opt() {
        Some(fields) => fields_are_zero(fields.as_slice(), items),
        None => items.is_empty(),
    }
}

#[cycle(zero)]
fn are_zero(element: &DType, items: &[Option<ScalarValue>]) -> bool
    ensures { result ≡ are_zero (type_of element.now) (raws_in items.now) }
{
    for item in items {
        if !is_zero_value(element, item.as_ref()) {
            return false;
        }
    }
    true
}

#[cycle(zero)]
#[tactic(auto, using(crate::proofs::defaults::Tests::records))]
fn fields_are_zero(fields: &[StructField], items: &[Option<ScalarValue>]) -> bool
    ensures { result ≡ fields_are_zero (fields_of fields.now) (raws_in items.now) }
{
    if fields.len() != items.len() {
        return false;
    }
    for (i, item) in items.iter().enumerate() {
        if !is_zero_value(&fields[i].dtype, item.as_ref()) {
            return false;
        }
    }
    true
}
