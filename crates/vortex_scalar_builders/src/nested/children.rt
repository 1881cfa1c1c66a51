//! Tests for the types of parts.
ghost use Rattle.std.specs.Prelude.{◌≡◌, ◌&&◌, map};
ghost use Rattle.vortex_model.specs.LogicalType.{eq_type};
ghost use Rattle.vortex_dtype_core.specs.View.{type_of, fields_of, entries_in, variants_of};
ghost use Rattle.vortex_scalar_core.specs.Scalar.{scalar_type};
ghost use Rattle.vortex_scalar_builders.specs.nested.Children.{all_are, are_of_fields, is_record_of, all_are_entries, is_choice};

use vortex_dtype_core::dtype::DType;
use vortex_dtype_core::map_dtype::MapDType;
use vortex_dtype_core::struct_fields::StructField;
use vortex_dtype_core::union_variants::UnionVariant;
use vortex_scalar_core::scalar::Scalar;

fn is_of(dtype: &DType, child: &Scalar) -> bool
    ensures { result ≡ eq_type (scalar_type child.now) (type_of dtype.now) }
{
    *child.dtype() == *dtype
}

pub(crate) fn all_are(dtype: &DType, children: &[Scalar]) -> bool
    ensures { result ≡ all_are (type_of dtype.now) (map scalar_type children.now) }
{
    for child in children {
        if !is_of(dtype, child) {
            return false;
        }
    }
    true
}

// Whether the values have the types of the fields, one by one.
#[tactic(auto, using(crate::proofs::nested::Types::unequal_lengths))]
fn are_of_fields(fields: &[StructField], children: &[Scalar]) -> bool
    ensures { result ≡ are_of_fields (fields_of fields.now) (map scalar_type children.now) }
{
    if fields.len() != children.len() {
        return false;
    }
    for (i, child) in children.iter().enumerate() {
        if !is_of(&fields[i].dtype, child) {
            return false;
        }
    }
    true
}

/// Whether the type is a struct, and the values have the types of its fields, one by one.
#[tactic(auto, using(crate::proofs::nested::Types::records))]
pub(crate) fn is_record_of(dtype: &DType, children: &[Scalar]) -> bool
    ensures { result ≡ is_record_of (type_of dtype.now) (map scalar_type children.now) }
{
    match dtype.as_struct_fields_opt() {
        Some(fields) => are_of_fields(fields.as_slice(), children),
        None => false,
    }
}

/// Whether each pair has the map's key type and value type.
pub(crate) fn all_are_entries(types: &MapDType, entries: &[(Scalar, Scalar)]) -> bool
    ensures { result ≡ all_are_entries (entries_in types.now).key (entries_in types.now).value
        (map (λ entry. (scalar_type entry.0, scalar_type entry.1)) entries.now) }
{
    for entry in entries {
        if !is_entry(types, &entry.0, &entry.1) {
            return false;
        }
    }
    true
}

// Whether the pair has the map's key type and value type.
fn is_entry(types: &MapDType, key: &Scalar, value: &Scalar) -> bool
    ensures { result ≡ eq_type (scalar_type key.now) (entries_in types.now).key
        && eq_type (scalar_type value.now) (entries_in types.now).value }
{
    is_of(types.key_dtype(), key) && is_of(types.value_dtype(), value)
}

/// Whether there is a variant with this tag, and the value has its type.
pub(crate) fn is_choice(variants: &[UnionVariant], tag: i8, child: &Scalar) -> bool
    ensures { result ≡ is_choice (variants_of variants.now) tag (scalar_type child.now) }
{
    for variant in variants {
        if variant.tag == tag {
            return is_of(&variant.dtype, child);
        }
    }
    false
}
