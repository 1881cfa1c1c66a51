//! The test for well-formed types.
ghost use Rattle.std.specs.Prelude.{◌≡◌, ◌&&◌};
ghost use Rattle.std.specs.List.{list_any};
ghost use Rattle.std.specs.Ordering.{int_eq};
ghost use Rattle.vortex_dtype_core.specs.View.{type_of, fields_of, variants_of};
ghost use Rattle.vortex_dtype_core.specs.Parts.{is_distinct};
ghost use Rattle.vortex_dtype_proto.specs.Messages.{are_tags, variant_tags};
ghost use Rattle.vortex_dtype_proto.specs.Shapes.{is_shaped, are_fields_shaped, are_variants_shaped};

use vortex_dtype_core::dtype::DType;
use vortex_dtype_core::struct_fields::StructField;
use vortex_dtype_core::union_variants::UnionVariant;

/// Whether at every level no map key is nullable and no union tag is repeated, as in each type made
/// by calls. Allocates nothing.
#[cycle(shaped)]
#[tactic(auto, using(vortex_dtype_core::proofs::Sizes::levels))]
pub fn is_shaped(dtype: &DType) -> bool
    ensures { result ≡ is_shaped (type_of dtype.now) }
{
    match dtype {
        DType::Null | DType::Bool(_) | DType::Primitive(_, _) | DType::Decimal(_, _) => true,
        DType::Utf8(_) | DType::Binary(_) | DType::Variant(_) => true,
        DType::List(element, _) => is_shaped(element),
        DType::FixedSizeList(element, _, _) => is_shaped(element),
        DType::Map(map, _) => {
            if map.key_dtype().is_nullable() {
                return false;
            }
            is_shaped(map.key_dtype()) && is_shaped(map.value_dtype())
        }
        DType::Struct(fields, _) => are_fields_shaped(fields.as_slice()),
        DType::Union(variants, _) => {
            have_distinct_tags(variants.as_slice()) && are_variants_shaped(variants.as_slice())
        }
        DType::Extension(extension) => is_shaped(extension.storage_dtype()),
    }
}

#[cycle(shaped)]
#[tactic(auto, using(vortex_dtype_core::proofs::Sizes::levels))]
fn are_fields_shaped(fields: &[StructField]) -> bool
    ensures { result ≡ are_fields_shaped (fields_of fields.now) }
{
    for field in fields {
        if !is_shaped(&field.dtype) {
            return false;
        }
    }
    true
}

#[cycle(shaped)]
#[tactic(auto, using(vortex_dtype_core::proofs::Sizes::levels))]
fn are_variants_shaped(variants: &[UnionVariant]) -> bool
    ensures { result ≡ are_variants_shaped (variants_of variants.now) }
{
    for variant in variants {
        if !is_shaped(&variant.dtype) {
            return false;
        }
    }
    true
}

// Whether no tag is repeated. That each is an `i8` follows from its type.
fn have_distinct_tags(variants: &[UnionVariant]) -> bool
    ensures { result ≡ (are_tags (variant_tags (variants_of variants.now))
        && is_distinct (variant_tags (variants_of variants.now))) }
{
    for (i, variant) in variants.iter().enumerate() {
        if has_tag(&variants[i + 1..], variant.tag) {
            return false;
        }
    }
    true
}

fn has_tag(variants: &[UnionVariant], tag: i8) -> bool
    ensures { result ≡ list_any (λ t. int_eq t tag) (variant_tags (variants_of variants.now)) }
{
    for variant in variants {
        if variant.tag == tag {
            return true;
        }
    }
    false
}
