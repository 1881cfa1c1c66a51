//! The writes of a type to a hasher, without its nullability.
ghost use Rattle.std.specs.Prelude.{◌≡◌};
ghost use Rattle.std.specs.List.{fold};
ghost use Rattle.vortex_dtype_ptype.specs.View.{number_kind_of};
ghost use Rattle.vortex_dtype_core.specs.View.{type_of, fields_of, variants_of};
ghost use Rattle.vortex_dtype_fields.specs.Hashing.{type_writes, fields_writes, variants_writes, number_of_kind};

use std::hash::{Hash, Hasher};
use vortex_dtype_core::dtype::DType;
use vortex_dtype_core::struct_fields::StructField;
use vortex_dtype_core::union_variants::UnionVariant;
use vortex_dtype_ptype::ptype::PType;

#[cycle(hash)]
#[tactic(auto, using(crate::proofs::Hashed::writes))]
pub(crate) fn hash_type<H: Hasher>(dtype: &DType, state: &mut H)
    ensures { state.new ≡ fold H.write state.old (type_writes (type_of dtype.now)) }
{
    match dtype {
        DType::Null => state.write_u8(0),
        DType::Bool(_) => state.write_u8(1),
        DType::Primitive(ptype, _) => {
            state.write_u8(2);
            state.write_u8(number_of(*ptype));
        }
        DType::Decimal(decimal, _) => {
            state.write_u8(3);
            state.write_u8(decimal.precision());
            state.write_i8(decimal.scale());
        }
        DType::Utf8(_) => state.write_u8(4),
        DType::Binary(_) => state.write_u8(5),
        DType::List(element, _) => {
            state.write_u8(6);
            hash_type(element, state);
        }
        DType::FixedSizeList(element, size, _) => {
            state.write_u8(7);
            state.write_u32(*size);
            hash_type(element, state);
        }
        DType::Map(map, _) => {
            state.write_u8(8);
            map.keys_sorted().hash(state);
            hash_type(map.key_dtype(), state);
            hash_type(map.value_dtype(), state);
        }
        DType::Struct(fields, _) => {
            state.write_u8(9);
            state.write_usize(fields.nfields());
            hash_fields(fields.as_slice(), state);
        }
        DType::Union(variants, _) => {
            state.write_u8(10);
            state.write_usize(variants.len());
            hash_variants(variants.as_slice(), state);
        }
        DType::Variant(_) => state.write_u8(11),
        DType::Extension(extension) => {
            let metadata = extension.serialize_metadata();
            state.write_u8(12);
            extension.id().hash(state);
            state.write_usize(metadata.len());
            state.write(metadata.as_slice());
            hash_type(extension.storage_dtype(), state);
        }
    }
}

#[cycle(hash)]
#[tactic(auto, using(crate::proofs::Hashed::writes))]
fn hash_fields<H: Hasher>(fields: &[StructField], state: &mut H)
    ensures { state.new ≡ fold H.write state.old (fields_writes (fields_of fields.now)) }
{
    for field in fields {
        field.name.as_str().hash(state);
        hash_type(&field.dtype, state);
    }
}

#[cycle(hash)]
#[tactic(auto, using(crate::proofs::Hashed::writes))]
fn hash_variants<H: Hasher>(variants: &[UnionVariant], state: &mut H)
    ensures { state.new ≡ fold H.write state.old (variants_writes (variants_of variants.now)) }
{
    for variant in variants {
        variant.name.as_str().hash(state);
        state.write_i8(variant.tag);
        hash_type(&variant.dtype, state);
    }
}

// A number for each primitive type, which distinguishes them.
fn number_of(ptype: PType) -> u8
    ensures { result ≡ number_of_kind (number_kind_of ptype) }
{
    ptype as u8
}
