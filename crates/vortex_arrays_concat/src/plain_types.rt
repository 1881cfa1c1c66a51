//! Which types have a plain layout.
ghost use Rattle.std.specs.Prelude.{◌≡◌};
ghost use Rattle.vortex_dtype_core.specs.View.{type_of, fields_of};
ghost use Rattle.vortex_arrays_concat.specs.PlainTypes.{has_plain, have_plain};

use vortex_dtype_core::dtype::DType;
use vortex_dtype_core::struct_fields::StructField;

/// Whether the type is one of booleans, integers, strings or bytes, or of lists or structs of these
/// at any depth.
#[cycle(plain)]
#[tactic(auto, using(crate::proofs::TypeLemmas::parts))]
pub(crate) fn has_plain(dtype: &DType) -> bool
    ensures { result ≡ has_plain (type_of dtype.now) }
{
    match dtype {
        DType::Bool(_) | DType::Utf8(_) | DType::Binary(_) => true,
        DType::Primitive(ptype, _) => ptype.is_int(),
        DType::List(element, _) => has_plain(element),
        DType::FixedSizeList(element, _, _) => has_plain(element),
        DType::Struct(fields, _) => have_plain(fields.as_slice()),
        DType::Null | DType::Decimal(_, _) | DType::Variant(_) => false,
        DType::Map(_, _) | DType::Union(_, _) | DType::Extension(_) => false,
    }
}

#[cycle(plain)]
#[tactic(auto, using(crate::proofs::TypeLemmas::parts))]
fn have_plain(fields: &[StructField]) -> bool
    ensures { result ≡ have_plain (fields_of fields.now) }
{
    for field in fields {
        if !has_plain(&field.dtype) {
            return false;
        }
    }
    true
}
