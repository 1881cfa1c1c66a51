//! Which types have JSON text, and how deep they nest.
ghost use Rattle.std.specs.Prelude.{◌≡◌, ◌^◌, ◌&&◌, nat_lt, IsTrue, IsUtf8};
ghost use Rattle.vortex_dtype_core.specs.View.{type_of, fields_of};
ghost use Rattle.vortex_table_text.specs.Types.{has_text, have_texts, nests_within, fields_nest_within, HasUtf8Names, HaveUtf8Names};

use vortex_dtype_core::dtype::DType;
use vortex_dtype_core::struct_fields::StructField;

// A size always fits; the model's sizes are numbers of any size.
fn fits(size: u32) -> bool
    ensures { result ≡ nat_lt size (2 ^ 32) }
{
    u64::from(size) < 4_294_967_296
}

/// Whether the type and its parts have JSON text.
#[cycle(text)]
#[tactic(auto, using(crate::proofs::TypeParts::parts))]
pub(crate) fn has_text(dtype: &DType) -> bool
    ensures { result ≡ has_text (type_of dtype.now) }
{
    match dtype {
        DType::Bool(_) | DType::Utf8(_) | DType::Binary(_) => true,
        DType::Primitive(ptype, _) => ptype.is_int(),
        DType::List(element, _) => has_text(element),
        DType::FixedSizeList(element, size, _) => fits(*size) && has_text(element),
        DType::Struct(fields, _) => have_texts(fields.as_slice()),
        DType::Null | DType::Decimal(_, _) | DType::Map(_, _) => false,
        DType::Union(_, _) | DType::Variant(_) | DType::Extension(_) => false,
    }
}

#[cycle(text)]
#[tactic(auto, using(crate::proofs::TypeParts::parts))]
fn have_texts(fields: &[StructField]) -> bool
    ensures { result ≡ have_texts (fields_of fields.now) }
{
    for field in fields {
        if !has_text(&field.dtype) {
            return false;
        }
    }
    true
}

// Shows the prover that the bytes of a name are UTF-8.
fn check_name(name: &str)
    ensures { IsUtf8 name.now }
{
    let _bytes = name.as_bytes();
}

/// Whether no more than `depth` lists and structs of the type nest in one another.
#[cycle(nests)]
#[tactic(auto, using(crate::proofs::TypeParts::depths))]
fn nests_within(dtype: &DType, depth: usize) -> bool
    ensures depth { result ≡ nests_within (type_of dtype.now) depth }
    ensures names { IsTrue result → HasUtf8Names (type_of dtype.now) }
{
    match dtype {
        DType::List(element, _) => depth > 0 && nests_within(element, depth - 1),
        DType::FixedSizeList(element, _, _) => depth > 0 && nests_within(element, depth - 1),
        DType::Struct(fields, _) => depth > 0 && fields_nest_within(fields.as_slice(), depth - 1),
        DType::Bool(_) | DType::Primitive(_, _) | DType::Utf8(_) | DType::Binary(_) => true,
        DType::Null | DType::Decimal(_, _) | DType::Map(_, _) => true,
        DType::Union(_, _) | DType::Variant(_) | DType::Extension(_) => true,
    }
}

#[cycle(nests)]
#[tactic(auto, using(crate::proofs::TypeParts::depths))]
fn fields_nest_within(fields: &[StructField], depth: usize) -> bool
    ensures depth { result ≡ fields_nest_within (fields_of fields.now) depth }
    ensures names { IsTrue result → HaveUtf8Names (fields_of fields.now) }
{
    for field in fields {
        check_name(field.name.as_str());
        if !nests_within(&field.dtype, depth) {
            return false;
        }
    }
    true
}

/// Whether the type has JSON text, and no more than `depth` of its lists and structs nest in one
/// another.
pub(crate) fn has_text_within(dtype: &DType, depth: usize) -> bool
    ensures text { result
        ≡ (has_text (type_of dtype.now) && nests_within (type_of dtype.now) depth) }
    ensures names { IsTrue result → HasUtf8Names (type_of dtype.now) }
{
    has_text(dtype) && nests_within(dtype, depth)
}
