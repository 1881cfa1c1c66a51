//! Types as JSON.
ghost use Rattle.std.specs.Prelude.{◌≡◌, ◌++◌, OnOk, false};
ghost use Rattle.vortex_model.specs.LogicalType.{is_nullable};
ghost use Rattle.vortex_dtype_ptype.specs.Numbers.{type_of_numbers};
ghost use Rattle.vortex_dtype_ptype.specs.View.{nullability_of_flag, number_kind_of};
ghost use Rattle.vortex_dtype_core.specs.View.{type_of, fields_of};
ghost use Rattle.vortex_table_response.specs.type_texts.Text.{flag_text, plain_text, names_text, type_text, children_text, list_end_text, fixed_list_end_text, struct_end_text};

use crate::type_texts::quoted::push_text;
use crate::type_texts::tokens::{push_comma, push_flag, push_number};
use std::alloc::AllocError;
use vortex_dtype_core::dtype::DType;
use vortex_dtype_core::struct_fields::StructField;
use vortex_dtype_ptype::nullability::Nullability;
use vortex_dtype_ptype::ptype::PType;

fn push_nullability(out: &mut Vec<u8>, nullability: Nullability) -> Result<(), AllocError>
    ensures { OnOk result (out.new.items ≡ out.old.items
        ++ flag_text (is_nullable (nullability_of_flag nullability))) }
{
    match nullability {
        Nullability::NonNullable => push_flag(out, false),
        Nullability::Nullable => push_flag(out, true),
    }
}

fn push_plain(out: &mut Vec<u8>, name: &str, nullability: Nullability) -> Result<(), AllocError>
    ensures { OnOk result (out.new.items ≡ out.old.items
        ++ plain_text name.now (nullability_of_flag nullability)) }
{
    out.extend_from_slice(b"{\"kind\":\"")?;
    out.extend_from_slice(name.as_bytes())?;
    out.extend_from_slice(b"\",\"nullable\":")?;
    push_nullability(out, nullability)?;
    out.extend_from_slice(b"}")
}

// Writes an integer type. For a float type it writes nothing, since no table has one.
fn push_numbers(out: &mut Vec<u8>, ptype: PType, nullability: Nullability) -> Result<(), AllocError>
    ensures { OnOk result (out.new.items ≡ out.old.items
        ++ type_text (type_of_numbers (number_kind_of ptype) (nullability_of_flag nullability))) }
{
    match ptype {
        PType::U8 | PType::U16 | PType::U32 | PType::U64 => {
            push_plain(out, ptype.as_str(), nullability)
        }
        PType::I8 | PType::I16 | PType::I32 | PType::I64 => {
            push_plain(out, ptype.as_str(), nullability)
        }
        PType::F16 | PType::F32 | PType::F64 => Ok(()),
    }
}

// Writes the names of fields as JSON strings with commas between.
fn push_names(out: &mut Vec<u8>, fields: &[StructField]) -> Result<(), AllocError>
    ensures { OnOk result (out.new.items ≡ out.old.items
        ++ names_text false (fields_of fields.now)) }
{
    let mut later = false;
    for field in fields {
        push_comma(out, later)?;
        push_text(out, field.name.as_str().as_bytes())?;
        later = true;
    }
    Ok(())
}

// Writes what comes after the children of a struct type.
fn push_struct_end(
    out: &mut Vec<u8>,
    fields: &[StructField],
    nullability: Nullability,
) -> Result<(), AllocError>
    ensures { OnOk result (out.new.items ≡ out.old.items ++ struct_end_text (fields_of fields.now)
        (nullability_of_flag nullability)) }
{
    out.extend_from_slice(b"],\"kind\":\"struct\",\"names\":[")?;
    push_names(out, fields)?;
    out.extend_from_slice(b"],\"nullable\":")?;
    push_nullability(out, nullability)?;
    out.extend_from_slice(b"}")?;
    Ok(())
}

// Writes what comes after the child of a list type.
fn push_list_end(out: &mut Vec<u8>, nullability: Nullability) -> Result<(), AllocError>
    ensures { OnOk result (out.new.items ≡ out.old.items
        ++ list_end_text (nullability_of_flag nullability)) }
{
    out.extend_from_slice(b"],\"kind\":\"list\",\"nullable\":")?;
    push_nullability(out, nullability)?;
    out.extend_from_slice(b"}")
}

// Writes what comes after the child of a type of lists of `size` elements.
fn push_fixed_list_end(
    out: &mut Vec<u8>,
    size: u32,
    nullability: Nullability,
) -> Result<(), AllocError>
    ensures { OnOk result (out.new.items ≡ out.old.items
        ++ fixed_list_end_text size (nullability_of_flag nullability)) }
{
    out.extend_from_slice(b"],\"kind\":\"fixed_size_list\",\"nullable\":")?;
    push_nullability(out, nullability)?;
    out.extend_from_slice(b",\"size\":")?;
    push_number(out, size)?;
    out.extend_from_slice(b"}")?;
    Ok(())
}

/// Writes a type that a table can have, and nothing for another type. After an `Err` the buffer's
/// content is unspecified.
#[cycle(kind)]
pub fn push_dtype(out: &mut Vec<u8>, dtype: &DType) -> Result<(), AllocError>
    ensures { OnOk result (out.new.items ≡ out.old.items ++ type_text (type_of dtype.now)) }
{
    match dtype {
        DType::Bool(nullability) => push_plain(out, "bool", *nullability),
        DType::Primitive(ptype, nullability) => push_numbers(out, *ptype, *nullability),
        DType::Utf8(nullability) => push_plain(out, "utf8", *nullability),
        DType::Binary(nullability) => push_plain(out, "binary", *nullability),
        DType::List(element, nullability) => {
            out.extend_from_slice(b"{\"children\":[")?;
            push_dtype(out, element)?;
            push_list_end(out, *nullability)
        }
        DType::FixedSizeList(element, size, nullability) => {
            out.extend_from_slice(b"{\"children\":[")?;
            push_dtype(out, element)?;
            push_fixed_list_end(out, *size, *nullability)
        }
        DType::Struct(fields, nullability) => {
            let fields = fields.as_slice();
            out.extend_from_slice(b"{\"children\":[")?;
            push_children(out, fields)?;
            push_struct_end(out, fields, *nullability)
        }
        DType::Null | DType::Decimal(_, _) | DType::Map(_, _) => Ok(()),
        DType::Union(_, _) | DType::Variant(_) | DType::Extension(_) => Ok(()),
    }
}

#[cycle(kind)]
fn push_children(out: &mut Vec<u8>, fields: &[StructField]) -> Result<(), AllocError>
    ensures { OnOk result (out.new.items ≡ out.old.items
        ++ children_text false (fields_of fields.now)) }
{
    let mut later = false;
    for field in fields {
        push_comma(out, later)?;
        push_dtype(out, &field.dtype)?;
        later = true;
    }
    Ok(())
}
