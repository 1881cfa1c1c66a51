//! The kinds of nodes of messages, from JSON.
ghost use Rattle.std.specs.Prelude.{◌≡◌, option_map, is_some};
ghost use Rattle.serde_json.specs.View.{view, items_view};
ghost use Rattle.vortex_dtype_ptype.specs.View.{number_kind_of};
ghost use Rattle.vortex_dtype_proto.specs.View.{form_of};
ghost use Rattle.vortex_table_request.specs.Parsed.{Gives};
ghost use Rattle.vortex_table_request.specs.Kinds.{strings_of, integer_of, integers_of, flag_in, bytes_of_digits, metadata_in, number_kind_named, plain_named, one_if, common_keys, plain_of, decimal_of, fixed_list_of, map_of, names_of, struct_of, tags_of, union_of, extension_of, form_named};

use crate::parse_error::ParseError;
use hex::FromHexError;
use serde_json::Value;
use std::alloc::Global;
use vortex_dtype_core::{BufferString, ByteBuffer};
use vortex_dtype_proto::message::MessageKind;
use vortex_dtype_ptype::field_names::{FieldName, FieldNames};
use vortex_dtype_ptype::ptype::PType;

/// The names in an array of strings.
pub fn read_names(alloc: Global, items: &[Value]) -> Result<Vec<FieldName>, ParseError>
    ensures { Gives (λ v. v.items) result (strings_of (items_view items.now)) }
{
    let mut names = Vec::new(alloc);
    for item in items {
        let text = item.as_str().ok_or(ParseError::Malformed)?;
        names.push(FieldName::new(alloc, text)?)?;
    }
    Ok(names)
}

fn read_integer(value: &Value) -> Result<i64, ParseError>
    ensures { Gives (λ z. z) result (integer_of (view value.now)) }
{
    let number = value.as_i64().ok_or(ParseError::Malformed)?;
    Ok(number)
}

// The integers in an array.
fn read_integers(alloc: Global, items: &[Value]) -> Result<Vec<i64>, ParseError>
    ensures { Gives (λ v. v.items) result (integers_of (items_view items.now)) }
{
    let mut numbers = Vec::new(alloc);
    for item in items {
        numbers.push(read_integer(item)?)?;
    }
    Ok(numbers)
}

/// The flag, false where it is missing.
pub(crate) fn read_flag(flag: Option<&Value>) -> Result<bool, ParseError>
    ensures { Gives (λ b. b) result (flag_in (option_map (λ v. view v.now) flag.entry)) }
{
    match flag {
        None => Ok(false),
        Some(flag) => {
            let flag = flag.as_bool().ok_or(ParseError::Malformed)?;
            Ok(flag)
        }
    }
}

/// The bytes of a string of hexadecimal digits, two digits for each byte, in either case.
/// `Malformed` for any other string.
pub fn read_digits(alloc: Global, text: &str) -> Result<ByteBuffer, ParseError>
    ensures { Gives (λ b. b) result (bytes_of_digits text.now) }
{
    match hex::decode(alloc, text) {
        Ok(bytes) => Ok(ByteBuffer::from_vec(bytes)?),
        Err(FromHexError::OutOfMemory) => Err(ParseError::Memory),
        Err(_) => Err(ParseError::Malformed),
    }
}

// The metadata of an extension, none where it is missing.
fn read_metadata(alloc: Global, value: Option<&Value>) -> Result<Option<ByteBuffer>, ParseError>
    ensures { Gives (λ m. m) result (metadata_in (option_map (λ v. view v.now) value.entry)) }
{
    match value {
        None => Ok(None),
        Some(value) => {
            let text = value.as_str().ok_or(ParseError::Malformed)?;
            let bytes = read_digits(alloc, text)?;
            Ok(Some(bytes))
        }
    }
}

fn read_ptype(name: &str) -> Result<PType, ParseError>
    ensures { Gives number_kind_of result (number_kind_named name.now) }
{
    match name {
        "u8" => Ok(PType::U8),
        "u16" => Ok(PType::U16),
        "u32" => Ok(PType::U32),
        "u64" => Ok(PType::U64),
        "i8" => Ok(PType::I8),
        "i16" => Ok(PType::I16),
        "i32" => Ok(PType::I32),
        "i64" => Ok(PType::I64),
        "f16" => Ok(PType::F16),
        "f32" => Ok(PType::F32),
        "f64" => Ok(PType::F64),
        _ => Err(ParseError::Malformed),
    }
}

/// A kind that has no keys of its own.
pub fn read_plain_named(name: &str) -> Result<MessageKind, ParseError>
    ensures { Gives form_of result (plain_named name.now) }
{
    match name {
        "null" => Ok(MessageKind::Null),
        "bool" => Ok(MessageKind::Bool),
        "utf8" => Ok(MessageKind::Utf8),
        "binary" => Ok(MessageKind::Binary),
        "variant" => Ok(MessageKind::Variant),
        "list" => Ok(MessageKind::List),
        _ => Ok(MessageKind::Primitive(read_ptype(name)?)),
    }
}

/// 1 where the member is there, and else 0.
pub fn present_members(part: Option<&Value>) -> usize
    ensures { result ≡ one_if (is_some part.entry) }
{
    if part.is_some() { 1 } else { 0 }
}

// The number of keys in the object that each kind may have.
fn common_keys(value: &Value) -> usize
    ensures { result ≡ common_keys (view value.now) }
{
    1 + present_members(value.get("nullable")) + present_members(value.get("children"))
}

fn read_plain(size: usize, value: &Value, name: &str) -> Result<MessageKind, ParseError>
    ensures { Gives form_of result (plain_of size (view value.now) name.now) }
{
    if size != common_keys(value) {
        return Err(ParseError::Malformed);
    }
    read_plain_named(name)
}

fn read_decimal(size: usize, value: &Value) -> Result<MessageKind, ParseError>
    ensures { Gives form_of result (decimal_of size (view value.now)) }
{
    if size != common_keys(value) + 2 {
        return Err(ParseError::Malformed);
    }
    let precision = read_integer(value.get("precision").ok_or(ParseError::Malformed)?)?;
    let scale = read_integer(value.get("scale").ok_or(ParseError::Malformed)?)?;
    Ok(MessageKind::Decimal { precision, scale })
}

fn read_fixed_list(size: usize, value: &Value) -> Result<MessageKind, ParseError>
    ensures { Gives form_of result (fixed_list_of size (view value.now)) }
{
    if size != common_keys(value) + 1 {
        return Err(ParseError::Malformed);
    }
    let count = value
        .get("size")
        .and_then(Value::as_u64)
        .ok_or(ParseError::Malformed)?;
    if count < 4294967296 {
        Ok(MessageKind::FixedSizeList { size: count as u32 })
    } else {
        Err(ParseError::Malformed)
    }
}

fn read_map(size: usize, value: &Value) -> Result<MessageKind, ParseError>
    ensures { Gives form_of result (map_of size (view value.now)) }
{
    if size != common_keys(value) + 1 {
        return Err(ParseError::Malformed);
    }
    let sorted = value
        .get("sorted")
        .and_then(Value::as_bool)
        .ok_or(ParseError::Malformed)?;
    Ok(MessageKind::Map { sorted })
}

fn names_at(alloc: Global, value: &Value) -> Result<FieldNames, ParseError>
    ensures { Gives (λ names. names) result (names_of (view value.now)) }
{
    let items = value
        .get("names")
        .and_then(Value::as_array)
        .ok_or(ParseError::Malformed)?;
    let names = read_names(alloc, items)?;
    Ok(FieldNames::new(names))
}

fn read_struct(alloc: Global, size: usize, value: &Value) -> Result<MessageKind, ParseError>
    ensures { Gives form_of result (struct_of size (view value.now)) }
{
    if size != common_keys(value) + 1 {
        return Err(ParseError::Malformed);
    }
    let names = names_at(alloc, value)?;
    Ok(MessageKind::Struct { names })
}

fn tags_at(alloc: Global, value: &Value) -> Result<Vec<i64>, ParseError>
    ensures { Gives (λ v. v.items) result (tags_of (view value.now)) }
{
    let items = value
        .get("tags")
        .and_then(Value::as_array)
        .ok_or(ParseError::Malformed)?;
    read_integers(alloc, items)
}

fn read_union(alloc: Global, size: usize, value: &Value) -> Result<MessageKind, ParseError>
    ensures { Gives form_of result (union_of size (view value.now)) }
{
    if size != common_keys(value) + 2 {
        return Err(ParseError::Malformed);
    }
    let names = names_at(alloc, value)?;
    let tags = tags_at(alloc, value)?;
    Ok(MessageKind::Union { names, tags })
}

fn read_extension(alloc: Global, size: usize, value: &Value) -> Result<MessageKind, ParseError>
    ensures { Gives form_of result (extension_of size (view value.now)) }
{
    if size != common_keys(value) + 1 + present_members(value.get("metadata")) {
        return Err(ParseError::Malformed);
    }
    let id = value
        .get("id")
        .and_then(Value::as_str)
        .ok_or(ParseError::Malformed)?;
    let metadata = read_metadata(alloc, value.get("metadata"))?;
    let id = BufferString::copy_from_str(alloc, id)?;
    Ok(MessageKind::Extension { id, metadata })
}

/// The kind of an object with this number of members.
pub(crate) fn read_kind(
    alloc: Global,
    size: usize,
    value: &Value,
    name: &str,
) -> Result<MessageKind, ParseError>
    ensures { Gives form_of result (form_named size (view value.now) name.now) }
{
    match name {
        "decimal" => read_decimal(size, value),
        "fixed_size_list" => read_fixed_list(size, value),
        "map" => read_map(size, value),
        "struct" => read_struct(alloc, size, value),
        "union" => read_union(alloc, size, value),
        "extension" => read_extension(alloc, size, value),
        _ => read_plain(size, value, name),
    }
}
