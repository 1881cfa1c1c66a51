//! Rows from JSON, as values of a type.
ghost use Rattle.std.specs.Prelude.{◌≡◌, map, option_map, IfOk, IfErr};
ghost use Rattle.serde_json.specs.Data.{array};
ghost use Rattle.serde_json.specs.View.{view, items_view};
ghost use Rattle.vortex_dtype_core.specs.View.{type_of, fields_of};
ghost use Rattle.vortex_scalar_value.specs.View.{raw_in};
ghost use Rattle.vortex_table_request.specs.Parsed.{Gives};
ghost use Rattle.vortex_table_request.specs.Rows.{reading, readings, element_readings, item_type, row_at, rows_at};

use crate::ParseError;
use crate::leaves::{read_boolean, read_number, take_text};
use serde_json::Value;
use std::alloc::Global;
use vortex_dtype_core::dtype::DType;
use vortex_dtype_core::struct_fields::StructField;
use vortex_scalar_value::scalar_value::ScalarValue;

/// The value of a type from a JSON value, which is consumed: null at any type, a boolean, an
/// integer within the type, a string, whose bytes aren't copied, bytes as a string of hexadecimal
/// digits, two for each byte and in either case, an array of a struct's fields in order, or an
/// array of a list's elements. Anything else is `Malformed`, also an array of another length than
/// the type requires.
#[cycle(row)]
pub fn take_value(
    value: Value,
    alloc: Global,
    dtype: &DType,
) -> Result<Option<ScalarValue>, ParseError>
    ensures { Gives raw_in result (reading (type_of dtype.now) (view value)) }
{
    match value {
        Value::Array(items) => take_array(items, alloc, dtype),
        Value::Null => Ok(None),
        Value::Number(number) => read_number(dtype, &number),
        Value::Bool(truth) => read_boolean(dtype, truth),
        Value::String(text) => take_text(alloc, dtype, text),
        Value::Object(_) => Err(ParseError::Malformed),
    }
}

// The type of the items of an array of this many, if the type is a list type.
#[tactic(auto, using(crate::proofs::AtKinds::item_types))]
fn item_dtype(dtype: &DType, count: usize) -> Option<&DType>
    ensures { option_map (λ item. type_of item.now) result ≡ item_type (type_of dtype.now) count }
{
    match dtype {
        DType::List(element, _) => Some(element),
        DType::FixedSizeList(element, size, _) => {
            if *size as usize == count {
                Some(element)
            } else {
                None
            }
        }
        DType::Null | DType::Bool(_) | DType::Primitive(_, _) | DType::Decimal(_, _) => None,
        DType::Utf8(_) | DType::Binary(_) | DType::Variant(_) => None,
        DType::Map(_, _) | DType::Struct(_, _) => None,
        DType::Union(_, _) | DType::Extension(_) => None,
    }
}

// The struct or the list of an array.
#[cycle(row)]
fn take_array(
    items: Vec<Value>,
    alloc: Global,
    dtype: &DType,
) -> Result<Option<ScalarValue>, ParseError>
    ensures { Gives raw_in result (reading (type_of dtype.now) (array (items_view items.items))) }
{
    if let Some(fields) = dtype.as_struct_fields_opt() {
        let values = take_fields(items, alloc, fields.as_slice())?;
        return Ok(Some(ScalarValue::Tuple(values)));
    }
    let Some(element) = item_dtype(dtype, items.len()) else {
        return Err(ParseError::Malformed);
    };
    let values = take_elements(items, alloc, element)?;
    Ok(Some(ScalarValue::Tuple(values)))
}

// A value of one type for each item.
#[cycle(row)]
fn take_elements(
    items: Vec<Value>,
    alloc: Global,
    dtype: &DType,
) -> Result<Vec<Option<ScalarValue>>, ParseError>
    ensures { Gives (λ v. map raw_in v.items) result
        (element_readings (type_of dtype.now) (items_view items.items)) }
{
    let mut values = Vec::with_capacity(alloc, items.len())?;
    for item in items {
        values.push(take_value(item, alloc, dtype)?)?;
    }
    Ok(values)
}

// A value for each field, in order.
#[cycle(row)]
fn take_fields(
    items: Vec<Value>,
    alloc: Global,
    fields: &[StructField],
) -> Result<Vec<Option<ScalarValue>>, ParseError>
    ensures { Gives (λ v. map raw_in v.items) result
        (readings (fields_of fields.now) (items_view items.items)) }
{
    let mut values = Vec::with_capacity(alloc, items.len())?;
    let mut rest = fields;
    for item in items {
        let Some((field, after)) = rest.split_first() else {
            return Err(ParseError::Malformed);
        };
        values.push(take_value(item, alloc, &field.dtype)?)?;
        rest = after;
    }
    if rest.is_empty() {
        Ok(values)
    } else {
        Err(ParseError::Malformed)
    }
}

/// The value of a type from a JSON value, as `take_value`, without consuming it.
pub fn read_value(
    value: &Value,
    alloc: Global,
    dtype: &DType,
) -> Result<Option<ScalarValue>, ParseError>
    ensures { Gives raw_in result (reading (type_of dtype.now) (view value.now)) }
{
    let value = value.clone()?;
    take_value(value, alloc, dtype)
}

/// A row, or null where the value can't be read.
pub fn take_row(
    alloc: Global,
    value: Value,
    dtype: &DType,
) -> Result<Option<ScalarValue>, ParseError>
    ensures row { IfOk result (λ row. raw_in row ≡ row_at (type_of dtype.now) (view value)) }
    ensures memory { IfErr result (λ e. e ≡ ParseError.Memory) }
{
    match take_value(value, alloc, dtype) {
        Ok(row) => Ok(row),
        Err(ParseError::Malformed) => Ok(None),
        Err(ParseError::Memory) => Err(ParseError::Memory),
    }
}

/// The rows in an array, with null in place of each that can't be read. Each item is dropped once
/// it was read.
pub fn read_rows(
    alloc: Global,
    items: Vec<Value>,
    dtype: &DType,
) -> Result<Vec<Option<ScalarValue>>, ParseError>
    ensures rows { IfOk result (λ rows. map raw_in rows.items
        ≡ rows_at (type_of dtype.now) (items_view items.items)) }
    ensures memory { IfErr result (λ e. e ≡ ParseError.Memory) }
{
    let mut rows = Vec::with_capacity(alloc, items.len())?;
    for item in items {
        rows.push(take_row(alloc, item, dtype)?)?;
    }
    Ok(rows)
}
