//! The JSON value of a line, and its parts.
ghost use Rattle.std.specs.Prelude.{◌≡◌, option_map};
ghost use Rattle.serde_json.specs.View.{view, items_view, members_view};
ghost use Rattle.vortex_table_request.specs.Parsed.{Gives, data_of, size_of, items_size, keeps_whole, items_keep_whole, members_keep_whole};

use crate::parse_error::ParseError;
use serde_json::{Map, Value};
use std::alloc::Global;

/// The value of a line. `Malformed` where the line is not UTF-8, not JSON or nests deeper than 127.
pub fn parse(alloc: Global, line: &[u8]) -> Result<Value, ParseError>
    ensures { Gives view result (data_of line.now) }
{
    match Value::from_slice(alloc, line) {
        Ok(value) => Ok(value),
        Err(e) => {
            if e.is_memory() {
                Err(ParseError::Memory)
            } else {
                Err(ParseError::Malformed)
            }
        }
    }
}

/// The number of members of an object.
pub fn size(value: &Value) -> Option<usize>
    ensures { result ≡ size_of (view value.now) }
{
    let map = value.as_object()?;
    Some(map.len())
}

/// The number of items of an array.
pub fn length(value: &Value) -> Option<usize>
    ensures { result ≡ items_size (view value.now) }
{
    let list = value.as_array()?;
    Some(list.as_slice().len())
}

/// Whether each number in a value is an integer of 64 bits.
#[cycle(whole)]
pub fn is_whole(value: &Value) -> bool
    ensures { result ≡ keeps_whole (view value.now) }
{
    match value {
        Value::Null => true,
        Value::Bool(_) => true,
        Value::Number(number) => !number.is_f64(),
        Value::String(_) => true,
        Value::Array(items) => are_items_whole(items),
        Value::Object(members) => are_members_whole(members),
    }
}

#[cycle(whole)]
fn are_items_whole(items: &Vec<Value>) -> bool
    ensures { result ≡ items_keep_whole (items_view items.now.items) }
{
    for item in items {
        if !is_whole(item) {
            return false;
        }
    }
    true
}

#[cycle(whole)]
fn are_members_whole(members: &Map<String, Value>) -> bool
    ensures { result ≡ members_keep_whole (members_view members.now.entries) }
{
    for (_, member) in members.iter() {
        if !is_whole(member) {
            return false;
        }
    }
    true
}
