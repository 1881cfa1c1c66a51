//! Types from JSON, by way of their messages.
ghost use Rattle.std.specs.Prelude.{◌≡◌, map};
ghost use Rattle.serde_json.specs.View.{view, items_view};
ghost use Rattle.vortex_dtype_core.specs.View.{type_of};
ghost use Rattle.vortex_dtype_proto.specs.Messages.{node};
ghost use Rattle.vortex_dtype_proto.specs.View.{form_of, tree_of, trees_of};
ghost use Rattle.vortex_table_request.specs.Parsed.{Gives};
ghost use Rattle.vortex_table_request.specs.Kinds.{tree_with, tree_in, trees_in, trees_of_items, type_meant, type_in};

use crate::kinds::{read_flag, read_kind};
use crate::parse_error::ParseError;
use crate::parsed::size;
use serde_json::Value;
use std::alloc::Global;
use vortex_dtype_core::dtype::DType;
use vortex_dtype_proto::message::{Message, MessageKind};
use vortex_dtype_proto::read::from_proto;
use vortex_dtype_proto::session::DTypeSession;
use vortex_dtype_ptype::error::DTypeError;

// A node with these children.
#[tactic(auto, using(vortex_dtype_proto::proofs::Parts::one_level))]
fn join(kind: MessageKind, nullable: bool, children: Vec<Message>) -> Message
    ensures { tree_of result ≡ node (form_of kind) nullable (trees_of children.items) }
{
    Message {
        kind,
        nullable,
        children,
    }
}

// The message of an object with this many members and these children.
fn make_message(
    alloc: Global,
    size: usize,
    value: &Value,
    children: Vec<Message>,
) -> Result<Message, ParseError>
    ensures { Gives tree_of result (tree_with size (view value.now) (map tree_of children.items)) }
{
    let nullable = read_flag(value.get("nullable"))?;
    let name = value
        .get("kind")
        .and_then(Value::as_str)
        .ok_or(ParseError::Malformed)?;
    let kind = read_kind(alloc, size, value, name)?;
    Ok(join(kind, nullable, children))
}

/// The message of a value.
#[cycle(message)]
pub fn read_message(alloc: Global, value: &Value) -> Result<Message, ParseError>
    ensures { Gives tree_of result (tree_in (view value.now)) }
{
    let size = size(value).ok_or(ParseError::Malformed)?;
    match value.get("children") {
        Some(list) => {
            let children = read_children(alloc, list)?;
            make_message(alloc, size, value, children)
        }
        None => make_message(alloc, size, value, Vec::new(alloc)),
    }
}

// The messages of the items of an array.
#[cycle(message)]
fn read_children(alloc: Global, list: &Value) -> Result<Vec<Message>, ParseError>
    ensures { Gives (λ v. map tree_of v.items) result (trees_in (view list.now)) }
{
    match list.as_array() {
        Some(items) => read_messages(alloc, items),
        None => Err(ParseError::Malformed),
    }
}

#[cycle(message)]
fn read_messages(alloc: Global, items: &[Value]) -> Result<Vec<Message>, ParseError>
    ensures { Gives (λ v. map tree_of v.items) result (trees_of_items (items_view items.now)) }
{
    let mut messages = Vec::with_capacity(alloc, items.len())?;
    for item in items {
        messages.push(read_message(alloc, item)?)?;
    }
    Ok(messages)
}

// The type of a message, without plugins.
fn meaning_of(alloc: Global, message: &Message) -> Result<DType, ParseError>
    ensures { Gives type_of result (type_meant (tree_of message.now)) }
{
    let session = DTypeSession::empty(alloc);
    match from_proto(alloc, message, &session) {
        Ok(dtype) => Ok(dtype),
        Err(DTypeError::Memory) => Err(ParseError::Memory),
        Err(_) => Err(ParseError::Malformed),
    }
}

/// The type of a value.
pub fn read_dtype(alloc: Global, value: &Value) -> Result<DType, ParseError>
    ensures { Gives type_of result (type_in (view value.now)) }
{
    let message = read_message(alloc, value)?;
    meaning_of(alloc, &message)
}
