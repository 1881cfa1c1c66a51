//! JSON values from tokens.
ghost use Rattle.std.specs.Prelude.{◌≡◌, ℤ, Some, true, IfOk, OnOk};
ghost use Rattle.json.specs.Reads.{token_of};
ghost use Rattle.serde_json.specs.Data.{number, no_members, put};
ghost use Rattle.serde_json.specs.Find.{of_integer};
ghost use Rattle.serde_json.specs.Read.{number_of};
ghost use Rattle.serde_json.specs.View.{view, items_view, members_view};
ghost use Rattle.vortex_table_request.specs.Parsed.{keeps_whole, items_keep_whole, members_keep_whole};
ghost use Rattle.vortex_table_tokens.specs.Begins.{Begins, BeginsItems, BeginsMembers, IsOne};

use crate::give_up::GiveUp;
use crate::integers::read_integer;
use crate::tokens::next_token;
use json::{Reader, Token};
use serde_json::{Map, Number, Value};
use std::alloc::Global;

fn read_number(text: &str) -> Result<Value, GiveUp>
    ensures { IfOk result (λ v. (z : ℤ)
        × (number_of text.now ≡ Some (of_integer z)) × (view v ≡ number (of_integer z))) }
{
    let integer = read_integer(text)?;
    match Number::from_i128(integer) {
        Some(number) => Ok(Value::Number(number)),
        None => Err(GiveUp),
    }
}

// The value of one token.
fn read_one(alloc: Global, token: Token<'_>) -> Result<Value, GiveUp>
    ensures value { IfOk result (λ v. IsOne (token_of token.entry) (view v)) }
    ensures whole { IfOk result (λ v. keeps_whole (view v) ≡ true) }
{
    match token {
        Token::Null => Ok(Value::Null),
        Token::Bool(truth) => Ok(Value::Bool(truth)),
        Token::Number(text) => read_number(text),
        Token::String(text) => Ok(Value::String(String::from_str(alloc, text)?)),
        Token::BeginObject | Token::EndObject | Token::BeginArray => Err(GiveUp),
        Token::EndArray | Token::Key(_) | Token::Bad => Err(GiveUp),
    }
}

/// Puts a value at a name, in place of one that is there.
pub(crate) fn put_value(
    alloc: Global,
    values: &mut Map<String, Value>,
    name: &str,
    value: Value,
) -> Result<(), GiveUp>
    ensures { OnOk result (members_view values.new.entries
        ≡ put name.now (view value) (members_view values.old.entries)) }
{
    let key = String::from_str(alloc, name)?;
    drop(values.insert(key, value)?);
    Ok(())
}

/// The value at the start of the tokens, nested at most `depth` deep, if its numbers are integers
/// of 64 bits.
#[cycle(tree)]
pub(crate) fn read_tree(
    alloc: Global,
    reader: &mut Reader<'_>,
    depth: usize,
) -> Result<Value, GiveUp>
    ensures begins { IfOk result (λ v. Begins depth reader.old (view v) reader.new) }
    ensures whole { IfOk result (λ v. keeps_whole (view v) ≡ true) }
{
    let token = next_token(reader)?;
    match token {
        Token::BeginArray => {
            if depth == 0 {
                return Err(GiveUp);
            }
            Ok(Value::Array(read_items(alloc, reader, depth - 1)?))
        }
        Token::BeginObject => {
            if depth == 0 {
                return Err(GiveUp);
            }
            Ok(Value::Object(read_members(alloc, reader, depth - 1)?))
        }
        _ => read_one(alloc, token),
    }
}

#[cycle(tree)]
fn read_items(alloc: Global, reader: &mut Reader<'_>, depth: usize) -> Result<Vec<Value>, GiveUp>
    ensures begins { IfOk result
        (λ v. BeginsItems depth reader.old (items_view v.items) reader.new) }
    ensures whole { IfOk result (λ v. items_keep_whole (items_view v.items) ≡ true) }
{
    let mut found = Vec::new(alloc);
    'items: while !reader.take_end_array() {
        let item = read_tree(alloc, reader, depth)?;
        found.push(item)?;
    }
    Ok(found)
}

#[cycle(tree)]
fn read_members(
    alloc: Global,
    reader: &mut Reader<'_>,
    depth: usize,
) -> Result<Map<String, Value>, GiveUp>
    ensures begins { IfOk result (λ m.
        BeginsMembers depth reader.old no_members (members_view m.entries) reader.new) }
    ensures whole { IfOk result (λ m. members_keep_whole (members_view m.entries) ≡ true) }
{
    let mut found = Map::new(alloc);
    'members: while let Some(name) = reader.next_key()? {
        let member = read_tree(alloc, reader, depth)?;
        put_value(alloc, &mut found, name, member)?;
    }
    Ok(found)
}
