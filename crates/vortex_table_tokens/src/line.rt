//! Commands from lines.
ghost use Rattle.std.specs.Prelude.{◌≡◌, codes, option_and_then, Some, IfOk, OnOk, IfSome};
ghost use Rattle.serde_json.specs.Data.{Members, object};
ghost use Rattle.serde_json.specs.Find.{get, as_str};
ghost use Rattle.serde_json.specs.View.{view};
ghost use Rattle.vortex_table_request.specs.Line.{command_of};
ghost use Rattle.vortex_table_request.specs.Parsed.{Gives, data_of};
ghost use Rattle.vortex_table_request.specs.View.{shown, HasHintsOf};
ghost use Rattle.vortex_table_tokens.specs.Members.{kept_members, HasRows, IsReadAs, IsCommand};
ghost use Rattle.vortex_table_tokens.specs.Values.{IsWholeText, IsCommandOf};

use crate::give_up::GiveUp;
use crate::members::{LineMembers, take_members};
use crate::tokens::take_object;
use json::{Reader, Scratch};
use serde_json::Value;
use std::alloc::Global;
use vortex_arrays_core::array::ArrayRef;
use vortex_dtype_core::dtype::DType;
use vortex_table_request::{
    Command, ParseError, present_members, read_layouts, read_value_command, size,
};

fn check_verb(value: &Value, verb: &str) -> Result<(), GiveUp>
    ensures { OnOk result
        (option_and_then as_str (get (codes "cmd") (view value.now)) ≡ Some verb.now) }
{
    let name = value.get("cmd").and_then(Value::as_str).ok_or(GiveUp)?;
    if name == verb { Ok(()) } else { Err(GiveUp) }
}

// The append of these rows. Their type is there, so that it was compared with theirs.
fn append_with(alloc: Global, value: &Value, array: ArrayRef) -> Result<Command, GiveUp>
    ensures { IfOk result (λ command. (ms : Members) → view value.now ≡ object (kept_members ms)
        → HasRows ms array → IsCommand ms command) }
{
    let size = size(value).ok_or(GiveUp)?;
    if size != 3 + present_members(value.get("layouts")) {
        return Err(GiveUp);
    }
    check_verb(value, "append")?;
    if value.get("dtype").is_none() {
        return Err(GiveUp);
    }
    let layouts = read_layouts(alloc, value.get("layouts"))?;
    Ok(Command::AppendArray { array, layouts })
}

// The command of these members.
fn command_of_members(alloc: Global, line: LineMembers) -> Result<Command, GiveUp>
    ensures { IfOk result (λ command. (ms : Members) → IsReadAs ms line → IsCommand ms command) }
{
    let LineMembers { values, rows } = line;
    let mut value = Value::Object(values);
    match rows {
        Some(array) => append_with(alloc, &value, array),
        None => {
            let command = read_value_command(alloc, &mut value)?;
            Ok(command)
        }
    }
}

// The command of a UTF-8 line, if nothing follows it. With `late_type` as in `take_members`.
fn read_text(
    alloc: Global,
    text: &str,
    scratch: &mut Scratch,
    late_type: &mut Option<DType>,
) -> Result<Command, GiveUp>
    ensures { IfOk result (IsWholeText text.now) }
{
    let mut reader = Reader::new(text, scratch)?;
    take_object(&mut reader)?;
    let line = take_members(alloc, &mut reader, late_type)?;
    match reader.next() {
        None => command_of_members(alloc, line),
        Some(_) => Err(GiveUp),
    }
}

// The command of a UTF-8 line, whose type comes before its rows or after them.
fn read_either_order(alloc: Global, text: &str, scratch: &mut Scratch) -> Result<Command, GiveUp>
    ensures { IfOk result (IsWholeText text.now) }
{
    let mut late_type = None;
    match read_text(alloc, text, scratch, &mut late_type) {
        Ok(command) => Ok(command),
        Err(_) => {
            if late_type.is_none() {
                return Err(GiveUp);
            }
            read_text(alloc, text, scratch, &mut late_type)
        }
    }
}

// The command of a line, from its tokens.
fn read_tokens(alloc: Global, line: &[u8], scratch: &mut Scratch) -> Result<Command, GiveUp>
    ensures { IfOk result (IsCommandOf line.now) }
{
    match simdutf8::basic::from_utf8(line) {
        Ok(text) => read_either_order(alloc, text, scratch),
        Err(_) => Err(GiveUp),
    }
}

/// The command of a line, read token by token: rows become a column, and every other member a JSON
/// value. Where rows come before their type, the line is read again once the type is known. Where a
/// part isn't read in this way, as rows that come twice or have leaves other than booleans,
/// integers, strings and bytes, all of the line is read by `vortex_table_request`, which also is
/// the only one to refuse a line. The scratch space for tokens is reused from line to line.
pub fn read_command(
    alloc: Global,
    line: &[u8],
    scratch: &mut Scratch,
) -> Result<Command, ParseError>
    ensures command { Gives shown result (command_of line.now) }
    // The hints of an append are those of the line.
    ensures hints { IfOk result (λ command.
        IfSome (data_of line.now) (λ object. HasHintsOf object command)) }
{
    match read_tokens(alloc, line, scratch) {
        Ok(command) => Ok(command),
        Err(_) => vortex_table_request::read_command(alloc, line),
    }
}
