//! Commands from JSON.
ghost use Rattle.std.specs.Prelude.{◌≡◌, map, option_map, Some, None, if◌then◌else◌, IfOk, IfSome};
ghost use Rattle.serde_json.specs.Data.{Data};
ghost use Rattle.serde_json.specs.View.{view, items_view};
ghost use Rattle.vortex_table_request.specs.Parsed.{Gives, data_of};
ghost use Rattle.vortex_table_request.specs.Line.{layout_named, layouts_of, layouts_in, entry_in, entries_of, lengths_in, create_in, rows_in, append_in, retype_in, compact_in, scan_in, join_in, describe_in, verb_named, command_in, command_of};
ghost use Rattle.vortex_table_request.specs.View.{layout_of, verb_of, entry_of, shown, HasHintsOf, ReadsAs};
ghost use Rattle.vortex_dtype_core.specs.View.{type_of};
ghost use Rattle.vortex_scalar_value.specs.View.{raw_in};

use crate::paths::{read_path, read_paths};
use crate::predicates::read_predicate;
use crate::{ParseError, is_whole, length, parse, present_members, read_dtype, read_rows, size};
use serde_json::Value;
use std::alloc::Global;
use vortex_arrays_core::array::ArrayRef;
use vortex_dtype_core::dtype::DType;
use vortex_dtype_path::path::FieldPath;
use vortex_scalar_value::scalar_value::ScalarValue;
use vortex_stats_expr::expression::Expression;
use vortex_table_schema::layout::Layout;

/// A command of a line.
#[derive(Drop)]
pub enum Command {
    /// A new table of a type, with the lengths to which bounds of strings and bytes are shortened.
    Create {
        /// The type of the rows.
        dtype: DType,
        /// The most bytes of a bound at a leaf that is not in `lengths`.
        length: usize,
        /// Paths of leaves, each with the most bytes of a bound there.
        lengths: Vec<(FieldPath, usize)>,
    },
    /// Rows to append to the table.
    Append {
        /// The type of the rows, which the table's type may widen.
        dtype: DType,
        /// The rows. Null replaces one that can't be read.
        values: Vec<Option<ScalarValue>>,
        /// Hints for the layout of columns, in the order of the row type's columns.
        layouts: Vec<Layout>,
    },
    /// Rows to append to the table, as a struct array.
    AppendArray {
        /// The rows, of a type that the table's type may widen.
        array: ArrayRef,
        /// Hints for the layout of columns, in the order of the row type's columns.
        layouts: Vec<Layout>,
    },
    /// The rows that a predicate selects, cut by paths.
    Scan {
        /// The paths that each row is cut to.
        paths: Vec<FieldPath>,
        /// The predicate.
        predicate: Expression,
    },
    /// A join of two neighbouring groups of chunks.
    Join {
        /// The index of the first group.
        group: usize,
    },
    /// Another type for the table's rows.
    Retype {
        /// The new type.
        dtype: DType,
    },
    /// Makes the lists of all chunks end to end.
    Compact,
    /// The statistics of a leaf column in a group of chunks.
    Describe {
        /// The column.
        path: FieldPath,
        /// The index of the group.
        group: usize,
    },
}

fn read_layout(name: &str) -> Result<Layout, ParseError>
    ensures { Gives layout_of result (layout_named name.now) }
{
    match name {
        "plain" => Ok(Layout::Plain),
        "dictionary" => Ok(Layout::Dictionary),
        "constant" => Ok(Layout::Constant),
        _ => Err(ParseError::Malformed),
    }
}

fn read_layout_items(alloc: Global, items: &[Value]) -> Result<Vec<Layout>, ParseError>
    ensures { Gives (λ v. map layout_of v.items) result (layouts_of (items_view items.now)) }
{
    let mut layouts = Vec::new(alloc);
    for item in items {
        let name = item.as_str().ok_or(ParseError::Malformed)?;
        layouts.push(read_layout(name)?)?;
    }
    Ok(layouts)
}

/// The hints of an append, none where the list is missing.
pub fn read_layouts(alloc: Global, list: Option<&Value>) -> Result<Vec<Layout>, ParseError>
    ensures { Gives (λ v. map layout_of v.items) result
        (layouts_in (option_map (λ v. view v.now) list.entry)) }
{
    match list {
        None => Ok(Vec::new(alloc)),
        Some(list) => {
            let items = list.as_array().ok_or(ParseError::Malformed)?;
            read_layout_items(alloc, items)
        }
    }
}

// A leaf's path and its bound length: `[path,length]`.
fn read_entry(alloc: Global, value: &Value) -> Result<(FieldPath, usize), ParseError>
    ensures { Gives entry_of result (entry_in (view value.now)) }
{
    let size = length(value).ok_or(ParseError::Malformed)?;
    if size != 2 {
        return Err(ParseError::Malformed);
    }
    let path = read_path(alloc, value.get(0).ok_or(ParseError::Malformed)?)?;
    let bound_length = value
        .get(1)
        .and_then(Value::as_u64)
        .ok_or(ParseError::Malformed)?;
    Ok((path, bound_length as usize))
}

fn read_entries(alloc: Global, items: &[Value]) -> Result<Vec<(FieldPath, usize)>, ParseError>
    ensures { Gives (λ v. map entry_of v.items) result (entries_of (items_view items.now)) }
{
    let mut entries = Vec::new(alloc);
    for item in items {
        entries.push(read_entry(alloc, item)?)?;
    }
    Ok(entries)
}

fn read_lengths(alloc: Global, list: Option<&Value>) -> Result<Vec<(FieldPath, usize)>, ParseError>
    ensures { Gives (λ v. map entry_of v.items) result
        (lengths_in (option_map (λ v. view v.now) list.entry)) }
{
    match list {
        None => Ok(Vec::new(alloc)),
        Some(list) => {
            let items = list.as_array().ok_or(ParseError::Malformed)?;
            read_entries(alloc, items)
        }
    }
}

fn read_create(alloc: Global, size: usize, value: &Value) -> Result<Command, ParseError>
    ensures { ReadsAs (view value.now) result (create_in size (view value.now)) }
{
    if size != 3 + present_members(value.get("lengths")) {
        return Err(ParseError::Malformed);
    }
    let dtype = read_dtype(alloc, value.get("dtype").ok_or(ParseError::Malformed)?)?;
    let length = value
        .get("length")
        .and_then(Value::as_u64)
        .ok_or(ParseError::Malformed)?;
    let lengths = read_lengths(alloc, value.get("lengths"))?;
    Ok(Command::Create {
        dtype,
        length: length as usize,
        lengths,
    })
}

// The rows of an append. Each JSON value is dropped once it was read, so that values and rows are
// never both in memory in full.
fn take_rows(
    alloc: Global,
    value: &mut Value,
    dtype: &DType,
) -> Result<Vec<Option<ScalarValue>>, ParseError>
    ensures { Gives (λ rows. map raw_in rows.items) result
        (rows_in (type_of dtype.now) (view value.old)) }
{
    let Some(rows) = value.get_mut("rows") else {
        return Err(ParseError::Malformed);
    };
    match rows.take() {
        Value::Array(items) => Ok(read_rows(alloc, items, dtype)?),
        _ => Err(ParseError::Malformed),
    }
}

fn read_append(alloc: Global, size: usize, value: &mut Value) -> Result<Command, ParseError>
    ensures { ReadsAs (view value.old) result (append_in size (view value.old)) }
{
    if size != 3 + present_members(value.get("layouts")) {
        return Err(ParseError::Malformed);
    }
    let layouts = read_layouts(alloc, value.get("layouts"))?;
    let dtype = read_dtype(alloc, value.get("dtype").ok_or(ParseError::Malformed)?)?;
    let values = take_rows(alloc, value, &dtype)?;
    Ok(Command::Append {
        dtype,
        values,
        layouts,
    })
}

fn read_scan(alloc: Global, size: usize, value: &Value) -> Result<Command, ParseError>
    ensures { ReadsAs (view value.now) result (scan_in size (view value.now)) }
{
    if size != 3 {
        return Err(ParseError::Malformed);
    }
    let items = value
        .get("paths")
        .and_then(Value::as_array)
        .ok_or(ParseError::Malformed)?;
    let paths = read_paths(alloc, items)?;
    let predicate = read_predicate(alloc, value.get("where").ok_or(ParseError::Malformed)?)?;
    Ok(Command::Scan { paths, predicate })
}

fn read_join(size: usize, value: &Value) -> Result<Command, ParseError>
    ensures { ReadsAs (view value.now) result (join_in size (view value.now)) }
{
    if size != 2 {
        return Err(ParseError::Malformed);
    }
    let group = value
        .get("group")
        .and_then(Value::as_u64)
        .ok_or(ParseError::Malformed)?;
    Ok(Command::Join {
        group: group as usize,
    })
}

fn read_retype(alloc: Global, size: usize, value: &Value) -> Result<Command, ParseError>
    ensures { ReadsAs (view value.now) result (retype_in size (view value.now)) }
{
    if size != 2 {
        return Err(ParseError::Malformed);
    }
    let dtype = read_dtype(alloc, value.get("dtype").ok_or(ParseError::Malformed)?)?;
    Ok(Command::Retype { dtype })
}

fn read_compact(size: usize) -> Result<Command, ParseError>
    ensures { (d : Data) → ReadsAs d result (compact_in size) }
{
    if size == 1 {
        Ok(Command::Compact)
    } else {
        Err(ParseError::Malformed)
    }
}

fn read_describe(alloc: Global, size: usize, value: &Value) -> Result<Command, ParseError>
    ensures { ReadsAs (view value.now) result (describe_in size (view value.now)) }
{
    if size != 3 {
        return Err(ParseError::Malformed);
    }
    let path = read_path(alloc, value.get("path").ok_or(ParseError::Malformed)?)?;
    let group = value
        .get("group")
        .and_then(Value::as_u64)
        .ok_or(ParseError::Malformed)?;
    Ok(Command::Describe {
        path,
        group: group as usize,
    })
}

/// The command that a line names.
#[derive(Clone, Copy, Debug, PartialEq, Eq)]
enum Verb {
    Create,
    Append,
    Join,
    Retype,
    Compact,
    Scan,
    Describe,
}

fn read_verb(name: &str) -> Result<Verb, ParseError>
    ensures { Gives verb_of result (verb_named name.now) }
{
    match name {
        "create" => Ok(Verb::Create),
        "append" => Ok(Verb::Append),
        "scan" => Ok(Verb::Scan),
        "join" => Ok(Verb::Join),
        "retype" => Ok(Verb::Retype),
        "compact" => Ok(Verb::Compact),
        "describe" => Ok(Verb::Describe),
        _ => Err(ParseError::Malformed),
    }
}

/// The command of an object, which is consumed.
pub fn read_value_command(alloc: Global, value: &mut Value) -> Result<Command, ParseError>
    ensures { ReadsAs (view value.old) result (command_in (view value.old)) }
{
    let size = size(value).ok_or(ParseError::Malformed)?;
    let verb = read_verb(
        value
            .get("cmd")
            .and_then(Value::as_str)
            .ok_or(ParseError::Malformed)?,
    )?;
    match verb {
        Verb::Create => read_create(alloc, size, value),
        Verb::Append => read_append(alloc, size, value),
        Verb::Scan => read_scan(alloc, size, value),
        Verb::Join => read_join(size, value),
        Verb::Retype => read_retype(alloc, size, value),
        Verb::Compact => read_compact(size),
        Verb::Describe => read_describe(alloc, size, value),
    }
}

/// The command of a line. `Malformed` where the line is not JSON, nests deeper than 127, has a
/// number that is not an integer of 64 bits, or has another shape.
pub fn read_command(alloc: Global, line: &[u8]) -> Result<Command, ParseError>
    ensures command { Gives shown result (command_of line.now) }
    // The hints of an append are those of the line.
    ensures hints { IfOk result (λ command.
        IfSome (data_of line.now) (λ object. HasHintsOf object command)) }
{
    let mut value = parse(alloc, line)?;
    if !is_whole(&value) {
        return Err(ParseError::Malformed);
    }
    read_value_command(alloc, &mut value)
}
