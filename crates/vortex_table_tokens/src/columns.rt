//! Rows of an append, read token by token into columns.
ghost use Rattle.std.specs.Prelude.{◌≡◌, ◌+◌, List, length, Some, option_map, IfOk, OnOk};
ghost use Rattle.json.specs.Reads.{token_of};
ghost use Rattle.json.specs.Token.{number};
ghost use Rattle.serde_json.specs.Find.{as_array};
ghost use Rattle.vortex_model.specs.Content.{Raw};
ghost use Rattle.vortex_dtype_core.specs.View.{type_of};
ghost use Rattle.vortex_arrays_model.specs.Layout.{array_type_of};
ghost use Rattle.vortex_table_request.specs.Rows.{rows_at};
ghost use Rattle.vortex_table_request.specs.View.{raw_rows};
ghost use Rattle.vortex_table_columns.specs.Columns.{column_type, Takes};
ghost use Rattle.vortex_table_columns.specs.Nested.{column_of};
ghost use Rattle.vortex_table_tokens.specs.Columns.{TakesLeaf, TakesValue, TakesArray, EachTakes, TakesItems};
ghost use Rattle.vortex_table_tokens.specs.Values.{HasValue, IsLeaf};

use crate::give_up::GiveUp;
use crate::integers::read_integer;
use crate::tokens::{next_token, take_array, take_array_end};
use json::{Reader, Token};
use std::alloc::Global;
use vortex_arrays_core::array::ArrayRef;
use vortex_dtype_core::dtype::DType;
use vortex_table_columns::column::ColumnBuilder;
use vortex_table_columns::nested::NestedBuilder;

/// The deepest nesting of a line.
const MAX_DEPTH: usize = 127;

// Adds the integer of these digits.
fn push_number(column: &mut ColumnBuilder, text: &str) -> Result<(), GiveUp>
    ensures { OnOk result ((cell : Raw) × Takes column.old cell column.new
        × IsLeaf (column_type column.old) (number text.now) cell) }
{
    let number = read_integer(text)?;
    column.push_number(number)?;
    Ok(())
}

// Adds the value of one token.
fn push_token(column: &mut ColumnBuilder, token: Token<'_>) -> Result<(), GiveUp>
    ensures { OnOk result ((cell : Raw) × Takes column.old cell column.new
        × IsLeaf (column_type column.old) (token_of token.entry) cell) }
{
    match token {
        Token::Null => {
            column.push_null()?;
            Ok(())
        }
        Token::Number(text) => push_number(column, text),
        Token::String(text) => {
            column.push_text(text)?;
            Ok(())
        }
        Token::Bool(truth) => {
            column.push_boolean(truth)?;
            Ok(())
        }
        Token::BeginObject | Token::EndObject | Token::BeginArray => Err(GiveUp),
        Token::EndArray | Token::Key(_) | Token::Bad => Err(GiveUp),
    }
}

// Adds the next value.
fn take_leaf(reader: &mut Reader<'_>, column: &mut ColumnBuilder) -> Result<(), GiveUp>
    ensures { OnOk result (TakesLeaf reader.old column.old column.new reader.new) }
{
    let token = next_token(reader)?;
    push_token(column, token)
}

// Adds the next value, nested at most `depth` deep.
#[cycle(cell)]
fn take_cell(
    reader: &mut Reader<'_>,
    depth: usize,
    column: &mut NestedBuilder,
) -> Result<(), GiveUp>
    ensures { OnOk result (TakesValue depth reader.old (column_of column.old)
        (column_of column.new) reader.new) }
{
    if let NestedBuilder::Leaf(leaf) = column {
        return take_leaf(reader, leaf);
    }
    take_nested(reader, depth, column)
}

// Adds the next struct or list, or null.
#[cycle(cell)]
fn take_nested(
    reader: &mut Reader<'_>,
    depth: usize,
    column: &mut NestedBuilder,
) -> Result<(), GiveUp>
    ensures { OnOk result (TakesValue depth reader.old (column_of column.old)
        (column_of column.new) reader.new) }
{
    let token = next_token(reader)?;
    match token {
        Token::BeginArray => {
            if depth == 0 {
                return Err(GiveUp);
            }
            take_inside(reader, depth - 1, column)
        }
        Token::Null => {
            column.push_null()?;
            Ok(())
        }
        _ => Err(GiveUp),
    }
}

// Adds the struct or the list whose opening bracket was read.
#[cycle(cell)]
fn take_inside(
    reader: &mut Reader<'_>,
    depth: usize,
    column: &mut NestedBuilder,
) -> Result<(), GiveUp>
    ensures { OnOk result (TakesArray depth reader.old (column_of column.old)
        (column_of column.new) reader.new) }
{
    match column {
        NestedBuilder::Leaf(_) => Err(GiveUp),
        NestedBuilder::Records(present, columns) => {
            take_fields(reader, depth, columns)?;
            present.push(Some(()))?;
            Ok(())
        }
        NestedBuilder::Lists(sizes, items) => {
            let size = take_items(reader, depth, items)?;
            sizes.push(Some(size))?;
            Ok(())
        }
        NestedBuilder::FixedLists(size, present, items) => {
            let count = take_items(reader, depth, items)?;
            if count != u64::from(*size) {
                return Err(GiveUp);
            }
            present.push(Some(()))?;
            Ok(())
        }
    }
}

// Adds a value to each column, up to the bracket that closes the struct.
#[cycle(cell)]
fn take_fields(
    reader: &mut Reader<'_>,
    depth: usize,
    columns: &mut Vec<NestedBuilder>,
) -> Result<(), GiveUp>
    ensures { OnOk result (EachTakes depth reader.old columns.old.items
        columns.new.items reader.new) }
{
    for i in 0..columns.len() {
        take_cell(reader, depth, &mut columns[i])?;
    }
    take_array_end(reader)
}

fn one_more(count: u64) -> Result<u64, GiveUp>
    ensures { IfOk result (λ next. next ≡ count + 1) }
{
    let Some(next) = count.checked_add(1) else {
        return Err(GiveUp);
    };
    Ok(next)
}

// Adds values up to the bracket that closes the list, and returns their number.
#[cycle(cell)]
fn take_items(
    reader: &mut Reader<'_>,
    depth: usize,
    column: &mut NestedBuilder,
) -> Result<u64, GiveUp>
    ensures { IfOk result (λ count. (cells : List Raw) × (length cells ≡ count)
        × TakesItems depth reader.old (column_of column.old) cells
        (column_of column.new) reader.new) }
{
    let mut count: u64 = 0;
    'items: while !reader.take_end_array() {
        take_cell(reader, depth, column)?;
        count = one_more(count)?;
    }
    Ok(count)
}

/// The rows of an append as an array of this type, if its leaves are booleans, integers, strings
/// and bytes.
pub(crate) fn take_rows(
    alloc: Global,
    reader: &mut Reader<'_>,
    dtype: &DType,
) -> Result<ArrayRef, GiveUp>
    ensures kind { IfOk result (λ array. array_type_of array ≡ type_of dtype.now) }
    ensures rows { IfOk result (λ array. HasValue 126 reader.old
        (λ d. option_map (rows_at (array_type_of array)) (as_array d) ≡ Some (raw_rows array))
        reader.new) }
{
    let mut column = NestedBuilder::new(alloc, dtype)?;
    take_array(reader)?;
    let _count = take_items(reader, MAX_DEPTH - 2, &mut column)?;
    let array = column.finish(alloc, dtype)?;
    Ok(array)
}
