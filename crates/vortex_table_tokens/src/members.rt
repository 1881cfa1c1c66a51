//! The members of a line's object, in any order.
ghost use Rattle.std.specs.Prelude.{◌≡◌, codes, Some, option_map, IfSome, IfOk, OnOk};
ghost use Rattle.serde_json.specs.Data.{Members, no_members};
ghost use Rattle.serde_json.specs.Find.{as_array, get_member};
ghost use Rattle.serde_json.specs.View.{view, members_view};
ghost use Rattle.vortex_arrays_model.specs.Layout.{array_type_of};
ghost use Rattle.vortex_table_request.specs.Rows.{rows_at};
ghost use Rattle.vortex_table_request.specs.View.{raw_rows};
ghost use Rattle.vortex_table_tokens.specs.Begins.{BeginsMembers};
ghost use Rattle.vortex_table_tokens.specs.Members.{IsType, IsReadAs, TakesMember};
ghost use Rattle.vortex_table_tokens.specs.Values.{HasValue};

use crate::columns;
use crate::give_up::GiveUp;
use crate::tree::{put_value, read_tree};
use json::Reader;
use serde_json::{Map, Value};
use std::alloc::Global;
use vortex_arrays_core::array::ArrayRef;
use vortex_dtype_core::dtype::DType;
use vortex_table_request::read_dtype;

/// The deepest nesting of a member of a line.
const MEMBER_DEPTH: usize = 126;

/// The members of a line's object. Rows become a column without a JSON value: null is there among
/// the values.
#[derive(Drop)]
pub(crate) struct LineMembers {
    pub(crate) values: Map<String, Value>,
    pub(crate) rows: Option<ArrayRef>,
}

// The value at a name.
fn value_at<'v>(values: &'v Map<String, Value>, name: &str) -> Option<&'v Value>
    ensures { option_map (λ v. view v.now) result
        ≡ get_member name.now (members_view values.now.entries) }
{
    values.get(name)
}

// The type among the members after rows, which are passed over.
fn type_after_rows(alloc: Global, reader: &mut Reader<'_>) -> Result<DType, GiveUp> {
    reader.skip_value(MEMBER_DEPTH)?;
    'members: while let Some(name) = reader.next_key()? {
        if name == "dtype" {
            let value = read_tree(alloc, reader, MEMBER_DEPTH)?;
            let dtype = read_dtype(alloc, &value)?;
            return Ok(dtype);
        }
        reader.skip_value(MEMBER_DEPTH)?;
    }
    Err(GiveUp)
}

// Rows without a type before them, as an array of the type that was found after them.
fn early_rows(
    alloc: Global,
    reader: &mut Reader<'_>,
    late_type: &mut Option<DType>,
) -> Result<ArrayRef, GiveUp>
    ensures { IfOk result (λ array. HasValue 126 reader.old
        (λ d. option_map (rows_at (array_type_of array)) (as_array d) ≡ Some (raw_rows array))
        reader.new) }
{
    let Some(dtype) = late_type else {
        *late_type = Some(type_after_rows(alloc, reader)?);
        return Err(GiveUp);
    };
    columns::take_rows(alloc, reader, dtype)
}

// The rows as an array.
fn rows_of(
    alloc: Global,
    reader: &mut Reader<'_>,
    values: &Map<String, Value>,
    late_type: &mut Option<DType>,
) -> Result<ArrayRef, GiveUp>
    ensures kind { IfOk result (λ array. IfSome
        (get_member (codes "dtype") (members_view values.now.entries))
        (IsType (array_type_of array))) }
    ensures rows { IfOk result (λ array. HasValue 126 reader.old
        (λ d. option_map (rows_at (array_type_of array)) (as_array d) ≡ Some (raw_rows array))
        reader.new) }
{
    match value_at(values, "dtype") {
        Some(value) => {
            let dtype = read_dtype(alloc, value)?;
            let array = columns::take_rows(alloc, reader, &dtype)?;
            Ok(array)
        }
        None => early_rows(alloc, reader, late_type),
    }
}

// Rows that come twice go by the JSON value of the line: few bytes of them can cost as much as a
// long type.
fn take_rows(
    alloc: Global,
    reader: &mut Reader<'_>,
    late_type: &mut Option<DType>,
    line: &mut LineMembers,
) -> Result<(), GiveUp>
    ensures { OnOk result (TakesMember (codes "rows") reader.old line.old line.new reader.new) }
{
    if line.rows.is_some() {
        return Err(GiveUp);
    }
    let array = rows_of(alloc, reader, &line.values, late_type)?;
    put_value(alloc, &mut line.values, "rows", Value::Null)?;
    line.rows = Some(array);
    Ok(())
}

fn check_type(alloc: Global, value: &Value, array: &ArrayRef) -> Result<(), GiveUp>
    ensures { OnOk result (IsType (array_type_of array.now) (view value.now)) }
{
    let dtype = read_dtype(alloc, value)?;
    if dtype == *array.dtype() {
        Ok(())
    } else {
        Err(GiveUp)
    }
}

// Checks that the value is the type of rows that were read before it, if it has that name.
fn check_late_type(
    alloc: Global,
    name: &str,
    value: &Value,
    rows: &Option<ArrayRef>,
) -> Result<(), GiveUp>
    ensures { OnOk result (name.now ≡ codes "dtype"
        → IfSome rows.now (λ array. IsType (array_type_of array) (view value.now))) }
{
    if name == "dtype" {
        return match rows {
            Some(array) => check_type(alloc, value, array),
            None => Ok(()),
        };
    }
    Ok(())
}

// The value of a member other than rows.
fn take_value(
    alloc: Global,
    reader: &mut Reader<'_>,
    name: &str,
    line: &mut LineMembers,
) -> Result<(), GiveUp>
    requires { ¬ (name.now ≡ codes "rows") }
    ensures { OnOk result (TakesMember name.now reader.old line.old line.new reader.new) }
{
    let value = read_tree(alloc, reader, MEMBER_DEPTH)?;
    check_late_type(alloc, name, &value, &line.rows)?;
    put_value(alloc, &mut line.values, name, value)?;
    Ok(())
}

// The value of the member with this name.
fn take_member(
    alloc: Global,
    reader: &mut Reader<'_>,
    late_type: &mut Option<DType>,
    name: &str,
    line: &mut LineMembers,
) -> Result<(), GiveUp>
    ensures { OnOk result (TakesMember name.now reader.old line.old line.new reader.new) }
{
    if name == "rows" {
        return take_rows(alloc, reader, late_type, line);
    }
    take_value(alloc, reader, name, line)
}

/// The members, up to the brace that closes the object. Rows without a type before them are read as
/// those of `late_type`. Where it is none yet, it becomes the type that comes after them, with
/// which the line can be read again.
pub(crate) fn take_members(
    alloc: Global,
    reader: &mut Reader<'_>,
    late_type: &mut Option<DType>,
) -> Result<LineMembers, GiveUp>
    ensures { IfOk result (λ line. (ms : Members)
        × BeginsMembers 126 reader.old no_members ms reader.new × IsReadAs ms line) }
{
    let mut line = LineMembers {
        values: Map::new(alloc),
        rows: None,
    };
    'members: while let Some(name) = reader.next_key()? {
        take_member(alloc, reader, late_type, name, &mut line)?;
    }
    Ok(line)
}
