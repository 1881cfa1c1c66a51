//! The rows of arrays as values, cut.
ghost use Rattle.std.specs.Prelude.{◌≡◌, ◌<◌, [], cond, length, map, IfOk, OnOk, All};
ghost use Rattle.vortex_model.specs.Content.{raw_null, raw_tuple};
ghost use Rattle.vortex_scalar_value.specs.View.{raw_in, raws_in, raws_from};
ghost use Rattle.vortex_arrays_model.specs.Layout.{len_of, records, HasLength, IsSound};
ghost use Rattle.vortex_arrays_model.specs.Parts.{columns_of};
ghost use Rattle.vortex_arrays_core.specs.LayoutOf.{valid_of};
ghost use Rattle.vortex_table_schema.specs.Cut.{tree_of, part_of_field, cut_part};
ghost use Rattle.vortex_table_select.specs.Lists.{
  cut_values,
  fields_at,
  lists_of,
  with_each,
  cut_lists,
  record_values,
};

use crate::column::{push_absent, push_column, read_each};
use std::alloc::{AllocError, Global};
use vortex_arrays_core::array::{ArrayLayout, ArrayRef, Validity};
use vortex_dtype_ptype::field_names::FieldNames;
use vortex_scalar_value::scalar_value::ScalarValue;
use vortex_table_schema::projection::{ProjectedField, Projection};

// An empty list for each row, with room for `room` values.
fn empty_lists(
    alloc: Global,
    rows: &[usize],
    room: usize,
) -> Result<Vec<Vec<Option<ScalarValue>>>, AllocError>
    ensures { IfOk result (λ lists. lists_of lists.items ≡ map (λ i. []) rows.now) }
{
    let mut lists = Vec::with_capacity(alloc, rows.len())?;
    for _row in rows {
        let list = Vec::with_capacity(alloc, room)?;
        lists.push(list)?;
    }
    Ok(lists)
}

// For each row the values of all columns.
fn whole_lists(
    alloc: Global,
    columns: &[ArrayRef],
    rows: &[usize],
) -> Result<Vec<Vec<Option<ScalarValue>>>, AllocError>
    requires { All (λ a. All (λ i. i < len_of a) rows.now) columns.now }
    ensures { IfOk result
        (λ lists. lists_of lists.items ≡ map (fields_at columns.now) rows.now) }
{
    let mut lists = empty_lists(alloc, rows, columns.len())?;
    for column in columns {
        push_column(alloc, column, &Projection::Whole, rows, &mut lists)?;
    }
    Ok(lists)
}

// Pushes onto each list what is kept of one column's value in its row.
fn push_field(
    alloc: Global,
    columns: &[ArrayRef],
    field: &ProjectedField,
    rows: &[usize],
    lists: &mut [Vec<Option<ScalarValue>>],
) -> Result<(), AllocError>
    requires within { All (λ a. All (λ i. i < len_of a) rows.now) columns.now }
    requires many { length lists.old ≡ length rows.now }
    ensures { OnOk result (lists_of lists.new ≡ with_each (lists_of lists.old)
        (map (λ i. cut_part (raws_from (fields_at columns.now i)) (part_of_field field.now))
        rows.now)) }
{
    match columns.get(field.position) {
        Some(column) => push_column(alloc, column, &field.projection, rows, lists),
        None => push_absent(alloc, rows, lists),
    }
}

// For each row the values of the columns that are kept. The others are not read.
fn kept_lists(
    alloc: Global,
    columns: &[ArrayRef],
    fields: &[ProjectedField],
    rows: &[usize],
) -> Result<Vec<Vec<Option<ScalarValue>>>, AllocError>
    requires { All (λ a. All (λ i. i < len_of a) rows.now) columns.now }
    ensures { IfOk result (λ lists. lists_of lists.items
        ≡ map (cut_lists columns.now (map part_of_field fields.now)) rows.now) }
{
    let mut lists = empty_lists(alloc, rows, fields.len())?;
    for field in fields {
        push_field(alloc, columns, field, rows, &mut lists)?;
    }
    Ok(lists)
}

// The values as a record, and null where that isn't valid.
#[tactic(auto, using(vortex_scalar_value::proofs::Views::one_level))]
fn record_where(valid: bool, values: Vec<Option<ScalarValue>>) -> Option<ScalarValue>
    ensures { raw_in result ≡ cond valid (raw_tuple (raws_in values.items)) raw_null }
{
    if valid {
        Some(ScalarValue::Tuple(values))
    } else {
        None
    }
}

// Each list as a record, and null where its row is.
fn into_records(
    alloc: Global,
    lists: Vec<Vec<Option<ScalarValue>>>,
    validity: &Validity,
    len: usize,
    rows: &[usize],
) -> Result<Vec<Option<ScalarValue>>, AllocError>
    requires fits { HasLength (valid_of validity.now) len }
    requires within { All (λ i. i < len) rows.now }
    requires many { length lists.items ≡ length rows.now }
    ensures { IfOk result (λ values. map raw_in values.items
        ≡ record_values (valid_of validity.now) (lists_of lists.items) rows.now) }
{
    let mut values = Vec::with_capacity(alloc, rows.len())?;
    for list in lists {
        let row = rows[values.len()];
        values.push(record_where(validity.is_valid(row, len), list))?;
    }
    Ok(values)
}

// The kept parts of records, read column by column.
fn read_records(
    alloc: Global,
    names: &FieldNames,
    columns: &[ArrayRef],
    len: usize,
    validity: &Validity,
    projection: &Projection,
    rows: &[usize],
) -> Result<Vec<Option<ScalarValue>>, AllocError>
    requires sound { IsSound
        (records (columns_of names.now columns.now) len (valid_of validity.now)) }
    requires within { All (λ i. i < len) rows.now }
    ensures { IfOk result (λ values. map raw_in values.items ≡ cut_values (tree_of projection.now)
        (records (columns_of names.now columns.now) len (valid_of validity.now)) rows.now) }
{
    match projection {
        Projection::Whole => {
            let lists = whole_lists(alloc, columns, rows)?;
            into_records(alloc, lists, validity, len, rows)
        }
        Projection::Fields(fields) => {
            let lists = kept_lists(alloc, columns, fields, rows)?;
            into_records(alloc, lists, validity, len, rows)
        }
    }
}

/// The kept parts of the values in these rows, and `None` for null. A column of a record that isn't
/// kept is not read, and the layout of one that is is looked at once.
pub fn read_rows(
    alloc: Global,
    array: &ArrayRef,
    projection: &Projection,
    rows: &[usize],
) -> Result<Vec<Option<ScalarValue>>, AllocError>
    requires { All (λ i. i < len_of array.now) rows.now }
    ensures { IfOk result (λ values. map raw_in values.items
        ≡ cut_values (tree_of projection.now) array.now rows.now) }
{
    match array.layout() {
        ArrayLayout::Struct(names, columns, len, validity) => {
            read_records(alloc, names, columns, *len, validity, projection, rows)
        }
        ArrayLayout::Bool(_, _)
        | ArrayLayout::Primitive(_, _)
        | ArrayLayout::VarBinView(_, _, _, _)
        | ArrayLayout::Constant(_, _)
        | ArrayLayout::Dict(_, _, _)
        | ArrayLayout::FixedSizeList(_, _, _, _)
        | ArrayLayout::ListView(_, _, _, _, _) => read_each(alloc, array, projection, rows),
    }
}
