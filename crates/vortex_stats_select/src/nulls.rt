//! Tests of columns for null.
ghost use Rattle.std.specs.Prelude.{◌≡◌, Bool, map, not, true, replicate, IfOk, IfSome};
ghost use Rattle.std.specs.List.{range_with_len};
ghost use Rattle.vortex_model.specs.Content.{boolean, is_null};
ghost use Rattle.vortex_arrays_model.specs.Layout.{dictionary, rows_of, content_at, len_of, is_valid, HasLength};
ghost use Rattle.vortex_arrays_model.specs.Parts.{AreWithin};
ghost use Rattle.vortex_arrays_core.specs.LayoutOf.{valid_of};
ghost use Rattle.vortex_stats_mask.specs.Columns.{column_of};
ghost use Rattle.vortex_stats_mask.specs.Wanted.{is_wanted};
ghost use Rattle.vortex_stats_select.specs.Wants.{value_at};

use crate::columns::Columns;
use crate::compare::told;
use crate::leaves::leaf_of;
use crate::spread::spread;
use crate::validity::valid_rows_of;
use std::alloc::{AllocError, Global};
use vortex_arrays_core::array::{ArrayLayout, ArrayRef, Validity};
use vortex_stats_bind::bound::BoundExpression;
use vortex_stats_mask::column::{Column, ValidRows};
use vortex_stats_mask::masks::{both_into, opposite};

// A mask of this length that has each row.
fn all_rows(alloc: Global, len: usize) -> Result<Vec<bool>, AllocError>
    ensures { IfOk result (λ rows. rows.items ≡ replicate len true) }
{
    Ok(vec![in alloc; true; len]?)
}

// A mask of this length that has the valid rows.
fn valid_rows(alloc: Global, validity: &Validity, len: usize) -> Result<Vec<bool>, AllocError>
    requires { HasLength (valid_of validity.now) len }
    ensures { IfOk result (λ rows. rows.items
        ≡ map (is_valid (valid_of validity.now)) (range_with_len 0 len)) }
{
    match valid_rows_of(alloc, validity, len)? {
        Some(rows) => rows.to_bools(alloc),
        None => all_rows(alloc, len),
    }
}

// Which rows are not null, by a look at each.
fn looked_at(alloc: Global, column: &ArrayRef) -> Result<Vec<bool>, AllocError>
    ensures { IfOk result (λ mask. mask.items
        ≡ map (λ i. not (is_null (content_at column.now i)))
        (range_with_len 0 (len_of column.now))) }
{
    (0..column.len()).map(|i| column.is_valid(i)).collect(alloc)
}

// Which rows of a dictionary are not null. Each of its values is looked at once, unless its codes
// aren't laid out plain.
fn present_coded(
    alloc: Global,
    column: &ArrayRef,
    codes: &ArrayRef,
    values: &ArrayRef,
) -> Result<Vec<bool>, AllocError>
    requires within { AreWithin codes.now (len_of values.now) }
    requires column { (f : Bool)
        → rows_of column.now ≡ rows_of (dictionary codes.now values.now f) }
    ensures { IfOk result
        (λ mask. mask.items ≡ map (λ c. not (is_null c)) (rows_of column.now)) }
{
    let Some(codes) = leaf_of(alloc, codes)? else {
        return looked_at(alloc, column);
    };
    let mask = looked_at(alloc, values)?;
    spread(alloc, &mask, &codes.as_column())
}

// Which rows are not null.
fn present_rows(alloc: Global, column: &ArrayRef) -> Result<Vec<bool>, AllocError>
    ensures { IfOk result
        (λ mask. mask.items ≡ map (λ c. not (is_null c)) (rows_of column.now)) }
{
    match column.layout() {
        ArrayLayout::Bool(bits, validity) => valid_rows(alloc, validity, bits.len()),
        ArrayLayout::Primitive(items, validity) => valid_rows(alloc, validity, items.len()),
        ArrayLayout::VarBinView(_, views, _, validity) => {
            valid_rows(alloc, validity, views.len())
        }
        ArrayLayout::Constant(_, _) => looked_at(alloc, column),
        ArrayLayout::Dict(codes, values, _) => present_coded(alloc, column, codes, values),
        ArrayLayout::FixedSizeList(_, _, len, validity) => valid_rows(alloc, validity, *len),
        ArrayLayout::ListView(_, offsets, _, _, validity) => {
            valid_rows(alloc, validity, offsets.len())
        }
        ArrayLayout::Struct(_, _, len, validity) => valid_rows(alloc, validity, *len),
    }
}

// Which rows of a lent column are not null.
fn present_in(alloc: Global, column: &Column<'_>) -> Result<Vec<bool>, AllocError>
    ensures { IfOk result
        (λ mask. mask.items ≡ map (λ c. not (is_null c)) (column_of column.now)) }
{
    match column.validity {
        ValidRows::All => all_rows(alloc, column.items.len()),
        ValidRows::Bits(bits) => {
            let mut rows = bits.to_bools(alloc)?;
            rows.truncate(column.items.len());
            Ok(rows)
        }
        ValidRows::Flags(flags) => {
            let rows = all_rows(alloc, column.items.len())?;
            Ok(both_into(rows, flags))
        }
    }
}

fn test_lent(alloc: Global, want: bool, column: &Column<'_>) -> Result<Vec<bool>, AllocError>
    ensures { IfOk result (λ mask. mask.items
        ≡ map (λ c. is_wanted want (boolean (is_null c))) (column_of column.now)) }
{
    let mask = present_in(alloc, column)?;
    if want {
        opposite(alloc, &mask)
    } else {
        Ok(mask)
    }
}

fn test_nulls(alloc: Global, want: bool, column: &ArrayRef) -> Result<Vec<bool>, AllocError>
    ensures { IfOk result (λ mask. mask.items
        ≡ map (λ c. is_wanted want (boolean (is_null c))) (rows_of column.now)) }
{
    let mask = present_rows(alloc, column)?;
    if want {
        opposite(alloc, &mask)
    } else {
        Ok(mask)
    }
}

// The rows where a test for null has the wanted truth. `None` where the input isn't a column.
pub(crate) fn null_test<S: Columns>(
    alloc: Global,
    want: bool,
    input: &BoundExpression,
    columns: &S,
) -> Result<Option<Vec<bool>>, AllocError>
    ensures { IfOk result (λ found. IfSome found (λ mask. mask.items
        ≡ map (λ row. is_wanted want (boolean (is_null (value_at input.now row))))
        (S.rows columns.now))) }
{
    let Some(path) = input.as_column() else {
        return Ok(None);
    };
    if let Some(column) = columns.leaf(path) {
        return told(test_lent(alloc, want, &column));
    }
    let Some(column) = columns.column(alloc, path)? else {
        return Ok(None);
    };
    let mask = test_nulls(alloc, want, &column)?;
    Ok(Some(mask))
}
