//! Columns of arrays laid out by hints.
ghost use Rattle.std.specs.Prelude.{◌≡◌, true, [], None, length, map, IfOk};
ghost use Rattle.vortex_model.specs.Kept.{type_fault};
ghost use Rattle.vortex_scalar_value.specs.View.{raw_in, raw_at};
ghost use Rattle.vortex_arrays_model.specs.Layout.{array_type_of, fields_of, rows_of, HaveLength};
ghost use Rattle.vortex_arrays_model.specs.Parts.{columns_of};
ghost use Rattle.vortex_arrays_builder.specs.Fits.{fits_constant, fits_dictionary};
ghost use Rattle.vortex_arrays_builder.specs.Types.{HasPlain, HavePlain};
ghost use Rattle.vortex_table_schema.specs.declared.layout.Layout.TheVariants.{Dictionary, Constant};
ghost use Rattle.vortex_table_layout.specs.Hinted.{hint_at, HasHintedColumns, IsConstant};
ghost use Rattle.vortex_table_layout.specs.HintedAnew.{
  AreColumnsFrom,
  IsArrayFrom,
  IsColumnFrom,
  IsHinted,
  IsHintedArray,
};

use crate::compact::with_fields;
use crate::fits::fits_dictionary;
use crate::rows::row_values;
use std::alloc::{AllocError, Global};
use vortex_arrays_builder::constant::build_constant;
use vortex_arrays_builder::fits::fits_constant;
use vortex_arrays_builder::rows::row_value;
use vortex_arrays_core::array::{ArrayLayout, ArrayRef};
use vortex_arrays_dictionary::build::build_dictionary;
use vortex_arrays_dictionary::constant::is_constant;
use vortex_arrays_dictionary::encode::dict_encode;
use vortex_arrays_view::error::ArrayError;
use vortex_dtype_ptype::field_names::FieldNames;
use vortex_scalar_value::scalar_value::ScalarValue;
use vortex_table_schema::layout::Layout;

/// The array, of a type that a table can hold, with each column laid out by its hint, in the order
/// of the fields: a column of equal rows as a constant, and one of booleans, integers, strings or
/// bytes with a value that is not null as a dictionary. A column is shared as it is where its hint
/// is plain, doesn't fit or is missing. Hints after the last column are ignored.
#[tactic(auto, using(crate::proofs::HintLemmas::whole))]
pub fn hint_array(alloc: Global, array: &ArrayRef, hints: &[Layout]) -> Result<ArrayRef, AllocError>
    requires kept { type_fault (array_type_of array.now) ≡ None }
    ensures dtype { IfOk result (λ hinted. array_type_of hinted ≡ array_type_of array.now) }
    ensures rows { IfOk result (λ hinted. rows_of hinted ≡ rows_of array.now) }
    ensures layout { IfOk result (λ hinted. IsHintedArray hints.now array.now hinted) }
    ensures columns { IfOk result
        (λ hinted. HasHintedColumns [] array.now → HasHintedColumns hints.now hinted) }
{
    // Proves that its parts fit together.
    let _rows = array.len();
    let hinted = hint_records(alloc, array, hints)?;
    Ok(hinted)
}

#[tactic(auto, using(crate::proofs::HintLemmas::layouts))]
fn hint_records(alloc: Global, array: &ArrayRef, hints: &[Layout]) -> Result<ArrayRef, AllocError>
    requires kept { type_fault (array_type_of array.now) ≡ None }
    ensures made { IfOk result (λ hinted. IsArrayFrom hints.now array.now hinted) }
{
    // Proves that its parts fit together.
    let _rows = array.len();
    if hints.is_empty() {
        return Ok(array.clone()?);
    }
    match array.layout() {
        ArrayLayout::Struct(names, fields, len, validity) => {
            let columns = hint_columns(alloc, names, fields, *len, hints)?;
            let records = with_fields(alloc, names, columns, *len, validity)?;
            Ok(records)
        }
        ArrayLayout::Bool(_, _) | ArrayLayout::Primitive(_, _) => Ok(array.clone()?),
        ArrayLayout::VarBinView(_, _, _, _) | ArrayLayout::Constant(_, _) => Ok(array.clone()?),
        ArrayLayout::Dict(_, _, _) | ArrayLayout::FixedSizeList(_, _, _, _) => Ok(array.clone()?),
        ArrayLayout::ListView(_, _, _, _, _) => Ok(array.clone()?),
    }
}

#[tactic(auto, using(crate::proofs::HintLemmas::columns))]
fn hint_columns(
    alloc: Global,
    names: &FieldNames,
    fields: &Vec<ArrayRef>,
    len: usize,
    hints: &[Layout],
) -> Result<Vec<ArrayRef>, AllocError>
    requires fit { HaveLength (columns_of names.now fields.now.items) len }
    requires plain { HavePlain (fields_of (columns_of names.now fields.now.items)) }
    ensures made { IfOk result (λ hinted. AreColumnsFrom hints.now 0
        (columns_of names.now fields.now.items) (columns_of names.now hinted.items)) }
    ensures count { IfOk result (λ hinted. length hinted.items ≡ length fields.now.items) }
    ensures fit { IfOk result (λ hinted. HaveLength (columns_of names.now hinted.items) len) }
{
    let mut hinted = Vec::with_capacity(alloc, fields.len())?;
    for i in 0..fields.len() {
        let hint = hint_at(hints, i);
        let column = hint_column(alloc, &fields[i], hint)?;
        hinted.push(column)?;
    }
    Ok(hinted)
}

// The hint of a column, plain where there is none.
fn hint_at(hints: &[Layout], index: usize) -> Layout
    ensures { result ≡ hint_at hints.now index }
{
    if index < hints.len() {
        hints[index]
    } else {
        Layout::Plain
    }
}

#[tactic(auto, using(crate::proofs::HintLemmas::one_column))]
fn hint_column(alloc: Global, column: &ArrayRef, hint: Layout) -> Result<ArrayRef, AllocError>
    requires plain { HasPlain (array_type_of column.now) }
    ensures made { IfOk result (λ hinted. IsColumnFrom hint column.now hinted) }
{
    let hinted = hint_by(alloc, column, hint)?;
    // Proves that its parts fit together.
    let _rows = hinted.len();
    Ok(hinted)
}

#[tactic(auto, using(crate::proofs::HintLemmas::by_hint))]
fn hint_by(alloc: Global, column: &ArrayRef, hint: Layout) -> Result<ArrayRef, AllocError>
    requires plain { HasPlain (array_type_of column.now) }
    ensures dtype { IfOk result (λ hinted. array_type_of hinted ≡ array_type_of column.now) }
    ensures rows { IfOk result (λ hinted. rows_of hinted ≡ rows_of column.now) }
    ensures layout { IfOk result (λ hinted. IsHinted hint column.now hinted) }
{
    match hint {
        Layout::Plain => Ok(column.clone()?),
        Layout::Dictionary => Ok(dictionary_or_same(alloc, column)?),
        Layout::Constant => Ok(constant_or_same(alloc, column)?),
    }
}

#[tactic(auto, using(crate::proofs::HintLemmas::constants))]
fn constant_or_same(alloc: Global, column: &ArrayRef) -> Result<ArrayRef, AllocError>
    requires plain { HasPlain (array_type_of column.now) }
    ensures dtype { IfOk result (λ hinted. array_type_of hinted ≡ array_type_of column.now) }
    ensures rows { IfOk result (λ hinted. rows_of hinted ≡ rows_of column.now) }
    ensures layout { IfOk result (λ hinted. IsHinted Constant column.now hinted) }
{
    match is_constant(alloc, column)? {
        Some(true) => first_repeated(alloc, column),
        Some(false) => Ok(column.clone()?),
        None => constant_of_values(alloc, column),
    }
}

// The first row of a column whose rows are all equal, repeated for each row.
#[tactic(auto, using(crate::proofs::ConstantLemmas::repeated))]
fn first_repeated(alloc: Global, column: &ArrayRef) -> Result<ArrayRef, AllocError>
    requires plain { HasPlain (array_type_of column.now) }
    requires equal { fits_constant (rows_of column.now) ≡ true }
    ensures dtype { IfOk result (λ hinted. array_type_of hinted ≡ array_type_of column.now) }
    ensures rows { IfOk result (λ hinted. rows_of hinted ≡ rows_of column.now) }
    ensures layout { IfOk result (λ hinted. IsConstant hinted) }
{
    let first = row_value(alloc, column, 0)?;
    let hinted = build_constant(alloc, column.dtype(), first.as_ref(), column.len())?;
    Ok(hinted)
}

// A constant if all rows are equal, by the values of the rows, for a column not in plain layout.
#[tactic(auto, using(crate::proofs::HintLemmas::constants_of_values))]
fn constant_of_values(alloc: Global, column: &ArrayRef) -> Result<ArrayRef, AllocError>
    requires plain { HasPlain (array_type_of column.now) }
    ensures dtype { IfOk result (λ hinted. array_type_of hinted ≡ array_type_of column.now) }
    ensures rows { IfOk result (λ hinted. rows_of hinted ≡ rows_of column.now) }
    ensures layout { IfOk result (λ hinted. IsHinted Constant column.now hinted) }
{
    let rows = row_values(alloc, column)?;
    let values = borrowed(alloc, &rows)?;
    if fits_constant(&values) {
        let hinted = first_repeated(alloc, column)?;
        return Ok(hinted);
    }
    Ok(column.clone()?)
}

#[tactic(auto, using(crate::proofs::HintLemmas::dictionaries))]
fn dictionary_or_same(alloc: Global, column: &ArrayRef) -> Result<ArrayRef, AllocError>
    ensures dtype { IfOk result (λ hinted. array_type_of hinted ≡ array_type_of column.now) }
    ensures rows { IfOk result (λ hinted. rows_of hinted ≡ rows_of column.now) }
    ensures layout { IfOk result (λ hinted. IsHinted Dictionary column.now hinted) }
{
    if !fits_dictionary(column) {
        return Ok(column.clone()?);
    }
    match dict_encode(alloc, column)? {
        Some(hinted) => Ok(hinted),
        None => dictionary_of_values(alloc, column),
    }
}

// A dictionary of the values of the rows, for a column not in plain layout.
#[tactic(auto, using(crate::proofs::HintLemmas::dictionaries_of_values))]
fn dictionary_of_values(alloc: Global, column: &ArrayRef) -> Result<ArrayRef, AllocError>
    requires { fits_dictionary (array_type_of column.now) (rows_of column.now) ≡ true }
    ensures dtype { IfOk result (λ hinted. array_type_of hinted ≡ array_type_of column.now) }
    ensures rows { IfOk result (λ hinted. rows_of hinted ≡ rows_of column.now) }
    ensures layout { IfOk result (λ hinted. IsHinted Dictionary column.now hinted) }
{
    let rows = row_values(alloc, column)?;
    let values = borrowed(alloc, &rows)?;
    match build_dictionary(alloc, column.dtype(), &values) {
        Ok(hinted) => Ok(hinted),
        Err(ArrayError::Memory) => Err(AllocError),
        Err(_) => Ok(column.clone()?),
    }
}

#[tactic(auto, using(crate::proofs::HintLemmas::values))]
fn borrowed<'a>(
    alloc: Global,
    rows: &'a [Option<ScalarValue>],
) -> Result<Vec<Option<&'a ScalarValue>>, AllocError>
    ensures { IfOk result (λ values. map raw_at values.items ≡ map raw_in rows.now) }
{
    let mut values = Vec::with_capacity(alloc, rows.len())?;
    for row in rows {
        values.push(row.as_ref())?;
    }
    Ok(values)
}
