//! Columns by their layouts.
ghost use Rattle.std.specs.Prelude.{◌≡◌, ◌<◌, length, map, IfOk, OnOk, All};
ghost use Rattle.vortex_model.specs.Content.{raw_null};
ghost use Rattle.vortex_arrays_model.specs.Layout.{bools, numbers, strings, len_of, IsSound};
ghost use Rattle.vortex_arrays_core.specs.LayoutOf.{valid_of, strings_of};
ghost use Rattle.vortex_arrays_core.specs.RawRows.{raw_row};
ghost use Rattle.vortex_arrays_buffer.specs.PrimitiveBuffers.{kind_of_numbers, integers_of};
ghost use Rattle.vortex_scalar_value.specs.View.{raw_in};
ghost use Rattle.vortex_table_schema.specs.Cut.{tree_of, raw_cut};
ghost use Rattle.vortex_table_select.specs.Lists.{with_each, lists_of, cut_values};

use crate::native::Native;
use crate::push::{Values, push_values, read_values};
use bytes::Bytes;
use std::alloc::{AllocError, Global};
use vortex_arrays_buffer::{BitBuffer, PrimitiveBuffer};
use vortex_arrays_builder::rows::row_value;
use vortex_arrays_core::array::{ArrayLayout, ArrayRef, StringKind, Validity};
use vortex_arrays_view::shared::shared_bytes;
use vortex_arrays_view::view::BinaryView;
use vortex_dtype_core::BufferString;
use vortex_scalar_value::scalar_value::ScalarValue;
use vortex_table_schema::projection::{Projection, cut_value};

// Booleans.
#[derive(Drop)]
struct Bools<'a> {
    bits: &'a BitBuffer,
    validity: &'a Validity,
}

impl Values for Bools<'_> {
    ghost raw_at = { λ v i. raw_row (bools v.bits.now (valid_of v.validity.now)) i };

    ghost has_row = { λ v i. IsSound (bools v.bits.now (valid_of v.validity.now))
        × (i < length v.bits.now) };

    #[tactic(auto, using(vortex_scalar_value::proofs::Views::one_level))]
    fn value(&self, _alloc: Global, row: usize) -> Result<Option<ScalarValue>, AllocError> {
        if self.validity.is_valid(row, self.bits.len()) {
            Ok(Some(ScalarValue::Bool(self.bits.value(row))))
        } else {
            Ok(None)
        }
    }
}

// Integers of one type.
#[derive(Drop)]
struct Numbers<'a, T> {
    items: &'a [T],
    validity: &'a Validity,
}

impl<T: Native> Values for Numbers<'_, T> {
    ghost raw_at = { λ v i. raw_row
        (numbers T.kind (map T.integer v.items.now) (valid_of v.validity.now)) i };

    ghost has_row = { λ v i. IsSound
        (numbers T.kind (map T.integer v.items.now) (valid_of v.validity.now))
        × (i < length v.items.now) };

    fn value(&self, _alloc: Global, row: usize) -> Result<Option<ScalarValue>, AllocError> {
        if self.validity.is_valid(row, self.items.len()) {
            Ok(Some(self.items[row].into_value()))
        } else {
            Ok(None)
        }
    }
}

// Strings or bytes: views, and the buffers that long values lie in.
#[derive(Drop)]
struct Strings<'a> {
    kind: StringKind,
    views: &'a [BinaryView],
    buffers: &'a [Bytes],
    validity: &'a Validity,
}

impl Values for Strings<'_> {
    ghost raw_at = { λ v i. raw_row
        (strings (strings_of v.kind) v.views.now v.buffers.now (valid_of v.validity.now)) i };

    ghost has_row = { λ v i. IsSound
        (strings (strings_of v.kind) v.views.now v.buffers.now (valid_of v.validity.now))
        × (i < length v.views.now) };

    #[tactic(auto, using(vortex_scalar_value::proofs::Views::one_level))]
    fn value(&self, alloc: Global, row: usize) -> Result<Option<ScalarValue>, AllocError> {
        if !self.validity.is_valid(row, self.views.len()) {
            return Ok(None);
        }
        let bytes = shared_bytes(alloc, &self.views[row], self.buffers)?;
        match self.kind {
            StringKind::Utf8 => {
                Ok(Some(ScalarValue::Utf8(BufferString::from_known_utf8(bytes))))
            }
            StringKind::Binary => Ok(Some(ScalarValue::Binary(bytes))),
        }
    }
}

// An array of any layout, of whose values a part is kept.
#[derive(Drop)]
struct Cut<'a> {
    array: &'a ArrayRef,
    projection: &'a Projection,
}

impl Values for Cut<'_> {
    ghost raw_at = { λ v i. raw_cut (tree_of v.projection.now) (raw_row v.array.now i) };

    ghost has_row = { λ v i. i < len_of v.array.now };

    fn value(&self, alloc: Global, row: usize) -> Result<Option<ScalarValue>, AllocError> {
        // Shows the prover that the parts of the array fit together.
        let _ = self.array.len();
        let value = row_value(alloc, self.array, row)?;
        keep(alloc, self.projection, value)
    }
}

// The part of a value that is kept, which is copied only where that isn't all of it.
#[tactic(auto, using(vortex_table_schema::proofs::Projections::cut_null))]
fn keep(
    alloc: Global,
    projection: &Projection,
    value: Option<ScalarValue>,
) -> Result<Option<ScalarValue>, AllocError>
    ensures { IfOk result
        (λ kept. raw_in kept ≡ raw_cut (tree_of projection.now) (raw_in value)) }
{
    match value {
        None => Ok(None),
        Some(value) => match projection {
            Projection::Whole => Ok(Some(value)),
            Projection::Fields(_) => Ok(Some(cut_value(projection, alloc, &value)?)),
        },
    }
}

// A column that isn't there.
#[derive(Drop)]
struct Nulls;

impl Values for Nulls {
    ghost raw_at = { λ v i. raw_null };

    ghost has_row = { λ v i. Unit {0} };

    fn value(&self, _alloc: Global, _row: usize) -> Result<Option<ScalarValue>, AllocError> {
        Ok(None)
    }
}

// Pushes the booleans of the rows.
fn push_bools(
    alloc: Global,
    bits: &BitBuffer,
    validity: &Validity,
    rows: &[usize],
    lists: &mut [Vec<Option<ScalarValue>>],
) -> Result<(), AllocError>
    requires sound { IsSound (bools bits.now (valid_of validity.now)) }
    requires within { All (λ i. i < length bits.now) rows.now }
    requires many { length lists.old ≡ length rows.now }
    ensures { OnOk result (lists_of lists.new ≡ with_each (lists_of lists.old)
        (map (raw_row (bools bits.now (valid_of validity.now))) rows.now)) }
{
    push_values(alloc, &Bools { bits, validity }, rows, lists)
}

// Pushes the integers of the rows. Their type is looked at once.
fn push_numbers(
    alloc: Global,
    items: &PrimitiveBuffer,
    validity: &Validity,
    rows: &[usize],
    lists: &mut [Vec<Option<ScalarValue>>],
) -> Result<(), AllocError>
    requires sound { IsSound (numbers (kind_of_numbers items.now) (integers_of items.now)
        (valid_of validity.now)) }
    requires within { All (λ i. i < length (integers_of items.now)) rows.now }
    requires many { length lists.old ≡ length rows.now }
    ensures { OnOk result (lists_of lists.new ≡ with_each (lists_of lists.old) (map (raw_row
        (numbers (kind_of_numbers items.now) (integers_of items.now) (valid_of validity.now)))
        rows.now)) }
{
    match items {
        PrimitiveBuffer::U8(items) => push_native(alloc, items.as_slice(), validity, rows, lists),
        PrimitiveBuffer::U16(items) => push_native(alloc, items.as_slice(), validity, rows, lists),
        PrimitiveBuffer::U32(items) => push_native(alloc, items.as_slice(), validity, rows, lists),
        PrimitiveBuffer::U64(items) => push_native(alloc, items.as_slice(), validity, rows, lists),
        PrimitiveBuffer::I8(items) => push_native(alloc, items.as_slice(), validity, rows, lists),
        PrimitiveBuffer::I16(items) => push_native(alloc, items.as_slice(), validity, rows, lists),
        PrimitiveBuffer::I32(items) => push_native(alloc, items.as_slice(), validity, rows, lists),
        PrimitiveBuffer::I64(items) => push_native(alloc, items.as_slice(), validity, rows, lists),
    }
}

fn push_native<T: Native>(
    alloc: Global,
    items: &[T],
    validity: &Validity,
    rows: &[usize],
    lists: &mut [Vec<Option<ScalarValue>>],
) -> Result<(), AllocError>
    requires sound { IsSound (numbers T.kind (map T.integer items.now) (valid_of validity.now)) }
    requires within { All (λ i. i < length items.now) rows.now }
    requires many { length lists.old ≡ length rows.now }
    ensures { OnOk result (lists_of lists.new ≡ with_each (lists_of lists.old) (map (raw_row
        (numbers T.kind (map T.integer items.now) (valid_of validity.now))) rows.now)) }
{
    push_values(alloc, &Numbers { items, validity }, rows, lists)
}

// Pushes the strings or the bytes of the rows.
fn push_strings(
    alloc: Global,
    kind: StringKind,
    views: &[BinaryView],
    buffers: &[Bytes],
    validity: &Validity,
    rows: &[usize],
    lists: &mut [Vec<Option<ScalarValue>>],
) -> Result<(), AllocError>
    requires sound { IsSound
        (strings (strings_of kind) views.now buffers.now (valid_of validity.now)) }
    requires within { All (λ i. i < length views.now) rows.now }
    requires many { length lists.old ≡ length rows.now }
    ensures { OnOk result (lists_of lists.new ≡ with_each (lists_of lists.old) (map
        (raw_row (strings (strings_of kind) views.now buffers.now (valid_of validity.now)))
        rows.now)) }
{
    let strings = Strings {
        kind,
        views,
        buffers,
        validity,
    };
    push_values(alloc, &strings, rows, lists)
}

/// Pushes onto each list what is kept of the column's value in its row. The layout is looked at
/// once.
pub(crate) fn push_column(
    alloc: Global,
    column: &ArrayRef,
    projection: &Projection,
    rows: &[usize],
    lists: &mut [Vec<Option<ScalarValue>>],
) -> Result<(), AllocError>
    requires within { All (λ i. i < len_of column.now) rows.now }
    requires many { length lists.old ≡ length rows.now }
    ensures { OnOk result (lists_of lists.new ≡ with_each (lists_of lists.old)
        (cut_values (tree_of projection.now) column.now rows.now)) }
{
    match column.layout() {
        ArrayLayout::Bool(bits, validity) => push_bools(alloc, bits, validity, rows, lists),
        ArrayLayout::Primitive(items, validity) => {
            push_numbers(alloc, items, validity, rows, lists)
        }
        ArrayLayout::VarBinView(kind, views, buffers, validity) => {
            push_strings(
                alloc,
                *kind,
                views.as_slice(),
                buffers.as_slice(),
                validity,
                rows,
                lists,
            )
        }
        ArrayLayout::Constant(_, _)
        | ArrayLayout::Dict(_, _, _)
        | ArrayLayout::FixedSizeList(_, _, _, _)
        | ArrayLayout::ListView(_, _, _, _, _)
        | ArrayLayout::Struct(_, _, _, _) => push_cut(alloc, column, projection, rows, lists),
    }
}

// Pushes what is kept of the values of an array of any layout.
fn push_cut(
    alloc: Global,
    array: &ArrayRef,
    projection: &Projection,
    rows: &[usize],
    lists: &mut [Vec<Option<ScalarValue>>],
) -> Result<(), AllocError>
    requires within { All (λ i. i < len_of array.now) rows.now }
    requires many { length lists.old ≡ length rows.now }
    ensures { OnOk result (lists_of lists.new ≡ with_each (lists_of lists.old)
        (cut_values (tree_of projection.now) array.now rows.now)) }
{
    push_values(alloc, &Cut { array, projection }, rows, lists)
}

/// Pushes null onto each list, as of a column that is absent.
pub(crate) fn push_absent(
    alloc: Global,
    rows: &[usize],
    lists: &mut [Vec<Option<ScalarValue>>],
) -> Result<(), AllocError>
    requires { length lists.old ≡ length rows.now }
    ensures { OnOk result (lists_of lists.new
        ≡ with_each (lists_of lists.old) (map (λ i. raw_null) rows.now)) }
{
    push_values(alloc, &Nulls, rows, lists)
}

/// The kept parts of the values of an array of any layout, each read by itself.
pub(crate) fn read_each(
    alloc: Global,
    array: &ArrayRef,
    projection: &Projection,
    rows: &[usize],
) -> Result<Vec<Option<ScalarValue>>, AllocError>
    requires { All (λ i. i < len_of array.now) rows.now }
    ensures { IfOk result (λ values. map raw_in values.items
        ≡ cut_values (tree_of projection.now) array.now rows.now) }
{
    read_values(alloc, &Cut { array, projection }, rows)
}
