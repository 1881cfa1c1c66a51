//! Chunks whose rows are converted to another type, with the statistics that stay.
ghost use Rattle.std.specs.Prelude.{◌≡◌, ◌<◌, ◌+◌, ℕ, List, length, take, true, Some, IfOk, OnOk, IfSome, IsTrue};
ghost use Rattle.vortex_model.specs.Content.{Content};
ghost use Rattle.vortex_model.specs.Kept.{is_leaf, is_leaf_at};
ghost use Rattle.vortex_model.specs.LogicalType.{nullable, with_nullability};
ghost use Rattle.vortex_model.specs.Path.{part_at};
ghost use Rattle.vortex_model_table.specs.Scan.{kind_at};
ghost use Rattle.vortex_model_table.specs.Statistics.{sum_of};
ghost use Rattle.vortex_model_table.specs.Typing.{sum_kind};
ghost use Rattle.vortex_model_table.specs.ZoneMap.{sum_in, values_at};
ghost use Rattle.vortex_dtype_core.specs.View.{type_of};
ghost use Rattle.vortex_arrays_model.specs.Layout.{array_type_of, rows_of};
ghost use Rattle.vortex_stats_array.specs.Sums.{known_sum};
ghost use Rattle.vortex_table_schema.specs.Leaves.{leaf_positions};
ghost use Rattle.vortex_table_chunk.specs.Bounds.{AreBoundsOf, are_typed_at};
ghost use Rattle.vortex_table_chunk.specs.Chunk.{chunk_rows};
ghost use Rattle.vortex_table_chunk.specs.Rows.{HasRowsOfType};
ghost use Rattle.vortex_table_chunk.specs.zones.Bounds.{IsBoundsOf, WereBoundsOf};
ghost use Rattle.vortex_table_chunk.specs.zones.Sums.{is_sum_of};
ghost use Rattle.vortex_table_chunk.specs.zones.Typed.{is_typed_as};

use crate::bounds::{leaf_bounds, leaf_column, leaf_stats};
use crate::chunk::{Chunk, with_bounds};
use crate::zones::carried::{carried_to, has_sum_of, in_kind_of};
use std::alloc::{AllocError, Global};
use std::rc::Rc;
use vortex_arrays_core::array::ArrayRef;
use vortex_dtype_core::dtype::DType;
use vortex_scalar_value::pvalue::PValue;
use vortex_stats_array::array_stats::ArrayStats;
use vortex_table_schema::leaves::LeafPath;

// The sum of the column of which these were the statistics before. It stays where its type does,
// and is taken anew where that changes.
fn carried_sum(
    alloc: Global,
    old: &ArrayStats,
    column: &ArrayRef,
    max_length: usize,
) -> Result<Option<PValue>, AllocError>
    requires leaf { is_leaf (array_type_of column.now) ≡ true }
    requires old { WereBoundsOf max_length old.now (rows_of column.now) }
    ensures number { IfOk result (λ sum. known_sum sum
        ≡ sum_in (sum_kind (array_type_of column.now)) (sum_of (rows_of column.now))) }
    ensures kind { IfOk result
        (λ sum. is_sum_of (sum_kind (array_type_of column.now)) sum ≡ true) }
{
    if has_sum_of(old, column.dtype()) {
        return Ok(old.sum);
    }
    let stats = leaf_stats(alloc, column, max_length)?;
    Ok(stats.sum)
}

// The type of the field at this position, where there is one.
#[tactic(auto, using(vortex_stats_expr::proofs::Classes::by_fields))]
fn field_type<'a>(dtype: &'a DType, position: usize) -> Option<&'a DType>
    ensures { IfSome result
        (λ field. part_at (type_of dtype.now) position ≡ Some (type_of field.now)) }
{
    let Some(fields) = dtype.as_struct_fields_opt() else {
        return None;
    };
    match fields.field_by_index(position) {
        Some(field) => Some(field),
        None => None,
    }
}

/// The type of the leaf at these positions, as it is in its record, which may be null itself.
#[tactic(auto, using(crate::proofs::LeafTypes::types))]
pub fn leaf_type<'a>(dtype: &'a DType, leaf: &[usize]) -> Option<&'a DType>
    ensures { IfSome result (λ found. with_nullability nullable (type_of found.now)
        ≡ with_nullability nullable (kind_at (type_of dtype.now) leaf.now)) }
{
    let mut part = dtype;
    for position in leaf {
        let Some(field) = field_type(part, *position) else {
            return None;
        };
        part = field;
    }
    Some(part)
}

// The statistics of a leaf column that had these before, and a sum of another type.
fn summed_bounds(
    alloc: Global,
    old: &ArrayStats,
    array: &ArrayRef,
    leaf: &[usize],
    max_length: usize,
) -> Result<ArrayStats, AllocError>
    requires leaf { is_leaf_at (array_type_of array.now) leaf.now ≡ true }
    requires old { WereBoundsOf max_length old.now (values_at leaf.now (rows_of array.now)) }
    ensures statistics { IfOk result
        (λ bounds. IsBoundsOf (kind_at (array_type_of array.now) leaf.now) max_length bounds
        (values_at leaf.now (rows_of array.now))) }
    ensures types { IfOk result (λ bounds. HasRowsOfType array.now
        → is_typed_as (kind_at (array_type_of array.now) leaf.now) bounds ≡ true) }
{
    let column = leaf_column(alloc, array, leaf)?;
    let sum = carried_sum(alloc, old, &column, max_length)?;
    let bounds = carried_to(old, column.dtype(), sum)?;
    Ok(bounds)
}

// The statistics of a leaf column that had these before. Only where the type of its sum changes is
// the column itself looked up.
#[inline(never)]
fn carried_bounds(
    alloc: Global,
    old: &ArrayStats,
    array: &ArrayRef,
    leaf: &[usize],
    max_length: usize,
) -> Result<ArrayStats, AllocError>
    requires leaf { is_leaf_at (array_type_of array.now) leaf.now ≡ true }
    requires old { WereBoundsOf max_length old.now (values_at leaf.now (rows_of array.now)) }
    ensures statistics { IfOk result
        (λ bounds. IsBoundsOf (kind_at (array_type_of array.now) leaf.now) max_length bounds
        (values_at leaf.now (rows_of array.now))) }
    ensures types { IfOk result (λ bounds. HasRowsOfType array.now
        → is_typed_as (kind_at (array_type_of array.now) leaf.now) bounds ≡ true) }
{
    if let Some(dtype) = leaf_type(array.dtype(), leaf) {
        if has_sum_of(old, dtype) {
            let bounds = carried_to(old, dtype, old.sum)?;
            return Ok(bounds);
        }
    }
    summed_bounds(alloc, old, array, leaf, max_length)
}

// The chunk's statistics of its leaf column with this index, if it is at these positions.
fn stays_at<'a>(
    chunk: &'a Chunk,
    index: usize,
    leaf: &[usize],
    max_length: usize,
) -> Option<&'a ArrayStats>
    ensures { IfSome result (λ bounds.
        WereBoundsOf max_length bounds.now (values_at leaf.now (chunk_rows chunk.now))) }
{
    let Some(place) = chunk.leaves.get(index) else {
        return None;
    };
    let Some(length) = chunk.lengths.get(index) else {
        return None;
    };
    let Some(bounds) = chunk.bounds.get(index) else {
        return None;
    };
    if !place.equals(leaf) {
        return None;
    }
    // Never so in a table, where a position keeps its bound length.
    if *length != max_length {
        return None;
    }
    Some(bounds)
}

// The index of the first of the leaves, from this one on, that isn't before the positions.
fn first_from(leaves: &[LeafPath], from: usize, positions: &[usize]) -> usize {
    for index in from..leaves.len() {
        if leaves[index].as_slice() >= positions {
            return index;
        }
    }
    leaves.len()
}

// The statistics of the leaf columns of the chunk's rows in an array of another type. Both types
// have their leaves in the order of their positions, so one walk finds those that stay.
fn all_retyped(
    alloc: Global,
    chunk: &Chunk,
    array: &ArrayRef,
    leaves: &[LeafPath],
    max_lengths: &[usize],
) -> Result<Vec<ArrayStats>, AllocError>
    requires lengths { length max_lengths.now ≡ length leaves.now }
    requires leaves { leaves.now ≡ leaf_positions (array_type_of array.now) }
    requires rows { rows_of array.now ≡ chunk_rows chunk.now }
    ensures statistics { IfOk result
        (λ all. AreBoundsOf (array_type_of array.now) max_lengths.now leaves.now all.items
        (rows_of array.now)) }
    ensures types { IfOk result (λ all. HasRowsOfType array.now
        → IsTrue (are_typed_at (array_type_of array.now) leaves.now all.items)) }
{
    let mut all = Vec::with_capacity(alloc, leaves.len())?;
    let mut from = 0;
    for index in 0..leaves.len() {
        from = first_from(&chunk.leaves, from, leaves[index].as_slice());
        push_retyped(
            alloc,
            &mut all,
            chunk,
            from,
            array,
            leaves,
            max_lengths,
            index,
        )?;
    }
    Ok(all)
}

// Adds the statistics of the leaf column with this index to those of the columns before it. `from`
// is the index that it had in the chunk, if it stays. Integers are moved straight to their slot,
// and not by way of a result.
fn push_retyped(
    alloc: Global,
    all: &mut Vec<ArrayStats>,
    chunk: &Chunk,
    from: usize,
    array: &ArrayRef,
    leaves: &[LeafPath],
    max_lengths: &[usize],
    index: usize,
) -> Result<(), AllocError>
    requires lengths { length max_lengths.now ≡ length leaves.now }
    requires leaves { leaves.now ≡ leaf_positions (array_type_of array.now) }
    requires rows { rows_of array.now ≡ chunk_rows chunk.now }
    requires within { index < length leaves.now }
    ensures statistics { OnOk result
        (AreBoundsOf (array_type_of array.now) (take index max_lengths.now)
        (take index leaves.now) all.old.items (rows_of array.now)
        → AreBoundsOf (array_type_of array.now) (take (index + 1) max_lengths.now)
        (take (index + 1) leaves.now) all.new.items (rows_of array.now)) }
    ensures types { OnOk result (HasRowsOfType array.now
        → IsTrue (are_typed_at (array_type_of array.now) (take index leaves.now) all.old.items)
        → IsTrue (are_typed_at (array_type_of array.now) (take (index + 1) leaves.now)
        all.new.items)) }
{
    let positions = leaves[index].as_slice();
    let max_length = max_lengths[index];
    let old = stays_at(chunk, from, positions, max_length);
    if let Some(same) = old {
        if let Some(bounds) = carried_integers(same, array, positions) {
            all.push(bounds)?;
            return Ok(());
        }
    }
    let bounds = retyped_bounds(alloc, old, array, positions, max_length)?;
    all.push(bounds)?;
    Ok(())
}

// The statistics of a column of integers that had these before, and whose sum keeps its type.
fn carried_integers(old: &ArrayStats, array: &ArrayRef, leaf: &[usize]) -> Option<ArrayStats>
    ensures statistics { IfSome result (λ new. (L : ℕ) (values : List Content)
        → WereBoundsOf L old.now values
        → IsBoundsOf (kind_at (array_type_of array.now) leaf.now) L new values) }
    ensures types { IfSome result (λ new. (L : ℕ) → HasRowsOfType array.now
        → is_leaf_at (array_type_of array.now) leaf.now ≡ true
        → WereBoundsOf L old.now (values_at leaf.now (rows_of array.now))
        → is_typed_as (kind_at (array_type_of array.now) leaf.now) new ≡ true) }
{
    let dtype = leaf_type(array.dtype(), leaf)?;
    if !has_sum_of(old, dtype) {
        return None;
    }
    in_kind_of(old, dtype)
}

// The statistics of a leaf column: from those that it had before, and without them from its rows.
fn retyped_bounds(
    alloc: Global,
    old: Option<&ArrayStats>,
    array: &ArrayRef,
    leaf: &[usize],
    max_length: usize,
) -> Result<ArrayStats, AllocError>
    requires leaf { is_leaf_at (array_type_of array.now) leaf.now ≡ true }
    requires old { IfSome old (λ bounds.
        WereBoundsOf max_length bounds.now (values_at leaf.now (rows_of array.now))) }
    ensures statistics { IfOk result
        (λ bounds. IsBoundsOf (kind_at (array_type_of array.now) leaf.now) max_length bounds
        (values_at leaf.now (rows_of array.now))) }
    ensures types { IfOk result (λ bounds. HasRowsOfType array.now
        → is_typed_as (kind_at (array_type_of array.now) leaf.now) bounds ≡ true) }
{
    match old {
        Some(old) => carried_bounds(alloc, old, array, leaf, max_length),
        None => leaf_bounds(alloc, array, leaf, max_length),
    }
}

/// A chunk of the same rows in an array of another type, which has these leaf columns with these
/// bound lengths. A leaf column that was one at its positions keeps its bounds and its null count,
/// and its sum where the type of sums stays. All other statistics are taken from the rows.
#[inline(never)]
pub fn retyped_chunk(
    alloc: Global,
    chunk: &Chunk,
    leaves: &Rc<Vec<LeafPath>>,
    lengths: &Rc<Vec<usize>>,
    array: ArrayRef,
) -> Result<Chunk, AllocError>
    requires lengths { length lengths.now.value.items ≡ length leaves.now.value.items }
    requires leaves { leaves.now.value.items ≡ leaf_positions (array_type_of array) }
    requires rows { rows_of array ≡ chunk_rows chunk.now }
    ensures array { IfOk result (λ new. new.array ≡ array) }
    ensures leaves { IfOk result (λ new. new.leaves.value.items ≡ leaves.now.value.items) }
    ensures lengths { IfOk result (λ new. new.lengths.value.items ≡ lengths.now.value.items) }
    ensures types { IfOk result (λ new. IsTrue
        (are_typed_at (array_type_of array) new.leaves.value.items new.bounds.items)) }
{
    let bounds = all_retyped(alloc, chunk, &array, leaves, lengths)?;
    let new = with_bounds(leaves, lengths, array, bounds, Vec::new(alloc))?;
    Ok(new)
}
