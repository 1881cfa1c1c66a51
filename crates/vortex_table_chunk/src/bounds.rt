//! Statistics of all leaf columns of the rows of a chunk.
ghost use Rattle.std.specs.Prelude.{◌≡◌, length, true, IfOk, IsTrue};
ghost use Rattle.vortex_model.specs.Kept.{is_leaf, is_leaf_at};
ghost use Rattle.vortex_model_table.specs.Scan.{kind_at};
ghost use Rattle.vortex_model_table.specs.ZoneMap.{values_at, zone_of};
ghost use Rattle.vortex_arrays_model.specs.Layout.{array_type_of, rows_of};
ghost use Rattle.vortex_arrays_model.specs.Column.{IsPart};
ghost use Rattle.vortex_stats_array.specs.Zones.{zone_in, AreOfType};
ghost use Rattle.vortex_table_schema.specs.Leaves.{leaf_positions};
ghost use Rattle.vortex_table_chunk.specs.zones.Join.{CanJoin, AreJoinsOf};
ghost use Rattle.vortex_table_chunk.specs.zones.Bounds.{IsBoundsOf};
ghost use Rattle.vortex_table_chunk.specs.zones.Typed.{is_typed_as};
ghost use Rattle.vortex_table_chunk.specs.Bounds.{AreBoundsOf, are_typed_at};

use crate::zones::join::join_stats;
use std::alloc::{AllocError, Global};
use vortex_arrays_core::array::ArrayRef;
use vortex_arrays_struct::part::part_at_positions;
use vortex_stats_array::array_stats::ArrayStats;
use vortex_stats_array::of_array::array_stats;
use vortex_table_schema::leaves::LeafPath;

/// The column of the leaf at these positions.
pub(crate) fn leaf_column(
    alloc: Global,
    array: &ArrayRef,
    leaf: &[usize],
) -> Result<ArrayRef, AllocError>
    requires { is_leaf_at (array_type_of array.now) leaf.now ≡ true }
    ensures part { IfOk result (λ column. IsPart array.now leaf.now column) }
    ensures leaf { IfOk result (λ column. is_leaf (array_type_of column) ≡ true) }
{
    let Some(column) = part_at_positions(alloc, array, leaf)? else {
        unreachable!()
    };
    Ok(column)
}

/// The statistics of a leaf column, taken from its rows.
pub(crate) fn leaf_stats(
    alloc: Global,
    column: &ArrayRef,
    max_length: usize,
) -> Result<ArrayStats, AllocError>
    requires { is_leaf (array_type_of column.now) ≡ true }
    ensures zone { IfOk result (λ stats. zone_in stats
        ≡ zone_of (array_type_of column.now) max_length (rows_of column.now)) }
    ensures types { IfOk result (λ stats. AreOfType (array_type_of column.now) stats) }
{
    let Some(stats) = array_stats(alloc, column, max_length)? else {
        unreachable!()
    };
    Ok(stats)
}

/// The statistics of the leaf column at these positions. A bound that is a string or bytes of more
/// than `max_length` bytes is shortened.
pub fn leaf_bounds(
    alloc: Global,
    array: &ArrayRef,
    leaf: &[usize],
    max_length: usize,
) -> Result<ArrayStats, AllocError>
    requires { is_leaf_at (array_type_of array.now) leaf.now ≡ true }
    ensures statistics { IfOk result
        (λ bounds. IsBoundsOf (kind_at (array_type_of array.now) leaf.now) max_length bounds
        (values_at leaf.now (rows_of array.now))) }
    ensures types { IfOk result (λ bounds.
        is_typed_as (kind_at (array_type_of array.now) leaf.now) bounds ≡ true) }
{
    let column = leaf_column(alloc, array, leaf)?;
    let bounds = leaf_stats(alloc, &column, max_length)?;
    Ok(bounds)
}

/// The statistics of the leaf columns of an array, one for each of `leaves`, which are those of its
/// type, in the same order. A bound that is a string or bytes of more bytes than the column's of
/// `max_lengths` is shortened. Each row is read once, and only the bounds are copied.
pub fn all_bounds(
    alloc: Global,
    array: &ArrayRef,
    leaves: &[LeafPath],
    max_lengths: &[usize],
) -> Result<Vec<ArrayStats>, AllocError>
    requires lengths { length max_lengths.now ≡ length leaves.now }
    requires leaves { leaves.now ≡ leaf_positions (array_type_of array.now) }
    ensures statistics { IfOk result
        (λ all. AreBoundsOf (array_type_of array.now) max_lengths.now leaves.now all.items
        (rows_of array.now)) }
    ensures types { IfOk result
        (λ all. IsTrue (are_typed_at (array_type_of array.now) leaves.now all.items)) }
{
    let mut all = Vec::with_capacity(alloc, leaves.len())?;
    for (index, leaf) in leaves.iter().enumerate() {
        let bounds = leaf_bounds(alloc, array, leaf.as_slice(), max_lengths[index])?;
        all.push(bounds)?;
    }
    Ok(all)
}

/// The statistics of the columns of two neighbouring groups as one group. Both sides have those of
/// the same columns in the same order.
pub fn join_bounds(
    alloc: Global,
    left: &[ArrayStats],
    right: &[ArrayStats],
) -> Result<Vec<ArrayStats>, AllocError>
    requires { CanJoin left.now right.now }
    ensures { IfOk result (λ all. AreJoinsOf left.now right.now all.items) }
{
    let mut all = Vec::with_capacity(alloc, left.len())?;
    for (index, bounds) in left.iter().enumerate() {
        let joined = join_stats(bounds, &right[index])?;
        all.push(joined)?;
    }
    Ok(all)
}
