//! Leaf columns that a chunk keeps, found once and lent whenever its rows are tested.
ghost use Rattle.std.specs.Prelude.{◌≡◌, map, IfOk, IfSome};
ghost use Rattle.vortex_model_table.specs.ZoneMap.{values_at};
ghost use Rattle.vortex_arrays_model.specs.Layout.{rows_of};
ghost use Rattle.vortex_stats_select.specs.Leaves.{leaf_rows};
ghost use Rattle.vortex_stats_select.specs.Wants.{row_among};
ghost use Rattle.vortex_table_chunk.specs.Chunk.{chunk_rows};
ghost use Rattle.vortex_table_chunk.specs.Kept.{IsKeptOf, AreKeptOf};

use crate::chunk::Chunk;
use std::alloc::{AllocError, Global};
use vortex_arrays_core::array::ArrayRef;
use vortex_arrays_struct::part::part_at_positions;
use vortex_stats_bind::bound::BoundExpression;
use vortex_stats_evaluate::rows::ArrayColumns;
use vortex_stats_mask::column::Column;
use vortex_stats_select::columns::Columns;
use vortex_stats_select::leaf::Leaf;
use vortex_stats_select::leaves::shared_leaf;
use vortex_table_schema::leaves::LeafPath;

// The column at these positions, where the array can share it.
#[tactic(auto, using(vortex_arrays_struct::proofs::Parts::part_rows))]
fn kept_column(
    alloc: Global,
    array: &ArrayRef,
    positions: &[usize],
) -> Result<Option<Leaf>, AllocError>
    ensures { IfOk result
        (λ column. IsKeptOf column (values_at positions.now (rows_of array.now))) }
{
    match part_at_positions(alloc, array, positions)? {
        Some(column) => shared_leaf(&column),
        None => Ok(None),
    }
}

/// The leaf columns of an array that it can share, one or none for each of `leaves`.
pub(crate) fn kept_columns(
    alloc: Global,
    array: &ArrayRef,
    leaves: &[LeafPath],
) -> Result<Vec<Option<Leaf>>, AllocError>
    ensures { IfOk result
        (λ columns. AreKeptOf leaves.now columns.items (rows_of array.now)) }
{
    let mut columns = Vec::with_capacity(alloc, leaves.len())?;
    for (index, leaf) in leaves.iter().enumerate() {
        let column = kept_column(alloc, array, leaf.as_slice())?;
        columns.push(column)?;
    }
    Ok(columns)
}

// The index of the first leaf that isn't before these positions, in a list in their order.
fn first_behind(leaves: &[LeafPath], positions: &[usize]) -> usize {
    let mut from = 0;
    let mut to = leaves.len();
    while from < to {
        let middle = from + (to - from) / 2;
        if leaves[middle].as_slice() < positions {
            from = middle + 1;
        } else {
            to = middle;
        }
    }
    from
}

// The column that is kept with this index, if it is that of these positions.
fn kept_at<'a>(chunk: &'a Chunk, index: usize, positions: &[usize]) -> Option<&'a Leaf>
    ensures { IfSome result
        (λ leaf. leaf_rows leaf.now ≡ values_at positions.now (chunk_rows chunk.now)) }
{
    let Some(column) = chunk.columns.get(index) else {
        return None;
    };
    let Some(place) = chunk.leaves.get(index) else {
        return None;
    };
    if !place.equals(positions) {
        return None;
    }
    match column {
        Some(leaf) => Some(leaf),
        None => None,
    }
}

// In a type with no record inside, a leaf has the index of its field.
fn kept_leaf<'a>(chunk: &'a Chunk, path: &[usize]) -> Option<&'a Leaf>
    ensures { IfSome result
        (λ leaf. leaf_rows leaf.now ≡ values_at path.now (chunk_rows chunk.now)) }
{
    let Some(field) = path.first() else {
        return None;
    };
    if let Some(leaf) = kept_at(chunk, *field, path) {
        return Some(leaf);
    }
    kept_at(chunk, first_behind(&chunk.leaves, path), path)
}

fn columns_of(chunk: &Chunk) -> ArrayColumns<'_>
    ensures { map (row_among result.rows) (rows_of result.array.now)
        ≡ map (row_among 1) (chunk_rows chunk.now) }
{
    ArrayColumns {
        array: &chunk.array,
        rows: 1,
    }
}

impl Columns for Chunk {
    ghost use Rattle.std.specs.Prelude.{map};
    ghost use Rattle.vortex_stats_select.specs.Wants.{row_among};
    ghost use Rattle.vortex_table_chunk.specs.Chunk.{chunk_rows};

    ghost rows = { λ chunk. map (row_among 1) (chunk_rows chunk) };

    fn len(&self) -> usize {
        self.rows
    }

    fn column(&self, alloc: Global, path: &[usize]) -> Result<Option<ArrayRef>, AllocError> {
        columns_of(self).column(alloc, path)
    }

    #[tactic(auto, using(vortex_stats_evaluate::proofs::RowLemmas::lent))]
    fn leaf(&self, path: &[usize]) -> Option<Column<'_>> {
        match kept_leaf(self, path) {
            Some(leaf) => Some(leaf.as_column()),
            None => None,
        }
    }

    fn test_rows(
        &self,
        alloc: Global,
        predicate: &BoundExpression,
        want: bool,
    ) -> Result<Vec<bool>, AllocError> {
        columns_of(self).test_rows(alloc, predicate, want)
    }
}
