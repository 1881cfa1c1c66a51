//! The rows of a chunk that a scan answers, by their positions.
ghost use Rattle.std.specs.Prelude.{◌≡◌, ◌<◌, ◌≤◌, ◌++◌, All, IfOk, OnOk, length, map, take};
ghost use Rattle.std.specs.List.{range_with_len};
ghost use Rattle.vortex_arrays_buffer.specs.Bits.{positions_of};
ghost use Rattle.vortex_arrays_model.specs.Layout.{len_of, array_type_of, content_at, rows_of};
ghost use Rattle.vortex_stats_select.specs.Wants.{row_among};
ghost use Rattle.vortex_table_select.specs.Selected.{selected_rows, rows_in, AreOfType};

use crate::selection::Selection;
use std::alloc::{AllocError, Global};
use vortex_arrays_core::array::ArrayRef;
use vortex_stats_bind::bound::BoundExpression;
use vortex_stats_select::columns::Columns;
use vortex_stats_select::select::select;

/// Adds every row of the array.
pub fn take_rows(
    alloc: Global,
    array: &ArrayRef,
    found: &mut Vec<Selection>,
) -> Result<(), AllocError>
    requires typed { AreOfType (array_type_of array.now) found.old.items }
    ensures rows { OnOk result
        (rows_in found.new.items ≡ rows_in found.old.items ++ rows_of array.now) }
    ensures typed { OnOk result (AreOfType (array_type_of array.now) found.new.items) }
{
    let rows = all_positions(alloc, array.len())?;
    push_selection(array, rows, found)
}

/// Adds each row of the array that the predicate selects. `columns` are those of the array.
#[tactic(auto, using(crate::proofs::Taken::masked))]
pub fn select_rows<S: Columns>(
    alloc: Global,
    predicate: &BoundExpression,
    array: &ArrayRef,
    columns: &S,
    found: &mut Vec<Selection>,
) -> Result<(), AllocError>
    requires columns { S.rows columns.now ≡ map (row_among 1) (rows_of array.now) }
    requires typed { AreOfType (array_type_of array.now) found.old.items }
    ensures rows { OnOk result (rows_in found.new.items
        ≡ rows_in found.old.items ++ selected_rows predicate.now (rows_of array.now)) }
    ensures typed { OnOk result (AreOfType (array_type_of array.now) found.new.items) }
{
    let mask = select(alloc, predicate, true, columns)?;
    let rows = true_positions(alloc, &mask)?;
    if rows.is_empty() {
        return Ok(());
    }
    push_selection(array, rows, found)
}

// Adds the rows at the positions.
fn push_selection(
    array: &ArrayRef,
    rows: Vec<usize>,
    found: &mut Vec<Selection>,
) -> Result<(), AllocError>
    requires within { All (λ i. i < len_of array.now) rows.items }
    requires typed { AreOfType (array_type_of array.now) found.old.items }
    ensures rows { OnOk result (rows_in found.new.items
        ≡ rows_in found.old.items ++ map (content_at array.now) rows.items) }
    ensures typed { OnOk result (AreOfType (array_type_of array.now) found.new.items) }
{
    let array = array.clone()?;
    found.push(Selection { array, rows })?;
    Ok(())
}

// The positions of `len` rows.
#[tactic(auto, using(crate::proofs::Taken::all_rows))]
fn all_positions(alloc: Global, len: usize) -> Result<Vec<usize>, AllocError>
    ensures { IfOk result (λ rows. rows.items ≡ range_with_len 0 len) }
{
    let mut rows = Vec::with_capacity(alloc, len)?;
    for i in 0..len {
        rows.push(i)?;
    }
    Ok(rows)
}

// The positions where the mask is true, ascending.
fn true_positions(alloc: Global, mask: &[bool]) -> Result<Vec<usize>, AllocError>
    ensures { IfOk result (λ rows. rows.items ≡ positions_of mask.now) }
{
    let mut rows = Vec::new(alloc);
    let blocks = mask.len() / 64;
    for k in 0..blocks {
        push_block(&mut rows, mask, 64 * k, 64 * k + 64)?;
    }
    push_true(&mut rows, mask, 64 * blocks, mask.len())?;
    Ok(rows)
}

// Adds where the mask is true in a block of rows. Most blocks have no such row, which is seen of
// all their rows at once.
fn push_block(
    rows: &mut Vec<usize>,
    mask: &[bool],
    from: usize,
    to: usize,
) -> Result<(), AllocError>
    requires order { from ≤ to }
    requires within { to ≤ length mask.now }
    requires before { rows.old.items ≡ positions_of (take from mask.now) }
    ensures { OnOk result (rows.new.items ≡ positions_of (take to mask.now)) }
{
    if mask[from..to].contains(&true) {
        push_true(rows, mask, from, to)?;
    }
    Ok(())
}

// Adds where the mask is true among the rows from one to another.
#[tactic(auto, using(crate::proofs::Places::placed))]
fn push_true(rows: &mut Vec<usize>, mask: &[bool], from: usize, to: usize) -> Result<(), AllocError>
    requires order { from ≤ to }
    requires within { to ≤ length mask.now }
    requires before { rows.old.items ≡ positions_of (take from mask.now) }
    ensures { OnOk result (rows.new.items ≡ positions_of (take to mask.now)) }
{
    for i in from..to {
        if mask[i] {
            rows.push(i)?;
        }
    }
    Ok(())
}
