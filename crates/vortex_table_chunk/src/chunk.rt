//! Chunks of rows with statistics of their leaf columns.
ghost use Rattle.std.specs.Prelude.{◌≡◌, length, IfOk, IsTrue, option_map};
ghost use Rattle.std.proofs.Math.Logic.{∥∥₁_prop};
ghost use Rattle.vortex_arrays_model.specs.Layout.{array_type_of, len_of, rows_of, IsSound};
ghost use Rattle.vortex_table_schema.specs.Leaves.{leaf_positions};
ghost use Rattle.vortex_table_chunk.specs.Rows.{are_rows_valid};
ghost use Rattle.vortex_table_chunk.specs.Bounds.{AreBoundsOf, AreBoundsOf-prop, are_typed_at};
ghost use Rattle.vortex_table_chunk.specs.BoundStat.{bounds_at};
ghost use Rattle.vortex_table_chunk.specs.Kept.{AreKeptOf, AreKeptOf-prop};

use crate::bounds::all_bounds;
use crate::kept::kept_columns;
use std::alloc::{AllocError, Global};
use std::rc::Rc;
use vortex_arrays_core::array::ArrayRef;
use vortex_model::laws::tests_of_validity_are_right;
use vortex_stats_array::array_stats::ArrayStats;
use vortex_stats_select::leaf::Leaf;
use vortex_table_schema::leaves::LeafPath;

/// The rows of one append as an array of records, with statistics of their leaf columns, which stay
/// as they are.
#[derive(Drop)]
pub struct Chunk {
    /// The rows.
    pub array: ArrayRef,
    /// The paths of the leaf columns, which the chunks of a table share.
    pub leaves: Rc<Vec<LeafPath>>,
    /// The greatest number of bytes of a bound that is a string or bytes, of each leaf column in
    /// the order of `leaves`.
    pub lengths: Rc<Vec<usize>>,
    /// The statistics of each leaf column, in the order of `leaves`.
    pub bounds: Vec<ArrayStats>,
    /// Leaf columns that share their items with the array, in the order of `leaves`. One that is
    /// `None` or missing is found in the array.
    pub columns: Vec<Option<Leaf>>,
    /// How many rows there are.
    pub rows: usize,
    pub ghost sound: { ∥ IsSound array ∥₁ } by { ∥∥₁_prop },
    pub ghost typed: { IsTrue (are_rows_valid array) },
    pub ghost honest: { AreBoundsOf (array_type_of array) lengths.value.items leaves.value.items
        bounds.items (rows_of array) } by { AreBoundsOf-prop (array_type_of array)
            lengths.value.items leaves.value.items bounds.items (rows_of array) },
    pub ghost kept: { AreKeptOf leaves.value.items columns.items
        (rows_of array) } by { AreKeptOf-prop leaves.value.items columns.items (rows_of array) },
    pub ghost counted: { rows ≡ len_of array },
}

/// The chunk of these rows, with statistics and columns that are theirs.
#[tactic(auto, using(crate::proofs::TypedRows::passed))]
pub(crate) fn with_bounds(
    leaves: &Rc<Vec<LeafPath>>,
    lengths: &Rc<Vec<usize>>,
    array: ArrayRef,
    bounds: Vec<ArrayStats>,
    columns: Vec<Option<Leaf>>,
) -> Result<Chunk, AllocError>
    requires bounds { AreBoundsOf (array_type_of array) lengths.now.value.items
        leaves.now.value.items bounds.items (rows_of array) }
    requires columns { AreKeptOf leaves.now.value.items columns.items (rows_of array) }
    ensures array { IfOk result (λ chunk. chunk.array ≡ array) }
    ensures leaves { IfOk result (λ chunk. chunk.leaves.value.items ≡ leaves.now.value.items) }
    ensures lengths { IfOk result (λ chunk. chunk.lengths.value.items ≡ lengths.now.value.items) }
    ensures bounds { IfOk result (λ chunk. chunk.bounds.items ≡ bounds.items) }
{
    let leaves = leaves.clone()?;
    let lengths = lengths.clone()?;
    // Both show the prover that the rows are of the array's type.
    let rows = array.len();
    tests_of_validity_are_right();
    Ok(Chunk {
        array,
        leaves,
        lengths,
        bounds,
        columns,
        rows,
    })
}

/// A chunk of these rows, whose type has these leaf columns. A bound that is a string or bytes is
/// shortened to the number of bytes that `lengths` has for its leaf column.
pub fn new_chunk(
    alloc: Global,
    leaves: &Rc<Vec<LeafPath>>,
    lengths: &Rc<Vec<usize>>,
    array: ArrayRef,
) -> Result<Chunk, AllocError>
    requires lengths { length lengths.now.value.items ≡ length leaves.now.value.items }
    requires leaves { leaves.now.value.items ≡ leaf_positions (array_type_of array) }
    ensures array { IfOk result (λ chunk. chunk.array ≡ array) }
    ensures leaves { IfOk result (λ chunk. chunk.leaves.value.items ≡ leaves.now.value.items) }
    ensures lengths { IfOk result (λ chunk. chunk.lengths.value.items ≡ lengths.now.value.items) }
    ensures types { IfOk result (λ chunk. IsTrue
        (are_typed_at (array_type_of array) chunk.leaves.value.items chunk.bounds.items)) }
{
    let bounds = all_bounds(alloc, &array, leaves, lengths)?;
    let columns = kept_columns(alloc, &array, leaves)?;
    let chunk = with_bounds(leaves, lengths, array, bounds, columns)?;
    Ok(chunk)
}

impl Clone for Chunk {
    ghost use Rattle.vortex_table_chunk.specs.Cloned.{IsCloneOf};

    ghost is_clone = { IsCloneOf };

    // The array is shared, and the columns that it can share are found in it again.
    fn clone(&self) -> Result<Chunk, AllocError> {
        let array = self.array.clone()?;
        let bounds = self.bounds.clone()?;
        let columns = kept_columns(*self.bounds.allocator(), &array, &self.leaves)?;
        let chunk = with_bounds(&self.leaves, &self.lengths, array, bounds, columns)?;
        Ok(chunk)
    }
}

/// The statistics of the column at this path, and `None` where it is no leaf column. `bounds` has
/// one element for each of `leaves`.
pub fn bounds_at<'a>(
    leaves: &[LeafPath],
    bounds: &'a [ArrayStats],
    positions: &[usize],
) -> Option<&'a ArrayStats>
    ensures { option_map (λ found. found.now) result
        ≡ bounds_at leaves.now bounds.now positions.now }
{
    for (index, leaf) in leaves.iter().enumerate() {
        if leaf.equals(positions) {
            return bounds.get(index);
        }
    }
    None
}
