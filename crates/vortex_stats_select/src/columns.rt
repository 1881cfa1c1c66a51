//! Rows that are read by their columns.
ghost use Rattle.std.specs.Prelude.{◌≡◌, List, length, IfOk, IfSome};
ghost use Rattle.vortex_arrays_model.specs.Layout.{rows_of};
ghost use Rattle.vortex_stats_bind.specs.Bound.{Provided};
ghost use Rattle.vortex_stats_mask.specs.Columns.{column_of};
ghost use Rattle.vortex_stats_select.specs.Wants.{values_in, wanted_rows};

use std::alloc::{AllocError, Global};
use vortex_arrays_core::array::ArrayRef;
use vortex_stats_bind::bound::BoundExpression;
use vortex_stats_mask::column::Column;

/// Rows that are read by their columns.
pub trait Columns {
    ghost rows: { Self → List Provided };

    /// How many rows there are.
    fn len(&self) -> usize
        ensures { result ≡ length (rows self.now) };

    /// The column at these positions, each the index of a field in the record before it. `None`
    /// promises nothing.
    fn column(&self, alloc: Global, path: &[usize]) -> Result<Option<ArrayRef>, AllocError>
        ensures { IfOk result (λ found. IfSome found
            (λ column. rows_of column ≡ values_in path.now (rows self.now))) };

    /// The leaf column at these positions, where it can be lent. `None` promises nothing.
    fn leaf(&self, path: &[usize]) -> Option<Column<'_>>
        ensures { IfSome result
            (λ column. column_of column ≡ values_in path.now (rows self.now)) };

    /// As `select`, by a look at each row.
    fn test_rows(
        &self,
        alloc: Global,
        predicate: &BoundExpression,
        want: bool,
    ) -> Result<Vec<bool>, AllocError>
        ensures { IfOk result
            (λ mask. mask.items ≡ wanted_rows want predicate.now (rows self.now)) };
}
