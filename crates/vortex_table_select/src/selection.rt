//! The rows that a scan selects, by their positions.
ghost use Rattle.std.specs.Prelude.{◌≡◌, ◌<◌, map, All, IfOk};
ghost use Rattle.std.specs.Coded.{le_prop};
ghost use Rattle.vortex_arrays_model.specs.Layout.{len_of};
ghost use Rattle.vortex_table_schema.specs.Cut.{tree_of, part_of_field};

use std::alloc::AllocError;
use vortex_arrays_core::array::ArrayRef;
use vortex_table_schema::cut::RowProjection;
use vortex_table_schema::projection::{ProjectedField, Projection};

/// Rows of an array: their positions, in the order in which they are answered.
#[derive(Drop)]
pub struct Selection {
    /// The array, shared with the chunk whose rows it holds.
    pub array: ArrayRef,
    /// The positions.
    pub rows: Vec<usize>,
    pub ghost within: { All (λ i. i < len_of array) rows.items } by { λ p q j k d l.
        le_prop (p k d l) (q k d l) j },
}

impl Clone for Selection {
    ghost use Rattle.vortex_table_select.specs.Cloned.{IsSameSelection};

    ghost is_clone = { IsSameSelection };

    // The array is shared.
    fn clone(&self) -> Result<Selection, AllocError> {
        let array = self.array.clone()?;
        let rows = self.rows.clone()?;
        Ok(Selection { array, rows })
    }
}

/// What a scan found before any row is read: which rows of which arrays it selected, in order, and
/// the counts of an answer, as in `ScanAnswer`.
#[derive(Drop)]
pub struct ScanSelection {
    pub selections: Vec<Selection>,
    pub skipped: Vec<usize>,
    pub whole: Vec<usize>,
    pub rows_tested: u64,
    pub proofs: u64,
}

impl Clone for ScanSelection {
    ghost use Rattle.vortex_table_select.specs.Cloned.{AreSameRows};

    ghost is_clone = { AreSameRows };

    fn clone(&self) -> Result<ScanSelection, AllocError> {
        let selections = self.selections.clone()?;
        let skipped = self.skipped.clone()?;
        let whole = self.whole.clone()?;
        Ok(ScanSelection {
            selections,
            skipped,
            whole,
            rows_tested: self.rows_tested,
            proofs: self.proofs,
        })
    }
}

/// The answer of a scan whose rows are not read yet. They stay as they were at the scan, whatever
/// becomes of the table, since arrays don't change.
#[derive(Drop)]
pub struct LazyAnswer {
    /// The part of the rows that is answered, and its type.
    pub cut: RowProjection,
    /// Which rows are answered.
    pub selection: ScanSelection,
}

impl LazyAnswer {
    ghost use Rattle.std.specs.Prelude.{IfOk};
    ghost use Rattle.vortex_table_select.specs.Cloned.{IsSameAnswer};

    /// The answer once more. The arrays are shared.
    pub fn clone(&self) -> Result<LazyAnswer, AllocError>
        ensures { IfOk result (λ new. IsSameAnswer self.now new) }
    {
        let dtype = self.cut.dtype.clone()?;
        let projection = copy_of(&self.cut.projection)?;
        let selection = self.selection.clone()?;
        Ok(LazyAnswer {
            cut: RowProjection { dtype, projection },
            selection,
        })
    }
}

#[cycle(copy)]
fn copy_of(projection: &Projection) -> Result<Projection, AllocError>
    ensures { IfOk result (λ copy. tree_of copy ≡ tree_of projection.now) }
{
    match projection {
        Projection::Whole => Ok(Projection::Whole),
        Projection::Fields(fields) => {
            let copy = copy_fields(fields)?;
            Ok(Projection::Fields(copy))
        }
    }
}

#[cycle(copy)]
fn copy_fields(fields: &Vec<ProjectedField>) -> Result<Vec<ProjectedField>, AllocError>
    ensures { IfOk result
        (λ copy. map part_of_field copy.items ≡ map part_of_field fields.now.items) }
{
    let mut copy = Vec::with_capacity(*fields.allocator(), fields.len())?;
    for field in fields {
        let projection = copy_of(&field.projection)?;
        copy.push(ProjectedField {
            position: field.position,
            projection,
        })?;
    }
    Ok(copy)
}
