//! Rows of arrays.
ghost use Rattle.std.specs.Prelude.{◌≡◌, ◌<◌, ◌++◌, All, OnOk, map};
ghost use Rattle.vortex_arrays_model.specs.Layout.{content_at, len_of};
ghost use Rattle.vortex_table_schema.specs.Cut.{content_cut, tree_of};
ghost use Rattle.vortex_table_response.specs.Text.{rows_text};

use crate::cut::push_cut;
use std::alloc::{AllocError, Global};
use vortex_arrays_core::array::ArrayRef;
use vortex_table_response::type_texts::push_comma;
use vortex_table_schema::projection::Projection;

/// Writes what is kept of each of these rows, with commas between, and one in front where rows
/// are there already. An `Err` leaves the buffer with no promise.
pub(crate) fn push_rows(
    alloc: Global,
    out: &mut Vec<u8>,
    later: bool,
    projection: &Projection,
    array: &ArrayRef,
    rows: &[usize],
) -> Result<(), AllocError>
    requires { All (λ i. i < len_of array.now) rows.now }
    ensures { OnOk result (out.new.items ≡ out.old.items ++ rows_text later
        (map (content_cut (tree_of projection.now)) (map (content_at array.now) rows.now))) }
{
    let mut later = later;
    for row in rows {
        push_comma(out, later)?;
        push_cut(alloc, out, array, projection, *row)?;
        later = true;
    }
    Ok(())
}
