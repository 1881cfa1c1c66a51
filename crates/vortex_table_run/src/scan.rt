//! The answer of a scan as a string.
ghost use Rattle.std.specs.Prelude.{◌≡◌, ◌++◌, OnOk, false, map};
ghost use Rattle.vortex_table_schema.specs.Cut.{tree_of, content_cut};
ghost use Rattle.vortex_table_select.specs.Selected.{rows_in, answer_in};
ghost use Rattle.vortex_table_response.specs.Text.{rows_text, scan_text};
ghost use Rattle.vortex_table_run.specs.Order.{is_later};

use crate::rows::push_rows;
use std::alloc::{AllocError, Global};
use vortex_table_response::{push_scan_end, push_scan_front};
use vortex_table_schema::projection::Projection;
use vortex_table_select::selection::{LazyAnswer, Selection};

// Whether something is in front of what follows the rows.
fn is_later(later: bool, rows: &[usize]) -> bool
    ensures { result ≡ is_later later rows.now }
{
    later || !rows.is_empty()
}

// Writes what is kept of the selected rows, with commas between.
fn push_selections(
    alloc: Global,
    out: &mut Vec<u8>,
    projection: &Projection,
    selections: &[Selection],
) -> Result<(), AllocError>
    ensures { OnOk result (out.new.items ≡ out.old.items ++ rows_text false
        (map (content_cut (tree_of projection.now)) (rows_in selections.now))) }
{
    let mut later = false;
    for selection in selections {
        push_rows(
            alloc,
            out,
            later,
            projection,
            &selection.array,
            &selection.rows,
        )?;
        later = is_later(later, &selection.rows);
    }
    Ok(())
}

/// Writes the answer of a scan. An `Err` leaves the buffer with no promise.
pub fn push_scan(alloc: Global, out: &mut Vec<u8>, answer: &LazyAnswer) -> Result<(), AllocError>
    ensures { OnOk result (out.new.items ≡ out.old.items ++ scan_text (answer_in answer.now)) }
{
    let found = &answer.selection;
    push_scan_front(out, &answer.cut.dtype, found.proofs)?;
    push_selections(alloc, out, &answer.cut.projection, &found.selections)?;
    push_scan_end(out, found.rows_tested, &found.skipped, &found.whole)?;
    Ok(())
}
