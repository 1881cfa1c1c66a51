//! Answers as JSON.
ghost use Rattle.std.specs.Prelude.{◌≡◌, ◌++◌, OnOk, false, map};
ghost use Rattle.vortex_scalar_core.specs.Scalar.{scalar_type, scalar_content};
ghost use Rattle.vortex_table_schema.specs.Answer.{answer_of};
ghost use Rattle.vortex_table_response.specs.Text.{rows_text, scan_text};
ghost use Rattle.vortex_table_text.specs.Types.{all_have_texts};
ghost use Rattle.vortex_table_text.specs.Answers.{answer_has_text, selection_type, lazy_answer_has_text};

use crate::types::has_text;
use std::alloc::AllocError;
use vortex_scalar_core::scalar::Scalar;
use vortex_table_response::type_texts::push_comma;
use vortex_table_response::{push_cell, push_scan_end, push_scan_front};
use vortex_table_schema::answer::ScanAnswer;
use vortex_table_select::selection::{LazyAnswer, Selection};

// Writes the rows with commas between.
fn push_rows(out: &mut Vec<u8>, rows: &[Scalar]) -> Result<(), AllocError>
    ensures { OnOk result (out.new.items ≡ out.old.items
        ++ rows_text false (map scalar_content rows.now)) }
{
    let mut later = false;
    for row in rows {
        push_comma(out, later)?;
        push_cell(out, row.value())?;
        later = true;
    }
    Ok(())
}

/// Writes an answer whose rows are values.
pub(crate) fn push_answer(out: &mut Vec<u8>, answer: &ScanAnswer) -> Result<(), AllocError>
    ensures { OnOk result (out.new.items ≡ out.old.items ++ scan_text (answer_of answer.now)) }
{
    push_scan_front(out, &answer.dtype, answer.proofs)?;
    push_rows(out, &answer.rows)?;
    push_scan_end(out, answer.rows_tested, &answer.skipped, &answer.whole)?;
    Ok(())
}

// Whether the type of each row has JSON text.
fn all_have_texts(rows: &[Scalar]) -> bool
    ensures { result ≡ all_have_texts (map scalar_type rows.now) }
{
    for row in rows {
        if !has_text(row.dtype()) {
            return false;
        }
    }
    true
}

// Whether the type of each array has JSON text.
fn selections_have_texts(selections: &[Selection]) -> bool
    ensures { result ≡ all_have_texts (map selection_type selections.now) }
{
    for selection in selections {
        if !has_text(selection.array.dtype()) {
            return false;
        }
    }
    true
}

/// Whether the types of the answer and of its rows have JSON text.
pub(crate) fn answer_has_text(answer: &ScanAnswer) -> bool
    ensures { result ≡ answer_has_text answer.now }
{
    has_text(&answer.dtype) && all_have_texts(&answer.rows)
}

/// Whether the types of the answer and of the arrays of its rows have JSON text.
pub(crate) fn lazy_answer_has_text(answer: &LazyAnswer) -> bool
    ensures { result ≡ lazy_answer_has_text answer.now }
{
    has_text(&answer.cut.dtype) && selections_have_texts(&answer.selection.selections)
}
