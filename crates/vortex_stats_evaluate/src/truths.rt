//! Truths of bound expressions without placeholders.
ghost use Rattle.std.specs.Prelude.{◌≡◌, map, IfOk};
ghost use Rattle.std.specs.List.{zip};
ghost use Rattle.vortex_model.specs.Content.{null};
ghost use Rattle.vortex_arrays_model.specs.Layout.{rows_of};
ghost use Rattle.vortex_stats_bind.specs.Bound.{evaluate_bound};
ghost use Rattle.vortex_stats_bind.specs.OperandValue.{boolean_in};
ghost use Rattle.vortex_stats_select.specs.Wants.{row_among};
ghost use Rattle.vortex_stats_evaluate.specs.Truths.{truth_by};

use crate::rows::{ArrayColumns, Row};
use std::alloc::{AllocError, Global};
use vortex_arrays_core::array::ArrayRef;
use vortex_stats_bind::bound::{BoundExpression, value_of};
use vortex_stats_bind::value::truth_of;
use vortex_stats_select::select::select;

/// The truth of an expression without placeholders over `rows` rows about which nothing is known,
/// where `None` is null.
pub(crate) fn truth_over(e: &BoundExpression, rows: u64) -> Option<bool>
    ensures { result ≡ boolean_in (evaluate_bound (row_among rows null) e.now) }
{
    let nothing = Row { value: None, rows };
    truth_of(value_of(e, &nothing))
}

/// The truth of an expression without placeholders at each row of an array, where `None` is null.
/// The array is a part of `rows` rows.
pub(crate) fn truths_of(
    alloc: Global,
    e: &BoundExpression,
    array: &ArrayRef,
    rows: u64,
) -> Result<Vec<Option<bool>>, AllocError>
    ensures { IfOk result (λ truths. truths.items
        ≡ map (λ row. boolean_in (evaluate_bound (row_among rows row) e.now)) (rows_of array.now)) }
{
    let columns = ArrayColumns { array, rows };
    let yes = select(alloc, e, true, &columns)?;
    let no = select(alloc, e, false, &columns)?;
    pair_masks(alloc, &yes, &no)
}

// The truths, by a mask of those that are true and one of those that are false.
fn pair_masks(alloc: Global, yes: &[bool], no: &[bool]) -> Result<Vec<Option<bool>>, AllocError>
    ensures { IfOk result (λ truths. truths.items
        ≡ map (λ p. truth_by p.0 p.1) (zip yes.now no.now)) }
{
    yes.iter()
        .zip(no.iter())
        .map(|(yes, no)| truth(*yes, *no))
        .collect(alloc)
}

fn truth(yes: bool, no: bool) -> Option<bool>
    ensures { result ≡ truth_by yes no }
{
    if yes {
        Some(true)
    } else if no {
        Some(false)
    } else {
        None
    }
}
