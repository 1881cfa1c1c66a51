//! The rows that have the wanted truth of a predicate, with no truth of three values for any row.
ghost use Rattle.std.specs.Prelude.{◌≡◌, map, IfOk, IfSome};
ghost use Rattle.std.specs.List.{zip};
ghost use Rattle.vortex_model_table.specs.Truth.{compared, kleene_and, end_of};
ghost use Rattle.vortex_scalar_value.specs.View.{content_at};
ghost use Rattle.vortex_stats_expr.specs.Tree.{comparison_of, is_strict};
ghost use Rattle.vortex_stats_mask.specs.Wanted.{is_wanted, joined_by};
ghost use Rattle.vortex_stats_select.specs.Asked.{seen};
ghost use Rattle.vortex_stats_select.specs.Wants.{value_at, wanted_rows};

use crate::asked::{Asked, is_late, open_behind};
use crate::columns::Columns;
use crate::compare::{compare_wanted, compare_wanted_with, join, told};
use crate::like::like_test;
use crate::narrow::{narrow, narrow_comparison};
use crate::nulls::null_test;
use crate::operand::{Operand, lent_column, literal_of, operand_of};
use std::alloc::{AllocError, Global};
use vortex_scalar_value::scalar_value::ScalarValue;
use vortex_stats_bind::bound::{BoundExpression, BoundNode};
use vortex_stats_expr::operator::Comparison;
use vortex_stats_expr::options::BetweenOptions;
use vortex_stats_mask::compare;
use vortex_stats_mask::pairs::compare_columns;
use vortex_stats_mask::turned::{swapped, wanted};

// A comparison of two expressions. A literal is read in place.
fn comparison<S: Columns>(
    alloc: Global,
    comparison: Comparison,
    want: bool,
    left: &BoundExpression,
    right: &BoundExpression,
    columns: &S,
) -> Result<Option<Vec<bool>>, AllocError>
    ensures { IfOk result (λ found. IfSome found (λ mask. mask.items
        ≡ map (λ row. is_wanted want (compared (comparison_of comparison)
        (value_at left.now row) (value_at right.now row))) (S.rows columns.now))) }
{
    if let Some(literal) = literal_of(right) {
        return literal_comparison(alloc, comparison, want, left, literal, columns);
    }
    if let Some(literal) = literal_of(left) {
        return literal_comparison(alloc, swapped(comparison), want, right, literal, columns);
    }
    operand_comparison(alloc, comparison, want, left, right, columns)
}

fn literal_comparison<S: Columns>(
    alloc: Global,
    comparison: Comparison,
    want: bool,
    input: &BoundExpression,
    literal: Option<&ScalarValue>,
    columns: &S,
) -> Result<Option<Vec<bool>>, AllocError>
    ensures { IfOk result (λ found. IfSome found (λ mask. mask.items
        ≡ map (λ row. is_wanted want (compared (comparison_of comparison)
        (value_at input.now row) (content_at literal.entry))) (S.rows columns.now))) }
{
    if let Some(column) = lent_column(input, columns) {
        return told(compare::compare_wanted(alloc, comparison, want, &column, literal));
    }
    let Some(operand) = operand_of(alloc, input, columns)? else {
        return Ok(None);
    };
    let mask = compare_wanted_with(alloc, comparison, want, &operand, literal, columns.len())?;
    Ok(Some(mask))
}

fn operand_comparison<S: Columns>(
    alloc: Global,
    comparison: Comparison,
    want: bool,
    left: &BoundExpression,
    right: &BoundExpression,
    columns: &S,
) -> Result<Option<Vec<bool>>, AllocError>
    ensures { IfOk result (λ found. IfSome found (λ mask. mask.items
        ≡ map (λ row. is_wanted want (compared (comparison_of comparison)
        (value_at left.now row) (value_at right.now row))) (S.rows columns.now))) }
{
    if let (Some(x), Some(y)) = (lent_column(left, columns), lent_column(right, columns)) {
        return told(compare_columns(alloc, wanted(comparison, want), &x, &y));
    }
    let Some(left) = operand_of(alloc, left, columns)? else {
        return Ok(None);
    };
    let Some(right) = operand_of(alloc, right, columns)? else {
        return Ok(None);
    };
    let found = compare_wanted(alloc, comparison, want, &left, &right, columns.len())?;
    Ok(found)
}

// A boolean is compared with the wanted one.
fn truth<S: Columns>(
    alloc: Global,
    want: bool,
    e: &BoundExpression,
    columns: &S,
) -> Result<Option<Vec<bool>>, AllocError>
    ensures { IfOk result (λ found. IfSome found
        (λ mask. mask.items ≡ wanted_rows want e.now (S.rows columns.now))) }
{
    if let Some(column) = lent_column(e, columns) {
        let wanted = ScalarValue::Bool(want);
        return told(compare::compare_literal(alloc, Comparison::Eq, &column, Some(&wanted)));
    }
    let Some(operand) = operand_of(alloc, e, columns)? else {
        return Ok(None);
    };
    let wanted = Operand::Value(Some(ScalarValue::Bool(want)));
    let len = columns.len();
    let found = compare_wanted(alloc, Comparison::Eq, true, &operand, &wanted, len)?;
    Ok(found)
}

// BETWEEN is AND of two comparisons. A value that isn't lent is read once between literals.
fn range_test<S: Columns>(
    alloc: Global,
    want: bool,
    value: &BoundExpression,
    lower: &BoundExpression,
    upper: &BoundExpression,
    options: BetweenOptions,
    columns: &S,
) -> Result<Option<Vec<bool>>, AllocError>
    ensures { IfOk result (λ found. IfSome found (λ mask. mask.items
        ≡ map (λ row. is_wanted want (kleene_and
        (compared (end_of (is_strict options.lower_strict)) (value_at lower.now row)
        (value_at value.now row))
        (compared (end_of (is_strict options.upper_strict)) (value_at value.now row)
        (value_at upper.now row)))) (S.rows columns.now))) }
{
    if lent_column(value, columns).is_some() {
        return operand_range(alloc, want, value, lower, upper, options, columns);
    }
    match (literal_of(lower), literal_of(upper)) {
        (Some(least), Some(greatest)) => {
            literal_range(alloc, want, value, least, greatest, options, columns)
        }
        _ => operand_range(alloc, want, value, lower, upper, options, columns),
    }
}

fn literal_range<S: Columns>(
    alloc: Global,
    want: bool,
    input: &BoundExpression,
    lower: Option<&ScalarValue>,
    upper: Option<&ScalarValue>,
    options: BetweenOptions,
    columns: &S,
) -> Result<Option<Vec<bool>>, AllocError>
    ensures { IfOk result (λ found. IfSome found (λ mask. mask.items
        ≡ map (λ row. is_wanted want (kleene_and
        (compared (end_of (is_strict options.lower_strict)) (content_at lower.entry)
        (value_at input.now row))
        (compared (end_of (is_strict options.upper_strict)) (value_at input.now row)
        (content_at upper.entry)))) (S.rows columns.now))) }
{
    let Some(operand) = operand_of(alloc, input, columns)? else {
        return Ok(None);
    };
    let len = columns.len();
    let lower_end = options.lower_strict.to_comparison();
    let turned = swapped(lower_end);
    let above = compare_wanted_with(alloc, turned, want, &operand, lower, len)?;
    let upper_end = options.upper_strict.to_comparison();
    let below = compare_wanted_with(alloc, upper_end, want, &operand, upper, len)?;
    Ok(Some(join(want, above, &below)))
}

fn operand_range<S: Columns>(
    alloc: Global,
    want: bool,
    value: &BoundExpression,
    lower: &BoundExpression,
    upper: &BoundExpression,
    options: BetweenOptions,
    columns: &S,
) -> Result<Option<Vec<bool>>, AllocError>
    ensures { IfOk result (λ found. IfSome found (λ mask. mask.items
        ≡ map (λ row. is_wanted want (kleene_and
        (compared (end_of (is_strict options.lower_strict)) (value_at lower.now row)
        (value_at value.now row))
        (compared (end_of (is_strict options.upper_strict)) (value_at value.now row)
        (value_at upper.now row)))) (S.rows columns.now))) }
{
    let above = options.lower_strict.to_comparison();
    let Some(above) = comparison(alloc, above, want, lower, value, columns)? else {
        return Ok(None);
    };
    let mut mask = above;
    let below = options.upper_strict.to_comparison();
    if narrow_comparison(&mut mask, want, below, want, value, upper, columns) {
        return Ok(Some(mask));
    }
    let Some(below) = comparison(alloc, below, want, value, upper, columns)? else {
        return Ok(None);
    };
    Ok(Some(join(want, mask, &below)))
}

// The truths of a test that is no connective and no LIKE, whatever rows are open.
fn plain_test<S: Columns>(
    alloc: Global,
    predicate: &BoundExpression,
    want: bool,
    columns: &S,
) -> Result<Option<Vec<bool>>, AllocError>
    ensures { IfOk result (λ found. IfSome found
        (λ mask. mask.items ≡ wanted_rows want predicate.now (S.rows columns.now))) }
{
    match &predicate.node {
        BoundNode::Literal(_) => truth(alloc, want, predicate, columns),
        BoundNode::Column(_) => truth(alloc, want, predicate, columns),
        BoundNode::Compare(operator, x, y) => comparison(alloc, *operator, want, x, y, columns),
        BoundNode::And(_, _) => Ok(None),
        BoundNode::Or(_, _) => Ok(None),
        BoundNode::Not(_) => Ok(None),
        BoundNode::IsNull(x) => null_test(alloc, want, x, columns),
        BoundNode::IsNotNull(x) => null_test(alloc, !want, x, columns),
        BoundNode::IsNan(_) => Ok(None),
        BoundNode::Between(x, lower, upper, options) => {
            range_test(alloc, want, x, lower, upper, *options, columns)
        }
        BoundNode::Like(_, _, _) => Ok(None),
        BoundNode::RowCount => Ok(None),
        BoundNode::Stat(_, _, _) => Ok(None),
    }
}

// Also of LIKE, in the open rows.
fn whole_test<S: Columns>(
    alloc: Global,
    predicate: &BoundExpression,
    want: bool,
    asked: Option<Asked<'_>>,
    columns: &S,
) -> Result<Option<Vec<bool>>, AllocError>
    ensures { IfOk result (λ found. IfSome found (λ mask. seen asked.entry mask.items
        ≡ seen asked.entry (wanted_rows want predicate.now (S.rows columns.now)))) }
{
    match &predicate.node {
        BoundNode::Like(x, pattern, options) => {
            like_test(alloc, want, x, pattern, *options, asked, columns)
        }
        _ => plain_test(alloc, predicate, want, columns),
    }
}

// By a look at each row where whole columns don't show it.
fn test_asked<S: Columns>(
    alloc: Global,
    predicate: &BoundExpression,
    want: bool,
    asked: Option<Asked<'_>>,
    columns: &S,
) -> Result<Vec<bool>, AllocError>
    ensures { IfOk result (λ mask. seen asked.entry mask.items
        ≡ seen asked.entry (wanted_rows want predicate.now (S.rows columns.now))) }
{
    match whole_test(alloc, predicate, want, asked, columns)? {
        Some(mask) => Ok(mask),
        None => columns.test_rows(alloc, predicate, want),
    }
}

// AND of two parts, of which the second is tested only in the rows that the first leaves open. OR
// is AND of the other truths.
#[cycle(asked)]
fn both_parts<S: Columns>(
    alloc: Global,
    join: bool,
    want: bool,
    first: &BoundExpression,
    last: &BoundExpression,
    asked: Option<Asked<'_>>,
    columns: &S,
) -> Result<Vec<bool>, AllocError>
    ensures { IfOk result (λ mask. seen asked.entry mask.items
        ≡ seen asked.entry (map (λ p. joined_by join p.0 p.1)
        (zip (wanted_rows want first.now (S.rows columns.now))
        (wanted_rows want last.now (S.rows columns.now))))) }
{
    let mask = select_asked(alloc, first, want, asked, columns)?;
    part_behind(alloc, join, want, mask, last, columns)
}

// The second part beside the mask of the first, which becomes the answer.
#[cycle(asked)]
fn part_behind<S: Columns>(
    alloc: Global,
    at: bool,
    want: bool,
    mask: Vec<bool>,
    last: &BoundExpression,
    columns: &S,
) -> Result<Vec<bool>, AllocError>
    ensures { IfOk result (λ all. all.items ≡ map (λ p. joined_by at p.0 p.1)
        (zip mask.items (wanted_rows want last.now (S.rows columns.now)))) }
{
    let mut mask = mask;
    if narrow(&mut mask, at, last, want, columns) {
        return Ok(mask);
    }
    let asked = open_behind(at, &mask);
    let rows = select_asked(alloc, last, want, Some(asked), columns)?;
    Ok(join(at, mask, &rows))
}

// As `select`, of the rows that are open. Its answer for the others means nothing.
#[cycle(asked)]
fn select_asked<S: Columns>(
    alloc: Global,
    predicate: &BoundExpression,
    want: bool,
    asked: Option<Asked<'_>>,
    columns: &S,
) -> Result<Vec<bool>, AllocError>
    ensures { IfOk result (λ mask. seen asked.entry mask.items
        ≡ seen asked.entry (wanted_rows want predicate.now (S.rows columns.now))) }
{
    match &predicate.node {
        BoundNode::And(x, y) => {
            if is_late(x) {
                both_parts(alloc, want, want, y, x, asked, columns)
            } else {
                both_parts(alloc, want, want, x, y, asked, columns)
            }
        }
        BoundNode::Or(x, y) => {
            if is_late(x) {
                both_parts(alloc, !want, want, y, x, asked, columns)
            } else {
                both_parts(alloc, !want, want, x, y, asked, columns)
            }
        }
        BoundNode::Not(x) => select_asked(alloc, x, !want, asked, columns),
        _ => test_asked(alloc, predicate, want, asked, columns),
    }
}

/// For each row, whether the predicate has the wanted truth there: is true, or is false. Null is
/// neither. Whole columns are compared, and rows are read one by one for those parts of the
/// predicate alone for which that isn't possible.
pub fn select<S: Columns>(
    alloc: Global,
    predicate: &BoundExpression,
    want: bool,
    columns: &S,
) -> Result<Vec<bool>, AllocError>
    ensures { IfOk result
        (λ mask. mask.items ≡ wanted_rows want predicate.now (S.rows columns.now)) }
{
    select_asked(alloc, predicate, want, None, columns)
}
