//! Comparisons of operands, row by row.
ghost use Rattle.std.specs.Prelude.{◌≡◌, Bool, List, length, map, replicate, IfOk, IfSome};
ghost use Rattle.std.specs.List.{zip};
ghost use Rattle.vortex_model_table.specs.Truth.{compared, is_true};
ghost use Rattle.vortex_scalar_value.specs.View.{content_at};
ghost use Rattle.vortex_stats_expr.specs.Tree.{comparison_of};
ghost use Rattle.vortex_stats_mask.specs.Wanted.{is_wanted, joined_by, negated, swapped};
ghost use Rattle.vortex_stats_select.specs.Coded.{value_of_code};
ghost use Rattle.vortex_stats_select.specs.Leaves.{leaf_rows};
ghost use Rattle.vortex_stats_select.specs.Operands.{operand_rows};

use crate::leaf::Leaf;
use crate::operand::Operand;
use crate::spread::spread;
use std::alloc::{AllocError, Global};
use vortex_scalar_value::scalar_value::ScalarValue;
use vortex_stats_bind::value::{compare_values, read};
use vortex_stats_expr::operator::Comparison;
use vortex_stats_mask::compare::compare_literal;
use vortex_stats_mask::masks::{both_into, either_into};
use vortex_stats_mask::pairs::compare_columns;
use vortex_stats_mask::turned::{swapped, wanted};

fn compare_constants(
    alloc: Global,
    comparison: Comparison,
    left: Option<&ScalarValue>,
    right: Option<&ScalarValue>,
    len: usize,
) -> Result<Vec<bool>, AllocError>
    ensures { IfOk result (λ mask. mask.items ≡ replicate len
        (is_true (compared (comparison_of comparison) (content_at left.entry)
        (content_at right.entry)))) }
{
    let truth = compare_values(comparison, read(left), read(right));
    Ok(vec![in alloc; truth.unwrap_or(false); len]?)
}

// The rows of a dictionary that compare so to a value: each of its values is compared once.
fn compare_coded(
    alloc: Global,
    comparison: Comparison,
    codes: &Leaf,
    values: &Leaf,
    literal: Option<&ScalarValue>,
) -> Result<Vec<bool>, AllocError>
    ensures { IfOk result (λ mask. mask.items
        ≡ map (λ c. is_true (compared (comparison_of comparison) c (content_at literal.entry)))
        (map (value_of_code (leaf_rows values.now)) (leaf_rows codes.now))) }
{
    let mask = compare_literal(alloc, comparison, &values.as_column(), literal)?;
    spread(alloc, &mask, &codes.as_column())
}

// The rows of an operand that compare so to a literal.
fn compare_operand(
    alloc: Global,
    comparison: Comparison,
    operand: &Operand,
    literal: Option<&ScalarValue>,
    len: usize,
) -> Result<Vec<bool>, AllocError>
    ensures { IfOk result (λ mask. mask.items
        ≡ map (λ c. is_true (compared (comparison_of comparison) c (content_at literal.entry)))
        (operand_rows operand.now len)) }
{
    match operand {
        Operand::Column(x) => compare_literal(alloc, comparison, &x.as_column(), literal),
        Operand::Value(x) => compare_constants(alloc, comparison, x.as_ref(), literal, len),
        Operand::Dictionary(codes, values) => {
            compare_coded(alloc, comparison, codes, values, literal)
        }
    }
}

// The rows where the comparison of an operand with a literal has the wanted truth.
pub(crate) fn compare_wanted_with(
    alloc: Global,
    comparison: Comparison,
    want: bool,
    operand: &Operand,
    literal: Option<&ScalarValue>,
    len: usize,
) -> Result<Vec<bool>, AllocError>
    ensures { IfOk result (λ mask. mask.items ≡ map
        (λ c. is_wanted want (compared (comparison_of comparison) c (content_at literal.entry)))
        (operand_rows operand.now len)) }
{
    compare_operand(alloc, wanted(comparison, want), operand, literal, len)
}

// A mask as an answer that is there.
pub(crate) fn told(mask: Result<Vec<bool>, AllocError>) -> Result<Option<Vec<bool>>, AllocError>
    ensures { (rows : List Bool) → IfOk mask (λ mask. mask.items ≡ rows)
        → IfOk result (λ found. IfSome found (λ mask. mask.items ≡ rows)) }
{
    match mask {
        Ok(mask) => Ok(Some(mask)),
        Err(e) => Err(e),
    }
}

// The rows where the two compare so. `None` of a dictionary beside a column.
fn compare_operands(
    alloc: Global,
    comparison: Comparison,
    left: &Operand,
    right: &Operand,
    len: usize,
) -> Result<Option<Vec<bool>>, AllocError>
    requires left { length (operand_rows left.now len) ≡ len }
    requires right { length (operand_rows right.now len) ≡ len }
    ensures { IfOk result (λ found. IfSome found (λ mask. mask.items
        ≡ map (λ p. is_true (compared (comparison_of comparison) p.0 p.1))
        (zip (operand_rows left.now len) (operand_rows right.now len)))) }
{
    match (left, right) {
        (Operand::Column(x), Operand::Column(y)) => {
            told(compare_columns(alloc, comparison, &x.as_column(), &y.as_column()))
        }
        (Operand::Column(x), Operand::Value(y)) => {
            told(compare_literal(alloc, comparison, &x.as_column(), y.as_ref()))
        }
        (Operand::Value(x), Operand::Column(y)) => {
            told(compare_literal(alloc, swapped(comparison), &y.as_column(), x.as_ref()))
        }
        (Operand::Value(x), Operand::Value(y)) => {
            told(compare_constants(alloc, comparison, x.as_ref(), y.as_ref(), len))
        }
        (Operand::Dictionary(codes, values), Operand::Value(y)) => {
            told(compare_coded(alloc, comparison, codes, values, y.as_ref()))
        }
        (Operand::Value(x), Operand::Dictionary(codes, values)) => {
            told(compare_coded(alloc, swapped(comparison), codes, values, x.as_ref()))
        }
        (Operand::Dictionary(_, _), Operand::Column(_)) => Ok(None),
        (Operand::Dictionary(_, _), Operand::Dictionary(_, _)) => Ok(None),
        (Operand::Column(_), Operand::Dictionary(_, _)) => Ok(None),
    }
}

// The rows where the comparison of the two has the wanted truth. `None` where rows are to be read.
pub(crate) fn compare_wanted(
    alloc: Global,
    comparison: Comparison,
    want: bool,
    left: &Operand,
    right: &Operand,
    len: usize,
) -> Result<Option<Vec<bool>>, AllocError>
    requires left { length (operand_rows left.now len) ≡ len }
    requires right { length (operand_rows right.now len) ≡ len }
    ensures { IfOk result (λ found. IfSome found (λ mask. mask.items
        ≡ map (λ p. is_wanted want (compared (comparison_of comparison) p.0 p.1))
        (zip (operand_rows left.now len) (operand_rows right.now len)))) }
{
    compare_operands(alloc, wanted(comparison, want), left, right, len)
}

// The rows where AND has the wanted truth, by the two masks of its parts. OR is AND of the other
// truths. The mask of the left part becomes the answer.
pub(crate) fn join(want: bool, left: Vec<bool>, right: &[bool]) -> Vec<bool>
    ensures { result.items ≡ map (λ p. joined_by want p.0 p.1) (zip left.items right.now) }
{
    if want {
        both_into(left, right)
    } else {
        either_into(left, right)
    }
}
