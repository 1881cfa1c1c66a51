//! Masks narrowed in place, by tests of lent columns beside literals.
ghost use Rattle.std.specs.Prelude.{◌≡◌, map, cond};
ghost use Rattle.std.specs.List.{zip};
ghost use Rattle.vortex_model_table.specs.Truth.{compared};
ghost use Rattle.vortex_scalar_value.specs.View.{content_at};
ghost use Rattle.vortex_stats_expr.specs.Tree.{comparison_of};
ghost use Rattle.vortex_stats_mask.specs.Wanted.{is_wanted, joined_by};
ghost use Rattle.vortex_stats_select.specs.Wants.{value_at, wanted_rows};

use crate::columns::Columns;
use crate::operand::{lent_column, literal_of};
use vortex_scalar_value::scalar_value::ScalarValue;
use vortex_stats_bind::bound::{BoundExpression, BoundNode};
use vortex_stats_expr::operator::Comparison;
use vortex_stats_mask::narrow::narrow_wanted;
use vortex_stats_mask::turned::swapped;

fn narrow_beside<S: Columns>(
    mask: &mut Vec<bool>,
    at: bool,
    comparison: Comparison,
    want: bool,
    input: &BoundExpression,
    literal: Option<&ScalarValue>,
    columns: &S,
) -> bool
    ensures { mask.new.items ≡ cond result (map (λ p. joined_by at p.0 p.1)
        (zip mask.old.items (map (λ row. is_wanted want (compared (comparison_of comparison)
        (value_at input.now row) (content_at literal.entry))) (S.rows columns.now))))
        mask.old.items }
{
    match lent_column(input, columns) {
        Some(column) => narrow_wanted(mask, at, comparison, want, &column, literal),
        None => false,
    }
}

pub(crate) fn narrow_comparison<S: Columns>(
    mask: &mut Vec<bool>,
    at: bool,
    comparison: Comparison,
    want: bool,
    left: &BoundExpression,
    right: &BoundExpression,
    columns: &S,
) -> bool
    ensures { mask.new.items ≡ cond result (map (λ p. joined_by at p.0 p.1)
        (zip mask.old.items (map (λ row. is_wanted want (compared (comparison_of comparison)
        (value_at left.now row) (value_at right.now row))) (S.rows columns.now))))
        mask.old.items }
{
    if let Some(literal) = literal_of(right) {
        return narrow_beside(mask, at, comparison, want, left, literal, columns);
    }
    if let Some(literal) = literal_of(left) {
        return narrow_beside(mask, at, swapped(comparison), want, right, literal, columns);
    }
    false
}

// Joins a mask with the rows for which a predicate has the wanted truth, where that allocates
// nothing. Answers whether it is so: otherwise the mask stays as it is.
pub(crate) fn narrow<S: Columns>(
    mask: &mut Vec<bool>,
    at: bool,
    predicate: &BoundExpression,
    want: bool,
    columns: &S,
) -> bool
    ensures { mask.new.items ≡ cond result (map (λ p. joined_by at p.0 p.1)
        (zip mask.old.items (wanted_rows want predicate.now (S.rows columns.now))))
        mask.old.items }
{
    match &predicate.node {
        BoundNode::Compare(operator, x, y) => {
            narrow_comparison(mask, at, *operator, want, x, y, columns)
        }
        _ => false,
    }
}
