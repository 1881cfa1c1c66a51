//! Masks narrowed in place, by comparisons of numbers with a literal.
ghost use Rattle.std.specs.Prelude.{◌≡◌, ◌≤◌, length, map, cond};
ghost use Rattle.std.specs.List.{zip};
ghost use Rattle.std.specs.Ordering.{int_cmp};
ghost use Rattle.vortex_model_table.specs.Truth.{compared, is_true, test_of};
ghost use Rattle.vortex_stats_mask.specs.Integers.{integers_in};
ghost use Rattle.vortex_scalar_value.specs.Numbers.{integer_of};
ghost use Rattle.vortex_scalar_value.specs.View.{content_at};
ghost use Rattle.vortex_stats_expr.specs.Tree.{comparison_of};
ghost use Rattle.vortex_stats_mask.specs.Columns.{both_rows, column_of};
ghost use Rattle.vortex_stats_mask.specs.Wanted.{is_wanted, joined_by};

use crate::column::{Column, Numbers};
use crate::literal;
use crate::masks::narrow_valid;
use crate::runs::retell_rows;
use crate::turned::wanted;
use vortex_dtype_native::native::NativePType;
use vortex_scalar_value::pvalue::PValue;
use vortex_scalar_value::scalar_value::ScalarValue;
use vortex_stats_expr::operator::Comparison;

// Keeps the rows whose number compares so to a number of its type. The comparison is matched once.
fn narrow_to<T: NativePType>(mask: &mut Vec<bool>, comparison: Comparison, xs: &[T], k: T)
    requires { length mask.old.items ≤ length xs.now }
    ensures { mask.new.items ≡ both_rows mask.old.items
        (map (λ x. test_of (comparison_of comparison) (int_cmp (T.integer x) (T.integer k)))
        xs.now) }
{
    match comparison {
        Comparison::Eq => retell_rows(mask, |i, row| row & xs[i].total_compare(k).is_eq()),
        Comparison::NotEq => retell_rows(mask, |i, row| row & xs[i].total_compare(k).is_ne()),
        Comparison::Gt => retell_rows(mask, |i, row| row & xs[i].total_compare(k).is_gt()),
        Comparison::Gte => retell_rows(mask, |i, row| row & xs[i].total_compare(k).is_ge()),
        Comparison::Lt => retell_rows(mask, |i, row| row & xs[i].total_compare(k).is_lt()),
        Comparison::Lte => retell_rows(mask, |i, row| row & xs[i].total_compare(k).is_le()),
    }
}

// Narrows by a number of another type, also one that no number of the type is.
fn narrow_wide<T: NativePType>(
    mask: &mut Vec<bool>,
    comparison: Comparison,
    xs: &[T],
    number: PValue,
)
    requires { length mask.old.items ≤ length xs.now }
    ensures { mask.new.items ≡ both_rows mask.old.items
        (map (λ x. test_of (comparison_of comparison) (int_cmp (T.integer x) (integer_of number)))
        xs.now) }
{
    let number = number.get();
    retell_rows(
        mask,
        |i, row| row & comparison.holds(xs[i].get().cmp(&number)),
    );
}

fn narrow_any<T: NativePType>(
    mask: &mut Vec<bool>,
    comparison: Comparison,
    xs: &[T],
    number: PValue,
)
    ensures { mask.new.items ≡ both_rows mask.old.items
        (map (λ x. test_of (comparison_of comparison) (int_cmp (T.integer x) (integer_of number)))
        xs.now) }
{
    mask.truncate(xs.len());
    match T::of(number.get()) {
        Some(k) => narrow_to(mask, comparison, xs, k),
        None => narrow_wide(mask, comparison, xs, number),
    }
}

// The integers' type is matched once.
#[tactic(auto, using(crate::proofs::Through::numbers))]
fn narrow_numbers(
    mask: &mut Vec<bool>,
    comparison: Comparison,
    numbers: &Numbers<'_>,
    number: PValue,
)
    ensures { mask.new.items ≡ both_rows mask.old.items
        (map (λ z. test_of (comparison_of comparison) (int_cmp z (integer_of number)))
        (integers_in numbers.now)) }
{
    match numbers {
        Numbers::U8(xs) => narrow_any(mask, comparison, xs, number),
        Numbers::U16(xs) => narrow_any(mask, comparison, xs, number),
        Numbers::U32(xs) => narrow_any(mask, comparison, xs, number),
        Numbers::U64(xs) => narrow_any(mask, comparison, xs, number),
        Numbers::I8(xs) => narrow_any(mask, comparison, xs, number),
        Numbers::I16(xs) => narrow_any(mask, comparison, xs, number),
        Numbers::I32(xs) => narrow_any(mask, comparison, xs, number),
        Numbers::I64(xs) => narrow_any(mask, comparison, xs, number),
    }
}

// Keeps the rows of a mask for which the comparison with a literal is true.
fn narrow_literal(
    mask: &mut Vec<bool>,
    comparison: Comparison,
    column: &Column<'_>,
    literal: Option<&ScalarValue>,
) -> bool
    ensures { mask.new.items ≡ cond result (both_rows mask.old.items
        (map (λ c. is_true (compared (comparison_of comparison) c (content_at literal.entry)))
        (column_of column.now))) mask.old.items }
{
    let Some(numbers) = column.items.as_numbers() else {
        return false;
    };
    let Some(number) = literal::number(literal) else {
        return false;
    };
    narrow_numbers(mask, comparison, &numbers, number);
    narrow_valid(mask, column.validity);
    true
}

/// Joins a mask with the rows for which the comparison with a literal has the wanted truth, where
/// that is AND (`at` is true) and a column of numbers meets a number. Answers whether it is so:
/// otherwise the mask stays as it is. It allocates nothing.
pub fn narrow_wanted(
    mask: &mut Vec<bool>,
    at: bool,
    comparison: Comparison,
    want: bool,
    column: &Column<'_>,
    literal: Option<&ScalarValue>,
) -> bool
    ensures { mask.new.items ≡ cond result (map (λ p. joined_by at p.0 p.1)
        (zip mask.old.items (map
        (λ c. is_wanted want (compared (comparison_of comparison) c (content_at literal.entry)))
        (column_of column.now)))) mask.old.items }
{
    if at {
        narrow_literal(mask, wanted(comparison, want), column, literal)
    } else {
        false
    }
}
