//! Comparisons of numbers of one type.
ghost use Rattle.std.specs.Prelude.{◌≡◌, map, IfOk};
ghost use Rattle.std.specs.Ordering.{int_cmp};
ghost use Rattle.std.specs.List.{zip};
ghost use Rattle.vortex_model_table.specs.Truth.{test_of};
ghost use Rattle.vortex_stats_mask.specs.Integers.{integers_in};
ghost use Rattle.vortex_scalar_value.specs.Numbers.{integer_of};
ghost use Rattle.vortex_stats_expr.specs.Tree.{comparison_of};

use crate::column::Numbers;
use crate::runs::test_rows;
use std::alloc::{AllocError, Global};
use vortex_dtype_native::native::NativePType;
use vortex_scalar_value::pvalue::PValue;
use vortex_stats_expr::operator::Comparison;

/// The numbers that compare so to a number of their type. The comparison is matched once.
pub fn compare_to<T: NativePType>(
    alloc: Global,
    comparison: Comparison,
    xs: &[T],
    k: T,
) -> Result<Vec<bool>, AllocError>
    ensures { IfOk result (λ mask. mask.items
        ≡ map (λ x. test_of (comparison_of comparison) (int_cmp (T.integer x) (T.integer k)))
        xs.now) }
{
    match comparison {
        Comparison::Eq => xs.iter().map(|x| x.total_compare(k).is_eq()).collect(alloc),
        Comparison::NotEq => xs.iter().map(|x| x.total_compare(k).is_ne()).collect(alloc),
        Comparison::Gt => xs.iter().map(|x| x.total_compare(k).is_gt()).collect(alloc),
        Comparison::Gte => xs.iter().map(|x| x.total_compare(k).is_ge()).collect(alloc),
        Comparison::Lt => xs.iter().map(|x| x.total_compare(k).is_lt()).collect(alloc),
        Comparison::Lte => xs.iter().map(|x| x.total_compare(k).is_le()).collect(alloc),
    }
}

/// The numbers of eight bytes that compare so to a number of their type. A vector register has room
/// for two of them only, so that it is faster to compare each by itself.
pub fn compare_long<T: NativePType>(
    alloc: Global,
    comparison: Comparison,
    xs: &[T],
    k: T,
) -> Result<Vec<bool>, AllocError>
    ensures { IfOk result (λ mask. mask.items
        ≡ map (λ x. test_of (comparison_of comparison) (int_cmp (T.integer x) (T.integer k)))
        xs.now) }
{
    match comparison {
        Comparison::Eq => test_rows(alloc, xs.len(), |i| xs[i].total_compare(k).is_eq()),
        Comparison::NotEq => test_rows(alloc, xs.len(), |i| xs[i].total_compare(k).is_ne()),
        Comparison::Gt => test_rows(alloc, xs.len(), |i| xs[i].total_compare(k).is_gt()),
        Comparison::Gte => test_rows(alloc, xs.len(), |i| xs[i].total_compare(k).is_ge()),
        Comparison::Lt => test_rows(alloc, xs.len(), |i| xs[i].total_compare(k).is_lt()),
        Comparison::Lte => test_rows(alloc, xs.len(), |i| xs[i].total_compare(k).is_le()),
    }
}

/// The numbers that compare so to the number beside them.
pub fn compare_each<T: NativePType>(
    alloc: Global,
    comparison: Comparison,
    xs: &[T],
    ys: &[T],
) -> Result<Vec<bool>, AllocError>
    ensures { IfOk result (λ mask. mask.items
        ≡ map (λ p. test_of (comparison_of comparison) (int_cmp (T.integer p.0) (T.integer p.1)))
        (zip xs.now ys.now)) }
{
    xs.iter()
        .zip(ys.iter())
        .map(|(x, y)| comparison.holds(x.total_compare(*y)))
        .collect(alloc)
}

// Compares to a number of another type, also one that no number of the type is.
fn compare_wide<T: NativePType>(
    alloc: Global,
    comparison: Comparison,
    xs: &[T],
    number: PValue,
) -> Result<Vec<bool>, AllocError>
    ensures { IfOk result (λ mask. mask.items
        ≡ map (λ x. test_of (comparison_of comparison) (int_cmp (T.integer x) (integer_of number)))
        xs.now) }
{
    let number = number.get();
    xs.iter()
        .map(|x| comparison.holds(x.get().cmp(&number)))
        .collect(alloc)
}

fn compare_any<T: NativePType>(
    alloc: Global,
    comparison: Comparison,
    xs: &[T],
    number: PValue,
) -> Result<Vec<bool>, AllocError>
    ensures { IfOk result (λ mask. mask.items
        ≡ map (λ x. test_of (comparison_of comparison) (int_cmp (T.integer x) (integer_of number)))
        xs.now) }
{
    match T::of(number.get()) {
        Some(k) => compare_to(alloc, comparison, xs, k),
        None => compare_wide(alloc, comparison, xs, number),
    }
}

fn compare_any_long<T: NativePType>(
    alloc: Global,
    comparison: Comparison,
    xs: &[T],
    number: PValue,
) -> Result<Vec<bool>, AllocError>
    ensures { IfOk result (λ mask. mask.items
        ≡ map (λ x. test_of (comparison_of comparison) (int_cmp (T.integer x) (integer_of number)))
        xs.now) }
{
    match T::of(number.get()) {
        Some(k) => compare_long(alloc, comparison, xs, k),
        None => compare_wide(alloc, comparison, xs, number),
    }
}

/// The numbers that compare so to a number. Their type is matched once.
#[tactic(auto, using(crate::proofs::Through::numbers))]
pub fn compare_numbers(
    alloc: Global,
    comparison: Comparison,
    numbers: &Numbers<'_>,
    number: PValue,
) -> Result<Vec<bool>, AllocError>
    ensures { IfOk result (λ mask. mask.items
        ≡ map (λ z. test_of (comparison_of comparison) (int_cmp z (integer_of number)))
        (integers_in numbers.now)) }
{
    match numbers {
        Numbers::U8(xs) => compare_any(alloc, comparison, xs, number),
        Numbers::U16(xs) => compare_any(alloc, comparison, xs, number),
        Numbers::U32(xs) => compare_any(alloc, comparison, xs, number),
        Numbers::U64(xs) => compare_any_long(alloc, comparison, xs, number),
        Numbers::I8(xs) => compare_any(alloc, comparison, xs, number),
        Numbers::I16(xs) => compare_any(alloc, comparison, xs, number),
        Numbers::I32(xs) => compare_any(alloc, comparison, xs, number),
        Numbers::I64(xs) => compare_any_long(alloc, comparison, xs, number),
    }
}
