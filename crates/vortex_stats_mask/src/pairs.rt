//! Comparisons of the values of two columns, row by row.
ghost use Rattle.std.specs.Prelude.{◌≡◌, map, IfOk};
ghost use Rattle.std.specs.List.{zip};
ghost use Rattle.std.specs.Ordering.{int_cmp, bool_cmp};
ghost use Rattle.vortex_model.specs.Content.{boolean, integer, text, byte_string};
ghost use Rattle.vortex_model.specs.Order.{bytes_cmp};
ghost use Rattle.vortex_model_table.specs.Truth.{compared, is_true, test_of};
ghost use Rattle.vortex_stats_mask.specs.Integers.{integers_in};
ghost use Rattle.vortex_arrays_view.specs.Views.{value_of};
ghost use Rattle.vortex_stats_expr.specs.Tree.{comparison_of};
ghost use Rattle.vortex_stats_match.specs.Buffers.{buffers_in};
ghost use Rattle.vortex_stats_mask.specs.Columns.{values_of, contents_of, column_of};

use crate::column::{Column, Items, Numbers, Strings};
use crate::masks::{keep_valid, no_rows};
use crate::numbers::compare_each;
use std::alloc::{AllocError, Global};
use vortex_arrays_view::order::order_bytes;
use vortex_arrays_view::view::BinaryView;
use vortex_dtype_native::native::NativePType;
use vortex_stats_expr::operator::Comparison;
use vortex_stats_match::buffers::Buffers;
use vortex_stats_match::value::value_in;

fn pair_bools(
    alloc: Global,
    comparison: Comparison,
    xs: &[bool],
    ys: &[bool],
) -> Result<Vec<bool>, AllocError>
    ensures { IfOk result (λ mask. mask.items
        ≡ map (λ p. test_of (comparison_of comparison) (bool_cmp p.0 p.1)) (zip xs.now ys.now)) }
{
    xs.iter()
        .zip(ys.iter())
        .map(|(x, y)| comparison.holds(x.cmp(y)))
        .collect(alloc)
}

fn widened<T: NativePType>(alloc: Global, xs: &[T]) -> Result<Vec<i128>, AllocError>
    ensures { IfOk result (λ all. all.items ≡ map T.integer xs.now) }
{
    xs.iter().map(|x| x.get()).collect(alloc)
}

fn wide(alloc: Global, numbers: &Numbers<'_>) -> Result<Vec<i128>, AllocError>
    ensures { IfOk result (λ all. all.items ≡ integers_in numbers.now) }
{
    match numbers {
        Numbers::U8(xs) => widened(alloc, xs),
        Numbers::U16(xs) => widened(alloc, xs),
        Numbers::U32(xs) => widened(alloc, xs),
        Numbers::U64(xs) => widened(alloc, xs),
        Numbers::I8(xs) => widened(alloc, xs),
        Numbers::I16(xs) => widened(alloc, xs),
        Numbers::I32(xs) => widened(alloc, xs),
        Numbers::I64(xs) => widened(alloc, xs),
    }
}

// Compares numbers of two types, which no predicate that is bound to a type does.
fn pair_wide(
    alloc: Global,
    comparison: Comparison,
    left: &Numbers<'_>,
    right: &Numbers<'_>,
) -> Result<Vec<bool>, AllocError>
    ensures { IfOk result (λ mask. mask.items
        ≡ map (λ p. test_of (comparison_of comparison) (int_cmp p.0 p.1))
        (zip (integers_in left.now) (integers_in right.now))) }
{
    let xs = wide(alloc, left)?;
    let ys = wide(alloc, right)?;
    compare_wide(alloc, comparison, &xs, &ys)
}

fn compare_wide(
    alloc: Global,
    comparison: Comparison,
    xs: &[i128],
    ys: &[i128],
) -> Result<Vec<bool>, AllocError>
    ensures { IfOk result (λ mask. mask.items
        ≡ map (λ p. test_of (comparison_of comparison) (int_cmp p.0 p.1)) (zip xs.now ys.now)) }
{
    xs.iter()
        .zip(ys.iter())
        .map(|(x, y)| comparison.holds(x.cmp(y)))
        .collect(alloc)
}

// Numbers of one type are compared as they are.
fn pair_numbers(
    alloc: Global,
    comparison: Comparison,
    left: &Numbers<'_>,
    right: &Numbers<'_>,
) -> Result<Vec<bool>, AllocError>
    ensures { IfOk result (λ mask. mask.items
        ≡ map (λ p. test_of (comparison_of comparison) (int_cmp p.0 p.1))
        (zip (integers_in left.now) (integers_in right.now))) }
{
    match (left, right) {
        (Numbers::U8(xs), Numbers::U8(ys)) => compare_each(alloc, comparison, xs, ys),
        (Numbers::U16(xs), Numbers::U16(ys)) => compare_each(alloc, comparison, xs, ys),
        (Numbers::U32(xs), Numbers::U32(ys)) => compare_each(alloc, comparison, xs, ys),
        (Numbers::U64(xs), Numbers::U64(ys)) => compare_each(alloc, comparison, xs, ys),
        (Numbers::I8(xs), Numbers::I8(ys)) => compare_each(alloc, comparison, xs, ys),
        (Numbers::I16(xs), Numbers::I16(ys)) => compare_each(alloc, comparison, xs, ys),
        (Numbers::I32(xs), Numbers::I32(ys)) => compare_each(alloc, comparison, xs, ys),
        (Numbers::I64(xs), Numbers::I64(ys)) => compare_each(alloc, comparison, xs, ys),
        _ => pair_wide(alloc, comparison, left, right),
    }
}

fn pair_views(
    alloc: Global,
    comparison: Comparison,
    xs: &[BinaryView],
    x_buffers: &Buffers<'_>,
    ys: &[BinaryView],
    y_buffers: &Buffers<'_>,
) -> Result<Vec<bool>, AllocError>
    ensures { IfOk result (λ mask. mask.items
        ≡ map (λ p. test_of (comparison_of comparison)
        (bytes_cmp (value_of p.0 (buffers_in x_buffers.now))
        (value_of p.1 (buffers_in y_buffers.now)))) (zip xs.now ys.now)) }
{
    xs.iter()
        .zip(ys.iter())
        .map(|(x, y)| {
            let order = order_bytes(value_in(x, x_buffers), value_in(y, y_buffers));
            comparison.holds(order)
        })
        .collect(alloc)
}

fn pair_strings(
    alloc: Global,
    comparison: Comparison,
    left: &Strings<'_>,
    right: &Strings<'_>,
) -> Result<Vec<bool>, AllocError>
    ensures { IfOk result (λ mask. mask.items
        ≡ map (λ p. test_of (comparison_of comparison) (bytes_cmp p.0 p.1))
        (zip (values_of left.now) (values_of right.now))) }
{
    pair_views(
        alloc,
        comparison,
        left.views,
        &left.buffers,
        right.views,
        &right.buffers,
    )
}

fn bools_with(
    alloc: Global,
    comparison: Comparison,
    xs: &[bool],
    right: &Items<'_>,
) -> Result<Vec<bool>, AllocError>
    ensures { IfOk result (λ mask. mask.items
        ≡ map (λ p. is_true (compared (comparison_of comparison) p.0 p.1))
        (zip (map boolean xs.now) (contents_of right.now))) }
{
    match right.as_bools() {
        Some(others) => pair_bools(alloc, comparison, xs, others),
        None => no_rows(alloc, xs.len().min(right.len())),
    }
}

fn numbers_with(
    alloc: Global,
    comparison: Comparison,
    xs: &Numbers<'_>,
    right: &Items<'_>,
) -> Result<Vec<bool>, AllocError>
    ensures { IfOk result (λ mask. mask.items
        ≡ map (λ p. is_true (compared (comparison_of comparison) p.0 p.1))
        (zip (map integer (integers_in xs.now)) (contents_of right.now))) }
{
    match right.as_numbers() {
        Some(others) => pair_numbers(alloc, comparison, xs, &others),
        None => no_rows(alloc, xs.len().min(right.len())),
    }
}

fn texts_with(
    alloc: Global,
    comparison: Comparison,
    xs: &Strings<'_>,
    right: &Items<'_>,
) -> Result<Vec<bool>, AllocError>
    ensures { IfOk result (λ mask. mask.items
        ≡ map (λ p. is_true (compared (comparison_of comparison) p.0 p.1))
        (zip (map text (values_of xs.now)) (contents_of right.now))) }
{
    match right.as_texts() {
        Some(others) => pair_strings(alloc, comparison, xs, &others),
        None => no_rows(alloc, xs.views.len().min(right.len())),
    }
}

fn binaries_with(
    alloc: Global,
    comparison: Comparison,
    xs: &Strings<'_>,
    right: &Items<'_>,
) -> Result<Vec<bool>, AllocError>
    ensures { IfOk result (λ mask. mask.items
        ≡ map (λ p. is_true (compared (comparison_of comparison) p.0 p.1))
        (zip (map byte_string (values_of xs.now)) (contents_of right.now))) }
{
    match right.as_binaries() {
        Some(others) => pair_strings(alloc, comparison, xs, &others),
        None => no_rows(alloc, xs.views.len().min(right.len())),
    }
}

// The items are taken as valid. Those of two forms don't compare.
fn pair_items(
    alloc: Global,
    comparison: Comparison,
    left: &Items<'_>,
    right: &Items<'_>,
) -> Result<Vec<bool>, AllocError>
    ensures { IfOk result (λ mask. mask.items
        ≡ map (λ p. is_true (compared (comparison_of comparison) p.0 p.1))
        (zip (contents_of left.now) (contents_of right.now))) }
{
    match left {
        Items::Bools(xs) => bools_with(alloc, comparison, xs, right),
        Items::Numbers(xs) => numbers_with(alloc, comparison, xs, right),
        Items::Texts(xs) => texts_with(alloc, comparison, xs, right),
        Items::Binaries(xs) => binaries_with(alloc, comparison, xs, right),
    }
}

/// The rows of a column whose values compare so to those of another: none where a side is null.
pub fn compare_columns(
    alloc: Global,
    comparison: Comparison,
    left: &Column<'_>,
    right: &Column<'_>,
) -> Result<Vec<bool>, AllocError>
    ensures { IfOk result (λ mask. mask.items
        ≡ map (λ p. is_true (compared (comparison_of comparison) p.0 p.1))
        (zip (column_of left.now) (column_of right.now))) }
{
    let mask = pair_items(alloc, comparison, &left.items, &right.items)?;
    let mask = keep_valid(mask, left.validity);
    Ok(keep_valid(mask, right.validity))
}
