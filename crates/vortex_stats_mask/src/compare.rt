//! Comparisons of a column with a literal.
ghost use Rattle.std.specs.Prelude.{◌≡◌, map, IfOk, List, Bool, Option};
ghost use Rattle.std.specs.Ordering.{bool_cmp};
ghost use Rattle.vortex_model.specs.Content.{boolean, integer, text, byte_string};
ghost use Rattle.vortex_model_table.specs.Truth.{compared, is_true, test_of};
ghost use Rattle.vortex_stats_mask.specs.Integers.{integers_in};
ghost use Rattle.vortex_scalar_value.specs.View.{content_at};
ghost use Rattle.vortex_stats_expr.specs.Tree.{comparison_of};
ghost use Rattle.vortex_stats_mask.specs.Columns.{values_of, contents_of, column_of, kept};
ghost use Rattle.vortex_stats_mask.specs.Headed.{HaveHeads, AreHeaded};
ghost use Rattle.vortex_stats_mask.specs.Wanted.{is_wanted};

use crate::column::{Column, Items, Numbers, Strings};
use crate::literal;
use crate::masks::{keep_valid, no_rows};
use crate::numbers::compare_numbers;
use crate::strings::test_views;
use crate::turned::wanted;
use std::alloc::{AllocError, Global};
use vortex_scalar_value::scalar_value::ScalarValue;
use vortex_stats_expr::operator::Comparison;

fn test_bools(
    alloc: Global,
    comparison: Comparison,
    items: &[bool],
    flag: bool,
) -> Result<Vec<bool>, AllocError>
    ensures { IfOk result (λ mask. mask.items
        ≡ map (λ b. test_of (comparison_of comparison) (bool_cmp b flag)) items.now) }
{
    items
        .iter()
        .map(|item| comparison.holds(item.cmp(&flag)))
        .collect(alloc)
}

fn compare_bools(
    alloc: Global,
    comparison: Comparison,
    items: &[bool],
    literal: Option<&ScalarValue>,
) -> Result<Vec<bool>, AllocError>
    ensures { IfOk result (λ mask. mask.items
        ≡ map (λ c. is_true (compared (comparison_of comparison) c (content_at literal.entry)))
        (map boolean items.now)) }
{
    match literal::truth(literal) {
        Some(flag) => test_bools(alloc, comparison, items, flag),
        None => no_rows(alloc, items.len()),
    }
}

fn compare_integers(
    alloc: Global,
    comparison: Comparison,
    numbers: &Numbers<'_>,
    literal: Option<&ScalarValue>,
) -> Result<Vec<bool>, AllocError>
    ensures { IfOk result (λ mask. mask.items
        ≡ map (λ c. is_true (compared (comparison_of comparison) c (content_at literal.entry)))
        (map integer (integers_in numbers.now))) }
{
    match literal::number(literal) {
        Some(number) => compare_numbers(alloc, comparison, numbers, number),
        None => no_rows(alloc, numbers.len()),
    }
}

fn compare_texts(
    alloc: Global,
    comparison: Comparison,
    strings: &Strings<'_>,
    literal: Option<&ScalarValue>,
) -> Result<Vec<bool>, AllocError>
    ensures { (valid : Option (List Bool)) → HaveHeads valid strings.now →
        IfOk result (λ mask. kept valid mask.items ≡ kept valid
        (map (λ c. is_true (compared (comparison_of comparison) c (content_at literal.entry)))
        (map text (values_of strings.now)))) }
{
    match literal::text(literal) {
        Some(text) => test_views(
            alloc,
            comparison,
            strings.views,
            &strings.buffers,
            text.as_bytes(),
        ),
        None => no_rows(alloc, strings.views.len()),
    }
}

fn compare_binaries(
    alloc: Global,
    comparison: Comparison,
    strings: &Strings<'_>,
    literal: Option<&ScalarValue>,
) -> Result<Vec<bool>, AllocError>
    ensures { (valid : Option (List Bool)) → HaveHeads valid strings.now →
        IfOk result (λ mask. kept valid mask.items ≡ kept valid
        (map (λ c. is_true (compared (comparison_of comparison) c (content_at literal.entry)))
        (map byte_string (values_of strings.now)))) }
{
    match literal::bytes(literal) {
        Some(bytes) => test_views(alloc, comparison, strings.views, &strings.buffers, bytes),
        None => no_rows(alloc, strings.views.len()),
    }
}

// The items are taken as valid. The answer for a null row means nothing.
fn compare_items(
    alloc: Global,
    comparison: Comparison,
    items: &Items<'_>,
    literal: Option<&ScalarValue>,
) -> Result<Vec<bool>, AllocError>
    ensures { (valid : Option (List Bool)) → AreHeaded items.now valid →
        IfOk result (λ mask. kept valid mask.items ≡ kept valid
        (map (λ c. is_true (compared (comparison_of comparison) c (content_at literal.entry)))
        (contents_of items.now))) }
{
    match items {
        Items::Bools(items) => compare_bools(alloc, comparison, items, literal),
        Items::Numbers(numbers) => compare_integers(alloc, comparison, numbers, literal),
        Items::Texts(strings) => compare_texts(alloc, comparison, strings, literal),
        Items::Binaries(strings) => compare_binaries(alloc, comparison, strings, literal),
    }
}

/// The rows of a column for which its comparison with a literal is true: none where the literal is
/// null, or of another form than the column's values.
pub fn compare_literal(
    alloc: Global,
    comparison: Comparison,
    column: &Column<'_>,
    literal: Option<&ScalarValue>,
) -> Result<Vec<bool>, AllocError>
    ensures { IfOk result (λ mask. mask.items
        ≡ map (λ c. is_true (compared (comparison_of comparison) c (content_at literal.entry)))
        (column_of column.now)) }
{
    let mask = compare_items(alloc, comparison, &column.items, literal)?;
    Ok(keep_valid(mask, column.validity))
}

/// The rows of a column where the comparison with a literal has the wanted truth.
pub fn compare_wanted(
    alloc: Global,
    comparison: Comparison,
    want: bool,
    column: &Column<'_>,
    literal: Option<&ScalarValue>,
) -> Result<Vec<bool>, AllocError>
    ensures { IfOk result (λ mask. mask.items ≡ map
        (λ c. is_wanted want (compared (comparison_of comparison) c (content_at literal.entry)))
        (column_of column.now)) }
{
    compare_literal(alloc, wanted(comparison, want), column, literal)
}
