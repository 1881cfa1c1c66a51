//! Masks of the values of a dictionary as masks of its rows.
ghost use Rattle.std.specs.Prelude.{◌≡◌, map, IfOk};
ghost use Rattle.vortex_model.specs.Content.{integer};
ghost use Rattle.vortex_stats_mask.specs.Columns.{column_of, contents_of};
ghost use Rattle.vortex_stats_mask.specs.Integers.{integers_in};
ghost use Rattle.vortex_stats_select.specs.Coded.{is_marked};

use std::alloc::{AllocError, Global};
use vortex_dtype_native::native::NativePType;
use vortex_stats_mask::column::{Column, Items, Numbers};
use vortex_stats_mask::masks::{keep_valid, no_rows};

// Whether the mask has the value of the code. A null row may have any number.
#[tactic(auto, using(crate::proofs::CodedLemmas::marked))]
fn has_value(mask: &[bool], code: i128) -> bool
    ensures { result ≡ is_marked mask.now (integer code) }
{
    if code < 0 || code >= mask.len() as i128 {
        return false;
    }
    mask[code as usize]
}

fn spread_kind<T: NativePType>(
    alloc: Global,
    mask: &[bool],
    codes: &[T],
) -> Result<Vec<bool>, AllocError>
    ensures { IfOk result (λ rows. rows.items
        ≡ map (λ c. is_marked mask.now (integer (T.integer c))) codes.now) }
{
    codes
        .iter()
        .map(|code| has_value(mask, code.get()))
        .collect(alloc)
}

// Codes whose integer type is matched once.
#[tactic(auto, using(crate::proofs::CodedLemmas::kinds))]
fn spread_numbers(
    alloc: Global,
    mask: &[bool],
    codes: &Numbers<'_>,
) -> Result<Vec<bool>, AllocError>
    ensures { IfOk result (λ rows. rows.items
        ≡ map (is_marked mask.now) (map integer (integers_in codes.now))) }
{
    match codes {
        Numbers::U8(codes) => spread_kind(alloc, mask, codes),
        Numbers::U16(codes) => spread_kind(alloc, mask, codes),
        Numbers::U32(codes) => spread_kind(alloc, mask, codes),
        Numbers::U64(codes) => spread_kind(alloc, mask, codes),
        Numbers::I8(codes) => spread_kind(alloc, mask, codes),
        Numbers::I16(codes) => spread_kind(alloc, mask, codes),
        Numbers::I32(codes) => spread_kind(alloc, mask, codes),
        Numbers::I64(codes) => spread_kind(alloc, mask, codes),
    }
}

// Items that aren't numbers have no codes.
fn spread_items(alloc: Global, mask: &[bool], items: &Items<'_>) -> Result<Vec<bool>, AllocError>
    ensures { IfOk result
        (λ rows. rows.items ≡ map (is_marked mask.now) (contents_of items.now)) }
{
    match items.as_numbers() {
        Some(numbers) => spread_numbers(alloc, mask, &numbers),
        None => no_rows(alloc, items.len()),
    }
}

/// The rows whose value is in the mask, which is one of the values of a dictionary with these
/// codes. A null code has none.
pub(crate) fn spread(
    alloc: Global,
    mask: &[bool],
    codes: &Column<'_>,
) -> Result<Vec<bool>, AllocError>
    ensures { IfOk result
        (λ rows. rows.items ≡ map (is_marked mask.now) (column_of codes.now)) }
{
    let rows = spread_items(alloc, mask, &codes.items)?;
    Ok(keep_valid(rows, codes.validity))
}
