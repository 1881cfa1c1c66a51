//! Masks: a boolean for each row, a byte each.
ghost use Rattle.std.specs.Prelude.{◌≡◌, ◌≤◌, ◌<◌, ◌&&◌, ◌||◌, not, map, replicate, length, false, slice_index_or, List, Bool, IfOk};
ghost use Rattle.std.specs.List.{zip, list_any, slice_range};
ghost use Rattle.vortex_stats_mask.specs.Columns.{both_rows, kept, kept_first};
ghost use Rattle.vortex_stats_mask.specs.Valid.{valid_in};

use crate::column::ValidRows;
use std::alloc::{AllocError, Global};
use vortex_arrays_buffer::bit_buffer::BitBuffer;

/// The rows that both masks have.
pub fn both(alloc: Global, xs: &[bool], ys: &[bool]) -> Result<Vec<bool>, AllocError>
    ensures { IfOk result (λ mask. mask.items ≡ map (λ p. p.0 && p.1) (zip xs.now ys.now)) }
{
    xs.iter()
        .zip(ys.iter())
        .map(|(x, y)| *x & *y)
        .collect(alloc)
}

/// The rows of a mask that another has too. The mask becomes the answer, with no new memory.
pub fn both_into(mask: Vec<bool>, rows: &[bool]) -> Vec<bool>
    ensures { result.items ≡ map (λ p. p.0 && p.1) (zip mask.items rows.now) }
{
    let mut mask = mask;
    keep_flags(&mut mask, rows);
    mask
}

// Keeps the rows of a mask that another has too.
fn keep_flags(mask: &mut Vec<bool>, rows: &[bool])
    ensures { mask.new.items ≡ both_rows mask.old.items rows.now }
{
    mask.truncate(rows.len());
    for i in 0..mask.len() {
        mask[i] = mask[i] & rows[i];
    }
}

/// The rows that a mask or another has. The mask becomes the answer, with no new memory.
pub fn either_into(mask: Vec<bool>, rows: &[bool]) -> Vec<bool>
    ensures { result.items ≡ map (λ p. p.0 || p.1) (zip mask.items rows.now) }
{
    let mut mask = mask;
    mask.truncate(rows.len());
    for i in 0..mask.len() {
        mask[i] = mask[i] | rows[i];
    }
    mask
}

/// The rows that the mask hasn't.
pub fn opposite(alloc: Global, xs: &[bool]) -> Result<Vec<bool>, AllocError>
    ensures { IfOk result (λ mask. mask.items ≡ map not xs.now) }
{
    xs.iter().map(|x| !*x).collect(alloc)
}

/// A mask of this length that has no row.
pub fn no_rows(alloc: Global, len: usize) -> Result<Vec<bool>, AllocError>
    ensures { IfOk result (λ mask. mask.items ≡ replicate len false) }
{
    Ok(vec![in alloc; false; len]?)
}

/// The valid rows of a mask. The mask becomes the answer, with no new memory.
pub fn keep_valid(mask: Vec<bool>, validity: ValidRows<'_>) -> Vec<bool>
    ensures { result.items ≡ kept (valid_in validity.entry) mask.items }
{
    let mut mask = mask;
    narrow_valid(&mut mask, validity);
    mask
}

/// Keeps the valid rows of a mask.
pub fn narrow_valid(mask: &mut Vec<bool>, validity: ValidRows<'_>)
    ensures { mask.new.items ≡ kept (valid_in validity.entry) mask.old.items }
{
    match validity {
        ValidRows::All => {}
        ValidRows::Bits(bits) => {
            mask.truncate(bits.len());
            keep_bits(mask, bits);
        }
        ValidRows::Flags(flags) => keep_flags(mask, flags),
    }
}

// Keeps the rows of a mask whose bits are true.
fn keep_bits(mask: &mut Vec<bool>, bits: &BitBuffer)
    requires { length mask.old.items ≤ length bits.now }
    ensures { mask.new.items ≡ map (λ p. p.0 && p.1) (zip mask.old.items bits.now) }
{
    let runs = mask.len() / 16;
    for k in 0..runs {
        keep_run(mask, bits, 16 * k, 16 * k + 16);
    }
    let len = mask.len();
    keep_rows(mask, bits, 16 * runs, len);
}

// Keeps the rows of a run whose bits are true. Most runs of a mask have no row, which is seen of
// all its rows at once, and then no bit is looked at.
#[inline(always)]
fn keep_run(mask: &mut Vec<bool>, bits: &BitBuffer, from: usize, to: usize)
    requires order { from ≤ to }
    requires within { to ≤ length mask.old.items }
    requires beside { length mask.old.items ≤ length bits.now }
    ensures count { length mask.new.items ≡ length mask.old.items }
    ensures rows { (all : List Bool) → mask.old.items ≡ kept_first from bits.now all
        → mask.new.items ≡ kept_first to bits.now all }
{
    if has_row(mask, from, to) {
        keep_rows(mask, bits, from, to);
    }
}

// Whether a mask has a row from one to another. All are looked at, so that there is no branch.
#[inline(always)]
fn has_row(mask: &[bool], from: usize, to: usize) -> bool
    requires order { from ≤ to }
    requires within { to ≤ length mask.now }
    ensures { result ≡ list_any (λ row. row) (slice_range mask.now from to) }
{
    let mut found = false;
    for i in from..to {
        found |= mask[i];
    }
    found
}

fn keep_rows(mask: &mut Vec<bool>, bits: &BitBuffer, from: usize, to: usize)
    requires order { from ≤ to }
    requires within { to ≤ length mask.old.items }
    requires beside { length mask.old.items ≤ length bits.now }
    ensures count { length mask.new.items ≡ length mask.old.items }
    ensures rows { (all : List Bool) → mask.old.items ≡ kept_first from bits.now all
        → mask.new.items ≡ kept_first to bits.now all }
{
    for i in from..to {
        mask[i] = is_kept(mask[i], bits, i);
    }
}

// Whether a row of a mask has a true bit. Both are read, since a branch on rows in no order costs
// more.
fn is_kept(row: bool, bits: &BitBuffer, i: usize) -> bool
    requires { i < length bits.now }
    ensures { result ≡ (row && slice_index_or bits.now i false) }
{
    row & bits.value(i)
}
