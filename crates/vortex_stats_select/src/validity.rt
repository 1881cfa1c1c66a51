//! Validities, a bit for each row.
ghost use Rattle.std.specs.Prelude.{◌≡◌, ℕ, true, map, IfOk, IfSome, MatchOption};
ghost use Rattle.std.specs.List.{range_with_len};
ghost use Rattle.vortex_arrays_model.specs.Layout.{is_valid, by_array, len_of, HasLength};
ghost use Rattle.vortex_arrays_core.specs.LayoutOf.{valid_of};

use std::alloc::{AllocError, Global};
use vortex_arrays_buffer::BitBuffer;
use vortex_arrays_core::array::{ArrayLayout, ArrayRef, Validity};

// The rows of an array of booleans that are true, by a look at each row.
fn looked_up(alloc: Global, rows: &ArrayRef) -> Result<Vec<bool>, AllocError>
    ensures { IfOk result (λ truths. truths.items
        ≡ map (is_valid (by_array rows.now)) (range_with_len 0 (len_of rows.now))) }
{
    (0..rows.len()).map(|i| rows.truth(i)).collect(alloc)
}

fn packed(alloc: Global, rows: &ArrayRef) -> Result<BitBuffer, AllocError>
    ensures { IfOk result (λ truths. truths
        ≡ map (is_valid (by_array rows.now)) (range_with_len 0 (len_of rows.now))) }
{
    let truths = looked_up(alloc, rows)?;
    BitBuffer::from_bools(alloc, &truths)
}

// The bits of an array of booleans that is laid out plain, which shares them.
fn shared_truths(rows: &ArrayRef) -> Result<Option<BitBuffer>, AllocError>
    requires { HasLength (by_array rows.now) (len_of rows.now) }
    ensures { IfOk result (λ found. IfSome found (λ truths. truths
        ≡ map (is_valid (by_array rows.now)) (range_with_len 0 (len_of rows.now)))) }
{
    match rows.layout() {
        ArrayLayout::Bool(bits, _) => {
            let truths = bits.clone()?;
            Ok(Some(truths))
        }
        ArrayLayout::Primitive(_, _) => Ok(None),
        ArrayLayout::VarBinView(_, _, _, _) => Ok(None),
        ArrayLayout::Constant(_, _) => Ok(None),
        ArrayLayout::Dict(_, _, _) => Ok(None),
        ArrayLayout::FixedSizeList(_, _, _, _) => Ok(None),
        ArrayLayout::ListView(_, _, _, _, _) => Ok(None),
        ArrayLayout::Struct(_, _, _, _) => Ok(None),
    }
}

// The bits of an array of booleans, which it shares where it is laid out plain.
fn truths_of(alloc: Global, rows: &ArrayRef) -> Result<BitBuffer, AllocError>
    requires { HasLength (by_array rows.now) (len_of rows.now) }
    ensures { IfOk result (λ truths. truths
        ≡ map (is_valid (by_array rows.now)) (range_with_len 0 (len_of rows.now))) }
{
    match shared_truths(rows)? {
        Some(truths) => Ok(truths),
        None => packed(alloc, rows),
    }
}

// A mask of this length that has the valid rows, and `None` where all are known to be valid.
pub(crate) fn valid_rows_of(
    alloc: Global,
    validity: &Validity,
    len: usize,
) -> Result<Option<BitBuffer>, AllocError>
    requires { HasLength (valid_of validity.now) len }
    ensures { IfOk result (λ found. MatchOption found
        ((i : ℕ) → is_valid (valid_of validity.now) i ≡ true)
        (λ rows. rows ≡ map (is_valid (valid_of validity.now)) (range_with_len 0 len))) }
{
    match validity {
        Validity::NonNullable => Ok(None),
        Validity::AllValid => Ok(None),
        Validity::AllInvalid => {
            let rows = BitBuffer::new_unset(alloc, len)?;
            Ok(Some(rows))
        }
        Validity::Array(rows) => {
            let rows = truths_of(alloc, rows)?;
            Ok(Some(rows))
        }
    }
}

// As `valid_rows_of`, where that makes nothing. `None` where it would.
pub(crate) fn shared_valid_rows(
    validity: &Validity,
    len: usize,
) -> Result<Option<Option<BitBuffer>>, AllocError>
    requires { HasLength (valid_of validity.now) len }
    ensures { IfOk result (λ shared. IfSome shared (λ found. MatchOption found
        ((i : ℕ) → is_valid (valid_of validity.now) i ≡ true)
        (λ rows. rows ≡ map (is_valid (valid_of validity.now)) (range_with_len 0 len)))) }
{
    match validity {
        Validity::NonNullable => Ok(Some(None)),
        Validity::AllValid => Ok(Some(None)),
        Validity::AllInvalid => Ok(None),
        Validity::Array(rows) => match shared_truths(rows)? {
            Some(truths) => Ok(Some(Some(truths))),
            None => Ok(None),
        },
    }
}
