//! Arrays of booleans without null, read and made as packed bits.
ghost use Rattle.std.specs.Prelude.{◌≡◌, ◌<◌, ◌↔◌, ℕ, true, false, length, slice_index_or, All, IsTrue, IfOk};
ghost use Rattle.vortex_model.specs.LogicalType.{nullable};
ghost use Rattle.vortex_arrays_model.specs.Layout.{bools, required, by_array, len_of, nullability_by, is_valid, HasLength};
ghost use Rattle.vortex_arrays_core.specs.LayoutOf.{valid_of};
ghost use Rattle.vortex_arrays_validity.specs.Validities.{valid_rows, IsInverse, NoneNull};

use std::alloc::{AllocError, Global};
use vortex_arrays_buffer::{BitBuffer, Mask};
use vortex_arrays_core::array::{ArrayLayout, ArrayRef, Validity};

/// An array of booleans of the type without null.
pub fn array_of_rows(alloc: Global, bits: BitBuffer) -> Result<ArrayRef, AllocError>
    ensures { IfOk result (λ a. a ≡ bools bits required) }
{
    ArrayRef::of_bools(alloc, bits, Validity::NonNullable)
}

/// The validity whose rows are null where a bit is false.
pub fn of_bits(alloc: Global, bits: BitBuffer) -> Result<Validity, AllocError>
    ensures { IfOk result (λ v. valid_of v ≡ by_array (bools bits required)) }
{
    let rows = array_of_rows(alloc, bits)?;
    Ok(Validity::Array(rows))
}

/// A bit for each row of an array of booleans without null. Packed bits are shared.
#[tactic(auto, using(crate::proofs::Rows::packed))]
pub fn bits_of(alloc: Global, rows: &ArrayRef) -> Result<BitBuffer, AllocError>
    requires { HasLength (by_array rows.now) (len_of rows.now) }
    ensures { IfOk result (λ bits. bits ≡ valid_rows (by_array rows.now) (len_of rows.now)) }
{
    match rows.layout() {
        ArrayLayout::Bool(bits, _) => bits.clone(),
        ArrayLayout::Primitive(_, _) => collected(alloc, rows),
        ArrayLayout::VarBinView(_, _, _, _) => collected(alloc, rows),
        ArrayLayout::Constant(_, _) => collected(alloc, rows),
        ArrayLayout::Dict(_, _, _) => collected(alloc, rows),
        ArrayLayout::FixedSizeList(_, _, _, _) => collected(alloc, rows),
        ArrayLayout::ListView(_, _, _, _, _) => collected(alloc, rows),
        ArrayLayout::Struct(_, _, _, _) => collected(alloc, rows),
    }
}

// The bits of an array of booleans without null, collected row by row.
fn collected(alloc: Global, rows: &ArrayRef) -> Result<BitBuffer, AllocError>
    ensures { IfOk result (λ bits. bits ≡ valid_rows (by_array rows.now) (len_of rows.now)) }
{
    let bits = BitBuffer::collect_bool(alloc, rows.len(), |i| rows.truth(i))?;
    Ok(bits)
}

/// Whether each row of an array of booleans without null is true. Packed bits are counted.
pub fn are_true(rows: &ArrayRef) -> bool
    ensures { IsTrue result ↔ NoneNull (by_array rows.now) (len_of rows.now) }
{
    if let ArrayLayout::Bool(bits, validity) = rows.layout() {
        if let Validity::NonNullable = validity {
            return are_all_set(bits);
        }
    }
    is_each_true(rows)
}

// Whether each bit is true.
#[tactic(auto, using(vortex_arrays_buffer::proofs::Positions::kept))]
fn are_all_set(bits: &BitBuffer) -> bool
    ensures { IsTrue result ↔ All (λ b. b ≡ true) bits.now }
{
    bits.true_count() == bits.len()
}

// Whether each row of an array of any layout is true, row by row.
fn is_each_true(rows: &ArrayRef) -> bool
    ensures { IsTrue result ↔ NoneNull (by_array rows.now) (len_of rows.now) }
{
    for i in 0..rows.len() {
        if !rows.truth(i) {
            return false;
        }
    }
    true
}

/// Whether two validities of `len` rows have the same rows null.
#[tactic(auto, using(crate::proofs::Rows::alike))]
pub fn same_rows(mine: &Validity, theirs: &Validity, len: usize) -> bool
    requires mine { HasLength (valid_of mine.now) len }
    requires theirs { HasLength (valid_of theirs.now) len }
    ensures { IsTrue result
        ↔ ((i : ℕ) → i < len → is_valid (valid_of mine.now) i ≡ is_valid (valid_of theirs.now) i) }
{
    if let (Some(ours), Some(others)) = (mine.packed(), theirs.packed()) {
        return are_same(ours, others);
    }
    is_each_same(mine, theirs, len)
}

// Whether the bits are equal.
fn are_same(mine: &BitBuffer, theirs: &BitBuffer) -> bool
    requires { length theirs.now ≡ length mine.now }
    ensures { IsTrue result ↔ ((i : ℕ) → i < length mine.now
        → slice_index_or mine.now i false ≡ slice_index_or theirs.now i false) }
{
    for i in 0..mine.len() {
        if mine.value(i) != theirs.value(i) {
            return false;
        }
    }
    true
}

// Whether two validities of any layout have the same rows null, row by row.
fn is_each_same(mine: &Validity, theirs: &Validity, len: usize) -> bool
    requires mine { HasLength (valid_of mine.now) len }
    requires theirs { HasLength (valid_of theirs.now) len }
    ensures { IsTrue result
        ↔ ((i : ℕ) → i < len → is_valid (valid_of mine.now) i ≡ is_valid (valid_of theirs.now) i) }
{
    for i in 0..len {
        if mine.is_valid(i, len) != theirs.is_valid(i, len) {
            return false;
        }
    }
    true
}

/// The validity whose rows are null where those of the array are true.
#[tactic(auto, using(crate::proofs::Rows::inverted))]
pub fn inverse(alloc: Global, rows: &ArrayRef) -> Result<Validity, AllocError>
    requires { HasLength (by_array rows.now) (len_of rows.now) }
    ensures { IfOk result (λ v. IsInverse (by_array rows.now) (valid_of v) (len_of rows.now)) }
{
    let bits = bits_of(alloc, rows)?;
    let other = bits.not(alloc)?;
    let made = of_bits(alloc, other)?;
    Ok(made)
}

/// The validity whose rows are null where the mask doesn't keep them. It has no array where the
/// mask keeps all rows or none.
#[tactic(auto, using(crate::proofs::Rows::rows))]
pub fn of_rows(alloc: Global, mask: Mask) -> Result<Validity, AllocError>
    ensures fits { IfOk result (λ v. HasLength (valid_of v) (length mask)) }
    ensures nullability { IfOk result (λ v. nullability_by (valid_of v) ≡ nullable) }
    ensures rows { IfOk result (λ v. valid_rows (valid_of v) (length mask) ≡ mask) }
{
    if mask.all_true() {
        return Ok(Validity::AllValid);
    }
    if mask.all_false() {
        return Ok(Validity::AllInvalid);
    }
    let bits = mask.bit_buffer().clone()?;
    let made = of_bits(alloc, bits)?;
    Ok(made)
}
