//! Rows overwritten at indices.
ghost use Rattle.std.specs.Prelude.{◌≡◌, ◌≢◌, ◌<◌, ◌↔◌, ℕ, length, IsTrue, slice_index_or, false, IfOk, OnOk, IfErr};
ghost use Rattle.vortex_model.specs.LogicalType.{either_nullable, nullable};
ghost use Rattle.vortex_arrays_model.specs.Layout.{nullability_by, HasLength};
ghost use Rattle.vortex_arrays_view.specs.declared.error.ArrayError.TheVariants.{Memory};
ghost use Rattle.vortex_arrays_core.specs.LayoutOf.{valid_of};
ghost use Rattle.vortex_arrays_validity.specs.Places.{IsNamedLast, IsUnnamed};
ghost use Rattle.vortex_arrays_validity.specs.Validities.{valid_rows, CanPatch, IsPatched, IsPatchFault};

use crate::bits::{bits_of, of_rows};
use crate::places::places_or;
use std::alloc::{AllocError, Global};
use vortex_arrays_buffer::{BitBuffer, Mask};
use vortex_arrays_core::array::{ArrayRef, Validity};
use vortex_arrays_view::error::ArrayError;

/// Tests that rows can be overwritten as `ValidityExt::patch` does.
#[tactic(auto, using(crate::proofs::Patches::types))]
pub fn check_patches(len: usize, places: &ArrayRef, patches: &Validity) -> Result<(), ArrayError>
    ensures fits { OnOk result (CanPatch len places.now (valid_of patches.now)) }
    ensures refused { IfErr result
        (λ e. IsPatchFault e len places.now (valid_of patches.now)) }
    ensures memory { IfErr result (λ e. e ≢ Memory) }
{
    if !places.is_unsigned() {
        return Err(ArrayError::WrongType);
    }
    let fits = patches.check_len(places.len());
    if let Err(ArrayError::WrongType) = fits {
        return Err(ArrayError::WrongType);
    }
    if !places.are_within(len) {
        return Err(ArrayError::OutOfRange);
    }
    fits
}

/// The validity with the rows at the indices overwritten by those of another.
#[tactic(auto, using(crate::proofs::Rows::patches))]
pub fn patched(
    alloc: Global,
    validity: &Validity,
    len: usize,
    places: &ArrayRef,
    patches: &Validity,
) -> Result<Validity, AllocError>
    requires mine { HasLength (valid_of validity.now) len }
    requires places { CanPatch len places.now (valid_of patches.now) }
    ensures { IfOk result (λ w. IsPatched (valid_of validity.now) (valid_of patches.now) places.now
        (valid_of w) len) }
{
    if !may_be_null(validity, patches) {
        return Ok(Validity::NonNullable);
    }
    let mut rows = all_rows(alloc, validity, len)?;
    let theirs = all_rows(alloc, patches, places.len())?;
    let indices = places_or(alloc, places, len)?;
    overwrite(&mut rows, &indices, &theirs);
    let bits = BitBuffer::from_bools(alloc, &rows)?;
    let made = of_rows(alloc, Mask::from_buffer(bits))?;
    Ok(made)
}

// Whether a row can be null in either of the two.
#[tactic(auto, using(crate::proofs::Rows::either_null))]
fn may_be_null(mine: &Validity, theirs: &Validity) -> bool
    ensures { IsTrue result ↔ (either_nullable (nullability_by (valid_of mine.now))
        (nullability_by (valid_of theirs.now)) ≡ nullable) }
{
    mine.nullability().is_nullable() || theirs.nullability().is_nullable()
}

// For each row, whether it is not null.
#[tactic(auto, using(crate::proofs::Rows::masks))]
fn all_rows(alloc: Global, validity: &Validity, len: usize) -> Result<Vec<bool>, AllocError>
    requires { HasLength (valid_of validity.now) len }
    ensures { IfOk result (λ rows. rows.items ≡ valid_rows (valid_of validity.now) len) }
{
    match validity {
        Validity::NonNullable => vec![in alloc; true; len],
        Validity::AllValid => vec![in alloc; true; len],
        Validity::AllInvalid => vec![in alloc; false; len],
        Validity::Array(rows) => {
            let bits = bits_of(alloc, rows)?;
            bits.to_bools(alloc)
        }
    }
}

// Overwrites the rows at the indices, one after another. An index past the rows is ignored.
#[tactic(auto, using(crate::proofs::Overwritten::steps))]
fn overwrite(rows: &mut [bool], places: &[usize], patches: &[bool])
    requires { length patches.now ≡ length places.now }
    ensures count { length rows.new ≡ length rows.old }
    ensures kept { (j : ℕ) → IsUnnamed places.now (length places.now) j
        → slice_index_or rows.new j false ≡ slice_index_or rows.old j false }
    ensures overwritten { (j k : ℕ) → j < length rows.old
        → IsNamedLast places.now (length places.now) j k
        → slice_index_or rows.new j false ≡ slice_index_or patches.now k false }
{
    for k in 0..places.len() {
        let place = places[k];
        if place < rows.len() {
            rows[place] = patches[k];
        }
    }
}
