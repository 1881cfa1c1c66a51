//! Which rows are null, combined validities, and whether a validity fits an array.
ghost use Rattle.std.specs.Prelude.{◌≡◌, is_some, IfOk, IfErr, IfSome};
ghost use Rattle.vortex_dtype_ptype.specs.View.{nullability_of_flag};
ghost use Rattle.vortex_arrays_model.specs.Layout.{nullability_by, bools, required, by_array, len_of, HasLength};
ghost use Rattle.vortex_arrays_model.specs.Column.{IsValidInBoth};
ghost use Rattle.vortex_arrays_core.specs.LayoutOf.{valid_of, is_packed};
ghost use Rattle.vortex_arrays_core.specs.Faults.{IsValidityFault};

use crate::array::{ArrayLayout, ArrayRef, Validity};
use std::alloc::{AllocError, Global};
use vortex_arrays_buffer::BitBuffer;
use vortex_arrays_view::error::ArrayError;
use vortex_dtype_ptype::nullability::Nullability;

impl Validity {
    /// Whether a row can be null.
    pub fn nullability(&self) -> Nullability
        ensures { nullability_of_flag result ≡ nullability_by (valid_of self.now) }
    {
        match self {
            Validity::NonNullable => Nullability::NonNullable,
            _ => Nullability::Nullable,
        }
    }

    /// Tests that the validity fits an array of `len` rows.
    ///
    /// `WrongType` where its array does not have the type of booleans without null, else
    /// `LengthMismatch` where that array does not have `len` rows.
    pub fn check_len(&self, len: usize) -> Result<(), ArrayError>
        ensures fits { IfOk result (λ _. HasLength (valid_of self.now) len) }
        ensures refused { IfErr result (λ e. IsValidityFault e (valid_of self.now) len) }
    {
        let Validity::Array(bits) = self else {
            return Ok(());
        };
        bits.is_sound();
        if !bits.is_non_nullable_bool() {
            return Err(ArrayError::WrongType);
        }
        if bits.len() != len {
            return Err(ArrayError::LengthMismatch);
        }
        Ok(())
    }

    /// The bits that are true where a row is not null, if the validity has them packed.
    pub fn packed(&self) -> Option<&BitBuffer>
        ensures when { is_some result ≡ is_packed (valid_of self.now) }
        ensures bits { IfSome result (λ b. valid_of self.now ≡ by_array (bools b.now required)) }
    {
        if let Validity::Array(rows) = self {
            if let ArrayLayout::Bool(bits, Validity::NonNullable) = &rows.data.layout {
                return Some(bits);
            }
        }
        None
    }

    /// Null where either is, as Vortex's `Validity::and`.
    #[tactic(auto, using(vortex_arrays_model::proofs::PushLemmas::meets))]
    pub fn and(&self, alloc: Global, other: &Validity, len: usize) -> Result<Validity, AllocError>
        requires mine { HasLength (valid_of self.now) len }
        requires theirs { HasLength (valid_of other.now) len }
        ensures { IfOk result (λ both. IsValidInBoth (valid_of self.now) (valid_of other.now)
            (valid_of both) len) }
    {
        match (self, other) {
            (Validity::NonNullable, _) => Ok(other.clone()?),
            (_, Validity::NonNullable) => Ok(self.clone()?),
            (Validity::AllInvalid, _) => Ok(Validity::AllInvalid),
            (_, Validity::AllInvalid) => Ok(Validity::AllInvalid),
            (Validity::AllValid, Validity::AllValid) => Ok(Validity::AllValid),
            (Validity::AllValid, Validity::Array(theirs)) => Ok(Validity::Array(theirs.clone()?)),
            (Validity::Array(mine), Validity::AllValid) => Ok(Validity::Array(mine.clone()?)),
            (Validity::Array(mine), Validity::Array(theirs)) => {
                let both = true_in_both(alloc, mine, theirs)?;
                Ok(Validity::Array(both))
            }
        }
    }
}

impl Clone for Validity {
    ghost is_clone = { λ old new. valid_of new ≡ valid_of old };

    fn clone(&self) -> Result<Validity, AllocError> {
        match self {
            Validity::NonNullable => Ok(Validity::NonNullable),
            Validity::AllValid => Ok(Validity::AllValid),
            Validity::AllInvalid => Ok(Validity::AllInvalid),
            Validity::Array(bits) => Ok(Validity::Array(bits.clone()?)),
        }
    }
}

// True where both are, of arrays of one length.
fn true_in_both(alloc: Global, mine: &ArrayRef, theirs: &ArrayRef) -> Result<ArrayRef, AllocError>
    requires { len_of theirs.now ≡ len_of mine.now }
    ensures { IfOk result (λ both. IsValidInBoth (by_array mine.now) (by_array theirs.now)
        (by_array both) (len_of mine.now)) }
{
    if let ArrayLayout::Bool(ours, Validity::NonNullable) = &mine.data.layout {
        if let ArrayLayout::Bool(others, Validity::NonNullable) = &theirs.data.layout {
            return ArrayRef::of_bools(alloc, ours.and(alloc, others)?, Validity::NonNullable);
        }
    }
    let bits = BitBuffer::collect_bool(alloc, mine.len(), |i| mine.truth(i) && theirs.truth(i))?;
    ArrayRef::of_bools(alloc, bits, Validity::NonNullable)
}
