//! Boolean arrays as masks.
ghost use Rattle.std.specs.Prelude.{◌≡◌, map, IfOk};
ghost use Rattle.vortex_arrays_model.specs.Layout.{Layout, is_truth, rows_of};

use std::alloc::{AllocError, Global};
use vortex_arrays_buffer::mask::Mask;
use vortex_arrays_core::array::Validity;
use vortex_arrays_leaf::bool_array::BoolArray;
use vortex_arrays_validity::validity_ext::ValidityExt;

/// The call of Vortex's `BoolArrayExt` that reads booleans as a mask.
pub trait BoolArrayExt: Sized {
    // The layout of the array.
    ghost layout: { Self → Layout };

    /// The mask of the rows that are true. A null row is not. Bits of an array without nulls are
    /// shared.
    fn to_mask_fill_null_false(&self, alloc: Global) -> Result<Mask, AllocError>
        ensures { IfOk result (λ mask. mask ≡ map is_truth (rows_of (layout self.now))) };
}

impl BoolArrayExt for BoolArray {
    ghost layout = { λ a. a };

    #[tactic(auto, using(crate::proofs::MaskLemmas::masks))]
    fn to_mask_fill_null_false(&self, alloc: Global) -> Result<Mask, AllocError> {
        let len = self.as_array().len();
        let bits = self.to_bit_buffer()?;
        let validity = self.validity()?;
        match &validity {
            Validity::NonNullable => Ok(Mask::from_buffer(bits)),
            Validity::AllValid => Ok(Mask::from_buffer(bits)),
            Validity::AllInvalid => Mask::new_false(alloc, len),
            Validity::Array(_) => {
                let rows = validity.to_mask(alloc, len)?;
                let both = bits.and(alloc, rows.bit_buffer())?;
                Ok(Mask::from_buffer(both))
            }
        }
    }
}
