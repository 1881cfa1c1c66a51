//! The rows that a mask keeps.
ghost use Rattle.std.specs.Prelude.{◌≡◌, length, slice_index_or, IfOk, IfErr};
ghost use Rattle.vortex_arrays_model.specs.Layout.{len_of, HasLength};
ghost use Rattle.vortex_arrays_model.specs.Picks.{Picks, PicksValid};
ghost use Rattle.vortex_arrays_buffer.specs.Bits.{positions_of};
ghost use Rattle.vortex_arrays_core.specs.Filter.{IsFilterFault};
ghost use Rattle.vortex_arrays_core.specs.LayoutOf.{valid_of};

use crate::array::{ArrayRef, Validity};
use std::alloc::{AllocError, Global};
use vortex_arrays_buffer::Mask;
use vortex_arrays_view::error::ArrayError;

impl ArrayRef {
    /// The rows that a mask keeps, as Vortex's `ArrayRef::filter`. `LengthMismatch` where the mask
    /// and the array differ in length.
    #[tactic(auto, using(crate::proofs::Gathered::positions_below))]
    pub fn filter(&self, alloc: Global, mask: &Mask) -> Result<ArrayRef, ArrayError>
        ensures made { IfOk result (λ r. (length mask.now ≡ len_of self.now)
            × Picks self.now r (length (positions_of mask.now))
            (λ i. slice_index_or (positions_of mask.now) i 0)) }
        ensures refused { IfErr result (λ e. IsFilterFault e mask.now self.now) }
    {
        if mask.len() != self.len() {
            return Err(ArrayError::LengthMismatch);
        }
        let positions = mask.indices(alloc)?;
        Ok(self.gather(alloc, &positions)?)
    }
}

impl Validity {
    /// Which of the rows that a mask keeps are null, as Vortex's `Validity::filter`.
    #[tactic(auto, using(crate::proofs::Gathered::positions_below))]
    pub fn filter(&self, alloc: Global, mask: &Mask) -> Result<Validity, AllocError>
        requires { HasLength (valid_of self.now) (length mask.now) }
        ensures { IfOk result
            (λ w. PicksValid (valid_of self.now) (valid_of w) (length (positions_of mask.now))
            (λ i. slice_index_or (positions_of mask.now) i 0)) }
    {
        let positions = mask.indices(alloc)?;
        self.gather(alloc, &positions, mask.len())
    }
}
