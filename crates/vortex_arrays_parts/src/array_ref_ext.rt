//! The validity of an array.
ghost use Rattle.std.specs.Prelude.{◌≡◌, IfOk};
ghost use Rattle.vortex_model.specs.LogicalType.{nullable, nullability_of};
ghost use Rattle.vortex_arrays_model.specs.Layout.{Layout, array_type_of};
ghost use Rattle.vortex_arrays_core.specs.LayoutOf.{valid_of};
ghost use Rattle.vortex_arrays_parts.specs.Nulls.{HasValidity, TellsNullsOf};

use crate::slots::own_validity;
use std::alloc::{AllocError, Global};
use vortex_arrays_buffer::bit_buffer::BitBuffer;
use vortex_arrays_core::array::{ArrayRef, Validity};

/// The call of Vortex's `ArrayRef` for its validity.
pub trait ArrayRefExt {
    // The layout of the array.
    ghost layout: { Self → Layout };

    /// Which rows are null. The validity of a layout that has one is shared; for a constant or a
    /// dictionary of a nullable type, each row is read.
    fn validity(&self, alloc: Global) -> Result<Validity, AllocError>
        ensures { IfOk result (λ v. TellsNullsOf (layout self.now) (valid_of v)) };
}

impl ArrayRefExt for ArrayRef {
    ghost layout = { λ a. a };

    #[tactic(auto, using(crate::proofs::NullLemmas::told))]
    fn validity(&self, alloc: Global) -> Result<Validity, AllocError> {
        let _rows = self.len();
        if let Some(validity) = own_validity(self) {
            let shared = validity.clone()?;
            return Ok(shared);
        }
        if !self.dtype().is_nullable() {
            return Ok(Validity::NonNullable);
        }
        row_by_row(alloc, self)
    }
}

// The validity of an array of a nullable type, row by row.
#[tactic(auto, using(crate::proofs::NullLemmas::looked))]
fn row_by_row(alloc: Global, array: &ArrayRef) -> Result<Validity, AllocError>
    requires { nullability_of (array_type_of array.now) ≡ nullable }
    ensures { IfOk result (λ v. TellsNullsOf array.now (valid_of v)) }
{
    let bits = BitBuffer::collect_bool(alloc, array.len(), |i| array.is_valid(i))?;
    let valid = ArrayRef::of_bools(alloc, bits, Validity::NonNullable)?;
    Ok(Validity::Array(valid))
}
