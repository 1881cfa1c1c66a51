//! Offsets and sizes of lists as native integers.
ghost use Rattle.std.specs.Prelude.{IfOk};
ghost use Rattle.vortex_arrays_model.specs.Layout.{array_type_of, IsOffsets};
ghost use Rattle.vortex_arrays_rebuild.specs.Indices.{AreRead};

use std::alloc::{AllocError, Global};
use vortex_arrays_core::array::ArrayRef;
use vortex_arrays_validity::places::places_or;

/// The offsets or the sizes of lists.
#[tactic(auto, using(crate::proofs::ReadLemmas::read))]
pub(crate) fn read_indices(alloc: Global, array: &ArrayRef) -> Result<Vec<usize>, AllocError>
    requires { IsOffsets (array_type_of array.now) }
    ensures { IfOk result (λ indices. AreRead array.now indices.items) }
{
    let indices = places_or(alloc, array, 0)?;
    Ok(indices)
}
