//! The elements of fixed-size lists.
ghost use Rattle.std.specs.Prelude.{◌≡◌, map, IfOk, IfSome, All};
ghost use Rattle.vortex_arrays_concat.specs.FixedLists.{AreFixedLists, elements_in};

use std::alloc::{AllocError, Global};
use vortex_arrays_core::array::{ArrayLayout, ArrayRef};

/// The elements of each array, if all are of lists of this size.
#[tactic(auto, using(crate::proofs::FixedLemmas::gathered))]
pub(crate) fn elements_of_all(
    alloc: Global,
    size: u32,
    arrays: &[ArrayRef],
) -> Result<Option<Vec<ArrayRef>>, AllocError>
    ensures kinds { IfOk result
        (λ found. IfSome found (λ parts. All (AreFixedLists size) arrays.now)) }
    ensures parts { IfOk result
        (λ found. IfSome found (λ parts. parts.items ≡ map elements_in arrays.now)) }
{
    let mut parts = Vec::with_capacity(alloc, arrays.len())?;
    for array in arrays {
        match elements_of(size, array) {
            Some(elements) => parts.push(elements.clone()?)?,
            None => return Ok(None),
        }
    }
    Ok(Some(parts))
}

fn elements_of(size: u32, array: &ArrayRef) -> Option<&ArrayRef>
    ensures kind { IfSome result (λ elements. AreFixedLists size array.now) }
    ensures elements { IfSome result (λ elements. elements.now ≡ elements_in array.now) }
{
    match array.layout() {
        ArrayLayout::FixedSizeList(elements, own, _, _) if *own == size => Some(elements),
        _ => None,
    }
}
