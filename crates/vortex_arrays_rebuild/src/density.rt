//! Which elements of a list view its lists have, and their number.
ghost use Rattle.std.specs.Prelude.{◌≡◌, ◌<◌, ℕ, false, cond, length, slice_index_or, IfOk};
ghost use Rattle.vortex_arrays_model.specs.Layout.{Layout, array_type_of, len_of, HasLength, IsOffsets};
ghost use Rattle.vortex_arrays_core.specs.LayoutOf.{valid_of};
ghost use Rattle.vortex_arrays_nested.specs.Parts.{elements_of};
ghost use Rattle.vortex_arrays_rebuild.specs.Density.{
  AllLieWithin,
  AreCovered,
  AreFurthest,
  AreValidSizes,
  IsReferencedCount,
  MarksElements,
};

use crate::read::read_indices;
use std::alloc::{AllocError, Global};
use vortex_arrays_buffer::bit_buffer::BitBuffer;
use vortex_arrays_buffer::mask::Mask;
use vortex_arrays_core::array::{ArrayRef, Validity};
use vortex_arrays_nested::list_view::ListViewArray;
use vortex_arrays_validity::validity_ext::ValidityExt;

/// The calls of Vortex's `ListViewArrayExt` on the elements that lists have.
pub trait ListViewArrayExt {
    // The layout of the array.
    ghost lists: { Self → Layout };

    /// A bit for each element, true where a list that is not null has it. Overlapping lists share
    /// elements.
    fn compute_referenced_elements_mask(&self, alloc: Global) -> Result<Mask, AllocError>
        ensures { IfOk result (λ mask. MarksElements (lists self.now) mask) };

    /// The number of elements that a list that is not null has, each counted once, and the number
    /// of all elements.
    fn compute_density(&self, alloc: Global) -> Result<(usize, usize), AllocError>
        ensures referenced { IfOk result (λ d. IsReferencedCount (lists self.now) d.0) }
        ensures elements { IfOk result (λ d. d.1 ≡ len_of (elements_of (lists self.now))) };
}

impl ListViewArrayExt for ListViewArray {
    ghost lists = { λ a. a };

    fn compute_referenced_elements_mask(&self, alloc: Global) -> Result<Mask, AllocError> {
        referenced_elements(alloc, self)
    }

    #[tactic(auto, using(crate::proofs::DensityLemmas::counted))]
    fn compute_density(&self, alloc: Global) -> Result<(usize, usize), AllocError> {
        let mask = referenced_elements(alloc, self)?;
        Ok((mask.true_count(), mask.len()))
    }
}

// The elements of the lists that are not null.
#[tactic(auto, using(crate::proofs::DensityLemmas::marked))]
fn referenced_elements(alloc: Global, lists: &ListViewArray) -> Result<Mask, AllocError>
    ensures { IfOk result (λ mask. MarksElements lists.now mask) }
{
    let slots = lists.slots();
    let count = slots.elements.len();
    let offsets = read_indices(alloc, slots.offsets)?;
    let sizes = valid_sizes(alloc, slots.sizes, slots.validity)?;
    let ends = furthest_ends(alloc, &offsets, &sizes, count)?;
    let marks = covered(alloc, &ends)?;
    let bits = BitBuffer::from_bools(alloc, &marks)?;
    Ok(Mask::from_buffer(bits))
}

/// The sizes of lists, and 0 for each null list.
#[tactic(auto, using(crate::proofs::DensityLemmas::sized))]
pub(crate) fn valid_sizes(
    alloc: Global,
    sizes: &ArrayRef,
    validity: &Validity,
) -> Result<Vec<usize>, AllocError>
    requires kind { IsOffsets (array_type_of sizes.now) }
    requires fits { HasLength (valid_of validity.now) (len_of sizes.now) }
    ensures { IfOk result (λ ns. AreValidSizes sizes.now (valid_of validity.now) ns.items) }
{
    match validity {
        Validity::NonNullable => read_indices(alloc, sizes),
        Validity::AllValid => read_indices(alloc, sizes),
        Validity::AllInvalid => vec![in alloc; 0; sizes.len()],
        Validity::Array(_) => {
            let mut counts = read_indices(alloc, sizes)?;
            let mask = validity.to_mask(alloc, sizes.len())?;
            empty_nulls(&mut counts, mask.bit_buffer());
            Ok(counts)
        }
    }
}

// Sets each size to 0 whose bit is false.
fn empty_nulls(sizes: &mut Vec<usize>, bits: &BitBuffer)
    requires { length bits.now ≡ length sizes.old.items }
    ensures many { length sizes.new.items ≡ length sizes.old.items }
    ensures each { (i : ℕ) → i < length sizes.old.items → slice_index_or sizes.new.items i 0
        ≡ cond (slice_index_or bits.now i false) (slice_index_or sizes.old.items i 0) 0 }
{
    for i in 0..sizes.len() {
        if !bits.value(i) {
            sizes[i] = 0;
        }
    }
}

// For each of `count` elements the greatest end of the lists that begin at it and are not empty,
// and 0 where none begins.
#[tactic(auto, using(crate::proofs::DensityLemmas::reached))]
fn furthest_ends(
    alloc: Global,
    offsets: &[usize],
    sizes: &[usize],
    count: usize,
) -> Result<Vec<usize>, AllocError>
    requires many { length sizes.now ≡ length offsets.now }
    requires within { AllLieWithin offsets.now sizes.now count }
    ensures { IfOk result
        (λ ends. AreFurthest offsets.now sizes.now (length offsets.now) count ends.items) }
{
    let mut ends = vec![in alloc; 0; count]?;
    for i in 0..offsets.len() {
        if sizes[i] > 0 {
            let start = offsets[i];
            ends[start] = (start + sizes[i]).max(ends[start]);
        }
    }
    Ok(ends)
}

// For each element whether it is before the end of a list that begins at or before it.
#[tactic(auto, using(crate::proofs::DensityLemmas::covering))]
fn covered(alloc: Global, ends: &[usize]) -> Result<Vec<bool>, AllocError>
    ensures { IfOk result (λ marks. AreCovered ends.now (length ends.now) marks.items) }
{
    let mut marks = vec![in alloc; false; ends.len()]?;
    let mut end = 0;
    for j in 0..ends.len() {
        end = ends[j].max(end);
        marks[j] = j < end;
    }
    Ok(marks)
}
