//! List views rebuilt.
ghost use Rattle.std.specs.Prelude.{◌≡◌, false, IfOk, IfErr};
ghost use Rattle.vortex_arrays_model.specs.Layout.{Layout, list_views, rows_of, IsSound};
ghost use Rattle.vortex_arrays_model.specs.Canonical.{IsLaidOut};
ghost use Rattle.vortex_arrays_core.specs.LayoutOf.{valid_of};
ghost use Rattle.vortex_arrays_view.specs.declared.error.ArrayError.TheVariants.{Memory};
ghost use Rattle.vortex_arrays_rebuild.specs.declared.rebuild.ListViewRebuildMode.TheVariants.{
  MakeExact,
  OverlapCompression,
};
ghost use Rattle.vortex_arrays_rebuild.specs.Rebuilds.{
  IsCompressionFault,
  IsRebuiltBy,
  IsRebuiltView,
  IsRebuildFault,
  IsSumFault,
  IsTotalFault,
};
ghost use Rattle.vortex_arrays_rebuild.specs.Trims.{HasElementsBetween, LieBetween};

use crate::copy::{of_u64, rows_in};
use crate::plan::plan_layout;
use crate::trim::{trim_between, trim_to_bounds};
use std::alloc::Global;
use vortex_arrays_core::array::{ArrayRef, Validity};
use vortex_arrays_nested::list_view::ListViewArray;
use vortex_arrays_view::error::ArrayError;

/// How a list view is rebuilt, as Vortex's `ListViewRebuildMode`.
#[derive(Clone, Copy, Debug, PartialEq, Eq)]
pub enum ListViewRebuildMode {
    /// Makes the lists end to end without gaps, with no elements in null lists, and offsets and
    /// sizes of `u64`. A view with the flag set, and one without rows, stays as it is.
    MakeZeroCopyToList,
    /// Drops the elements before the least offset and from the greatest end on. Lists may still
    /// overlap and leave out elements.
    TrimElements,
    /// `TrimElements` for a view with the flag set, else `MakeZeroCopyToList`.
    MakeExact,
    /// Would store elements that lists share only once; not implemented.
    OverlapCompression,
}

/// The calls that rebuild a list view.
pub trait ListViewRebuild {
    // The layout of the array.
    ghost lists: { Self → Layout };

    /// The same rows in another layout, as Vortex's `ListViewArray::rebuild`.
    ///
    /// `Total` where the sizes of the lists of an unflagged view, null ones as 0, sum to 2^64 or
    /// more; `NotImplemented` for `OverlapCompression` of a view with rows.
    fn rebuild(&self, alloc: Global, mode: ListViewRebuildMode) -> Result<ListViewArray, ArrayError>
        ensures made { IfOk result (λ r. IsRebuiltBy mode (lists self.now) r) }
        ensures refused { IfErr result (λ e. IsRebuildFault mode (lists self.now) e) };

    /// The same rows with only the elements from `start` to `end`, as Vortex's
    /// `ListViewArray::trim_elements`. Each list has to be within this range, also a null or an
    /// empty one; `referenced_element_bounds` has the least such range. `Memory` is the only error.
    fn trim_elements(
        &self,
        alloc: Global,
        start: usize,
        end: usize,
    ) -> Result<ListViewArray, ArrayError>
        requires { LieBetween (lists self.now) start end }
        ensures made { IfOk result (λ r. HasElementsBetween (lists self.now) start end r) }
        ensures refused { IfErr result (λ e. e ≡ Memory) };
}

impl ListViewRebuild for ListViewArray {
    ghost lists = { λ a. a };

    fn rebuild(
        &self,
        alloc: Global,
        mode: ListViewRebuildMode,
    ) -> Result<ListViewArray, ArrayError> {
        match mode {
            ListViewRebuildMode::MakeZeroCopyToList => make_zero_copy_to_list(alloc, self),
            ListViewRebuildMode::TrimElements => trim_to_bounds(alloc, self),
            ListViewRebuildMode::MakeExact => make_exact(alloc, self),
            ListViewRebuildMode::OverlapCompression => compress_overlap(self),
        }
    }

    fn trim_elements(
        &self,
        alloc: Global,
        start: usize,
        end: usize,
    ) -> Result<ListViewArray, ArrayError> {
        trim_between(alloc, self, start, end)
    }
}

// The view itself where it is flagged or has no rows, else its rows without gaps.
#[tactic(auto, using(crate::proofs::RebuildLemmas::made))]
fn make_zero_copy_to_list(alloc: Global, lists: &ListViewArray) -> Result<ListViewArray, ArrayError>
    ensures made { IfOk result (λ r. IsRebuiltView lists.now r) }
    ensures refused { IfErr result (λ e. IsTotalFault e lists.now) }
{
    let slots = lists.slots();
    if slots.is_zero_copy_to_list {
        return Ok(lists.clone()?);
    }
    if lists.is_empty() {
        return Ok(lists.clone()?);
    }
    let validity = slots.validity.clone()?;
    let array = lay_out(alloc, slots.elements, slots.offsets, slots.sizes, validity)?;
    match ListViewArray::of_array(array) {
        Ok(lists) => Ok(lists),
        Err(_other) => unreachable!(),
    }
}

// The rows of an unflagged view without gaps.
#[tactic(auto, using(crate::proofs::RebuildLemmas::laid))]
fn lay_out(
    alloc: Global,
    elements: &ArrayRef,
    offsets: &ArrayRef,
    sizes: &ArrayRef,
    validity: Validity,
) -> Result<ArrayRef, ArrayError>
    requires { IsSound (list_views elements.now offsets.now sizes.now false (valid_of validity)) }
    ensures made { IfOk result
        (λ r. IsLaidOut elements.now offsets.now sizes.now (valid_of validity) r) }
    ensures refused { IfErr result (λ e. IsSumFault e
        (rows_of (list_views elements.now offsets.now sizes.now false (valid_of validity)))) }
{
    let plan = plan_layout(alloc, elements, offsets, sizes, &validity)?;
    let items = rows_in(alloc, elements, &plan.runs)?;
    let starts = of_u64(alloc, plan.offsets)?;
    let counts = of_u64(alloc, plan.sizes)?;
    let array = ArrayRef::of_list_views(alloc, items, starts, counts, true, validity)?;
    Ok(array)
}

// A flagged view trimmed, or the rows of another one without gaps.
fn make_exact(alloc: Global, lists: &ListViewArray) -> Result<ListViewArray, ArrayError>
    ensures made { IfOk result
        (λ r. IsRebuiltBy MakeExact lists.now r) }
    ensures refused { IfErr result (λ e. IsTotalFault e lists.now) }
{
    if lists.is_zero_copy_to_list() {
        trim_to_bounds(alloc, lists)
    } else {
        make_zero_copy_to_list(alloc, lists)
    }
}

// A view without rows, as it is.
fn compress_overlap(lists: &ListViewArray) -> Result<ListViewArray, ArrayError>
    ensures made { IfOk result (λ r. IsRebuiltBy OverlapCompression lists.now r) }
    ensures refused { IfErr result (λ e. IsCompressionFault e lists.now) }
{
    if lists.is_empty() {
        Ok(lists.clone()?)
    } else {
        Err(ArrayError::NotImplemented)
    }
}
