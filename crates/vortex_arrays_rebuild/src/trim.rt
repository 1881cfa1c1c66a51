//! List views without the elements before or after all lists.
ghost use Rattle.std.specs.Prelude.{◌≡◌, ◌<◌, ◌-◌, pos, length, map, slice_index_or, IfOk, IfErr, IsTrue, All};
ghost use Rattle.vortex_dtype_ptype.specs.Numbers.{integral, is_integral};
ghost use Rattle.vortex_dtype_ptype.specs.View.{number_kind_of};
ghost use Rattle.vortex_arrays_view.specs.declared.error.ArrayError.TheVariants.{Memory};
ghost use Rattle.vortex_arrays_model.specs.Layout.{array_type_of, list_views, IsOffsets, IsSound};
ghost use Rattle.vortex_arrays_core.specs.LayoutOf.{valid_of};
ghost use Rattle.vortex_arrays_rebuild.specs.Indices.{AreAtMost};
ghost use Rattle.vortex_arrays_rebuild.specs.Trims.{
  HasElementsBetween,
  HasLowered,
  HasNatural,
  IsLowered,
  IsTrimmedView,
  LieBetween,
};

use crate::read::read_indices;
use std::alloc::{AllocError, Global};
use vortex_arrays_buffer::buffer::Buffer;
use vortex_arrays_buffer::element::Element;
use vortex_arrays_buffer::primitive_buffer::PrimitiveBuffer;
use vortex_arrays_core::array::{ArrayRef, Validity};
use vortex_arrays_leaf::primitive_array::PrimitiveArray;
use vortex_arrays_nested::list_view::{ListViewArray, ListViewSlots};
use vortex_arrays_view::error::ArrayError;
use vortex_dtype_native::match_each_integer_ptype;
use vortex_dtype_ptype::ptype::PType;

/// The view with only the elements from the least offset to the greatest end, none without rows.
#[tactic(auto, using(crate::proofs::TrimLemmas::trimmed))]
pub(crate) fn trim_to_bounds(
    alloc: Global,
    lists: &ListViewArray,
) -> Result<ListViewArray, ArrayError>
    ensures made { IfOk result (λ r. IsTrimmedView lists.now r) }
    ensures refused { IfErr result (λ e. e ≡ Memory) }
{
    match lists.referenced_element_bounds() {
        Some(bounds) => trim_between(alloc, lists, bounds.0, bounds.1),
        None => trim_between(alloc, lists, 0, 0),
    }
}

/// The view with only the elements of a range, in which each list is.
pub(crate) fn trim_between(
    alloc: Global,
    lists: &ListViewArray,
    start: usize,
    end: usize,
) -> Result<ListViewArray, ArrayError>
    requires { LieBetween lists.now start end }
    ensures made { IfOk result (λ r. HasElementsBetween lists.now start end r) }
    ensures refused { IfErr result (λ e. e ≡ Memory) }
{
    let slots = lists.slots();
    let array = trim_slots(alloc, &slots, start, end)?;
    match ListViewArray::of_array(array) {
        Ok(lists) => Ok(lists),
        Err(_other) => unreachable!(),
    }
}

// The view of these parts with only the elements from `start` to `end`.
#[tactic(auto, using(crate::proofs::TrimLemmas::between))]
fn trim_slots(
    alloc: Global,
    slots: &ListViewSlots<'_>,
    start: usize,
    end: usize,
) -> Result<ArrayRef, ArrayError>
    requires sound { IsSound (list_views slots.now.elements.now slots.now.offsets.now
        slots.now.sizes.now slots.now.is_zero_copy_to_list (valid_of slots.now.validity.now)) }
    requires between { LieBetween (list_views slots.now.elements.now slots.now.offsets.now
        slots.now.sizes.now slots.now.is_zero_copy_to_list (valid_of slots.now.validity.now))
        start end }
    ensures made { IfOk result (λ r. HasElementsBetween (list_views slots.now.elements.now
        slots.now.offsets.now slots.now.sizes.now slots.now.is_zero_copy_to_list
        (valid_of slots.now.validity.now)) start end r) }
    ensures refused { IfErr result (λ e. e ≡ Memory) }
{
    let elements = slots.elements.slice(alloc, start..end)?;
    let count = slots.elements.len();
    let offsets = lower_offsets(alloc, slots.offsets, start, count)?;
    let sizes = slots.sizes.clone()?;
    let flag = slots.is_zero_copy_to_list;
    let validity = slots.validity.clone()?;
    let array = ArrayRef::of_list_views(alloc, elements, offsets, sizes, flag, validity)?;
    Ok(array)
}

// The offsets minus `by`, of the same type, and shared where that is 0. Each of them is at least
// `by` and at most the bound.
#[tactic(auto, using(crate::proofs::TrimLemmas::lowered))]
fn lower_offsets(
    alloc: Global,
    offsets: &ArrayRef,
    by: usize,
    bound: usize,
) -> Result<ArrayRef, ArrayError>
    requires kind { IsOffsets (array_type_of offsets.now) }
    requires within { AreAtMost bound offsets.now }
    requires sound { IsSound offsets.now }
    ensures made { IfOk result (λ r. IsLowered offsets.now by r) }
    ensures same { IfOk result (λ r. by ≡ 0 → r ≡ offsets.now) }
    ensures refused { IfErr result (λ e. e ≡ Memory) }
{
    if by == 0 {
        return Ok(offsets.clone()?);
    }
    let _bound = bound;
    let starts = read_indices(alloc, offsets)?;
    match offsets.dtype().as_ptype_opt() {
        Some(ptype) => lower_to_kind(alloc, ptype, &starts, by),
        None => unreachable!(),
    }
}

// Integers of a type, lowered.
fn lower_to_kind(
    alloc: Global,
    ptype: PType,
    starts: &[usize],
    by: usize,
) -> Result<ArrayRef, ArrayError>
    requires whole { IsTrue (is_integral (number_kind_of ptype)) }
    requires held { All (HasNatural (number_kind_of ptype)) starts.now }
    ensures made { IfOk result (λ r. HasLowered (number_kind_of ptype) starts.now by r) }
    ensures refused { IfErr result (λ e. e ≡ Memory) }
{
    match_each_integer_ptype!(ptype, lower(alloc, starts, by))
}

// Integers of a native type, lowered.
#[tactic(auto, using(crate::proofs::TrimLemmas::lowering))]
fn lower<T: Element>(alloc: Global, starts: &[usize], by: usize) -> Result<ArrayRef, ArrayError>
    requires { All (HasNatural (integral T.kind)) starts.now }
    ensures made { IfOk result (λ r. HasLowered (integral T.kind) starts.now by r) }
    ensures refused { IfErr result (λ e. e ≡ Memory) }
{
    let lowered: Vec<T> = lower_each(alloc, starts, by)?;
    let items = PrimitiveBuffer::from_buffer(Buffer::from_vec(lowered)?);
    let array = PrimitiveArray::try_new(alloc, items, Validity::NonNullable)?;
    Ok(array.into_array())
}

// Each integer lowered, in a native type.
fn lower_each<T: Element>(alloc: Global, starts: &[usize], by: usize) -> Result<Vec<T>, AllocError>
    requires { All (HasNatural (integral T.kind)) starts.now }
    ensures { IfOk result (λ lowered. map T.integer lowered.items
        ≡ map (λ x. pos (x - by)) starts.now) }
{
    (0..starts.len())
        .map(|i| lowered_at(starts, i, by))
        .collect(alloc)
}

// The integer at an index, lowered.
#[tactic(auto, using(crate::proofs::TrimLemmas::lowering))]
fn lowered_at<T: Element>(starts: &[usize], i: usize, by: usize) -> T
    requires place { i < length starts.now }
    requires held { All (HasNatural (integral T.kind)) starts.now }
    ensures { T.integer result ≡ pos (slice_index_or starts.now i 0 - by) }
{
    number_of(starts[i].saturating_sub(by))
}

// An integer that the type has.
#[tactic(auto, using(crate::proofs::TrimLemmas::tested))]
fn number_of<T: Element>(number: usize) -> T
    requires { HasNatural (integral T.kind) number }
    ensures { T.integer result ≡ pos number }
{
    match T::of(number as i128) {
        Some(number) => number,
        None => unreachable!(),
    }
}
