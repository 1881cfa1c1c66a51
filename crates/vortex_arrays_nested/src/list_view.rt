//! Arrays of lists of any size.
ghost use Rattle.std.specs.Prelude.{◌≡◌, ◌≢◌, ◌<◌, ◌≤◌, ◌+◌, ◌-◌, ◌^◌, ◌==◌, ◌↔◌, false, IsTrue, OnOk, IfOk, IfErr, IfSome, MatchOption, MatchResult, min, sum_by};
ghost use Rattle.vortex_model.specs.LogicalType.{nullability_of};
ghost use Rattle.vortex_dtype_ptype.specs.View.{nullability_of_flag};
ghost use Rattle.vortex_dtype_core.specs.View.{type_of};
ghost use Rattle.vortex_arrays_view.specs.declared.error.ArrayError.TheVariants.{Memory};
ghost use Rattle.vortex_arrays_model.specs.Layout.{list_views, len_of, array_type_of, content_at, number_in, rows_of, AreEndToEnd, IsSound};
ghost use Rattle.vortex_arrays_model.specs.Picks.{Picks};
ghost use Rattle.vortex_arrays_model.specs.Trimmed.{AreBounds};
ghost use Rattle.vortex_arrays_core.specs.Flags.{flags_of};
ghost use Rattle.vortex_arrays_core.specs.LayoutOf.{valid_of};
ghost use Rattle.vortex_arrays_nested.specs.ListViews.{IsListViews, AreTyped, AreAsMany, LieWithin, IsListViewFault};
ghost use Rattle.vortex_arrays_nested.specs.Parts.{elements_of, offsets_of, sizes_of, is_flagged};
ghost use Rattle.vortex_arrays_model.specs.Parts.{valid_in};

use crate::bounds::{element_bounds, total_size};
use crate::views::{are_end_to_end, has_offsets, lie_within};
use std::alloc::{AllocError, Global};
use std::marker::Model;
use vortex_arrays_core::array::{ArrayLayout, ArrayRef, Validity};
use vortex_arrays_core::scalar::view_at;
use vortex_arrays_view::error::ArrayError;
use vortex_dtype_core::dtype::DType;
use vortex_dtype_ptype::nullability::Nullability;

/// Lists by an offset and a size each, as Vortex's `ListViewArray`. A clone shares the array.
///
/// Lists may overlap, leave out elements and be in any order.
#[derive(Drop)]
pub struct ListViewArray {
    array: ArrayRef,
}

impl Model for ListViewArray {
    ghost use Rattle.vortex_arrays_model.specs.Layout.{Layout};
    ghost use Rattle.vortex_arrays_model.specs.LayoutCode.{layout_code};
    ghost use Rattle.vortex_arrays_nested.specs.ListViews.{IsListViews};

    ghost Value = { Layout };

    ghost coded = { layout_code };

    ghost view = { λ a. a.array };

    ghost invariant = { λ a. IsListViews a.array };
}

/// The parts of a `ListViewArray`, as Vortex's `ListViewDataParts`.
#[derive(Clone, Drop)]
pub struct ListViewDataParts {
    /// The elements of all lists, and maybe others.
    pub elements: ArrayRef,
    /// The index of each list's first element.
    pub offsets: ArrayRef,
    /// The number of elements of each list.
    pub sizes: ArrayRef,
    /// Which lists are null.
    pub validity: Validity,
}

/// The parts of a `ListViewArray`, borrowed, as Vortex's `ListViewSlots`.
#[derive(Clone, Copy, Drop)]
pub struct ListViewSlots<'a> {
    /// The elements of all lists, and maybe others.
    pub elements: &'a ArrayRef,
    /// The index of each list's first element.
    pub offsets: &'a ArrayRef,
    /// The number of elements of each list.
    pub sizes: &'a ArrayRef,
    /// Whether each list is known to begin where the one before ends.
    pub is_zero_copy_to_list: bool,
    /// Which lists are null.
    pub validity: &'a Validity,
}

impl ListViewArray {
    /// Lists of these parts, as Vortex's `ListViewArray::try_new`. They are not known to follow one
    /// another.
    ///
    /// `WrongType` where the offsets or the sizes are not of an integer type without null, or the
    /// validity's array does not have the type of booleans without null. Else `LengthMismatch`
    /// where the sizes or the validity differ in length from the offsets. Else `ViewOutOfRange`
    /// where a list, null or not, is not within the elements.
    pub fn try_new(
        alloc: Global,
        elements: ArrayRef,
        offsets: ArrayRef,
        sizes: ArrayRef,
        validity: Validity,
    ) -> Result<ListViewArray, ArrayError>
        ensures made { IfOk result
            (λ a. a ≡ list_views elements offsets sizes false (valid_of validity)) }
        ensures sound { IfOk result (λ a. IsSound a) }
        ensures refused { IfErr result
            (λ e. IsListViewFault e elements offsets sizes (valid_of validity)) }
    {
        ListViewArray::validate(&elements, &offsets, &sizes, &validity)?;
        let array = ListViewArray::new_unchecked(alloc, elements, offsets, sizes, validity)?;
        Ok(array)
    }

    /// Lists of parts that fit together, as Vortex's `ListViewArray::new`, which panics where they
    /// do not. `validate` tests that.
    pub fn new(
        alloc: Global,
        elements: ArrayRef,
        offsets: ArrayRef,
        sizes: ArrayRef,
        validity: Validity,
    ) -> Result<ListViewArray, AllocError>
        requires typed { AreTyped offsets sizes (valid_of validity) }
        requires many { AreAsMany offsets sizes (valid_of validity) }
        requires within { LieWithin (len_of elements) offsets sizes }
        ensures { IfOk result
            (λ a. a ≡ list_views elements offsets sizes false (valid_of validity)) }
    {
        ListViewArray::new_unchecked(alloc, elements, offsets, sizes, validity)
    }

    /// Lists of these parts, as Vortex's `ListViewArray::new_unchecked`.
    pub fn new_unchecked(
        alloc: Global,
        elements: ArrayRef,
        offsets: ArrayRef,
        sizes: ArrayRef,
        validity: Validity,
    ) -> Result<ListViewArray, AllocError>
        requires { IsSound elements → IsSound offsets → IsSound sizes
            → IsSound (list_views elements offsets sizes false (valid_of validity)) }
        ensures { IfOk result
            (λ a. a ≡ list_views elements offsets sizes false (valid_of validity)) }
    {
        let array = ArrayRef::of_list_views(alloc, elements, offsets, sizes, false, validity)?;
        Ok(ListViewArray { array })
    }

    /// Tests that the parts fit together, as `try_new` does.
    #[tactic(auto, using(crate::proofs::ListLemmas::validity_faults))]
    pub fn validate(
        elements: &ArrayRef,
        offsets: &ArrayRef,
        sizes: &ArrayRef,
        validity: &Validity,
    ) -> Result<(), ArrayError>
        ensures sound { OnOk result
            (IsSound (list_views elements.now offsets.now sizes.now false
            (valid_of validity.now))) }
        ensures refused { IfErr result (λ e. IsListViewFault e elements.now offsets.now sizes.now
            (valid_of validity.now)) }
        ensures memory { IfErr result (λ e. e ≢ Memory) }
    {
        if !has_offsets(offsets) || !has_offsets(sizes) {
            return Err(ArrayError::WrongType);
        }
        validity.check_len(offsets.len())?;
        if sizes.len() != offsets.len() {
            return Err(ArrayError::LengthMismatch);
        }
        if !lie_within(offsets, sizes, elements.len()) {
            return Err(ArrayError::ViewOutOfRange);
        }
        Ok(())
    }

    /// The array as a `ListViewArray` where it has that layout, and else the array itself as `Err`.
    pub fn of_array(array: ArrayRef) -> Result<ListViewArray, ArrayRef>
        ensures { MatchResult result (λ a. (a ≡ array) × IsListViews array)
            (λ other. (other ≡ array) × (¬ IsListViews array)) }
    {
        if slots_of(&array).is_some() {
            Ok(ListViewArray { array })
        } else {
            Err(array)
        }
    }

    /// The array as one of any layout.
    pub fn into_array(self) -> ArrayRef
        ensures array { result ≡ self }
        ensures layout { IsListViews result }
    {
        self.array
    }

    /// The array as one of any layout.
    pub fn as_array(&self) -> &ArrayRef
        ensures array { result.now ≡ self.now }
        ensures layout { IsListViews result.now }
    {
        &self.array
    }

    pub fn len(&self) -> usize
        ensures { result ≡ len_of self.now }
    {
        self.array.len()
    }

    pub fn is_empty(&self) -> bool
        ensures { result ≡ (len_of self.now == 0) }
    {
        self.array.is_empty()
    }

    /// The type of the lists.
    pub fn dtype(&self) -> &DType
        ensures { type_of result.now ≡ array_type_of self.now }
    {
        self.array.dtype()
    }

    /// Whether a list can be null.
    pub fn nullability(&self) -> Nullability
        ensures { nullability_of_flag result ≡ nullability_of (array_type_of self.now) }
    {
        self.array.dtype().nullability()
    }

    /// All parts, borrowed.
    pub fn slots(&self) -> ListViewSlots<'_>
        ensures elements { result.elements.now ≡ elements_of self.now }
        ensures offsets { result.offsets.now ≡ offsets_of self.now }
        ensures sizes { result.sizes.now ≡ sizes_of self.now }
        ensures flag { result.is_zero_copy_to_list ≡ is_flagged self.now }
        ensures validity { valid_of result.validity.now ≡ valid_in self.now }
        ensures parts { self.now ≡ list_views (elements_of self.now) (offsets_of self.now)
            (sizes_of self.now) (is_flagged self.now) (valid_in self.now) }
        ensures sound { IsSound (list_views (elements_of self.now) (offsets_of self.now)
            (sizes_of self.now) (is_flagged self.now) (valid_in self.now)) }
    {
        let Some(slots) = slots_of(&self.array) else {
            unreachable!()
        };
        slots
    }

    /// The elements of all lists, and maybe others.
    pub fn elements(&self) -> &ArrayRef
        ensures { result.now ≡ elements_of self.now }
    {
        self.slots().elements
    }

    /// The index of each list's first element.
    pub fn offsets(&self) -> &ArrayRef
        ensures { result.now ≡ offsets_of self.now }
    {
        self.slots().offsets
    }

    /// The number of elements of each list.
    pub fn sizes(&self) -> &ArrayRef
        ensures { result.now ≡ sizes_of self.now }
    {
        self.slots().sizes
    }

    /// Which lists are null.
    pub fn listview_validity(&self) -> Result<Validity, AllocError>
        ensures { IfOk result (λ v. valid_of v ≡ valid_in self.now) }
    {
        let validity = self.slots().validity.clone()?;
        Ok(validity)
    }

    /// The offset of a list, also of a null one.
    pub fn offset_at(&self, i: usize) -> usize
        requires { i < len_of self.now }
        ensures { result ≡ number_in (content_at (offsets_of self.now) i) }
    {
        let slots = self.slots();
        view_at(slots.offsets, slots.sizes, i, slots.elements.len()).0
    }

    /// The number of elements of a list, also of a null one.
    pub fn size_at(&self, i: usize) -> usize
        requires { i < len_of self.now }
        ensures { result ≡ number_in (content_at (sizes_of self.now) i) }
    {
        let slots = self.slots();
        view_at(slots.offsets, slots.sizes, i, slots.elements.len()).1
    }

    /// The least offset and the greatest end of the lists, null and empty ones included, as
    /// Vortex's `referenced_element_bounds`. `None` where there is no list.
    pub fn referenced_element_bounds(&self) -> Option<(usize, usize)>
        ensures bounds { MatchOption result (len_of self.now ≡ 0)
            (λ b. AreBounds (offsets_of self.now) (sizes_of self.now) b.0 b.1) }
        ensures within { IfSome result (λ b. b.1 ≤ len_of (elements_of self.now)) }
    {
        let slots = self.slots();
        element_bounds(slots.offsets, slots.sizes, slots.elements.len())
    }

    /// The sum of the sizes of all lists, at most `usize::MAX`, and the number of elements. Null
    /// lists count too, and an element once for each list that has it, so the share of elements
    /// that are in lists is at most the quotient of the two.
    pub fn upper_bound_density(&self) -> (usize, usize)
        ensures sum { result.0 ≡ min (sum_by number_in (rows_of (sizes_of self.now))) (2 ^ 64 - 1) }
        ensures elements { result.1 ≡ len_of (elements_of self.now) }
    {
        let slots = self.slots();
        let count = slots.elements.len();
        (total_size(slots.offsets, slots.sizes, count), count)
    }

    /// The elements of a list, also of a null one. `Memory` is the only error.
    #[tactic(auto, using(crate::proofs::SliceLemmas::slices))]
    pub fn list_elements_at(&self, alloc: Global, i: usize) -> Result<ArrayRef, ArrayError>
        requires { i < len_of self.now }
        ensures made { IfOk result (λ part. Picks (elements_of self.now) part
            (number_in (content_at (sizes_of self.now) i))
            (λ j. number_in (content_at (offsets_of self.now) i) + j)) }
        ensures flags { IfOk result (λ part. flags_of part ≡ flags_of (elements_of self.now)) }
        ensures refused { IfErr result (λ e. e ≡ Memory) }
    {
        let slots = self.slots();
        let (offset, size) = view_at(slots.offsets, slots.sizes, i, slots.elements.len());
        slots.elements.slice(alloc, offset..offset + size)
    }

    /// Whether each list is known to begin where the one before ends.
    pub fn is_zero_copy_to_list(&self) -> bool
        ensures { result ≡ is_flagged self.now }
    {
        self.slots().is_zero_copy_to_list
    }

    /// Whether each list begins where the one before ends, also of null lists.
    pub fn lists_follow(&self) -> bool
        ensures { IsTrue result ↔ AreEndToEnd (offsets_of self.now) (sizes_of self.now) }
    {
        let slots = self.slots();
        are_end_to_end(slots.offsets, slots.sizes, slots.elements.len())
    }

    /// The same lists with this flag. `lists_follow` tests whether it may be true.
    pub fn with_zero_copy_to_list(
        self,
        alloc: Global,
        is_zero_copy_to_list: bool,
    ) -> Result<ListViewArray, AllocError>
        requires { IsTrue is_zero_copy_to_list → AreEndToEnd (offsets_of self) (sizes_of self) }
        ensures { IfOk result (λ a. a ≡ list_views (elements_of self) (offsets_of self)
            (sizes_of self) is_zero_copy_to_list (valid_in self)) }
    {
        let slots = self.slots();
        let array = ArrayRef::of_list_views(
            alloc,
            slots.elements.clone()?,
            slots.offsets.clone()?,
            slots.sizes.clone()?,
            is_zero_copy_to_list,
            slots.validity.clone()?,
        )?;
        Ok(ListViewArray { array })
    }

    /// All parts.
    pub fn into_data_parts(self) -> Result<ListViewDataParts, AllocError>
        ensures { IfOk result (λ p. self ≡ list_views p.elements p.offsets p.sizes (is_flagged self)
            (valid_of p.validity)) }
    {
        let slots = self.slots();
        let elements = slots.elements.clone()?;
        let offsets = slots.offsets.clone()?;
        let sizes = slots.sizes.clone()?;
        let validity = slots.validity.clone()?;
        Ok(ListViewDataParts {
            elements,
            offsets,
            sizes,
            validity,
        })
    }
}

impl Clone for ListViewArray {
    ghost is_clone = { λ old new. new ≡ old };

    fn clone(&self) -> Result<ListViewArray, AllocError> {
        let array = self.array.clone()?;
        Ok(ListViewArray { array })
    }
}

// All parts of an array of lists of any size, borrowed.
fn slots_of(array: &ArrayRef) -> Option<ListViewSlots<'_>>
    ensures parts { MatchOption result
        (¬ IsListViews array.now)
        (λ slots. array.now ≡ list_views slots.elements.now slots.offsets.now slots.sizes.now
        slots.is_zero_copy_to_list (valid_of slots.validity.now)) }
    ensures sound { IsSound array.now }
{
    match array.layout() {
        ArrayLayout::ListView(elements, offsets, sizes, flag, validity) => Some(ListViewSlots {
            elements,
            offsets,
            sizes,
            is_zero_copy_to_list: *flag,
            validity,
        }),
        _ => None,
    }
}
