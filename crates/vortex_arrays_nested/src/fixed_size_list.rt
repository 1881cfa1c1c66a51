//! Arrays of fixed-size lists.
ghost use Rattle.std.specs.Prelude.{◌≡◌, ◌≢◌, ◌<◌, ◌+◌, ◌*◌, ◌==◌, OnOk, IfOk, IfErr, MatchOption, MatchResult};
ghost use Rattle.vortex_model.specs.LogicalType.{nullability_of};
ghost use Rattle.vortex_dtype_ptype.specs.View.{nullability_of_flag};
ghost use Rattle.vortex_dtype_core.specs.View.{type_of};
ghost use Rattle.vortex_arrays_view.specs.declared.error.ArrayError.TheVariants.{Memory};
ghost use Rattle.vortex_arrays_model.specs.Layout.{fixed_lists, len_of, array_type_of, HasLength, IsSound};
ghost use Rattle.vortex_arrays_model.specs.Picks.{Picks};
ghost use Rattle.vortex_arrays_core.specs.Flags.{flags_of};
ghost use Rattle.vortex_arrays_core.specs.LayoutOf.{valid_of};
ghost use Rattle.vortex_arrays_nested.specs.FixedLists.{IsFixedLists, IsFixedListFault};
ghost use Rattle.vortex_arrays_nested.specs.Parts.{elements_of, size_of_each};
ghost use Rattle.vortex_arrays_model.specs.Parts.{valid_in};

use std::alloc::{AllocError, Global};
use std::marker::Model;
use vortex_arrays_core::array::{ArrayLayout, ArrayRef, Validity};
use vortex_arrays_view::error::ArrayError;
use vortex_dtype_core::dtype::DType;
use vortex_dtype_ptype::nullability::Nullability;

/// Lists of one size, with their elements end to end, as Vortex's `FixedSizeListArray`. A clone
/// shares the array.
#[derive(Drop)]
pub struct FixedSizeListArray {
    array: ArrayRef,
}

impl Model for FixedSizeListArray {
    ghost use Rattle.vortex_arrays_model.specs.Layout.{Layout};
    ghost use Rattle.vortex_arrays_model.specs.LayoutCode.{layout_code};
    ghost use Rattle.vortex_arrays_nested.specs.FixedLists.{IsFixedLists};

    ghost Value = { Layout };

    ghost coded = { layout_code };

    ghost view = { λ a. a.array };

    ghost invariant = { λ a. IsFixedLists a.array };
}

/// The parts of a `FixedSizeListArray`, as Vortex's `FixedSizeListDataParts`. The number of lists
/// is one of them, since it does not follow from the elements where the size is 0.
#[derive(Clone, Drop)]
pub struct FixedSizeListDataParts {
    /// The elements of all lists.
    pub elements: ArrayRef,
    /// The number of elements of each list.
    pub list_size: u32,
    /// The number of lists.
    pub len: usize,
    /// Which lists are null.
    pub validity: Validity,
}

/// The parts of a `FixedSizeListArray`, borrowed, as Vortex's `FixedSizeListSlots`.
#[derive(Clone, Copy, Drop)]
pub struct FixedSizeListSlots<'a> {
    /// The elements of all lists.
    pub elements: &'a ArrayRef,
    /// The number of elements of each list.
    pub list_size: u32,
    /// Which lists are null.
    pub validity: &'a Validity,
}

impl FixedSizeListArray {
    /// `len` lists of these elements, as Vortex's `FixedSizeListArray::try_new`.
    ///
    /// `WrongType` where the validity's array does not have the type of booleans without null, else
    /// `LengthMismatch` where it does not have `len` rows, else `ElementCount` where there aren't
    /// `len * list_size` elements.
    pub fn try_new(
        alloc: Global,
        elements: ArrayRef,
        list_size: u32,
        validity: Validity,
        len: usize,
    ) -> Result<FixedSizeListArray, ArrayError>
        ensures made { IfOk result
            (λ a. a ≡ fixed_lists elements list_size len (valid_of validity)) }
        ensures sound { IfOk result (λ a. IsSound a) }
        ensures refused { IfErr result
            (λ e. IsFixedListFault e elements list_size len (valid_of validity)) }
    {
        FixedSizeListArray::validate(&elements, list_size, &validity, len)?;
        let array = FixedSizeListArray::new_unchecked(alloc, elements, list_size, validity, len)?;
        Ok(array)
    }

    /// `len` lists of parts that fit together, as Vortex's `FixedSizeListArray::new`, which panics
    /// where they do not. `validate` tests that.
    pub fn new(
        alloc: Global,
        elements: ArrayRef,
        list_size: u32,
        validity: Validity,
        len: usize,
    ) -> Result<FixedSizeListArray, AllocError>
        requires fits { HasLength (valid_of validity) len }
        requires count { len_of elements ≡ len * list_size }
        ensures { IfOk result (λ a. a ≡ fixed_lists elements list_size len (valid_of validity)) }
    {
        FixedSizeListArray::new_unchecked(alloc, elements, list_size, validity, len)
    }

    /// `len` lists of these parts, as Vortex's `FixedSizeListArray::new_unchecked`.
    pub fn new_unchecked(
        alloc: Global,
        elements: ArrayRef,
        list_size: u32,
        validity: Validity,
        len: usize,
    ) -> Result<FixedSizeListArray, AllocError>
        requires { IsSound elements
            → IsSound (fixed_lists elements list_size len (valid_of validity)) }
        ensures { IfOk result (λ a. a ≡ fixed_lists elements list_size len (valid_of validity)) }
    {
        let array = ArrayRef::of_fixed_lists(alloc, elements, list_size, len, validity)?;
        Ok(FixedSizeListArray { array })
    }

    /// Tests that the parts fit together, as `try_new` does.
    #[tactic(auto, using(crate::proofs::ListLemmas::validity_faults))]
    pub fn validate(
        elements: &ArrayRef,
        list_size: u32,
        validity: &Validity,
        len: usize,
    ) -> Result<(), ArrayError>
        ensures sound { OnOk result
            (IsSound (fixed_lists elements.now list_size len (valid_of validity.now))) }
        ensures refused { IfErr result
            (λ e. IsFixedListFault e elements.now list_size len (valid_of validity.now)) }
        ensures memory { IfErr result (λ e. e ≢ Memory) }
    {
        validity.check_len(len)?;
        // In 128 bits the product can't overflow.
        if elements.len() as u128 != len as u128 * list_size as u128 {
            return Err(ArrayError::ElementCount);
        }
        Ok(())
    }

    /// The array as a `FixedSizeListArray` where it has that layout, and else the array itself as
    /// `Err`.
    pub fn of_array(array: ArrayRef) -> Result<FixedSizeListArray, ArrayRef>
        ensures { MatchResult result (λ a. (a ≡ array) × IsFixedLists array)
            (λ other. (other ≡ array) × (¬ IsFixedLists array)) }
    {
        if slots_of(&array).is_some() {
            Ok(FixedSizeListArray { array })
        } else {
            Err(array)
        }
    }

    /// The array as one of any layout.
    pub fn into_array(self) -> ArrayRef
        ensures array { result ≡ self }
        ensures layout { IsFixedLists result }
    {
        self.array
    }

    /// The array as one of any layout.
    pub fn as_array(&self) -> &ArrayRef
        ensures array { result.now ≡ self.now }
        ensures layout { IsFixedLists result.now }
    {
        &self.array
    }

    pub fn len(&self) -> usize
        ensures { result ≡ len_of self.now }
    {
        self.array.len()
    }

    pub fn is_empty(&self) -> bool
        ensures { result ≡ (len_of self.now == 0) }
    {
        self.array.is_empty()
    }

    /// The type of the lists.
    pub fn dtype(&self) -> &DType
        ensures { type_of result.now ≡ array_type_of self.now }
    {
        self.array.dtype()
    }

    /// Whether a list can be null.
    pub fn nullability(&self) -> Nullability
        ensures { nullability_of_flag result ≡ nullability_of (array_type_of self.now) }
    {
        self.array.dtype().nullability()
    }

    /// All parts, borrowed.
    pub fn slots(&self) -> FixedSizeListSlots<'_>
        ensures elements { result.elements.now ≡ elements_of self.now }
        ensures size { result.list_size ≡ size_of_each self.now }
        ensures validity { valid_of result.validity.now ≡ valid_in self.now }
        ensures parts { self.now ≡ fixed_lists (elements_of self.now) (size_of_each self.now)
            (len_of self.now) (valid_in self.now) }
        ensures sound { IsSound (fixed_lists (elements_of self.now) (size_of_each self.now)
            (len_of self.now) (valid_in self.now)) }
    {
        let Some(slots) = slots_of(&self.array) else {
            unreachable!()
        };
        slots
    }

    /// The elements of all lists.
    pub fn elements(&self) -> &ArrayRef
        ensures { result.now ≡ elements_of self.now }
    {
        self.slots().elements
    }

    /// The number of elements of each list.
    pub fn list_size(&self) -> u32
        ensures { result ≡ size_of_each self.now }
    {
        self.slots().list_size
    }

    /// The elements of a list, also of a null one. `Memory` is the only error.
    #[tactic(auto, using(crate::proofs::SliceLemmas::slices))]
    pub fn fixed_size_list_elements_at(
        &self,
        alloc: Global,
        i: usize,
    ) -> Result<ArrayRef, ArrayError>
        requires { i < len_of self.now }
        ensures made { IfOk result (λ part. Picks (elements_of self.now) part
            (size_of_each self.now) (λ j. i * size_of_each self.now + j)) }
        ensures flags { IfOk result (λ part. flags_of part ≡ flags_of (elements_of self.now)) }
        ensures refused { IfErr result (λ e. e ≡ Memory) }
    {
        let slots = self.slots();
        let size = slots.list_size as usize;
        let _count = slots.elements.len();
        let start = i * size;
        slots.elements.slice(alloc, start..start + size)
    }

    /// Which lists are null.
    pub fn fixed_size_list_validity(&self) -> Result<Validity, AllocError>
        ensures { IfOk result (λ v. valid_of v ≡ valid_in self.now) }
    {
        let validity = self.slots().validity.clone()?;
        Ok(validity)
    }

    /// All parts.
    pub fn into_data_parts(self) -> Result<FixedSizeListDataParts, AllocError>
        ensures { IfOk result
            (λ p. self ≡ fixed_lists p.elements p.list_size p.len (valid_of p.validity)) }
    {
        let slots = self.slots();
        let elements = slots.elements.clone()?;
        let list_size = slots.list_size;
        let validity = slots.validity.clone()?;
        let len = self.len();
        Ok(FixedSizeListDataParts {
            elements,
            list_size,
            len,
            validity,
        })
    }
}

impl Clone for FixedSizeListArray {
    ghost is_clone = { λ old new. new ≡ old };

    fn clone(&self) -> Result<FixedSizeListArray, AllocError> {
        let array = self.array.clone()?;
        Ok(FixedSizeListArray { array })
    }
}

// All parts of an array of fixed-size lists, borrowed.
fn slots_of(array: &ArrayRef) -> Option<FixedSizeListSlots<'_>>
    ensures parts { MatchOption result
        (IsFixedLists array.now → ⊥)
        (λ slots. array.now ≡ fixed_lists slots.elements.now slots.list_size (len_of array.now)
        (valid_of slots.validity.now)) }
    ensures sound { IsSound array.now }
{
    match array.layout() {
        ArrayLayout::FixedSizeList(elements, list_size, _, validity) => Some(FixedSizeListSlots {
            elements,
            list_size: *list_size,
            validity,
        }),
        _ => None,
    }
}
