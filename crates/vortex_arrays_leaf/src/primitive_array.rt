//! Arrays of integers of one type.
ghost use Rattle.std.specs.Prelude.{◌≡◌, ◌≢◌, ◌==◌, [], length, map, IfOk, IfErr, MatchOption, MatchResult};
ghost use Rattle.vortex_model.specs.LogicalType.{nullability_of};
ghost use Rattle.vortex_dtype_ptype.specs.Numbers.{integral};
ghost use Rattle.vortex_dtype_ptype.specs.View.{nullability_of_flag, number_kind_of};
ghost use Rattle.vortex_dtype_core.specs.View.{type_of};
ghost use Rattle.vortex_arrays_buffer.specs.PrimitiveBuffers.{kind_of_numbers, integers_of};
ghost use Rattle.vortex_arrays_model.specs.Layout.{numbers, len_of, array_type_of, IsSound, HasLength};
ghost use Rattle.vortex_arrays_core.specs.Faults.{IsValidityFault};
ghost use Rattle.vortex_arrays_core.specs.LayoutOf.{valid_of};
ghost use Rattle.vortex_arrays_leaf.specs.Faults.{IsLeafFault};
ghost use Rattle.vortex_arrays_leaf.specs.Shapes.{IsNumbers, type_in, integers_in, all_valid_by};
ghost use Rattle.vortex_arrays_model.specs.Parts.{valid_in};

use std::alloc::{AllocError, Global};
use std::marker::Model;
use vortex_arrays_buffer::buffer::Buffer;
use vortex_arrays_buffer::element::Element;
use vortex_arrays_buffer::primitive_buffer::PrimitiveBuffer;
use vortex_arrays_core::array::{ArrayLayout, ArrayRef, Validity};
use vortex_arrays_view::error::ArrayError;
use vortex_dtype_core::dtype::DType;
use vortex_dtype_ptype::nullability::Nullability;
use vortex_dtype_ptype::ptype::PType;

/// Integers of one type, as Vortex's `PrimitiveArray`. A clone shares the array.
#[derive(Drop)]
pub struct PrimitiveArray {
    array: ArrayRef,
}

/// The parts of a `PrimitiveArray`, as Vortex's `PrimitiveDataParts`.
#[derive(Clone, Drop)]
pub struct PrimitiveDataParts {
    /// An integer for each row, meaningless where the row is null.
    pub numbers: PrimitiveBuffer,
    /// Which rows are null.
    pub validity: Validity,
}

impl Model for PrimitiveArray {
    ghost use Rattle.vortex_arrays_model.specs.Layout.{Layout};
    ghost use Rattle.vortex_arrays_model.specs.LayoutCode.{layout_code};
    ghost use Rattle.vortex_arrays_leaf.specs.Shapes.{IsNumbers};

    ghost Value = { Layout };

    ghost coded = { layout_code };

    ghost view = { λ a. a.array };

    ghost invariant = { λ a. IsNumbers a.array };
}

impl PrimitiveArray {
    /// An array of these integers, as Vortex's `PrimitiveArray::try_new`.
    ///
    /// `WrongType` where the validity's array does not have the type of booleans without null, else
    /// `LengthMismatch` where it and the integers differ in length.
    #[tactic(auto, using(crate::proofs::Leaves::leaf_fault))]
    pub fn try_new(
        alloc: Global,
        items: PrimitiveBuffer,
        validity: Validity,
    ) -> Result<PrimitiveArray, ArrayError>
        ensures made { IfOk result (λ a. a ≡ numbers (kind_of_numbers items) (integers_of items)
            (valid_of validity)) }
        ensures sound { IfOk result (λ a. IsSound a) }
        ensures refused { IfErr result
            (λ e. IsLeafFault e (valid_of validity) (length (integers_of items))) }
    {
        PrimitiveArray::validate(&items, &validity)?;
        let array = PrimitiveArray::new_unchecked(alloc, items, validity)?;
        Ok(array)
    }

    /// An array of the buffer's integers, where the caller knows that the validity fits, as
    /// Vortex's `PrimitiveArray::new`.
    pub fn new<T: Element>(
        alloc: Global,
        items: Buffer<T>,
        validity: Validity,
    ) -> Result<PrimitiveArray, AllocError>
        requires { HasLength (valid_of validity) (length items) }
        ensures { IfOk result (λ a. a ≡ numbers T.kind (map T.integer items) (valid_of validity)) }
    {
        PrimitiveArray::new_unchecked(alloc, PrimitiveBuffer::from_buffer(items), validity)
    }

    /// An array of these parts, as Vortex's `PrimitiveArray::new_unchecked`.
    pub fn new_unchecked(
        alloc: Global,
        items: PrimitiveBuffer,
        validity: Validity,
    ) -> Result<PrimitiveArray, AllocError>
        requires { HasLength (valid_of validity) (length (integers_of items)) }
        ensures { IfOk result (λ a. a ≡ numbers (kind_of_numbers items) (integers_of items)
            (valid_of validity)) }
    {
        let array = ArrayRef::of_numbers(alloc, items, validity)?;
        Ok(PrimitiveArray { array })
    }

    /// An array without rows, as Vortex's `PrimitiveArray::empty`.
    pub fn empty<T: Element>(
        alloc: Global,
        nullability: Nullability,
    ) -> Result<PrimitiveArray, AllocError>
        ensures { IfOk result
            (λ a. a ≡ numbers T.kind [] (all_valid_by (nullability_of_flag nullability))) }
    {
        let items: Buffer<T> = Buffer::empty(alloc)?;
        PrimitiveArray::new(alloc, items, all_valid(nullability))
    }

    /// Tests that the parts fit together, as `try_new` does.
    pub fn validate(items: &PrimitiveBuffer, validity: &Validity) -> Result<(), ArrayError>
        ensures sound { IfOk result (λ _. IsSound
            (numbers (kind_of_numbers items.now) (integers_of items.now) (valid_of validity.now))) }
        ensures refused { IfErr result
            (λ e. IsValidityFault e (valid_of validity.now) (length (integers_of items.now))) }
    {
        validity.check_len(items.len())
    }

    /// The array as a `PrimitiveArray` where it has that layout, and else the array itself as
    /// `Err`.
    pub fn of_array(array: ArrayRef) -> Result<PrimitiveArray, ArrayRef>
        ensures { MatchResult result
            (λ a. (a ≡ array) × IsNumbers array)
            (λ other. (other ≡ array) × (IsNumbers array → ⊥)) }
    {
        if parts_of(&array).is_some() {
            Ok(PrimitiveArray { array })
        } else {
            Err(array)
        }
    }

    /// The array as one of any layout.
    pub fn into_array(self) -> ArrayRef
        ensures array { result ≡ self }
        ensures layout { IsNumbers result }
    {
        self.array
    }

    /// The array as one of any layout.
    pub fn as_array(&self) -> &ArrayRef
        ensures array { result.now ≡ self.now }
        ensures layout { IsNumbers result.now }
    {
        &self.array
    }

    pub fn len(&self) -> usize
        ensures { result ≡ len_of self.now }
    {
        self.array.len()
    }

    pub fn is_empty(&self) -> bool
        ensures { result ≡ (len_of self.now == 0) }
    {
        self.array.is_empty()
    }

    /// The type of the values.
    pub fn dtype(&self) -> &DType
        ensures { type_of result.now ≡ array_type_of self.now }
    {
        self.array.dtype()
    }

    /// Whether a row can be null.
    pub fn nullability(&self) -> Nullability
        ensures { nullability_of_flag result ≡ nullability_of (array_type_of self.now) }
    {
        self.parts().1.nullability()
    }

    /// Which rows are null.
    pub fn validity(&self) -> Result<Validity, AllocError>
        ensures { IfOk result (λ validity. valid_of validity ≡ valid_in self.now) }
    {
        self.parts().1.clone()
    }

    /// The integer type.
    pub fn ptype(&self) -> PType
        ensures { number_kind_of result ≡ integral (type_in self.now) }
    {
        self.parts().0.ptype()
    }

    /// An integer for each row, meaningless where the row is null, and `None` where the type is not
    /// `T`.
    pub fn as_slice<T: Element>(&self) -> Option<&[T]>
        ensures { MatchOption result
            (type_in self.now ≢ T.kind)
            (λ items. (type_in self.now ≡ T.kind)
            × (integers_in self.now ≡ map T.integer items.now)) }
    {
        self.parts().0.as_slice()
    }

    /// An integer for each row, shared with the array, meaningless where the row is null.
    pub fn to_numbers(&self) -> Result<PrimitiveBuffer, AllocError>
        ensures kind { IfOk result (λ items. kind_of_numbers items ≡ type_in self.now) }
        ensures integers { IfOk result (λ items. integers_of items ≡ integers_in self.now) }
    {
        self.parts().0.clone()
    }

    /// The integers and the validity.
    pub fn into_data_parts(self) -> Result<PrimitiveDataParts, AllocError>
        ensures { IfOk result (λ parts. self
            ≡ numbers (kind_of_numbers parts.numbers) (integers_of parts.numbers)
            (valid_of parts.validity)) }
    {
        let numbers = self.to_numbers()?;
        let validity = self.validity()?;
        Ok(PrimitiveDataParts { numbers, validity })
    }

    // The integers and the validity, borrowed.
    fn parts(&self) -> (&PrimitiveBuffer, &Validity)
        ensures { self.now ≡ numbers (kind_of_numbers result.0.now) (integers_of result.0.now)
            (valid_of result.1.now) }
    {
        let Some(parts) = parts_of(&self.array) else {
            unreachable!()
        };
        parts
    }
}

impl Clone for PrimitiveArray {
    ghost is_clone = { λ old new. new ≡ old };

    fn clone(&self) -> Result<PrimitiveArray, AllocError> {
        let array = self.array.clone()?;
        Ok(PrimitiveArray { array })
    }
}

// The validity of this nullability in which no row is null.
fn all_valid(nullability: Nullability) -> Validity
    ensures { valid_of result ≡ all_valid_by (nullability_of_flag nullability) }
{
    match nullability {
        Nullability::NonNullable => Validity::NonNullable,
        Nullability::Nullable => Validity::AllValid,
    }
}

// The integers and the validity of an array of integers.
fn parts_of(array: &ArrayRef) -> Option<(&PrimitiveBuffer, &Validity)>
    ensures { MatchOption result
        (IsNumbers array.now → ⊥)
        (λ parts. array.now ≡ numbers (kind_of_numbers parts.0.now) (integers_of parts.0.now)
        (valid_of parts.1.now)) }
{
    match array.layout() {
        ArrayLayout::Primitive(items, validity) => Some((items, validity)),
        _ => None,
    }
}
