//! Arrays of booleans as packed bits.
ghost use Rattle.std.specs.Prelude.{◌≡◌, ◌<◌, ◌==◌, length, All, IfOk, IfErr, MatchOption, MatchResult};
ghost use Rattle.vortex_model.specs.LogicalType.{nullability_of};
ghost use Rattle.vortex_dtype_ptype.specs.View.{nullability_of_flag};
ghost use Rattle.vortex_dtype_core.specs.View.{type_of};
ghost use Rattle.vortex_arrays_buffer.specs.Bits.{bits_at};
ghost use Rattle.vortex_arrays_model.specs.Layout.{bools, len_of, array_type_of, IsSound, HasLength};
ghost use Rattle.vortex_arrays_core.specs.Faults.{IsValidityFault};
ghost use Rattle.vortex_arrays_core.specs.LayoutOf.{valid_of};
ghost use Rattle.vortex_arrays_leaf.specs.Faults.{IsLeafFault};
ghost use Rattle.vortex_arrays_leaf.specs.Shapes.{IsBools, bits_in};
ghost use Rattle.vortex_arrays_model.specs.Parts.{valid_in};

use std::alloc::{AllocError, Global};
use std::marker::Model;
use vortex_arrays_buffer::bit_buffer::BitBuffer;
use vortex_arrays_core::array::{ArrayLayout, ArrayRef, Validity};
use vortex_arrays_view::error::ArrayError;
use vortex_dtype_core::dtype::DType;
use vortex_dtype_ptype::nullability::Nullability;

/// Booleans as packed bits, as Vortex's `BoolArray`. A clone shares the array.
#[derive(Drop)]
pub struct BoolArray {
    array: ArrayRef,
}

/// The parts of a `BoolArray`, as Vortex's `BoolDataParts`.
#[derive(Clone, Drop)]
pub struct BoolDataParts {
    /// A bit for each row, meaningless where the row is null.
    pub bits: BitBuffer,
    /// Which rows are null.
    pub validity: Validity,
}

impl Model for BoolArray {
    ghost use Rattle.vortex_arrays_model.specs.Layout.{Layout};
    ghost use Rattle.vortex_arrays_model.specs.LayoutCode.{layout_code};
    ghost use Rattle.vortex_arrays_leaf.specs.Shapes.{IsBools};

    ghost Value = { Layout };

    ghost coded = { layout_code };

    ghost view = { λ a. a.array };

    ghost invariant = { λ a. IsBools a.array };
}

impl BoolArray {
    /// An array of these bits, as Vortex's `BoolArray::try_new`.
    ///
    /// `WrongType` where the validity's array does not have the type of booleans without null, else
    /// `LengthMismatch` where it and the bits differ in length.
    #[tactic(auto, using(crate::proofs::Leaves::leaf_fault))]
    pub fn try_new(
        alloc: Global,
        bits: BitBuffer,
        validity: Validity,
    ) -> Result<BoolArray, ArrayError>
        ensures made { IfOk result (λ a. a ≡ bools bits (valid_of validity)) }
        ensures sound { IfOk result (λ a. IsSound a) }
        ensures refused { IfErr result (λ e. IsLeafFault e (valid_of validity) (length bits)) }
    {
        BoolArray::validate(&bits, &validity)?;
        let array = BoolArray::new_unchecked(alloc, bits, validity)?;
        Ok(array)
    }

    /// An array of these bits, where the caller knows that the validity fits, as Vortex's
    /// `BoolArray::new`.
    pub fn new(alloc: Global, bits: BitBuffer, validity: Validity) -> Result<BoolArray, AllocError>
        requires { HasLength (valid_of validity) (length bits) }
        ensures { IfOk result (λ a. a ≡ bools bits (valid_of validity)) }
    {
        BoolArray::new_unchecked(alloc, bits, validity)
    }

    /// An array of these parts, as Vortex's `BoolArray::new_unchecked`.
    pub fn new_unchecked(
        alloc: Global,
        bits: BitBuffer,
        validity: Validity,
    ) -> Result<BoolArray, AllocError>
        requires { IsSound (bools bits (valid_of validity)) }
        ensures { IfOk result (λ a. a ≡ bools bits (valid_of validity)) }
    {
        let array = ArrayRef::of_bools(alloc, bits, validity)?;
        Ok(BoolArray { array })
    }

    /// An array of `len` rows, of which those at the indices are true, as Vortex's
    /// `BoolArray::from_indices`.
    #[tactic(auto, using(crate::proofs::Leaves::bits_at_count))]
    pub fn from_indices(
        alloc: Global,
        len: usize,
        indices: &[usize],
        validity: Validity,
    ) -> Result<BoolArray, AllocError>
        requires within { All (λ i. i < len) indices.now }
        requires fits { HasLength (valid_of validity) len }
        ensures { IfOk result (λ a. a ≡ bools (bits_at len indices.now) (valid_of validity)) }
    {
        let bits = BitBuffer::from_indices(alloc, len, indices)?;
        BoolArray::new_unchecked(alloc, bits, validity)
    }

    /// Tests that the parts fit together, as `try_new` does.
    pub fn validate(bits: &BitBuffer, validity: &Validity) -> Result<(), ArrayError>
        ensures sound { IfOk result (λ _. IsSound (bools bits.now (valid_of validity.now))) }
        ensures refused { IfErr result
            (λ e. IsValidityFault e (valid_of validity.now) (length bits.now)) }
    {
        validity.check_len(bits.len())
    }

    /// The array as a `BoolArray` where it has that layout, and else the array itself as `Err`.
    pub fn of_array(array: ArrayRef) -> Result<BoolArray, ArrayRef>
        ensures { MatchResult result
            (λ a. (a ≡ array) × IsBools array)
            (λ other. (other ≡ array) × (IsBools array → ⊥)) }
    {
        if parts_of(&array).is_some() {
            Ok(BoolArray { array })
        } else {
            Err(array)
        }
    }

    /// The array as one of any layout.
    pub fn into_array(self) -> ArrayRef
        ensures array { result ≡ self }
        ensures layout { IsBools result }
    {
        self.array
    }

    /// The array as one of any layout.
    pub fn as_array(&self) -> &ArrayRef
        ensures array { result.now ≡ self.now }
        ensures layout { IsBools result.now }
    {
        &self.array
    }

    pub fn len(&self) -> usize
        ensures { result ≡ len_of self.now }
    {
        self.array.len()
    }

    pub fn is_empty(&self) -> bool
        ensures { result ≡ (len_of self.now == 0) }
    {
        self.array.is_empty()
    }

    /// The type of the values.
    pub fn dtype(&self) -> &DType
        ensures { type_of result.now ≡ array_type_of self.now }
    {
        self.array.dtype()
    }

    /// Whether a row can be null.
    pub fn nullability(&self) -> Nullability
        ensures { nullability_of_flag result ≡ nullability_of (array_type_of self.now) }
    {
        self.parts().1.nullability()
    }

    /// Which rows are null.
    pub fn validity(&self) -> Result<Validity, AllocError>
        ensures { IfOk result (λ validity. valid_of validity ≡ valid_in self.now) }
    {
        self.parts().1.clone()
    }

    /// A bit for each row, shared with the array, meaningless where the row is null.
    pub fn to_bit_buffer(&self) -> Result<BitBuffer, AllocError>
        ensures { IfOk result (λ bits. bits ≡ bits_in self.now) }
    {
        self.parts().0.clone()
    }

    /// As `to_bit_buffer`.
    pub fn into_bit_buffer(self) -> Result<BitBuffer, AllocError>
        ensures { IfOk result (λ bits. bits ≡ bits_in self) }
    {
        self.to_bit_buffer()
    }

    /// The bits and the validity.
    pub fn into_data_parts(self) -> Result<BoolDataParts, AllocError>
        ensures { IfOk result (λ parts. self ≡ bools parts.bits (valid_of parts.validity)) }
    {
        let bits = self.to_bit_buffer()?;
        let validity = self.validity()?;
        Ok(BoolDataParts { bits, validity })
    }

    // The bits and the validity, borrowed.
    fn parts(&self) -> (&BitBuffer, &Validity)
        ensures { self.now ≡ bools result.0.now (valid_of result.1.now) }
    {
        let Some(parts) = parts_of(&self.array) else {
            unreachable!()
        };
        parts
    }
}

impl Clone for BoolArray {
    ghost is_clone = { λ old new. new ≡ old };

    fn clone(&self) -> Result<BoolArray, AllocError> {
        let array = self.array.clone()?;
        Ok(BoolArray { array })
    }
}

// The bits and the validity of an array of booleans as packed bits.
fn parts_of(array: &ArrayRef) -> Option<(&BitBuffer, &Validity)>
    ensures { MatchOption result
        (IsBools array.now → ⊥)
        (λ parts. array.now ≡ bools parts.0.now (valid_of parts.1.now)) }
{
    match array.layout() {
        ArrayLayout::Bool(bits, validity) => Some((bits, validity)),
        _ => None,
    }
}
