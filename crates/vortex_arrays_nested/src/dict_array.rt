//! Dictionaries.
ghost use Rattle.std.specs.Prelude.{◌≡◌, ◌==◌, false, IsTrue, IfOk, IfErr, MatchOption, MatchResult};
ghost use Rattle.vortex_model.specs.LogicalType.{nullability_of};
ghost use Rattle.vortex_dtype_ptype.specs.View.{nullability_of_flag};
ghost use Rattle.vortex_dtype_core.specs.View.{type_of};
ghost use Rattle.vortex_arrays_model.specs.Layout.{dictionary, len_of, array_type_of, AllReferenced, IsInteger, IsSound};
ghost use Rattle.vortex_arrays_nested.specs.Faults.{IsCodesFault, IsDictFault};
ghost use Rattle.vortex_arrays_model.specs.Parts.{AreWithin};
ghost use Rattle.vortex_arrays_nested.specs.Shapes.{IsDictionary, codes_in, values_in, flag_in};

use crate::codes::are_codes;
use std::alloc::{AllocError, Global};
use std::marker::Model;
use vortex_arrays_core::array::{ArrayLayout, ArrayRef};
use vortex_arrays_view::error::ArrayError;
use vortex_dtype_core::dtype::DType;
use vortex_dtype_ptype::nullability::Nullability;

/// Codes, and the values that they are indices of, as Vortex's `DictArray`. A clone shares the
/// array.
///
/// A row is null where its code is null or the value at its code is.
#[derive(Drop)]
pub struct DictArray {
    array: ArrayRef,
}

/// The parts of a `DictArray`, as Vortex's `DictParts`.
#[derive(Clone, Drop)]
pub struct DictParts {
    /// For each row the index of its value.
    pub codes: ArrayRef,
    pub values: ArrayRef,
}

impl Model for DictArray {
    ghost use Rattle.vortex_arrays_model.specs.Layout.{Layout};
    ghost use Rattle.vortex_arrays_model.specs.LayoutCode.{layout_code};
    ghost use Rattle.vortex_arrays_nested.specs.Shapes.{IsDictionary};

    ghost Value = { Layout };

    ghost coded = { layout_code };

    ghost view = { λ a. a.array };

    ghost invariant = { λ a. IsDictionary a.array };
}

impl DictArray {
    /// A dictionary of these codes and values, as Vortex's `DictArray::try_new`. No value is known
    /// to be referenced.
    ///
    /// `WrongType` where the codes are not integers, else `CodeOutOfRange` where one that is not
    /// null is no index of a value.
    #[tactic(auto, using(crate::proofs::CodeLemmas::dict_fault))]
    pub fn try_new(
        alloc: Global,
        codes: ArrayRef,
        values: ArrayRef,
    ) -> Result<DictArray, ArrayError>
        ensures made { IfOk result (λ a. a ≡ dictionary codes values false) }
        ensures sound { IfOk result (λ a. IsSound a) }
        ensures refused { IfErr result (λ e. IsDictFault e codes values) }
    {
        DictArray::validate(&codes, &values)?;
        let array = DictArray::new_unchecked(alloc, codes, values)?;
        Ok(array)
    }

    /// A dictionary, where the caller knows that each code is null or the index of a value, as
    /// Vortex's `DictArray::new`.
    #[tactic(auto, using(crate::proofs::CodeLemmas::unflagged))]
    pub fn new(alloc: Global, codes: ArrayRef, values: ArrayRef) -> Result<DictArray, AllocError>
        requires kind { IsInteger (array_type_of codes) }
        requires named { AreWithin codes (len_of values) }
        ensures { IfOk result (λ a. a ≡ dictionary codes values false) }
    {
        DictArray::new_unchecked(alloc, codes, values)
    }

    /// A dictionary of these parts, as Vortex's `DictArray::new_unchecked`.
    pub fn new_unchecked(
        alloc: Global,
        codes: ArrayRef,
        values: ArrayRef,
    ) -> Result<DictArray, AllocError>
        requires { IsSound codes → IsSound values → IsSound (dictionary codes values false) }
        ensures { IfOk result (λ a. a ≡ dictionary codes values false) }
    {
        let array = ArrayRef::of_dict(alloc, codes, values, false)?;
        Ok(DictArray { array })
    }

    /// Tests that the parts fit together, as `try_new` does.
    #[tactic(auto, using(crate::proofs::CodeLemmas::unflagged))]
    pub fn validate(codes: &ArrayRef, values: &ArrayRef) -> Result<(), ArrayError>
        ensures sound { IfOk result (λ _. IsSound (dictionary codes.now values.now false)) }
        ensures refused { IfErr result (λ e. IsCodesFault e codes.now values.now) }
    {
        if !codes.is_integer() {
            return Err(ArrayError::WrongType);
        }
        if !are_codes(codes, values.len()) {
            return Err(ArrayError::CodeOutOfRange);
        }
        Ok(())
    }

    /// The array as a `DictArray` where it has that layout, and else the array itself as `Err`.
    pub fn of_array(array: ArrayRef) -> Result<DictArray, ArrayRef>
        ensures { MatchResult result
            (λ a. (a ≡ array) × IsDictionary array)
            (λ other. (other ≡ array) × (IsDictionary array → ⊥)) }
    {
        if parts_of(&array).is_some() {
            Ok(DictArray { array })
        } else {
            Err(array)
        }
    }

    /// The array as one of any layout.
    pub fn into_array(self) -> ArrayRef
        ensures array { result ≡ self }
        ensures layout { IsDictionary result }
    {
        self.array
    }

    /// The array as one of any layout.
    pub fn as_array(&self) -> &ArrayRef
        ensures array { result.now ≡ self.now }
        ensures layout { IsDictionary result.now }
    {
        &self.array
    }

    pub fn len(&self) -> usize
        ensures { result ≡ len_of self.now }
    {
        self.array.len()
    }

    pub fn is_empty(&self) -> bool
        ensures { result ≡ (len_of self.now == 0) }
    {
        self.array.is_empty()
    }

    /// The type of the rows, nullable where the codes or the values are.
    pub fn dtype(&self) -> &DType
        ensures { type_of result.now ≡ array_type_of self.now }
    {
        self.array.dtype()
    }

    /// Whether a row can be null.
    pub fn nullability(&self) -> Nullability
        ensures { nullability_of_flag result ≡ nullability_of (array_type_of self.now) }
    {
        self.array.dtype().nullability()
    }

    /// For each row the index of its value.
    pub fn codes(&self) -> &ArrayRef
        ensures { result.now ≡ codes_in self.now }
    {
        self.parts().0
    }

    pub fn values(&self) -> &ArrayRef
        ensures { result.now ≡ values_in self.now }
    {
        self.parts().1
    }

    /// Whether each value is known to be referenced. Where it is not known, each may be referenced
    /// nonetheless.
    pub fn has_all_values_referenced(&self) -> bool
        ensures { result ≡ flag_in self.now }
    {
        self.parts().2
    }

    /// The same dictionary with this flag, as Vortex's `DictArray::set_all_values_referenced`.
    pub fn set_all_values_referenced(
        self,
        alloc: Global,
        all_values_referenced: bool,
    ) -> Result<DictArray, AllocError>
        requires { IsTrue all_values_referenced → AllReferenced (codes_in self) (values_in self) }
        ensures { IfOk result
            (λ a. a ≡ dictionary (codes_in self) (values_in self) all_values_referenced) }
    {
        let (codes, values, _) = self.parts();
        let codes = codes.clone()?;
        let values = values.clone()?;
        let array = ArrayRef::of_dict(alloc, codes, values, all_values_referenced)?;
        Ok(DictArray { array })
    }

    /// The codes and the values.
    pub fn into_parts(self) -> Result<DictParts, AllocError>
        ensures { IfOk result (λ parts. self ≡ dictionary parts.codes parts.values (flag_in self)) }
    {
        let codes = self.codes().clone()?;
        let values = self.values().clone()?;
        Ok(DictParts { codes, values })
    }

    /// The codes, the values and whether each value is known to be referenced, borrowed.
    pub(crate) fn parts(&self) -> (&ArrayRef, &ArrayRef, bool)
        ensures parts { self.now ≡ dictionary result.0.now result.1.now result.2 }
        ensures sound { IsSound (dictionary result.0.now result.1.now result.2) }
    {
        let Some(parts) = parts_of(&self.array) else {
            unreachable!()
        };
        parts
    }
}

impl Clone for DictArray {
    ghost is_clone = { λ old new. new ≡ old };

    fn clone(&self) -> Result<DictArray, AllocError> {
        let array = self.array.clone()?;
        Ok(DictArray { array })
    }
}

// The codes, the values and whether each value is known to be referenced, of a dictionary.
fn parts_of(array: &ArrayRef) -> Option<(&ArrayRef, &ArrayRef, bool)>
    ensures parts { MatchOption result
        (IsDictionary array.now → ⊥)
        (λ parts. array.now ≡ dictionary parts.0.now parts.1.now parts.2) }
    ensures sound { IsSound array.now }
{
    match array.layout() {
        ArrayLayout::Dict(codes, values, all_referenced) => Some((codes, values, *all_referenced)),
        _ => None,
    }
}
