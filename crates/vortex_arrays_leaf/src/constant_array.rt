//! Arrays of one repeated value.
ghost use Rattle.std.specs.Prelude.{◌≡◌, ◌==◌, IfOk, MatchOption, MatchResult};
ghost use Rattle.vortex_model.specs.LogicalType.{nullability_of};
ghost use Rattle.vortex_dtype_ptype.specs.View.{nullability_of_flag};
ghost use Rattle.vortex_dtype_core.specs.View.{type_of};
ghost use Rattle.vortex_scalar_core.specs.Scalar.{scalar_type, scalar_raw};
ghost use Rattle.vortex_arrays_model.specs.Layout.{constant, len_of, array_type_of};
ghost use Rattle.vortex_arrays_leaf.specs.Shapes.{IsConstant};

use std::alloc::{AllocError, Global};
use std::marker::Model;
use vortex_arrays_core::array::{ArrayLayout, ArrayRef};
use vortex_dtype_core::dtype::DType;
use vortex_dtype_ptype::nullability::Nullability;
use vortex_scalar_core::scalar::Scalar;

/// One value in each row, as Vortex's `ConstantArray`. A clone shares the array.
#[derive(Drop)]
pub struct ConstantArray {
    array: ArrayRef,
}

impl Model for ConstantArray {
    ghost use Rattle.vortex_arrays_model.specs.Layout.{Layout};
    ghost use Rattle.vortex_arrays_model.specs.LayoutCode.{layout_code};
    ghost use Rattle.vortex_arrays_leaf.specs.Shapes.{IsConstant};

    ghost Value = { Layout };

    ghost coded = { layout_code };

    ghost view = { λ a. a.array };

    ghost invariant = { λ a. IsConstant a.array };
}

impl ConstantArray {
    /// An array of `len` rows with the value in each, as Vortex's `ConstantArray::new`.
    pub fn new(alloc: Global, scalar: Scalar, len: usize) -> Result<ConstantArray, AllocError>
        ensures { IfOk result (λ a. a ≡ constant (scalar_type scalar) (scalar_raw scalar) len) }
    {
        let array = ArrayRef::of_constant(alloc, scalar, len)?;
        Ok(ConstantArray { array })
    }

    /// The array as a `ConstantArray` where it has that layout, and else the array itself as `Err`.
    pub fn of_array(array: ArrayRef) -> Result<ConstantArray, ArrayRef>
        ensures { MatchResult result
            (λ a. (a ≡ array) × IsConstant array)
            (λ other. (other ≡ array) × (IsConstant array → ⊥)) }
    {
        if scalar_of(&array).is_some() {
            Ok(ConstantArray { array })
        } else {
            Err(array)
        }
    }

    /// The array as one of any layout.
    pub fn into_array(self) -> ArrayRef
        ensures array { result ≡ self }
        ensures layout { IsConstant result }
    {
        self.array
    }

    /// The array as one of any layout.
    pub fn as_array(&self) -> &ArrayRef
        ensures array { result.now ≡ self.now }
        ensures layout { IsConstant result.now }
    {
        &self.array
    }

    pub fn len(&self) -> usize
        ensures { result ≡ len_of self.now }
    {
        self.array.len()
    }

    pub fn is_empty(&self) -> bool
        ensures { result ≡ (len_of self.now == 0) }
    {
        self.array.is_empty()
    }

    pub fn dtype(&self) -> &DType
        ensures { type_of result.now ≡ array_type_of self.now }
    {
        self.array.dtype()
    }

    /// Whether a row can be null.
    pub fn nullability(&self) -> Nullability
        ensures { nullability_of_flag result ≡ nullability_of (array_type_of self.now) }
    {
        self.array.dtype().nullability()
    }

    /// The value.
    pub fn scalar(&self) -> &Scalar
        ensures { self.now ≡ constant (scalar_type result.now) (scalar_raw result.now)
            (len_of self.now) }
    {
        let Some(scalar) = scalar_of(&self.array) else {
            unreachable!()
        };
        scalar
    }
}

impl Clone for ConstantArray {
    ghost is_clone = { λ old new. new ≡ old };

    fn clone(&self) -> Result<ConstantArray, AllocError> {
        let array = self.array.clone()?;
        Ok(ConstantArray { array })
    }
}

// The value of an array of one value.
fn scalar_of(array: &ArrayRef) -> Option<&Scalar>
    ensures { MatchOption result
        (IsConstant array.now → ⊥)
        (λ scalar. array.now ≡ constant (scalar_type scalar.now) (scalar_raw scalar.now)
        (len_of array.now)) }
{
    match array.layout() {
        ArrayLayout::Constant(scalar, _) => Some(scalar),
        _ => None,
    }
}
