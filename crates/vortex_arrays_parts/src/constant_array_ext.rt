//! The calls of constants besides those that read them.
ghost use Rattle.std.specs.Prelude.{◌≡◌, IfOk, IfErr, IsOk};
ghost use Rattle.vortex_scalar_core.specs.Scalar.{scalar_type, scalar_raw};
ghost use Rattle.vortex_arrays_view.specs.declared.error.ArrayError.TheVariants.{Memory};
ghost use Rattle.vortex_arrays_model.specs.Layout.{Layout, constant};
ghost use Rattle.vortex_arrays_core.specs.LayoutOf.{valid_of};
ghost use Rattle.vortex_arrays_parts.specs.Nulls.{TellsNullsOf};

use crate::array_ref_ext::ArrayRefExt;
use std::alloc::{AllocError, Global};
use vortex_arrays_core::array::Validity;
use vortex_arrays_leaf::constant_array::ConstantArray;
use vortex_arrays_view::error::ArrayError;
use vortex_scalar_core::scalar::Scalar;

/// The parts of a `ConstantArray`.
#[derive(Clone, Drop)]
pub struct ConstantDataParts {
    /// The value of each row.
    pub scalar: Scalar,
    /// The number of rows.
    pub len: usize,
}

/// The calls of a constant in the form that all layouts have. A scalar has a value of its type, so
/// that they fail only where memory runs out.
pub trait ConstantArrayExt: Sized {
    // The value of a constant, and its number of rows.
    ghost layout: { Self → Layout };

    /// `len` rows of the value, as `new`.
    fn try_new(alloc: Global, scalar: Scalar, len: usize) -> Result<Self, ArrayError>
        ensures made { IfOk result
            (λ a. layout a ≡ constant (scalar_type scalar) (scalar_raw scalar) len) }
        ensures refused { IfErr result (λ e. e ≡ Memory) };

    /// `len` rows of the value, as `new`.
    fn new_unchecked(alloc: Global, scalar: Scalar, len: usize) -> Result<Self, AllocError>
        ensures { IfOk result
            (λ a. layout a ≡ constant (scalar_type scalar) (scalar_raw scalar) len) };

    /// Always `Ok`: each value makes a constant of any length.
    fn validate(scalar: &Scalar, len: usize) -> Result<(), ArrayError>
        ensures { IsOk result };

    /// Which rows are null: all or none.
    fn validity(&self, alloc: Global) -> Result<Validity, AllocError>
        ensures { IfOk result (λ v. TellsNullsOf (layout self.now) (valid_of v)) };

    /// The value and the number of rows.
    fn into_data_parts(self) -> Result<ConstantDataParts, AllocError>
        ensures { IfOk result (λ parts. layout self
            ≡ constant (scalar_type parts.scalar) (scalar_raw parts.scalar) parts.len) };
}

impl ConstantArrayExt for ConstantArray {
    ghost layout = { λ a. a };

    fn try_new(alloc: Global, scalar: Scalar, len: usize) -> Result<ConstantArray, ArrayError> {
        let array = ConstantArray::new(alloc, scalar, len)?;
        Ok(array)
    }

    fn new_unchecked(
        alloc: Global,
        scalar: Scalar,
        len: usize,
    ) -> Result<ConstantArray, AllocError> {
        ConstantArray::new(alloc, scalar, len)
    }

    fn validate(_scalar: &Scalar, _len: usize) -> Result<(), ArrayError> {
        Ok(())
    }

    fn validity(&self, alloc: Global) -> Result<Validity, AllocError> {
        self.as_array().validity(alloc)
    }

    fn into_data_parts(self) -> Result<ConstantDataParts, AllocError> {
        let len = self.len();
        let scalar = self.scalar().clone()?;
        Ok(ConstantDataParts { scalar, len })
    }
}
