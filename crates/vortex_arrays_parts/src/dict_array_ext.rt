//! The calls of dictionaries besides those that make and read them.
ghost use Rattle.std.specs.Prelude.{◌≡◌, IfOk, OnOk, IfErr};
ghost use Rattle.vortex_arrays_model.specs.Layout.{Layout, dictionary, AllReferenced};
ghost use Rattle.vortex_arrays_core.specs.LayoutOf.{valid_of};
ghost use Rattle.vortex_arrays_nested.specs.Shapes.{codes_in, values_in, flag_in};
ghost use Rattle.vortex_arrays_parts.specs.Faults.{IsReferenceFault};
ghost use Rattle.vortex_arrays_parts.specs.Nulls.{TellsNullsOf};

use crate::array_ref_ext::ArrayRefExt;
use std::alloc::{AllocError, Global};
use vortex_arrays_core::array::Validity;
use vortex_arrays_nested::dict_array::{DictArray, DictParts};
use vortex_arrays_view::error::ArrayError;

/// The calls of Vortex's `DictArrayExt` that `DictArray` does not have.
pub trait DictArrayExt: Sized {
    // The layout of the dictionary.
    ghost layout: { Self → Layout };

    /// Tests that each value is referenced, as `set_all_values_referenced` requires. `OutOfRange`
    /// where some value is not, whatever the dictionary's flag.
    fn validate_all_values_referenced(&self, alloc: Global) -> Result<(), ArrayError>
        ensures all { OnOk result
            (AllReferenced (codes_in (layout self.now)) (values_in (layout self.now))) }
        ensures refused { IfErr result (λ e.
            IsReferenceFault e (codes_in (layout self.now)) (values_in (layout self.now))) };

    /// Which rows are null: those whose code is null or refers to a null value.
    fn validity(&self, alloc: Global) -> Result<Validity, AllocError>
        ensures { IfOk result (λ v. TellsNullsOf (layout self.now) (valid_of v)) };
}

impl DictArrayExt for DictArray {
    ghost layout = { λ a. a };

    fn validate_all_values_referenced(&self, alloc: Global) -> Result<(), ArrayError> {
        let all = self.are_all_values_referenced(alloc)?;
        if !all {
            return Err(ArrayError::OutOfRange);
        }
        Ok(())
    }

    fn validity(&self, alloc: Global) -> Result<Validity, AllocError> {
        self.as_array().validity(alloc)
    }
}

/// The call of Vortex's `DictOwnedExt`, which consumes a dictionary.
pub trait DictOwnedExt {
    // The layout of the dictionary.
    ghost layout: { Self → Layout };

    /// The codes and the values.
    fn into_data_parts(self) -> Result<DictParts, AllocError>
        ensures { IfOk result (λ parts. layout self
            ≡ dictionary parts.codes parts.values (flag_in (layout self))) };
}

impl DictOwnedExt for DictArray {
    ghost layout = { λ a. a };

    fn into_data_parts(self) -> Result<DictParts, AllocError> {
        self.into_parts()
    }
}
