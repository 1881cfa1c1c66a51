//! The nulls of structs pushed into their columns.
ghost use Rattle.std.specs.Prelude.{◌≡◌, length, IfOk};
ghost use Rattle.vortex_arrays_model.specs.Layout.{HasLength, HaveLength};
ghost use Rattle.vortex_arrays_model.specs.Parts.{columns_of};
ghost use Rattle.vortex_arrays_core.specs.LayoutOf.{valid_of};
ghost use Rattle.vortex_arrays_struct.specs.Edited.{without_nulls, AreMasked, IsPushed};

use crate::mask::mask;
use crate::struct_array::StructArray;
use std::alloc::{AllocError, Global};
use vortex_arrays_core::array::{ArrayRef, Validity};
use vortex_dtype_ptype::field_names::FieldNames;

impl StructArray {
    /// The struct array with each column null also where the struct is, as Vortex's
    /// `StructArray::push_validity_into_children`. With `remove_struct_validity` no row is null any
    /// more, but the type keeps its nullability; without it the same rows stay null.
    #[tactic(auto, using(crate::proofs::PushedLemmas::pushed))]
    pub fn push_validity_into_children(
        &self,
        alloc: Global,
        remove_struct_validity: bool,
    ) -> Result<StructArray, AllocError>
        ensures { IfOk result (λ r. IsPushed self.now remove_struct_validity r) }
    {
        let len = self.fitting_len();
        let names = self.names().clone()?;
        let validity = self.struct_validity()?;
        let fields = masked_fields(alloc, &names, self.unmasked_fields(), &validity, len)?;
        let kept = if remove_struct_validity {
            forget_nulls(&validity)
        } else {
            validity
        };
        let array = StructArray::new_unchecked(alloc, names, fields, len, kept)?;
        Ok(array)
    }
}

// The fields with the nulls of a validity.
#[tactic(auto, using(crate::proofs::PushedLemmas::fields))]
fn masked_fields(
    alloc: Global,
    names: &FieldNames,
    fields: &[ArrayRef],
    validity: &Validity,
    len: usize,
) -> Result<Vec<ArrayRef>, AllocError>
    requires named { length names.now ≡ length fields.now }
    requires fits { HasLength (valid_of validity.now) len }
    requires fit { HaveLength (columns_of names.now fields.now) len }
    ensures count { IfOk result (λ r. length r.items ≡ length fields.now) }
    ensures masked { IfOk result (λ r. AreMasked (valid_of validity.now)
        (columns_of names.now fields.now) (columns_of names.now r.items)) }
    ensures fit { IfOk result (λ r. HaveLength (columns_of names.now r.items) len) }
{
    let mut masked = Vec::with_capacity(alloc, fields.len())?;
    for field in fields {
        let column = mask(alloc, validity, field)?;
        masked.push(column)?;
    }
    Ok(masked)
}

// The validity of the same nullability in which no row is null.
fn forget_nulls(validity: &Validity) -> Validity
    ensures { valid_of result ≡ without_nulls (valid_of validity.now) }
{
    match validity {
        Validity::NonNullable => Validity::NonNullable,
        Validity::AllValid => Validity::AllValid,
        Validity::AllInvalid => Validity::AllValid,
        Validity::Array(_) => Validity::AllValid,
    }
}
