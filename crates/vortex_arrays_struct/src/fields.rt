//! The parts of struct arrays.
ghost use Rattle.std.specs.Prelude.{◌≡◌, ◌<◌, length, Some, None, option_copied, IfOk, IfErr};
ghost use Rattle.vortex_dtype_core.specs.View.{fields_in};
ghost use Rattle.vortex_dtype_ptype.specs.View.{nullability_of_flag};
ghost use Rattle.vortex_arrays_model.specs.Layout.{fields_of, nullability_by, len_of, records, HasLength, HaveLength};
ghost use Rattle.vortex_arrays_model.specs.Column.{array_at};
ghost use Rattle.vortex_arrays_model.specs.Parts.{columns_of};
ghost use Rattle.vortex_arrays_core.specs.LayoutOf.{valid_of};
ghost use Rattle.vortex_arrays_view.specs.declared.error.ArrayError.TheVariants.{NoSuchField};
ghost use Rattle.vortex_arrays_struct.specs.Edited.{array_named};
ghost use Rattle.vortex_arrays_struct.specs.Records.{columns_in, validity_in, names_in, arrays_in};

use crate::mask::shared_fields;
use crate::struct_array::{StructArray, parts_of};
use crate::unmasked_fields_iter::UnmaskedFieldsIter;
use std::alloc::{AllocError, Global};
use std::rc::Rc;
use vortex_arrays_core::array::{ArrayRef, Validity};
use vortex_arrays_view::error::ArrayError;
use vortex_dtype_core::struct_fields::StructFields;
use vortex_dtype_ptype::field_names::FieldNames;
use vortex_dtype_ptype::nullability::Nullability;

/// The parts of a `StructArray`, as Vortex's `StructDataParts`.
#[derive(Clone, Drop)]
pub struct StructDataParts {
    /// The names of the fields.
    pub names: Rc<FieldNames>,
    /// An array for each field, without the struct's nulls.
    pub fields: Vec<ArrayRef>,
    /// Which rows are null.
    pub validity: Validity,
}

impl StructArray {
    // The parts. There is a name for each field.
    fn parts(&self) -> (&Rc<FieldNames>, &[ArrayRef], &Validity)
        ensures named { length result.0.now.value ≡ length result.1.now }
        ensures parts { self.now ≡ records (columns_of result.0.now.value result.1.now)
            (len_of self.now) (valid_of result.2.now) }
    {
        let Some(parts) = parts_of(&self.array) else {
            unreachable!()
        };
        parts
    }

    // The number of rows, which the columns and the validity have.
    #[tactic(auto, using(crate::proofs::EditLemmas::fitting))]
    pub(crate) fn fitting_len(&self) -> usize
        ensures count { result ≡ len_of self.now }
        ensures columns { HaveLength (columns_in self.now) result }
        ensures validity { HasLength (validity_in self.now) result }
    {
        let _ = self.parts();
        self.array.len()
    }

    /// The names of the fields.
    #[tactic(auto, using(crate::proofs::Places::placed))]
    pub fn names(&self) -> &Rc<FieldNames>
        ensures { result.now.value ≡ names_in (columns_in self.now) }
    {
        let (names, _, _) = self.parts();
        names
    }

    /// The arrays of the fields, without the struct's nulls.
    #[tactic(auto, using(crate::proofs::Places::placed))]
    pub fn unmasked_fields(&self) -> &[ArrayRef]
        ensures { result.now ≡ arrays_in (columns_in self.now) }
    {
        let (_, fields, _) = self.parts();
        fields
    }

    /// An iterator of the fields' arrays, without the struct's nulls.
    pub fn iter_unmasked_fields(&self) -> UnmaskedFieldsIter<'_>
        ensures { result ≡ arrays_in (columns_in self.now) }
    {
        UnmaskedFieldsIter::new(self.unmasked_fields())
    }

    /// The array of the field at this position, without the struct's nulls.
    #[tactic(auto, using(crate::proofs::Places::placed))]
    pub fn unmasked_field(&self, index: usize) -> &ArrayRef
        requires { index < length (arrays_in (columns_in self.now)) }
        ensures { array_at (columns_in self.now) index ≡ Some result.now }
    {
        let (_, fields, _) = self.parts();
        &fields[index]
    }

    /// The array of the field at this position, without the struct's nulls, and `None` past the
    /// end.
    #[tactic(auto, using(crate::proofs::Places::placed))]
    pub fn unmasked_field_opt(&self, index: usize) -> Option<&ArrayRef>
        ensures { option_copied result ≡ array_at (columns_in self.now) index }
    {
        let (_, fields, _) = self.parts();
        fields.get(index)
    }

    /// The array of the first field of this name, without the struct's nulls, and `None` where no
    /// field has it.
    #[tactic(auto, using(crate::proofs::EditLemmas::found))]
    pub fn unmasked_field_by_name_opt(&self, name: &str) -> Option<&ArrayRef>
        ensures { option_copied result ≡ array_named (columns_in self.now) name.now }
    {
        let (names, fields, _) = self.parts();
        match names.find(name) {
            Some(place) => Some(&fields[place]),
            None => None,
        }
    }

    /// The array of the first field of this name, without the struct's nulls. `NoSuchField` where
    /// no field has it.
    pub fn unmasked_field_by_name(&self, name: &str) -> Result<&ArrayRef, ArrayError>
        ensures found { IfOk result
            (λ a. array_named (columns_in self.now) name.now ≡ Some a.now) }
        ensures refused { IfErr result
            (λ e. (e ≡ NoSuchField) × (array_named (columns_in self.now) name.now ≡ None)) }
    {
        match self.unmasked_field_by_name_opt(name) {
            Some(array) => Ok(array),
            None => Err(ArrayError::NoSuchField),
        }
    }

    /// Which rows are null, shared.
    #[tactic(auto, using(crate::proofs::Places::placed))]
    pub fn struct_validity(&self) -> Result<Validity, AllocError>
        ensures { IfOk result (λ validity. valid_of validity ≡ validity_in self.now) }
    {
        let (_, _, validity) = self.parts();
        let copy = validity.clone()?;
        Ok(copy)
    }

    /// Whether a row can be null.
    #[tactic(auto, using(crate::proofs::Places::placed))]
    pub fn nullability(&self) -> Nullability
        ensures { nullability_of_flag result ≡ nullability_by (validity_in self.now) }
    {
        let (_, _, validity) = self.parts();
        validity.nullability()
    }

    /// The names and the types of the fields.
    #[tactic(auto, using(crate::proofs::Places::typed))]
    pub fn struct_fields(&self) -> &StructFields
        ensures { fields_in result.now ≡ fields_of (columns_in self.now) }
    {
        let _ = self.parts();
        self.dtype().as_struct_fields()
    }

    /// The names, the arrays and the validity.
    pub fn into_data_parts(self, alloc: Global) -> Result<StructDataParts, AllocError>
        ensures parts { IfOk result (λ parts. self
            ≡ records (columns_of parts.names.value parts.fields.items) (len_of self)
            (valid_of parts.validity)) }
        ensures named { IfOk result
            (λ parts. length parts.names.value ≡ length parts.fields.items) }
    {
        let (names, fields, validity) = self.parts();
        let names = names.clone()?;
        let fields = shared_fields(alloc, fields)?;
        let validity = validity.clone()?;
        Ok(StructDataParts {
            names,
            fields,
            validity,
        })
    }
}
