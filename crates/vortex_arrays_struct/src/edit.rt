//! Struct arrays with other columns.
ghost use Rattle.std.specs.Prelude.{◌≡◌, ◌<◌, map, length, remove as removed_at, Some, None, IfOk, IfErr, MatchOption};
ghost use Rattle.vortex_arrays_model.specs.Layout.{len_of, records};
ghost use Rattle.vortex_arrays_model.specs.Parts.{columns_of};
ghost use Rattle.vortex_arrays_struct.specs.Records.{columns_in, validity_in, names_in, arrays_in};
ghost use Rattle.vortex_arrays_model.specs.Column.{array_at};
ghost use Rattle.vortex_arrays_struct.specs.Edited.{array_named, with_last, IsProjection, IsNameFault, IsColumnLengthFault, IsRemoved};

use crate::mask::shared_fields;
use crate::struct_array::StructArray;
use std::alloc::{AllocError, Global};
use std::rc::Rc;
use vortex_arrays_core::array::ArrayRef;
use vortex_arrays_view::error::ArrayError;
use vortex_dtype_ptype::field_names::{FieldName, FieldNames};

impl StructArray {
    /// The columns with these names in this order, with the same rows null, as Vortex's
    /// `StructArray::project`. A repeated name is that of the first such field. `NoSuchField` where
    /// no field has a name.
    #[tactic(auto, using(crate::proofs::EditLemmas::projected))]
    pub fn project(
        &self,
        alloc: Global,
        projection: &[FieldName],
    ) -> Result<StructArray, ArrayError>
        ensures made { IfOk result (λ r. IsProjection self.now projection.now r) }
        ensures refused { IfErr result (λ e. IsNameFault e (columns_in self.now) projection.now) }
    {
        let len = self.fitting_len();
        let fields = self.arrays_named(alloc, projection)?;
        let names = FieldNames::new(shared_names(alloc, projection)?);
        let validity = self.struct_validity()?;
        let names = Rc::new(alloc, names)?;
        let array = StructArray::new_unchecked(alloc, names, fields, len, validity)?;
        Ok(array)
    }

    // The arrays of the fields with these names.
    #[tactic(auto, using(crate::proofs::EditLemmas::named))]
    fn arrays_named(&self, alloc: Global, names: &[FieldName]) -> Result<Vec<ArrayRef>, ArrayError>
        ensures found { IfOk result
            (λ r. map Some r.items ≡ map (array_named (columns_in self.now)) names.now) }
        ensures refused { IfErr result (λ e. IsNameFault e (columns_in self.now) names.now) }
    {
        let mut arrays = Vec::with_capacity(alloc, names.len())?;
        for name in names {
            match self.unmasked_field_by_name_opt(name.as_str()) {
                Some(array) => arrays.push(array.clone()?)?,
                None => return Err(ArrayError::NoSuchField),
            }
        }
        Ok(arrays)
    }

    /// The struct array with one more column at the end, as Vortex's `StructArray::with_column`.
    /// `LengthMismatch` where the array differs in length.
    #[tactic(auto, using(crate::proofs::EditLemmas::added))]
    pub fn with_column(
        &self,
        alloc: Global,
        name: FieldName,
        array: ArrayRef,
    ) -> Result<StructArray, ArrayError>
        ensures made { IfOk result (λ r. r ≡ records (with_last (columns_in self.now) name array)
            (len_of self.now) (validity_in self.now)) }
        ensures fits { IfOk result (λ _. len_of array ≡ len_of self.now) }
        ensures refused { IfErr result (λ e. IsColumnLengthFault e self.now array) }
    {
        let len = self.fitting_len();
        if array.len() != len {
            return Err(ArrayError::LengthMismatch);
        }
        let mut fields = shared_fields(alloc, self.unmasked_fields())?;
        fields.push(array)?;
        let mut names = shared_names(alloc, self.names().as_slice())?;
        names.push(name)?;
        let names = Rc::new(alloc, FieldNames::new(names))?;
        let validity = self.struct_validity()?;
        let array = StructArray::new_unchecked(alloc, names, fields, len, validity)?;
        Ok(array)
    }

    /// The struct array without the first column of this name, and that column without the struct's
    /// nulls, as Vortex's `StructArray::remove_column_owned`. `None` where no column has the name.
    #[tactic(auto, using(crate::proofs::EditLemmas::removed))]
    pub fn remove_column_owned(
        &self,
        alloc: Global,
        name: &str,
    ) -> Result<Option<(StructArray, ArrayRef)>, AllocError>
        ensures { IfOk result (λ o. IsRemoved self.now name.now o) }
    {
        match self.names().find(name) {
            Some(place) => {
                let (rest, column) = self.without_column(alloc, place)?;
                Ok(Some((rest, column)))
            }
            None => Ok(None),
        }
    }

    /// Removes the first column of this name and returns it without the struct's nulls, as Vortex's
    /// `StructArray::remove_column`. `None` where no column has the name.
    pub fn remove_column(
        &mut self,
        alloc: Global,
        name: &str,
    ) -> Result<Option<ArrayRef>, AllocError>
        ensures removed { IfOk result (λ o. MatchOption o
            ((array_named (columns_in self.old) name.now ≡ None) × (self.new ≡ self.old))
            (λ column. IsRemoved self.old name.now (Some (self.new, column)))) }
        ensures kept { IfErr result (λ _. self.new ≡ self.old) }
    {
        match self.remove_column_owned(alloc, name)? {
            Some((rest, column)) => {
                *self = rest;
                Ok(Some(column))
            }
            None => Ok(None),
        }
    }

    // The struct array without the column at this position, and that column.
    #[tactic(auto, using(crate::proofs::EditLemmas::taken))]
    fn without_column(
        &self,
        alloc: Global,
        place: usize,
    ) -> Result<(StructArray, ArrayRef), AllocError>
        requires { place < length (names_in (columns_in self.now)) }
        ensures rest { IfOk result (λ p. p.0 ≡ records
            (columns_of (removed_at (names_in (columns_in self.now)) place)
            (removed_at (arrays_in (columns_in self.now)) place))
            (len_of self.now) (validity_in self.now)) }
        ensures column { IfOk result (λ p. array_at (columns_in self.now) place ≡ Some p.1) }
    {
        let len = self.fitting_len();
        let mut fields = shared_fields(alloc, self.unmasked_fields())?;
        let column = fields.remove(place);
        let mut names = shared_names(alloc, self.names().as_slice())?;
        let _name = names.remove(place);
        let names = Rc::new(alloc, FieldNames::new(names))?;
        let validity = self.struct_validity()?;
        let rest = StructArray::new_unchecked(alloc, names, fields, len, validity)?;
        Ok((rest, column))
    }
}

// Shares the names.
fn shared_names(alloc: Global, names: &[FieldName]) -> Result<Vec<FieldName>, AllocError>
    ensures { IfOk result (λ copies. copies.items ≡ names.now) }
{
    let mut copies = Vec::with_capacity(alloc, names.len())?;
    for name in names {
        copies.push(name.clone()?)?;
    }
    Ok(copies)
}
