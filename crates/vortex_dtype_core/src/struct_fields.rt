//! The fields of a struct.
ghost use Rattle.std.specs.Prelude.{◌≡◌, length, map, IfOk, option_map, option_copied};
ghost use Rattle.std.specs.List.{zip};
ghost use Rattle.vortex_model.specs.LogicalType.{no_fields};
ghost use Rattle.vortex_model.specs.Path.{position_named, field_at};
ghost use Rattle.vortex_dtype_core.specs.View.{type_of, field_of, fields_in, fields_of, fields_from, items_of};
ghost use Rattle.vortex_dtype_core.specs.Parts.{field_count, name_at};

use crate::dtype::DType;
use std::alloc::{AllocError, Global};
use std::rc::Rc;
use vortex_dtype_ptype::field_names::{FieldName, FieldNames};

/// The fields of a struct in order, as Vortex's `StructFields`. A clone shares them.
#[derive(Drop)]
#[cycle(dtype)]
pub struct StructFields {
    fields: Rc<Vec<StructField>>,
}

/// A field of a struct.
#[derive(Drop)]
#[cycle(dtype)]
pub struct StructField {
    /// The name. Several fields may have the same.
    pub name: FieldName,
    /// The type.
    pub dtype: DType,
}

impl StructFields {
    /// The fields of these names, each with the type at the same index.
    #[tactic(auto, using(crate::proofs::Views::built))]
    pub fn new(names: FieldNames, dtypes: Vec<DType>) -> Result<StructFields, AllocError>
        requires { length names ≡ length dtypes.items }
        ensures { IfOk result
            (λ all. fields_in all ≡ fields_from (zip names (map type_of dtypes.items))) }
    {
        let mut fields = Vec::with_capacity(*dtypes.allocator(), dtypes.len())?;
        for dtype in dtypes {
            let name = names.as_slice()[fields.len()].clone()?;
            fields.push(StructField { name, dtype })?;
        }
        let all = StructFields::from_vec(fields)?;
        Ok(all)
    }

    #[tactic(auto, using(crate::proofs::Views::one_level))]
    pub fn from_vec(fields: Vec<StructField>) -> Result<StructFields, AllocError>
        ensures { IfOk result (λ all. fields_in all ≡ fields_of fields.items) }
    {
        let alloc = *fields.allocator();
        let fields = Rc::new(alloc, fields)?;
        Ok(StructFields { fields })
    }

    #[tactic(auto, using(crate::proofs::Views::one_level))]
    pub fn empty(alloc: Global) -> Result<StructFields, AllocError>
        ensures { IfOk result (λ all. fields_in all ≡ no_fields) }
    {
        let all = StructFields::from_vec(Vec::new(alloc))?;
        Ok(all)
    }

    #[tactic(auto, using(crate::proofs::Views::one_level))]
    pub fn as_slice(&self) -> &[StructField]
        ensures fields { fields_of result.now ≡ fields_in self.now }
        ensures items { result.now ≡ items_of self.now }
    {
        self.fields.as_slice()
    }

    #[tactic(auto, using(crate::proofs::Views::one_level))]
    pub fn nfields(&self) -> usize
        ensures { result ≡ field_count (fields_in self.now) }
    {
        self.as_slice().len()
    }

    /// The name at an index, and `None` past the end.
    #[tactic(auto, using(crate::proofs::Views::at_places))]
    pub fn field_name(&self, index: usize) -> Option<&FieldName>
        ensures { option_copied result ≡ name_at (fields_in self.now) index }
    {
        let fields = self.as_slice();
        if index >= fields.len() {
            return None;
        }
        Some(&fields[index].name)
    }

    /// The type at an index, and `None` past the end.
    #[tactic(auto, using(crate::proofs::Views::at_places))]
    pub fn field_by_index(&self, index: usize) -> Option<&DType>
        ensures { option_map (λ dtype. type_of dtype.now) result
            ≡ field_at (fields_in self.now) index }
    {
        let fields = self.as_slice();
        if index >= fields.len() {
            return None;
        }
        Some(&fields[index].dtype)
    }

    /// The index of the first field with this name.
    #[tactic(auto, using(crate::proofs::Views::at_places))]
    pub fn find(&self, name: &FieldName) -> Option<usize>
        ensures { result ≡ position_named (fields_in self.now) name.now }
    {
        let fields = self.as_slice();
        for (position, field) in fields.iter().enumerate() {
            if field.name == *name {
                return Some(position);
            }
        }
        None
    }
}

impl Clone for StructFields {
    ghost is_clone = { λ old new. fields_in new ≡ fields_in old };

    #[tactic(auto, using(crate::proofs::Views::one_level))]
    fn clone(&self) -> Result<StructFields, AllocError> {
        let fields = self.fields.clone()?;
        Ok(StructFields { fields })
    }
}

impl Clone for StructField {
    ghost is_clone = { λ old new. field_of new ≡ field_of old };

    #[tactic(auto, using(crate::proofs::Views::built))]
    fn clone(&self) -> Result<StructField, AllocError> {
        let name = self.name.clone()?;
        let dtype = self.dtype.clone()?;
        Ok(StructField { name, dtype })
    }
}
