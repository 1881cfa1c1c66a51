//! Views of structs.
ghost use Rattle.std.specs.Prelude.{◌≡◌, IsTrue, Some, IfOk, option_map};
ghost use Rattle.vortex_model.specs.Content.{content_of, is_null};
ghost use Rattle.vortex_model.specs.Valid.{valid};
ghost use Rattle.vortex_dtype_core.specs.Parts.{is_struct_type, fields_in_type};
ghost use Rattle.vortex_dtype_core.specs.View.{type_of, fields_in};
ghost use Rattle.vortex_dtype_fields.specs.Records.{names_of};
ghost use Rattle.vortex_scalar_value.specs.View.{raw_at};
ghost use Rattle.vortex_scalar_nested.specs.Held.{raw_of_items};
ghost use Rattle.vortex_scalar_nested.specs.Places.{field_of_record, field_named};

use crate::copies::value_at;
use std::alloc::{AllocError, Global};
use vortex_dtype_core::dtype::DType;
use vortex_dtype_core::struct_fields::StructFields;
use vortex_dtype_fields::struct_fields_ext::StructFieldsExt;
use vortex_dtype_ptype::field_names::{FieldName, FieldNames};
use vortex_scalar_core::scalar::Scalar;
use vortex_scalar_value::scalar_value::ScalarValue;
use vortex_scalar_views::copies::scalar_of;

/// A struct's value or null with its type, as Vortex's `StructScalar`.
#[derive(Drop)]
pub struct StructScalar<'a> {
    dtype: &'a DType,
    value: Option<&'a ScalarValue>,
    ghost is_record: { IsTrue (is_struct_type (type_of dtype.now)) },
    ghost is_valid: { IsTrue (valid (type_of dtype.now) (raw_at value)) },
}

impl<'a> StructScalar<'a> {
    ghost use Rattle.vortex_scalar_views.specs.Views.{typed_scalar};
    ghost use Rattle.vortex_scalar_nested.specs.Nested.{typed_struct};

    /// The view of a value that the type has, which is a struct.
    pub(crate) fn new(dtype: &'a DType, value: Option<&'a ScalarValue>) -> StructScalar<'a>
        requires kind { IsTrue (is_struct_type (type_of dtype.now)) }
        requires valid { IsTrue (valid (type_of dtype.now) (raw_at value)) }
        ensures { typed_struct result ≡ (type_of dtype.now, raw_at value.entry) }
    {
        StructScalar { dtype, value }
    }

    pub fn dtype(&self) -> &'a DType
        ensures { type_of result.now ≡ (typed_struct self.now).0 }
    {
        self.dtype
    }

    /// The struct's value. `None` is null.
    pub fn value(&self) -> Option<&'a ScalarValue>
        ensures value { raw_at result ≡ (typed_struct self.now).1 }
        ensures is_valid { IsTrue (valid (typed_struct self.now).0 (raw_at result)) }
    {
        self.value
    }

    // The values of the fields, and `None` for null.
    #[tactic(auto, using(crate::proofs::Records::held))]
    fn items(&self) -> Option<&'a [Option<ScalarValue>]>
        ensures value { raw_of_items result ≡ (typed_struct self.now).1 }
        ensures is_valid { IsTrue (valid (typed_struct self.now).0 (raw_of_items result)) }
    {
        match self.value {
            Some(value) => value.as_list(),
            None => None,
        }
    }

    pub fn struct_fields(&self) -> &'a StructFields
        ensures { fields_in_type (typed_struct self.now).0 ≡ Some (fields_in result.now) }
    {
        self.dtype.as_struct_fields()
    }

    #[tactic(auto, using(crate::proofs::Records::named))]
    pub fn names(&self, alloc: Global) -> Result<FieldNames, AllocError>
        ensures { IfOk result
            (λ names. option_map names_of (fields_in_type (typed_struct self.now).0) ≡ Some names) }
    {
        let names = self.struct_fields().names(alloc)?;
        Ok(names)
    }

    #[tactic(auto, using(vortex_scalar_value::proofs::Nulls::never_null))]
    pub fn is_null(&self) -> bool
        ensures { result ≡ is_null (content_of (typed_struct self.now).1) }
    {
        self.value.is_none()
    }

    /// A clone of the field's value at an index, and `None` past the end, and for null.
    #[tactic(auto, using(crate::proofs::Records::placed))]
    pub fn field_by_idx(&self, index: usize) -> Result<Option<Scalar>, AllocError>
        ensures { IfOk result (λ field. option_map typed_scalar field
            ≡ field_of_record (typed_struct self.now) index) }
    {
        let Some(values) = self.items() else {
            return Ok(None);
        };
        let dtype = self.struct_fields().field_by_index(index);
        match (dtype, value_at(values, index)) {
            (Some(dtype), Some(value)) => {
                let field = scalar_of(dtype, value)?;
                Ok(Some(field))
            }
            (Some(_), None) | (None, Some(_)) | (None, None) => Ok(None),
        }
    }

    /// A clone of the value of the first field with this name, and `None` where there is none, and
    /// for null.
    #[tactic(auto, using(crate::proofs::Records::named))]
    pub fn field(&self, name: &FieldName) -> Result<Option<Scalar>, AllocError>
        ensures { IfOk result (λ field. option_map typed_scalar field
            ≡ field_named (typed_struct self.now) name.now) }
    {
        let Some(index) = self.struct_fields().find(name) else {
            return Ok(None);
        };
        let field = self.field_by_idx(index)?;
        Ok(field)
    }
}
