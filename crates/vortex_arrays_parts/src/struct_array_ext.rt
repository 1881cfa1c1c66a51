//! The calls of struct arrays besides those that make and read them.
ghost use Rattle.std.specs.Prelude.{◌≡◌, ◌≢◌, ◌↔◌, IsTrue, IfOk, OnOk, IfErr};
ghost use Rattle.vortex_model.specs.LogicalType.{struct};
ghost use Rattle.vortex_dtype_ptype.specs.View.{nullability_of_flag};
ghost use Rattle.vortex_dtype_core.specs.View.{type_of, fields_in, fields_of};
ghost use Rattle.vortex_dtype_fields.specs.Records.{names_of};
ghost use Rattle.vortex_arrays_view.specs.declared.error.ArrayError.TheVariants.{Memory};
ghost use Rattle.vortex_arrays_model.specs.Layout.{Layout, records, array_type_of, fields_of as types_of, nullability_by};
ghost use Rattle.vortex_arrays_model.specs.Parts.{columns_of};
ghost use Rattle.vortex_arrays_core.specs.LayoutOf.{valid_of};
ghost use Rattle.vortex_arrays_struct.specs.RecordFaults.{TellsNulls, FitTogether, IsRecordsFault};
ghost use Rattle.vortex_arrays_struct.specs.Records.{columns_in, validity_in};
ghost use Rattle.vortex_arrays_parts.specs.Typed.{AreOfTypes, IsTypedFault};

use std::alloc::Global;
use std::rc::Rc;
use vortex_arrays_core::array::{ArrayRef, Validity};
use vortex_arrays_struct::check;
use vortex_arrays_struct::struct_array::StructArray;
use vortex_arrays_view::error::ArrayError;
use vortex_dtype_core::dtype::DType;
use vortex_dtype_core::struct_fields::{StructField, StructFields};
use vortex_dtype_fields::struct_fields_ext::StructFieldsExt;
use vortex_dtype_ptype::field_names::FieldNames;
use vortex_dtype_ptype::nullability::Nullability;

/// The calls of Vortex's `StructArrayExt` that `StructArray` does not have.
pub trait StructArrayExt: Sized {
    // The layout of the array.
    ghost layout: { Self → Layout };

    /// Tests that the parts make a struct array of `len` rows, as `try_new` does.
    fn validate(
        names: &FieldNames,
        fields: &[ArrayRef],
        len: usize,
        validity: &Validity,
    ) -> Result<(), ArrayError>
        ensures nulls { OnOk result (TellsNulls (valid_of validity.now)) }
        ensures fit { OnOk result (FitTogether names.now fields.now len (valid_of validity.now)) }
        ensures refused { IfErr result
            (λ e. IsRecordsFault e names.now fields.now len (valid_of validity.now)) }
        ensures memory { IfErr result (λ e. e ≢ Memory) };

    /// `len` rows of these fields, of the stated types and names, as Vortex's
    /// `StructArray::try_new_with_dtype`.
    ///
    /// `WrongType` where the validity's array does not have the type of booleans without null, or
    /// where a field does not have the stated type, else `LengthMismatch` as `validate`.
    fn try_new_with_dtype(
        alloc: Global,
        fields: Vec<ArrayRef>,
        dtype: &StructFields,
        len: usize,
        validity: Validity,
    ) -> Result<Self, ArrayError>
        ensures made { IfOk result
            (λ a. layout a ≡ records (columns_of (names_of (fields_in dtype.now)) fields.items) len
            (valid_of validity)) }
        ensures dtype { IfOk result (λ a. array_type_of (layout a)
            ≡ struct (fields_in dtype.now) (nullability_by (valid_of validity))) }
        ensures refused { IfErr result (λ e.
            IsTypedFault e (fields_in dtype.now) fields.items len (valid_of validity)) };

    /// The names and the types of the fields, and whether a row can be null.
    fn dtype_parts(&self) -> (&StructFields, Nullability)
        ensures fields { fields_in result.0.now ≡ types_of (columns_in (layout self.now)) }
        ensures nullability { nullability_of_flag result.1
            ≡ nullability_by (validity_in (layout self.now)) };
}

impl StructArrayExt for StructArray {
    ghost layout = { λ a. a };

    fn validate(
        names: &FieldNames,
        fields: &[ArrayRef],
        len: usize,
        validity: &Validity,
    ) -> Result<(), ArrayError> {
        check::validate(names, fields, len, validity)
    }

    #[tactic(auto, using(crate::proofs::TypedLemmas::typed))]
    fn try_new_with_dtype(
        alloc: Global,
        fields: Vec<ArrayRef>,
        dtype: &StructFields,
        len: usize,
        validity: Validity,
    ) -> Result<StructArray, ArrayError> {
        if !are_of_types(&fields, dtype.as_slice()) {
            return Err(ArrayError::WrongType);
        }
        let names = Rc::new(alloc, dtype.names(alloc)?)?;
        let array = StructArray::try_new(alloc, names, fields, len, validity)?;
        Ok(array)
    }

    fn dtype_parts(&self) -> (&StructFields, Nullability) {
        (self.struct_fields(), self.nullability())
    }
}

// Whether each field has the type stated for its index, as far as both lists go.
fn are_of_types(fields: &[ArrayRef], stated: &[StructField]) -> bool
    ensures { IsTrue result ↔ AreOfTypes (fields_of stated.now) fields.now }
{
    for i in 0..fields.len().min(stated.len()) {
        if !is_of_type(&fields[i], &stated[i].dtype) {
            return false;
        }
    }
    true
}

// Whether an array is of the type.
fn is_of_type(array: &ArrayRef, dtype: &DType) -> bool
    ensures { IsTrue result ↔ (array_type_of array.now ≡ type_of dtype.now) }
{
    array.dtype() == dtype
}
