//! Struct arrays.
ghost use Rattle.std.specs.Prelude.{◌≡◌, ◌==◌, length, IfOk, IfErr, IfSome, OnOk, MatchOption};
ghost use Rattle.vortex_dtype_core.specs.View.{type_of};
ghost use Rattle.vortex_arrays_model.specs.Layout.{
  IsSound,
  len_of,
  array_type_of,
  records,
  no_columns,
  required,
};
ghost use Rattle.vortex_arrays_model.specs.Parts.{columns_of};
ghost use Rattle.vortex_arrays_core.specs.LayoutOf.{valid_of};
ghost use Rattle.vortex_arrays_struct.specs.Records.{AreRecords};
ghost use Rattle.vortex_arrays_struct.specs.RecordFaults.{TellsNulls, FitTogether, IsRecordsFault};

use crate::check::validate;
use std::alloc::{AllocError, Global};
use std::marker::Model;
use std::rc::Rc;
use vortex_arrays_core::array::{ArrayLayout, ArrayRef, Validity};
use vortex_arrays_view::error::ArrayError;
use vortex_dtype_core::dtype::DType;
use vortex_dtype_ptype::field_names::FieldNames;

/// Structs, with an array for each field, as Vortex's `StructArray`. A clone shares the array.
#[derive(Drop)]
pub struct StructArray {
    pub(crate) array: ArrayRef,
}

// Clauses see the layout of the array.
impl Model for StructArray {
    ghost use Rattle.vortex_arrays_model.specs.Layout.{Layout};
    ghost use Rattle.vortex_arrays_model.specs.LayoutCode.{layout_code};

    ghost Value = { Layout };

    ghost coded = { layout_code };

    ghost use Rattle.vortex_arrays_struct.specs.Records.{AreRecords};

    ghost view = { λ a. a.array };

    ghost invariant = { λ a. AreRecords a.array };
}

impl StructArray {
    /// `len` structs of these fields. The errors are those of `validate`.
    pub fn try_new(
        alloc: Global,
        names: Rc<FieldNames>,
        fields: Vec<ArrayRef>,
        len: usize,
        validity: Validity,
    ) -> Result<StructArray, ArrayError>
        ensures made { IfOk result (λ a. a ≡ records (columns_of names.value fields.items) len
            (valid_of validity)) }
        ensures nulls { OnOk result (TellsNulls (valid_of validity)) }
        ensures fit { OnOk result (FitTogether names.value fields.items len (valid_of validity)) }
        ensures refused { IfErr result
            (λ e. IsRecordsFault e names.value fields.items len (valid_of validity)) }
    {
        validate(&names, &fields, len, &validity)?;
        let array = StructArray::new_unchecked(alloc, names, fields, len, validity)?;
        Ok(array)
    }

    /// `len` structs of these fields, which the caller knows to fit together, as Vortex's
    /// `StructArray::new`.
    pub fn new(
        alloc: Global,
        names: Rc<FieldNames>,
        fields: Vec<ArrayRef>,
        len: usize,
        validity: Validity,
    ) -> Result<StructArray, AllocError>
        requires named { length names.value ≡ length fields.items }
        requires sound { IsSound
            (records (columns_of names.value fields.items) len (valid_of validity)) }
        ensures { IfOk result (λ a. a ≡ records (columns_of names.value fields.items) len
            (valid_of validity)) }
    {
        StructArray::new_unchecked(alloc, names, fields, len, validity)
    }

    /// `len` structs of these fields, which the caller knows to fit together.
    pub fn new_unchecked(
        alloc: Global,
        names: Rc<FieldNames>,
        fields: Vec<ArrayRef>,
        len: usize,
        validity: Validity,
    ) -> Result<StructArray, AllocError>
        requires named { length names.value ≡ length fields.items }
        requires sound { IsSound
            (records (columns_of names.value fields.items) len (valid_of validity)) }
        ensures { IfOk result (λ a. a ≡ records (columns_of names.value fields.items) len
            (valid_of validity)) }
    {
        let array = ArrayRef::of_records(alloc, names, fields, len, validity)?;
        Ok(StructArray { array })
    }

    /// `len` structs without fields and without null.
    pub fn new_fieldless_with_len(alloc: Global, len: usize) -> Result<StructArray, AllocError>
        ensures { IfOk result (λ a. a ≡ records no_columns len required) }
    {
        let names = Rc::new(alloc, FieldNames::empty(alloc))?;
        let fields = Vec::new(alloc);
        let array = StructArray::new_unchecked(alloc, names, fields, len, Validity::NonNullable)?;
        Ok(array)
    }

    /// The array as a `StructArray` where it has that layout, and else the array itself as `Err`.
    pub fn of_array(array: ArrayRef) -> Result<StructArray, ArrayRef>
        ensures made { IfOk result (λ a. a ≡ array) }
        ensures records { OnOk result (AreRecords array) }
        ensures back { IfErr result (λ same. same ≡ array) }
        ensures others { IfErr result (λ _. ¬ AreRecords array) }
    {
        if parts_of(&array).is_some() {
            Ok(StructArray { array })
        } else {
            Err(array)
        }
    }

    /// The array as one of any layout.
    pub fn into_array(self) -> ArrayRef
        ensures array { result ≡ self }
        ensures layout { AreRecords result }
    {
        self.array
    }

    /// The array as one of any layout.
    pub fn as_array(&self) -> &ArrayRef
        ensures array { result.now ≡ self.now }
        ensures layout { AreRecords result.now }
    {
        &self.array
    }

    pub fn len(&self) -> usize
        ensures { result ≡ len_of self.now }
    {
        self.array.len()
    }

    pub fn is_empty(&self) -> bool
        ensures { result ≡ (len_of self.now == 0) }
    {
        self.len() == 0
    }

    /// The type of the structs.
    pub fn dtype(&self) -> &DType
        ensures { type_of result.now ≡ array_type_of self.now }
    {
        self.array.dtype()
    }
}

impl Clone for StructArray {
    ghost is_clone = { λ old new. new ≡ old };

    fn clone(&self) -> Result<StructArray, AllocError> {
        let array = self.array.clone()?;
        Ok(StructArray { array })
    }
}

// The names, one for each field, the fields and the validity of a struct array.
pub(crate) fn parts_of(array: &ArrayRef) -> Option<(&Rc<FieldNames>, &[ArrayRef], &Validity)>
    ensures named { IfSome result (λ parts. length parts.0.now.value ≡ length parts.1.now) }
    ensures parts { MatchOption result
        (¬ AreRecords array.now)
        (λ parts. array.now ≡ records (columns_of parts.0.now.value parts.1.now) (len_of array.now)
        (valid_of parts.2.now)) }
{
    match array.layout() {
        ArrayLayout::Struct(names, fields, _, validity) => {
            Some((names, fields.as_slice(), validity))
        }
        _ => None,
    }
}
