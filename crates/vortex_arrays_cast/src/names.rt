//! Names of the fields of struct arrays that were cast.
ghost use Rattle.std.specs.Prelude.{◌≡◌, IfOk, IfSome, IsTrue};
ghost use Rattle.vortex_dtype_core.specs.View.{fields_in, fields_of};
ghost use Rattle.vortex_dtype_fields.specs.Records.{names_of};

use std::alloc::{AllocError, Global};
use std::rc::Rc;
use vortex_arrays_core::array::{ArrayLayout, ArrayRef};
use vortex_dtype_core::struct_fields::{StructField, StructFields};
use vortex_dtype_fields::struct_fields_ext::StructFieldsExt;
use vortex_dtype_ptype::field_names::{FieldName, FieldNames};

/// The column of the array at this index, where it is a struct array.
pub(crate) fn field_in<'a>(array: Option<&'a ArrayRef>, index: usize) -> Option<&'a ArrayRef> {
    let Some(array) = array else {
        return None;
    };
    match array.layout() {
        ArrayLayout::Struct(_, fields, _, _) => fields.get(index),
        _ => None,
    }
}

fn is_name(name: &FieldName, field: &StructField) -> bool
    ensures { IsTrue result → name.now ≡ field.now.name }
{
    *name == field.name
}

// Whether these are the names of the fields.
#[tactic(auto, using(crate::proofs::NameLemmas::named))]
fn are_names(names: &[FieldName], fields: &[StructField]) -> bool
    ensures { IsTrue result → names.now ≡ names_of (fields_of fields.now) }
{
    if names.len() != fields.len() {
        return false;
    }
    for i in 0..names.len() {
        if !is_name(&names[i], &fields[i]) {
            return false;
        }
    }
    true
}

// The names of the array's fields, where it is a struct array with these names.
fn names_in<'a>(array: Option<&'a ArrayRef>, fields: &StructFields) -> Option<&'a Rc<FieldNames>>
    ensures { IfSome result (λ names. names.now.value ≡ names_of (fields_in fields.now)) }
{
    let Some(array) = array else {
        return None;
    };
    match array.layout() {
        ArrayLayout::Struct(names, _, _, _) => {
            if are_names(names.as_slice(), fields.as_slice()) {
                Some(names)
            } else {
                None
            }
        }
        _ => None,
    }
}

/// The names of the fields, shared with the array where it has them.
pub(crate) fn shared_names(
    alloc: Global,
    fields: &StructFields,
    array: Option<&ArrayRef>,
) -> Result<Rc<FieldNames>, AllocError>
    ensures { IfOk result (λ names. names.value ≡ names_of (fields_in fields.now)) }
{
    match names_in(array, fields) {
        Some(names) => {
            let same = names.clone()?;
            Ok(same)
        }
        None => {
            let names = Rc::new(alloc, fields.names(alloc)?)?;
            Ok(names)
        }
    }
}
