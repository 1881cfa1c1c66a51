//! Columns of struct arrays by paths of names.
ghost use Rattle.std.specs.Prelude.{◌∷◌, [], IfOk, IfErr};
ghost use Rattle.vortex_arrays_model.specs.Column.{IsColumn};
ghost use Rattle.vortex_arrays_core.specs.Flags.{HasFlagsOfColumn, KeepsDictionaryFlag};
ghost use Rattle.vortex_arrays_struct.specs.ColumnFaults.{IsColumnFault};

use crate::part::field_of;
use std::alloc::Global;
use vortex_arrays_core::array::ArrayRef;
use vortex_arrays_view::error::ArrayError;
use vortex_dtype_ptype::field_names::FieldName;

/// The column at a path of names, null where a struct on the way is null. A name that occurs
/// several times in a struct is that of the first such field. The empty path gives the array
/// itself, shared. The column of a dictionary is a dictionary with the same flag, and list views
/// keep their flags, also in fields of the column. `NoSuchField` where a step is no field's name.
#[tactic(auto, using(crate::proofs::Steps::walked))]
pub fn column_at(
    alloc: Global,
    array: &ArrayRef,
    path: &[FieldName],
) -> Result<ArrayRef, ArrayError>
    ensures made { IfOk result (λ column. IsColumn array.now path.now column) }
    ensures flag { IfOk result (λ column. KeepsDictionaryFlag array.now column) }
    ensures flags { IfOk result (λ column. HasFlagsOfColumn array.now path.now column) }
    ensures refused { IfErr result (λ e. IsColumnFault e array.now path.now) }
{
    let _rows = array.len();
    let mut column = array.clone()?;
    for name in path {
        column = column_named(alloc, &column, name)?;
    }
    Ok(column)
}

// The column of a field.
#[tactic(auto, using(crate::proofs::Columns::stepped))]
fn column_named(alloc: Global, array: &ArrayRef, name: &FieldName) -> Result<ArrayRef, ArrayError>
    ensures made { IfOk result (λ column. IsColumn array.now (name.now ∷ []) column) }
    ensures flag { IfOk result (λ column. KeepsDictionaryFlag array.now column) }
    ensures flags { IfOk result (λ column. HasFlagsOfColumn array.now (name.now ∷ []) column) }
    ensures refused { IfErr result (λ e. IsColumnFault e array.now (name.now ∷ [])) }
{
    let Some(fields) = array.dtype().as_struct_fields_opt() else {
        return Err(ArrayError::NoSuchField);
    };
    let Some(position) = fields.find(name) else {
        return Err(ArrayError::NoSuchField);
    };
    match field_of(alloc, array, position)? {
        Some(column) => Ok(column),
        None => Err(ArrayError::NoSuchField),
    }
}
