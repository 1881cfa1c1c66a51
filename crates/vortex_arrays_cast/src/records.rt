//! Struct arrays of columns that were cast.
ghost use Rattle.std.specs.Prelude.{◌≡◌, length, IfOk};
ghost use Rattle.vortex_model.specs.LogicalType.{struct};
ghost use Rattle.vortex_dtype_core.specs.View.{type_of, fields_in};
ghost use Rattle.vortex_dtype_fields.specs.Records.{names_of};
ghost use Rattle.vortex_arrays_model.specs.Layout.{records, fields_of, nullability_by, HasLength, HaveLength};
ghost use Rattle.vortex_arrays_model.specs.Parts.{columns_of};
ghost use Rattle.vortex_arrays_core.specs.LayoutOf.{valid_of};

use crate::names::shared_names;
use std::alloc::{AllocError, Global};
use vortex_arrays_core::array::{ArrayLayout, ArrayRef, Validity};
use vortex_dtype_core::dtype::DType;
use vortex_dtype_core::struct_fields::StructFields;

/// A struct array of these columns, with the names of the fields of the type, which are shared with
/// the given array where that has them.
pub(crate) fn of_columns(
    alloc: Global,
    dtype: &DType,
    fields: &StructFields,
    columns: Vec<ArrayRef>,
    len: usize,
    validity: Validity,
    other: Option<&ArrayRef>,
) -> Result<ArrayRef, AllocError>
    requires dtype { type_of dtype.now
        ≡ struct (fields_in fields.now) (nullability_by (valid_of validity)) }
    requires typed { fields_of (columns_of (names_of (fields_in fields.now)) columns.items)
        ≡ fields_in fields.now }
    requires named { length (names_of (fields_in fields.now)) ≡ length columns.items }
    requires fit { HaveLength (columns_of (names_of (fields_in fields.now)) columns.items) len }
    requires validity { HasLength (valid_of validity) len }
    ensures { IfOk result (λ array. array ≡ records
        (columns_of (names_of (fields_in fields.now)) columns.items) len (valid_of validity)) }
{
    let names = shared_names(alloc, fields, other)?;
    let dtype = dtype.clone()?;
    let layout = ArrayLayout::Struct(names, columns, len, validity);
    ArrayRef::new_unchecked(alloc, dtype, layout)
}
