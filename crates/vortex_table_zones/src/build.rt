//! Rows of values as an array.
ghost use Rattle.std.specs.Prelude.{◌≡◌, None, map, IfOk, OnOk, IfErr};
ghost use Rattle.vortex_dtype_core.specs.View.{type_of};
ghost use Rattle.vortex_scalar_value.specs.View.{raw_in, content_in};
ghost use Rattle.vortex_arrays_model.specs.Layout.{array_type_of, rows_of};
ghost use Rattle.vortex_arrays_builder.specs.TooLarge.{AreTooLarge};
ghost use Rattle.vortex_table_schema.specs.Error.{Explains};
ghost use Rattle.vortex_table_zones.specs.Build.{rows_fault};

use std::alloc::Global;
use std::borrow::CowSlice;
use vortex_arrays_core::array::ArrayRef;
use vortex_dtype_core::dtype::DType;
use vortex_scalar_value::scalar_value::ScalarValue;
use vortex_table_layout::rows::plain_rows;
use vortex_table_schema::append::{check_batch, convert_rows};
use vortex_table_schema::error::TableError;

/// The rows, each a value of the type or null, as a plain array, which may have no rows.
///
/// Refused as an append of them to a table of this type, in this order: where a table can't hold
/// the type, as `type_fault`; `InvalidValue` with the index of the first row that isn't valid for
/// it; `Total` where a column has strings or bytes that are too large for views and buffers.
#[tactic(auto, using(crate::proofs::BuildLemmas::built))]
pub fn build_rows(
    alloc: Global,
    dtype: &DType,
    rows: &[Option<ScalarValue>],
) -> Result<ArrayRef, TableError>
    ensures dtype { IfOk result (λ array. array_type_of array ≡ type_of dtype.now) }
    ensures rows { IfOk result (λ array. rows_of array ≡ map content_in rows.now) }
    ensures accepted { OnOk result
        (rows_fault (type_of dtype.now) (map raw_in rows.now) ≡ None) }
    ensures refused { IfErr result
        (λ e. Explains (AreTooLarge (type_of dtype.now) (map content_in rows.now))
        (rows_fault (type_of dtype.now) (map raw_in rows.now)) e) }
{
    check_batch(alloc, dtype, rows)?;
    let rows = convert_rows(alloc, dtype, dtype, CowSlice::Borrowed(rows))?;
    let array = plain_rows(alloc, dtype, &rows)?;
    Ok(array)
}
