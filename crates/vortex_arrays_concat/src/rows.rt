//! The rows of struct arrays, one array after another.
ghost use Rattle.std.specs.Prelude.{◌≡◌, ◌≤◌, ◌^◌, true, map, length, IfOk, MatchOption, All};
ghost use Rattle.vortex_model.specs.Valid.{valid};
ghost use Rattle.vortex_model.specs.LogicalType.{LogicalType};
ghost use Rattle.vortex_scalar_value.specs.View.{raw_in, raw_at, content_in};
ghost use Rattle.vortex_arrays_model.specs.Layout.{array_type_of, rows_of};
ghost use Rattle.vortex_arrays_concat.specs.EndToEnd.{rows_of_arrays, rows_in_all};

use std::alloc::{AllocError, Global};
use vortex_arrays_builder::rows::row_value;
use vortex_arrays_core::array::ArrayRef;
use vortex_arrays_struct::struct_array::StructArray;
use vortex_scalar_value::scalar_value::ScalarValue;

/// The number of rows of all arrays, and `None` where it is 2^64 or more.
#[tactic(auto, using(crate::proofs::RowLemmas::counted))]
pub(crate) fn count_rows(arrays: &[StructArray]) -> Option<usize>
    ensures { MatchOption result (2 ^ 64 ≤ rows_in_all arrays.now)
        (λ rows. rows ≡ rows_in_all arrays.now) }
{
    let mut rows: usize = 0;
    for array in arrays {
        match rows.checked_add(array.len()) {
            Some(sum) => rows = sum,
            None => return None,
        }
    }
    Some(rows)
}

/// The values of all `count` rows, and `None` for null.
#[tactic(auto, using(crate::proofs::RowLemmas::gathered))]
pub(crate) fn rows_of(
    alloc: Global,
    arrays: &[StructArray],
    count: usize,
) -> Result<Vec<Option<ScalarValue>>, AllocError>
    ensures rows { IfOk result
        (λ rows. map content_in rows.items ≡ rows_of_arrays arrays.now) }
    ensures valid { IfOk result (λ rows. (k : LogicalType)
        → All (λ a. array_type_of a ≡ k) arrays.now
        → All (λ row. valid k (raw_in row) ≡ true) rows.items) }
{
    let mut rows = Vec::with_capacity(alloc, count)?;
    for array in arrays {
        let mut more = rows_in(alloc, array.as_array())?;
        rows.append(&mut more)?;
    }
    Ok(rows)
}

/// The values of the rows of an array.
#[tactic(auto, using(crate::proofs::RowLemmas::placed))]
pub(crate) fn rows_in(
    alloc: Global,
    array: &ArrayRef,
) -> Result<Vec<Option<ScalarValue>>, AllocError>
    ensures rows { IfOk result (λ rows. map content_in rows.items ≡ rows_of array.now) }
    ensures valid { IfOk result
        (λ rows. All (λ row. valid (array_type_of array.now) (raw_in row) ≡ true) rows.items) }
{
    let count = array.len();
    let mut rows = Vec::new(alloc);
    rows.resize_with(count, || None)?;
    for i in 0..count {
        rows[i] = row_value(alloc, array, i)?;
    }
    Ok(rows)
}

/// The values, borrowed.
pub(crate) fn lend(
    alloc: Global,
    values: &[Option<ScalarValue>],
) -> Result<Vec<Option<&ScalarValue>>, AllocError>
    ensures { IfOk result (λ lent. map raw_at lent.items ≡ map raw_in values.now) }
{
    values.iter().map(|value| value.as_ref()).collect(alloc)
}
