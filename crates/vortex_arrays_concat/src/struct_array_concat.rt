//! Struct arrays end to end.
ghost use Rattle.std.specs.Prelude.{◌≡◌, ◌<◌, ◌^◌, ◌↔◌, map, length, IfOk, OnOk, IfErr, IsTrue, MatchOption, All};
ghost use Rattle.vortex_model.specs.LogicalType.{LogicalType};
ghost use Rattle.vortex_dtype_core.specs.View.{type_of};
ghost use Rattle.vortex_arrays_model.specs.Layout.{Layout, array_type_of, rows_of};
ghost use Rattle.vortex_arrays_builder.specs.TooLarge.{AreTooLarge};
ghost use Rattle.vortex_arrays_builder.specs.Types.{HasPlain, IsPlainLayout};
ghost use Rattle.vortex_arrays_concat.specs.EndToEnd.{rows_in_all, AreOfType, IsConcatenation, IsConcatFault};

use crate::nested::concat_column;
use crate::plain_parts::is_of_type;
use crate::plain_types::has_plain;
use crate::room::have_room;
use crate::rows::{count_rows, lend, rows_of};
use std::alloc::{AllocError, Global};
use vortex_arrays_builder::plain::build_plain;
use vortex_arrays_core::array::ArrayRef;
use vortex_arrays_struct::struct_array::StructArray;
use vortex_arrays_view::error::ArrayError;
use vortex_dtype_core::dtype::DType;

/// The call of Vortex's `StructArray` that puts struct arrays end to end.
pub trait StructArrayConcat: Sized {
    // The layout of the array.
    ghost layout: { Self → Layout };

    /// The rows of the arrays, one array after another, in plain layout.
    ///
    /// `WrongType` where there is no array, where two have different types, or where a field, at
    /// any depth, has a type without a plain layout: anything but booleans, integers, strings,
    /// bytes, lists and structs. Else `Total` where there are 2^64 rows or more, or a column of
    /// strings or bytes is too large, as in `build_plain`.
    fn try_concat(alloc: Global, arrays: &[Self]) -> Result<Self, ArrayError>
        ensures made { IfOk result (λ a. IsConcatenation (map layout arrays.now) (layout a)) }
        ensures layout { IfOk result (λ a. IsPlainLayout (layout a)) }
        ensures counted { OnOk result (rows_in_all (map layout arrays.now) < 2 ^ 64) }
        ensures accepted { IfOk result
            (λ a. ¬ AreTooLarge (array_type_of (layout a)) (rows_of (layout a))) }
        ensures refused { IfErr result (λ e. IsConcatFault e (map layout arrays.now)) };
}

impl StructArrayConcat for StructArray {
    ghost layout = { λ a. a };

    #[tactic(auto, using(crate::proofs::RowLemmas::of_records))]
    fn try_concat(alloc: Global, arrays: &[StructArray]) -> Result<StructArray, ArrayError> {
        let array = concat(alloc, arrays)?;
        match StructArray::of_array(array) {
            Ok(records) => Ok(records),
            Err(_other) => unreachable!(),
        }
    }
}

// The rows of the arrays as an array of any layout: column by column, which keeps the buffers of
// strings and bytes, or by the values of all rows where that fails or buffers may be too few.
#[tactic(auto, using(crate::proofs::RecordLemmas::whole))]
fn concat(alloc: Global, arrays: &[StructArray]) -> Result<ArrayRef, ArrayError>
    ensures made { IfOk result (λ a. IsConcatenation arrays.now a) }
    ensures layout { IfOk result (λ a. IsPlainLayout a) }
    ensures counted { OnOk result (rows_in_all arrays.now < 2 ^ 64) }
    ensures accepted { IfOk result (λ a. ¬ AreTooLarge (array_type_of a) (rows_of a)) }
    ensures refused { IfErr result (λ e. IsConcatFault e arrays.now) }
{
    let Some(dtype) = type_of_all(arrays) else {
        return Err(ArrayError::WrongType);
    };
    let Some(count) = count_rows(arrays) else {
        return Err(ArrayError::Total);
    };
    let shared = share(alloc, arrays)?;
    if let Some(array) = concat_column(alloc, dtype, shared.as_slice(), count)? {
        if have_room(&array) {
            return Ok(array);
        }
    }
    concat_rows(alloc, dtype, arrays, count)
}

// The arrays, shared, as arrays of any layout.
fn share(alloc: Global, arrays: &[StructArray]) -> Result<Vec<ArrayRef>, AllocError>
    ensures { IfOk result (λ shared. shared.items ≡ arrays.now) }
{
    let mut shared = Vec::with_capacity(alloc, arrays.len())?;
    for array in arrays {
        shared.push(array.as_array().clone()?)?;
    }
    Ok(shared)
}

// The `count` rows of the arrays, by their values.
#[tactic(auto, using(crate::proofs::RowLemmas::whole))]
fn concat_rows(
    alloc: Global,
    dtype: &DType,
    arrays: &[StructArray],
    count: usize,
) -> Result<ArrayRef, ArrayError>
    requires { AreOfType arrays.now (type_of dtype.now) }
    ensures made { IfOk result (λ a. IsConcatenation arrays.now a) }
    ensures layout { IfOk result (λ a. IsPlainLayout a) }
    ensures accepted { IfOk result (λ a. ¬ AreTooLarge (array_type_of a) (rows_of a)) }
    ensures refused { IfErr result (λ e. IsConcatFault e arrays.now) }
{
    let rows = rows_of(alloc, arrays, count)?;
    let lent = lend(alloc, rows.as_slice())?;
    build_plain(alloc, dtype, lent.as_slice())
}

// The type of all arrays, where they have one and it has a plain layout.
#[tactic(auto, using(crate::proofs::RowLemmas::typed))]
fn type_of_all(arrays: &[StructArray]) -> Option<&DType>
    ensures { MatchOption result ((k : LogicalType) → ¬ AreOfType arrays.now k)
        (λ dtype. AreOfType arrays.now (type_of dtype.now)) }
{
    let first = arrays.first()?;
    let dtype = first.dtype();
    if dtype.is_struct() && has_plain(dtype) && are_of_type(arrays, dtype) {
        return Some(dtype);
    }
    None
}

fn are_of_type(arrays: &[StructArray], dtype: &DType) -> bool
    ensures { IsTrue result ↔ All (λ a. array_type_of a ≡ type_of dtype.now) arrays.now }
{
    for array in arrays {
        if !is_of_type(array.as_array(), dtype) {
            return false;
        }
    }
    true
}
