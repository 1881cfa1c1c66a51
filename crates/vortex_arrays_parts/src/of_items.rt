//! Arrays of strings and of bytes from lists of items.
ghost use Rattle.std.specs.Prelude.{◌≡◌, Some, map, option_map, IfOk, IfErr};
ghost use Rattle.vortex_model.specs.LogicalType.{utf8, binary, nullable, non_nullable};
ghost use Rattle.vortex_dtype_core.specs.View.{type_of};
ghost use Rattle.vortex_arrays_parts.specs.Values.{IsOfValues, IsValuesFault};

use crate::build::{of_any_values, of_held_values};
use crate::lend::{lend_bytes, lend_some_bytes, lend_some_texts, lend_texts};
use std::alloc::Global;
use std::convert::{AsSlice, AsStr};
use vortex_arrays_core::array::StringKind;
use vortex_arrays_leaf::view_array::VarBinViewArray;
use vortex_arrays_view::error::ArrayError;
use vortex_dtype_core::dtype::DType;
use vortex_dtype_ptype::nullability::Nullability;

/// An array of this type of the items, null where one is missing.
pub(crate) fn of_typed<T: AsSlice<u8>>(
    alloc: Global,
    items: &[Option<T>],
    dtype: &DType,
) -> Result<VarBinViewArray, ArrayError>
    ensures made { IfOk result
        (λ a. IsOfValues (type_of dtype.now) (map (option_map T.items) items.now) a) }
    ensures refused { IfErr result
        (λ e. IsValuesFault e (type_of dtype.now) (map (option_map T.items) items.now)) }
{
    let values = lend_some_bytes(alloc, items)?;
    of_any_values(alloc, dtype, values.as_slice())
}

/// An array of the strings.
#[tactic(auto, using(crate::proofs::RowLemmas::all_present))]
pub(crate) fn of_texts<T: AsStr>(alloc: Global, items: &[T]) -> Result<VarBinViewArray, ArrayError>
    ensures made { IfOk result
        (λ a. IsOfValues (utf8 non_nullable) (map (option_map T.text) (map Some items.now)) a) }
    ensures refused { IfErr result
        (λ e. IsValuesFault e (utf8 non_nullable) (map (option_map T.text) (map Some items.now))) }
{
    let values = lend_texts(alloc, items)?;
    of_held_values(
        alloc,
        StringKind::Utf8,
        Nullability::NonNullable,
        values.as_slice(),
    )
}

/// An array of the strings, null where one is missing.
#[tactic(auto, using(crate::proofs::RowLemmas::all_present))]
pub(crate) fn of_some_texts<T: AsStr>(
    alloc: Global,
    items: &[Option<T>],
) -> Result<VarBinViewArray, ArrayError>
    ensures made { IfOk result
        (λ a. IsOfValues (utf8 nullable) (map (option_map T.text) items.now) a) }
    ensures refused { IfErr result
        (λ e. IsValuesFault e (utf8 nullable) (map (option_map T.text) items.now)) }
{
    let values = lend_some_texts(alloc, items)?;
    of_held_values(
        alloc,
        StringKind::Utf8,
        Nullability::Nullable,
        values.as_slice(),
    )
}

/// An array of the byte strings.
#[tactic(auto, using(crate::proofs::RowLemmas::all_present))]
pub(crate) fn of_bytes<T: AsSlice<u8>>(
    alloc: Global,
    items: &[T],
) -> Result<VarBinViewArray, ArrayError>
    ensures made { IfOk result
        (λ a. IsOfValues (binary non_nullable) (map (option_map T.items) (map Some items.now)) a) }
    ensures refused { IfErr result
        (λ e. IsValuesFault e (binary non_nullable)
        (map (option_map T.items) (map Some items.now))) }
{
    let values = lend_bytes(alloc, items)?;
    of_held_values(
        alloc,
        StringKind::Binary,
        Nullability::NonNullable,
        values.as_slice(),
    )
}

/// An array of the byte strings, null where one is missing.
#[tactic(auto, using(crate::proofs::RowLemmas::all_present))]
pub(crate) fn of_some_bytes<T: AsSlice<u8>>(
    alloc: Global,
    items: &[Option<T>],
) -> Result<VarBinViewArray, ArrayError>
    ensures made { IfOk result
        (λ a. IsOfValues (binary nullable) (map (option_map T.items) items.now) a) }
    ensures refused { IfErr result
        (λ e. IsValuesFault e (binary nullable) (map (option_map T.items) items.now)) }
{
    let values = lend_some_bytes(alloc, items)?;
    of_held_values(
        alloc,
        StringKind::Binary,
        Nullability::Nullable,
        values.as_slice(),
    )
}
