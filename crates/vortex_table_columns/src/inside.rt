//! Struct and list arrays from the arrays of their fields and elements.
ghost use Rattle.std.specs.Prelude.{◌≡◌, List, Option, Bool, length, map, pos, is_some, option_map, All, IfOk};
ghost use Rattle.std.specs.List.{flat_map};
ghost use Rattle.vortex_model.specs.LogicalType.{list, fixed_list, struct, u64};
ghost use Rattle.vortex_model.specs.Content.{Raw};
ghost use Rattle.vortex_model.specs.Valid.{InRange};
ghost use Rattle.vortex_dtype_ptype.specs.View.{nullability_of_flag};
ghost use Rattle.vortex_dtype_core.specs.View.{fields_in};
ghost use Rattle.vortex_arrays_model.specs.Layout.{array_type_of};
ghost use Rattle.vortex_arrays_model.specs.Canonical.{counts};
ghost use Rattle.vortex_table_columns.specs.Cells.{cell_raw, IsColumn};
ghost use Rattle.vortex_table_columns.specs.Nested.{tuple_of, tuple_or_null, HaveInside, AreLists, AreSizedLists, StandEndToEnd};

use crate::DoesNotFit;
use crate::cells::{nulls_of, values_or};
use std::alloc::{AllocError, Global};
use std::rc::Rc;
use vortex_arrays_buffer::buffer::Buffer;
use vortex_arrays_buffer::primitive_buffer::PrimitiveBuffer;
use vortex_arrays_core::array::{ArrayRef, Validity};
use vortex_dtype_core::struct_fields::StructFields;
use vortex_dtype_fields::struct_fields_ext::StructFieldsExt;
use vortex_dtype_ptype::nullability::Nullability;

/// A struct array of these columns, null where `present` is.
pub(crate) fn of_records(
    alloc: Global,
    fields: &StructFields,
    nullability: Nullability,
    columns: Vec<ArrayRef>,
    present: &[Option<()>],
) -> Result<ArrayRef, DoesNotFit>
    requires { (rows : List (Bool × List Raw))
        × HaveInside (fields_in fields.now) (map is_some present.now) columns.items rows }
    ensures { IfOk result (λ array. (rows : List (Bool × List Raw))
        → HaveInside (fields_in fields.now) (map is_some present.now) columns.items rows
        → IsColumn (struct (fields_in fields.now) (nullability_of_flag nullability))
        (map tuple_or_null rows) array) }
{
    let names = Rc::new(alloc, fields.names(alloc)?)?;
    let validity = nulls_of(alloc, nullability, present)?;
    let array = ArrayRef::of_records(alloc, names, columns, present.len(), validity)?;
    Ok(array)
}

// The offsets of lists that are end to end.
fn offsets_of(alloc: Global, sizes: &[u64]) -> Result<Vec<u64>, DoesNotFit>
    ensures { IfOk result (λ offsets. StandEndToEnd sizes.now offsets.items) }
{
    let mut offsets = Vec::with_capacity(alloc, sizes.len())?;
    let mut end: u64 = 0;
    for size in sizes {
        offsets.push(end)?;
        end = end.checked_add(*size).ok_or(DoesNotFit)?;
    }
    Ok(offsets)
}

// An array of these integers, without null.
#[tactic(auto, using(crate::proofs::InsideLemmas::counted))]
fn of_counts(alloc: Global, items: Vec<u64>) -> Result<ArrayRef, AllocError>
    ensures made { IfOk result (λ array. array ≡ counts items.items) }
    ensures held { IfOk result (λ _. All (InRange u64) (map pos items.items)) }
{
    let items = PrimitiveBuffer::from_buffer(Buffer::from_vec(items)?);
    let array = ArrayRef::of_numbers(alloc, items, Validity::NonNullable)?;
    Ok(array)
}

/// Lists of these sizes, with their items end to end.
pub(crate) fn of_lists(
    alloc: Global,
    nullability: Nullability,
    items: ArrayRef,
    sizes: &[Option<u64>],
) -> Result<ArrayRef, DoesNotFit>
    requires { (rows : List (Option (List Raw))) × AreLists sizes.now items rows }
    ensures { IfOk result (λ array. (rows : List (Option (List Raw)))
        → AreLists sizes.now items rows → IsColumn
        (list (array_type_of items) (nullability_of_flag nullability))
        (map (cell_raw tuple_of) rows) array) }
{
    let validity = nulls_of(alloc, nullability, sizes)?;
    let sizes = values_or(alloc, sizes, 0)?;
    let offsets = offsets_of(alloc, sizes.as_slice())?;
    let offsets = of_counts(alloc, offsets)?;
    let sizes = of_counts(alloc, sizes)?;
    let array = ArrayRef::of_list_views(alloc, items, offsets, sizes, true, validity)?;
    Ok(array)
}

/// Lists of this size, with their items end to end, also those of null lists.
pub(crate) fn of_fixed_lists(
    alloc: Global,
    nullability: Nullability,
    items: ArrayRef,
    size: u32,
    present: &[Option<()>],
) -> Result<ArrayRef, DoesNotFit>
    requires { (rows : List (Bool × List Raw))
        × AreSizedLists size (map is_some present.now) items rows }
    ensures { IfOk result (λ array. (rows : List (Bool × List Raw))
        → AreSizedLists size (map is_some present.now) items rows → IsColumn
        (fixed_list (array_type_of items) size (nullability_of_flag nullability))
        (map tuple_or_null rows) array) }
{
    let validity = nulls_of(alloc, nullability, present)?;
    let array = ArrayRef::of_fixed_lists(alloc, items, size, present.len(), validity)?;
    Ok(array)
}
