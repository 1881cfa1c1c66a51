//! Arrays of lists and of structs over arrays of their elements and fields.
ghost use Rattle.std.specs.Prelude.{◌≡◌, true, pos, map, IfOk, All};
ghost use Rattle.std.specs.List.{flat_map};
ghost use Rattle.vortex_model.specs.LogicalType.{list, fixed_list, struct, u64};
ghost use Rattle.vortex_model.specs.Valid.{InRange};
ghost use Rattle.vortex_dtype_ptype.specs.View.{nullability_of_flag};
ghost use Rattle.vortex_dtype_core.specs.View.{fields_in};
ghost use Rattle.vortex_dtype_fields.specs.Records.{names_of};
ghost use Rattle.vortex_scalar_value.specs.View.{raw_at};
ghost use Rattle.vortex_arrays_model.specs.Layout.{array_type_of};
ghost use Rattle.vortex_arrays_model.specs.Canonical.{counts};
ghost use Rattle.vortex_arrays_model.specs.Parts.{columns_of};
ghost use Rattle.vortex_arrays_builder.specs.Items.{raw_items, fixed_items, StandEndToEnd};
ghost use Rattle.vortex_arrays_builder.specs.Plain.{is_held, IsPlain, ArePlain};

use crate::items::Lists;
use crate::leaves::nulls_of;
use std::alloc::{AllocError, Global};
use std::rc::Rc;
use vortex_arrays_buffer::buffer::Buffer;
use vortex_arrays_buffer::primitive_buffer::PrimitiveBuffer;
use vortex_arrays_core::array::{ArrayRef, Validity};
use vortex_dtype_core::struct_fields::StructFields;
use vortex_dtype_fields::struct_fields_ext::StructFieldsExt;
use vortex_dtype_ptype::nullability::Nullability;
use vortex_scalar_value::scalar_value::ScalarValue;

/// Lists with these elements end to end.
pub(crate) fn of_lists(
    alloc: Global,
    nullability: Nullability,
    elements: ArrayRef,
    lists: Lists<'_>,
    values: &[Option<&ScalarValue>],
) -> Result<ArrayRef, AllocError>
    requires elements { IsPlain (array_type_of elements)
        (flat_map raw_items (map raw_at values.now)) elements }
    requires lists { StandEndToEnd (map raw_at values.now) lists.offsets.items lists.sizes.items }
    requires held { All
        (λ r. is_held (list (array_type_of elements) (nullability_of_flag nullability)) r ≡ true)
        (map raw_at values.now) }
    ensures { IfOk result
        (λ array. IsPlain (list (array_type_of elements) (nullability_of_flag nullability))
        (map raw_at values.now) array) }
{
    let validity = nulls_of(alloc, nullability, values)?;
    let offsets = of_counts(alloc, lists.offsets)?;
    let sizes = of_counts(alloc, lists.sizes)?;
    let array = ArrayRef::of_list_views(alloc, elements, offsets, sizes, true, validity)?;
    Ok(array)
}

// An array of these integers, without null.
#[tactic(auto, using(crate::proofs::ListLemmas::counted))]
fn of_counts(alloc: Global, items: Vec<u64>) -> Result<ArrayRef, AllocError>
    ensures made { IfOk result (λ array. array ≡ counts items.items) }
    ensures held { IfOk result (λ _. All (InRange u64) (map pos items.items)) }
{
    let items = PrimitiveBuffer::from_buffer(Buffer::from_vec(items)?);
    let array = ArrayRef::of_numbers(alloc, items, Validity::NonNullable)?;
    Ok(array)
}

/// Lists of this size with their elements end to end, also those of null lists.
pub(crate) fn of_fixed_lists(
    alloc: Global,
    nullability: Nullability,
    elements: ArrayRef,
    size: u32,
    values: &[Option<&ScalarValue>],
) -> Result<ArrayRef, AllocError>
    requires elements { IsPlain (array_type_of elements)
        (flat_map (fixed_items size) (map raw_at values.now)) elements }
    requires held { All
        (λ r. is_held (fixed_list (array_type_of elements) size (nullability_of_flag nullability)) r
        ≡ true) (map raw_at values.now) }
    ensures { IfOk result (λ array. IsPlain
        (fixed_list (array_type_of elements) size (nullability_of_flag nullability))
        (map raw_at values.now) array) }
{
    let validity = nulls_of(alloc, nullability, values)?;
    let array = ArrayRef::of_fixed_lists(alloc, elements, size, values.len(), validity)?;
    Ok(array)
}

/// A struct array of these columns.
pub(crate) fn of_records(
    alloc: Global,
    nullability: Nullability,
    fields: &StructFields,
    columns: Vec<ArrayRef>,
    values: &[Option<&ScalarValue>],
) -> Result<ArrayRef, AllocError>
    requires columns { ArePlain (fields_in fields.now) 0 (map raw_at values.now)
        (columns_of (names_of (fields_in fields.now)) columns.items) }
    ensures { IfOk result
        (λ array. IsPlain (struct (fields_in fields.now) (nullability_of_flag nullability))
        (map raw_at values.now) array) }
{
    let names = Rc::new(alloc, fields.names(alloc)?)?;
    let validity = nulls_of(alloc, nullability, values)?;
    let array = ArrayRef::of_records(alloc, names, columns, values.len(), validity)?;
    Ok(array)
}
