//! List views of arrays, rebuilt.
ghost use Rattle.std.specs.Prelude.{◌≡◌, ◌&&◌, false, true, length, map, slice_index_or, cond, IfOk, IfErr, IsErrOf};
ghost use Rattle.std.specs.List.{range_with_len};
ghost use Rattle.vortex_arrays_model.specs.Layout.{array_type_of, is_valid, len_of, list_views, records, rows_of, HasLength, HaveLength, IsSound};
ghost use Rattle.vortex_arrays_core.specs.LayoutOf.{valid_of};
ghost use Rattle.vortex_arrays_model.specs.Parts.{columns_of};
ghost use Rattle.vortex_arrays_nested.specs.ListViews.{IsListViews};
ghost use Rattle.vortex_arrays_view.specs.declared.error.ArrayError.TheVariants.{Total};
ghost use Rattle.vortex_arrays_rebuild.specs.Rebuilds.{IsRebuiltView, IsTotalFault};
ghost use Rattle.vortex_table_layout.specs.Compacted.{
  AreCompacted,
  AreShown,
  HasSeenLists,
  HasTooManyItems,
  IsColumnsFault,
  IsCompacted,
  IsCompactedAs,
  IsCompactFault,
  IsShown,
  IsWholeFault,
};

use std::alloc::{AllocError, Global};
use std::rc::Rc;
use vortex_arrays_buffer::buffer::Buffer;
use vortex_arrays_buffer::primitive_buffer::PrimitiveBuffer;
use vortex_arrays_core::array::{ArrayLayout, ArrayRef, Validity};
use vortex_arrays_nested::list_view::ListViewArray;
use vortex_arrays_rebuild::rebuild::{ListViewRebuild, ListViewRebuildMode};
use vortex_arrays_validity::places::places_or;
use vortex_arrays_view::error::ArrayError;
use vortex_dtype_ptype::field_names::FieldNames;

/// The array with each list view that is reached only through structs rebuilt: its lists are end to
/// end, and flagged as such. Parts that don't change are shared and not copied.
///
/// Lists in null structs are rebuilt too. Where the number of elements of some view would overflow
/// with them, such lists become empty in each view.
///
/// `Total` where a list column has 2^64 elements or more, not counting null lists and lists in null
/// structs.
#[tactic(auto, using(crate::proofs::CompactLemmas::kept, crate::proofs::ShownLemmas::answers))]
pub fn compact_array(alloc: Global, array: &ArrayRef) -> Result<ArrayRef, ArrayError>
    ensures made { IfOk result (λ compacted. IsCompactedAs array.now compacted) }
    ensures dtype { IfOk result (λ compacted. array_type_of compacted ≡ array_type_of array.now) }
    ensures rows { IfOk result (λ compacted. rows_of compacted ≡ rows_of array.now) }
    ensures refused { IfErr result (λ e. IsCompactFault e array.now) }
    ensures kept { IsErrOf result Total → HasTooManyItems array.now }
{
    let _rows = array.len();
    match compact_part(alloc, array) {
        Ok(compacted) => Ok(compacted),
        Err(ArrayError::Memory) => Err(ArrayError::Memory),
        Err(ArrayError::Total) => compact_shown(alloc, array),
        Err(_) => unreachable!(),
    }
}

// The array, which can't be compacted as it is, with the lists in null structs emptied and then
// compacted.
#[tactic(auto, using(crate::proofs::ShownLemmas::answers))]
fn compact_shown(alloc: Global, array: &ArrayRef) -> Result<ArrayRef, ArrayError>
    requires { HasTooManyItems array.now }
    ensures made { IfOk result (λ compacted. IsCompactedAs array.now compacted) }
    ensures dtype { IfOk result (λ compacted. array_type_of compacted ≡ array_type_of array.now) }
    ensures rows { IfOk result (λ compacted. rows_of compacted ≡ rows_of array.now) }
    ensures refused { IfErr result (λ e. IsCompactFault e array.now) }
{
    let seen = vec![in alloc; true; array.len()]?;
    let shown = show_part(alloc, array, &seen)?;
    // Proves that its parts fit together.
    let _rows = shown.len();
    compact_part(alloc, &shown)
}

// The array with the lists of its unflagged views emptied in rows where `seen` is false or a struct
// is null.
#[cycle(show)]
#[tactic(auto, using(crate::proofs::ShownLemmas::layouts))]
fn show_part(alloc: Global, array: &ArrayRef, seen: &[bool]) -> Result<ArrayRef, AllocError>
    requires { length seen.now ≡ len_of array.now }
    ensures { IfOk result
        (λ shown. IsShown (λ i. slice_index_or seen.now i false) array.now shown) }
{
    match array.layout() {
        ArrayLayout::ListView(elements, offsets, sizes, flag, validity) => {
            if *flag {
                return Ok(array.clone()?);
            }
            let shown = show_lists(alloc, elements, offsets, sizes, validity, seen)?;
            Ok(shown)
        }
        ArrayLayout::Struct(names, fields, len, validity) => {
            let seen = seen_inside(alloc, seen, validity)?;
            let fields = show_fields(alloc, names, fields, *len, &seen)?;
            let records = with_fields(alloc, names, fields, *len, validity)?;
            Ok(records)
        }
        ArrayLayout::Bool(_, _) | ArrayLayout::Primitive(_, _) => Ok(array.clone()?),
        ArrayLayout::VarBinView(_, _, _, _) | ArrayLayout::Constant(_, _) => Ok(array.clone()?),
        ArrayLayout::Dict(_, _, _) => Ok(array.clone()?),
        ArrayLayout::FixedSizeList(_, _, _, _) => Ok(array.clone()?),
    }
}

#[cycle(show)]
#[tactic(auto, using(crate::proofs::ShownLemmas::fields))]
fn show_fields(
    alloc: Global,
    names: &FieldNames,
    fields: &Vec<ArrayRef>,
    len: usize,
    seen: &[bool],
) -> Result<Vec<ArrayRef>, AllocError>
    requires fit { HaveLength (columns_of names.now fields.now.items) len }
    requires many { length seen.now ≡ len }
    ensures shown { IfOk result (λ shown. AreShown (λ i. slice_index_or seen.now i false)
        (columns_of names.now fields.now.items) (columns_of names.now shown.items)) }
    ensures count { IfOk result (λ shown. length shown.items ≡ length fields.now.items) }
    ensures fit { IfOk result (λ shown. HaveLength (columns_of names.now shown.items) len) }
{
    let mut shown = Vec::with_capacity(alloc, fields.len())?;
    for field in fields {
        let column = show_part(alloc, field, seen)?;
        // Proves that its parts fit together.
        let _rows = column.len();
        shown.push(column)?;
    }
    Ok(shown)
}

// Of the seen rows, those that are not null.
fn seen_inside(alloc: Global, seen: &[bool], validity: &Validity) -> Result<Vec<bool>, AllocError>
    requires { HasLength (valid_of validity.now) (length seen.now) }
    ensures { IfOk result (λ inside. inside.items
        ≡ map (λ i. slice_index_or seen.now i false && is_valid (valid_of validity.now) i)
        (range_with_len 0 (length seen.now))) }
{
    let len = seen.len();
    (0..len)
        .map(|i| seen[i] && validity.is_valid(i, len))
        .collect(alloc)
}

// The unflagged list view with its lists emptied in rows that are not seen.
#[tactic(auto, using(crate::proofs::ShownLemmas::sized))]
fn show_lists(
    alloc: Global,
    elements: &ArrayRef,
    offsets: &ArrayRef,
    sizes: &ArrayRef,
    validity: &Validity,
    seen: &[bool],
) -> Result<ArrayRef, AllocError>
    requires sound { IsSound (list_views elements.now offsets.now sizes.now false
        (valid_of validity.now)) }
    requires many { length seen.now ≡ len_of offsets.now }
    ensures { IfOk result (λ shown. HasSeenLists (λ i. slice_index_or seen.now i false)
        elements.now offsets.now sizes.now (valid_of validity.now) shown) }
{
    let all = places_or(alloc, sizes, 0)?;
    let shown = seen_numbers(alloc, &all, seen)?;
    let items = PrimitiveBuffer::U64(Buffer::from_vec(shown)?);
    let sizes = ArrayRef::of_numbers(alloc, items, Validity::NonNullable)?;
    let elements = elements.clone()?;
    let offsets = offsets.clone()?;
    let validity = validity.clone()?;
    ArrayRef::of_list_views(alloc, elements, offsets, sizes, false, validity)
}

// The numbers in the seen rows, and 0 in the others.
fn seen_numbers(alloc: Global, numbers: &[usize], seen: &[bool]) -> Result<Vec<u64>, AllocError>
    requires { length seen.now ≡ length numbers.now }
    ensures { IfOk result (λ shown. shown.items
        ≡ map (λ i. cond (slice_index_or seen.now i false) (slice_index_or numbers.now i 0) 0)
        (range_with_len 0 (length numbers.now))) }
{
    (0..numbers.len())
        .map(|i| if seen[i] { numbers[i] as u64 } else { 0 })
        .collect(alloc)
}

#[cycle(compact)]
#[tactic(auto, using(crate::proofs::CompactLemmas::layouts))]
fn compact_part(alloc: Global, array: &ArrayRef) -> Result<ArrayRef, ArrayError>
    ensures made { IfOk result (λ compacted. IsCompacted array.now compacted) }
    ensures refused { IfErr result (λ e. IsWholeFault e array.now) }
{
    match array.layout() {
        ArrayLayout::ListView(_, _, _, _, _) => rebuild_lists(alloc, array),
        ArrayLayout::Struct(names, fields, len, validity) => {
            let fields = compact_fields(alloc, names, fields, *len)?;
            let records = with_fields(alloc, names, fields, *len, validity)?;
            Ok(records)
        }
        ArrayLayout::Bool(_, _) | ArrayLayout::Primitive(_, _) => Ok(array.clone()?),
        ArrayLayout::VarBinView(_, _, _, _) | ArrayLayout::Constant(_, _) => Ok(array.clone()?),
        ArrayLayout::Dict(_, _, _) => Ok(array.clone()?),
        ArrayLayout::FixedSizeList(_, _, _, _) => Ok(array.clone()?),
    }
}

#[cycle(compact)]
#[tactic(auto, using(crate::proofs::CompactLemmas::fields))]
fn compact_fields(
    alloc: Global,
    names: &FieldNames,
    fields: &Vec<ArrayRef>,
    len: usize,
) -> Result<Vec<ArrayRef>, ArrayError>
    requires fit { HaveLength (columns_of names.now fields.now.items) len }
    ensures made { IfOk result (λ compacted. AreCompacted (columns_of names.now fields.now.items)
        (columns_of names.now compacted.items)) }
    ensures count { IfOk result (λ compacted. length compacted.items ≡ length fields.now.items) }
    ensures fit { IfOk result
        (λ compacted. HaveLength (columns_of names.now compacted.items) len) }
    ensures refused { IfErr result
        (λ e. IsColumnsFault e (columns_of names.now fields.now.items)) }
{
    let mut compacted = Vec::with_capacity(alloc, fields.len())?;
    for field in fields {
        let column = compact_part(alloc, field)?;
        // Proves that its parts fit together.
        let _rows = column.len();
        compacted.push(column)?;
    }
    Ok(compacted)
}

// A struct array of these fields.
pub(crate) fn with_fields(
    alloc: Global,
    names: &Rc<FieldNames>,
    fields: Vec<ArrayRef>,
    len: usize,
    validity: &Validity,
) -> Result<ArrayRef, AllocError>
    requires named { length names.now.value ≡ length fields.items }
    requires fit { HaveLength (columns_of names.now.value fields.items) len }
    requires validity { HasLength (valid_of validity.now) len }
    ensures { IfOk result (λ array. array ≡ records (columns_of names.now.value fields.items) len
        (valid_of validity.now)) }
{
    let names = names.clone()?;
    let validity = validity.clone()?;
    ArrayRef::of_records(alloc, names, fields, len, validity)
}

// The lists end to end, unless the view is flagged or has no rows.
fn rebuild_lists(alloc: Global, array: &ArrayRef) -> Result<ArrayRef, ArrayError>
    requires { IsListViews array.now }
    ensures made { IfOk result (λ rebuilt. IsRebuiltView array.now rebuilt) }
    ensures refused { IfErr result (λ e. IsTotalFault e array.now) }
{
    let array = array.clone()?;
    match ListViewArray::of_array(array) {
        Ok(lists) => {
            let rebuilt = lists.rebuild(alloc, ListViewRebuildMode::MakeZeroCopyToList)?;
            Ok(rebuilt.into_array())
        }
        Err(_other) => unreachable!(),
    }
}
