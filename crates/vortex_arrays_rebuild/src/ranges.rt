//! The rows of runs, copied range by range.
ghost use Rattle.std.specs.Prelude.{◌≡◌, length, slice_index_or, IfOk};
ghost use Rattle.vortex_arrays_model.specs.Layout.{
  bools,
  fixed_lists,
  len_of,
  numbers,
  strings,
  HasLength,
  HaveLength,
  IsSound,
};
ghost use Rattle.vortex_arrays_model.specs.Parts.{columns_of};
ghost use Rattle.vortex_arrays_model.specs.Picks.{Picks, PicksColumns, PicksValid};
ghost use Rattle.vortex_arrays_buffer.specs.PrimitiveBuffers.{integers_of, kind_of_numbers};
ghost use Rattle.vortex_arrays_core.specs.LayoutOf.{strings_of, valid_of};
ghost use Rattle.vortex_arrays_rebuild.specs.Runs.{items_in, positions_in};

use crate::copy::name_rows;
use crate::items::{copy_bits, copy_items, copy_numbers};
use crate::runs::Runs;
use bytes::Bytes;
use std::alloc::{AllocError, Global};
use std::rc::Rc;
use vortex_arrays_buffer::bit_buffer::BitBuffer;
use vortex_arrays_buffer::buffer::Buffer;
use vortex_arrays_buffer::primitive_buffer::PrimitiveBuffer;
use vortex_arrays_core::array::{ArrayLayout, ArrayRef, StringKind, Validity};
use vortex_arrays_view::view::BinaryView;
use vortex_dtype_ptype::field_names::FieldNames;

/// The rows of the runs, in the layout of the array. Parts that aren't indexed by row are shared:
/// the buffers of strings, the values of a dictionary, the elements of a list view, whose flag is
/// lost.
#[cycle(copy)]
#[tactic(auto, using(crate::proofs::RangeLemmas::arms))]
pub(crate) fn copy_rows(
    alloc: Global,
    array: &ArrayRef,
    runs: &Runs,
) -> Result<ArrayRef, AllocError>
    requires { runs.now.limit ≡ len_of array.now }
    ensures { IfOk result (λ r. Picks array.now r (length (positions_in runs.now.list.items))
        (λ i. slice_index_or (positions_in runs.now.list.items) i 0)) }
{
    match array.layout() {
        ArrayLayout::Bool(bits, validity) => {
            let validity = copy_validity(alloc, validity, bits.len(), runs)?;
            bools_in(alloc, bits, validity, runs)
        }
        ArrayLayout::Primitive(items, validity) => {
            let validity = copy_validity(alloc, validity, items.len(), runs)?;
            numbers_in(alloc, items, validity, runs)
        }
        ArrayLayout::VarBinView(kind, views, buffers, validity) => {
            let validity = copy_validity(alloc, validity, views.len(), runs)?;
            strings_in(alloc, *kind, views, buffers, validity, runs)
        }
        ArrayLayout::Constant(scalar, _) => {
            ArrayRef::of_constant(alloc, scalar.clone()?, runs.len)
        }
        ArrayLayout::Dict(codes, values, _) => {
            let codes = copy_rows(alloc, codes, runs)?;
            ArrayRef::of_dict(alloc, codes, values.clone()?, false)
        }
        ArrayLayout::FixedSizeList(elements, size, _, validity) => {
            copy_lists(alloc, array, elements, *size, validity, runs)
        }
        ArrayLayout::ListView(elements, offsets, sizes, _, validity) => {
            let validity = copy_validity(alloc, validity, offsets.len(), runs)?;
            let offsets = copy_rows(alloc, offsets, runs)?;
            let sizes = copy_rows(alloc, sizes, runs)?;
            ArrayRef::of_list_views(alloc, elements.clone()?, offsets, sizes, false, validity)
        }
        ArrayLayout::Struct(names, fields, len, validity) => {
            let validity = copy_validity(alloc, validity, *len, runs)?;
            let fields = copy_fields(alloc, names, fields, *len, runs)?;
            ArrayRef::of_records(alloc, names.clone()?, fields, runs.len, validity)
        }
    }
}

// The lists of the runs, of an array of fixed-size lists: their elements are copied run by run.
// Where these are 2^64 or more, the lists are taken by a dictionary of their indices.
#[cycle(copy)]
fn copy_lists(
    alloc: Global,
    array: &ArrayRef,
    elements: &ArrayRef,
    size: u32,
    validity: &Validity,
    runs: &Runs,
) -> Result<ArrayRef, AllocError>
    requires { array.now
        ≡ fixed_lists elements.now size runs.now.limit (valid_of validity.now) }
    ensures { IfOk result (λ r. Picks array.now r (length (positions_in runs.now.list.items))
        (λ i. slice_index_or (positions_in runs.now.list.items) i 0)) }
{
    let (_len, count) = (array.len(), elements.len());
    let Some(parts) = runs.of_elements(alloc, size as usize, count)? else {
        return name_rows(alloc, array, runs);
    };
    let validity = copy_validity(alloc, validity, runs.limit, runs)?;
    let elements = copy_rows(alloc, elements, &parts)?;
    ArrayRef::of_fixed_lists(alloc, elements, size, runs.len, validity)
}

// Which rows of the runs are null, in an array of `len` rows.
#[cycle(copy)]
#[tactic(auto, using(crate::proofs::RangeLemmas::valid))]
fn copy_validity(
    alloc: Global,
    validity: &Validity,
    len: usize,
    runs: &Runs,
) -> Result<Validity, AllocError>
    requires limit { runs.now.limit ≡ len }
    requires fits { HasLength (valid_of validity.now) len }
    ensures { IfOk result (λ w. PicksValid (valid_of validity.now) (valid_of w)
        (length (positions_in runs.now.list.items))
        (λ i. slice_index_or (positions_in runs.now.list.items) i 0)) }
{
    match validity {
        Validity::NonNullable => Ok(Validity::NonNullable),
        Validity::AllValid => Ok(Validity::AllValid),
        Validity::AllInvalid => Ok(Validity::AllInvalid),
        Validity::Array(bits) => {
            let bits = copy_rows(alloc, bits, runs)?;
            Ok(Validity::Array(bits))
        }
    }
}

// The rows of the runs of each field.
#[cycle(copy)]
#[tactic(auto, using(vortex_arrays_model::proofs::PicksLemmas::fields_read))]
fn copy_fields(
    alloc: Global,
    names: &FieldNames,
    fields: &Vec<ArrayRef>,
    len: usize,
    runs: &Runs,
) -> Result<Vec<ArrayRef>, AllocError>
    requires limit { runs.now.limit ≡ len }
    requires fit { HaveLength (columns_of names.now fields.now.items) len }
    ensures parts { IfOk result (λ parts. PicksColumns (columns_of names.now fields.now.items)
        (columns_of names.now parts.items) (length (positions_in runs.now.list.items))
        (λ i. slice_index_or (positions_in runs.now.list.items) i 0)) }
    ensures count { IfOk result (λ parts. length parts.items ≡ length fields.now.items) }
{
    let mut parts = Vec::with_capacity(alloc, fields.len())?;
    for field in fields {
        let part = copy_rows(alloc, field, runs)?;
        parts.push(part)?;
    }
    Ok(parts)
}

// The booleans of the runs.
#[tactic(auto, using(crate::proofs::RangeLemmas::leaves))]
fn bools_in(
    alloc: Global,
    bits: &BitBuffer,
    validity: Validity,
    runs: &Runs,
) -> Result<ArrayRef, AllocError>
    requires limit { runs.now.limit ≡ length bits.now }
    requires fits { HasLength (valid_of validity) (length (positions_in runs.now.list.items)) }
    ensures { IfOk result (λ r. r ≡ bools (items_in bits.now runs.now.list.items)
        (valid_of validity)) }
{
    let copied = copy_bits(alloc, bits, runs)?;
    ArrayRef::of_bools(alloc, copied, validity)
}

// The integers of the runs.
#[tactic(auto, using(crate::proofs::RangeLemmas::leaves))]
fn numbers_in(
    alloc: Global,
    items: &PrimitiveBuffer,
    validity: Validity,
    runs: &Runs,
) -> Result<ArrayRef, AllocError>
    requires limit { runs.now.limit ≡ length (integers_of items.now) }
    requires fits { HasLength (valid_of validity) (length (positions_in runs.now.list.items)) }
    ensures { IfOk result (λ r. r ≡ numbers (kind_of_numbers items.now)
        (items_in (integers_of items.now) runs.now.list.items) (valid_of validity)) }
{
    let copied = copy_numbers(alloc, items, runs)?;
    ArrayRef::of_numbers(alloc, copied, validity)
}

// The strings or bytes of the runs, which share the buffers.
fn strings_in(
    alloc: Global,
    kind: StringKind,
    views: &Buffer<BinaryView>,
    buffers: &Rc<Vec<Bytes>>,
    validity: Validity,
    runs: &Runs,
) -> Result<ArrayRef, AllocError>
    requires limit { runs.now.limit ≡ length views.now }
    requires sound { IsSound (strings (strings_of kind) (items_in views.now runs.now.list.items)
        buffers.now.value.items (valid_of validity)) }
    ensures { IfOk result (λ r. r ≡ strings (strings_of kind)
        (items_in views.now runs.now.list.items) buffers.now.value.items (valid_of validity)) }
{
    let buffers = buffers.clone()?;
    let copied = copy_items(alloc, views.as_slice(), runs)?;
    ArrayRef::of_strings(alloc, kind, copied, buffers, validity)
}
