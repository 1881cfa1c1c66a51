//! The nulls of structs pushed into their columns.
ghost use Rattle.std.specs.Prelude.{◌≡◌, length, IfOk};
ghost use Rattle.vortex_arrays_model.specs.Layout.{
  IsSound,
  HasLength,
  len_of,
  bools,
  numbers,
  strings,
  constant,
  fixed_lists,
  list_views,
  records,
};
ghost use Rattle.vortex_arrays_model.specs.Column.{IsMasked};
ghost use Rattle.vortex_arrays_model.specs.Parts.{columns_of};
ghost use Rattle.vortex_arrays_buffer.specs.PrimitiveBuffers.{kind_of_numbers, integers_of};
ghost use Rattle.vortex_scalar_core.specs.Scalar.{scalar_type, scalar_raw};
ghost use Rattle.vortex_arrays_core.specs.Flags.{no_view, view_flag, flags_of, flags_in};
ghost use Rattle.vortex_arrays_core.specs.LayoutOf.{valid_of, strings_of};
ghost use Rattle.vortex_arrays_struct.specs.ZeroCodes.{zero_codes as codes_of_zero};

use bytes::Bytes;
use std::alloc::{AllocError, Global};
use std::rc::Rc;
use vortex_arrays_buffer::bit_buffer::BitBuffer;
use vortex_arrays_buffer::buffer::Buffer;
use vortex_arrays_buffer::primitive_buffer::PrimitiveBuffer;
use vortex_arrays_core::array::{ArrayLayout, ArrayRef, StringKind, Validity};
use vortex_arrays_view::view::BinaryView;
use vortex_dtype_ptype::field_names::FieldNames;
use vortex_scalar_core::scalar::Scalar;

/// The array with the nulls of the validity and its own. Values are shared and not copied; where
/// the validity has no null, the array itself is shared. List views keep their flags, also in the
/// fields of structs.
#[tactic(auto, using(vortex_arrays_model::proofs::PushLemmas::pushed))]
pub fn mask(alloc: Global, validity: &Validity, array: &ArrayRef) -> Result<ArrayRef, AllocError>
    requires { HasLength (valid_of validity.now) (len_of array.now) }
    ensures masked { IfOk result (λ pushed. IsMasked (valid_of validity.now) array.now pushed) }
    ensures flags { IfOk result (λ pushed. flags_of pushed ≡ flags_of array.now) }
{
    let _rows = array.len();
    match validity {
        Validity::NonNullable => {
            let pushed = array.clone()?;
            Ok(pushed)
        }
        Validity::AllValid | Validity::AllInvalid | Validity::Array(_) => {
            let pushed = push_into_layout(alloc, validity, array)?;
            Ok(pushed)
        }
    }
}

// The nulls of any validity pushed into an array, by the array's layout.
#[tactic(auto, using(crate::proofs::Pushes::into_layouts))]
fn push_into_layout(
    alloc: Global,
    validity: &Validity,
    array: &ArrayRef,
) -> Result<ArrayRef, AllocError>
    requires { HasLength (valid_of validity.now) (len_of array.now) }
    ensures masked { IfOk result (λ pushed. IsMasked (valid_of validity.now) array.now pushed) }
    ensures flags { IfOk result (λ pushed. flags_of pushed ≡ flags_of array.now) }
{
    match array.layout() {
        ArrayLayout::Bool(bits, own) => push_into_bools(alloc, validity, bits, own),
        ArrayLayout::Primitive(items, own) => push_into_numbers(alloc, validity, items, own),
        ArrayLayout::VarBinView(kind, views, buffers, own) => {
            push_into_strings(alloc, validity, *kind, views, buffers, own)
        }
        ArrayLayout::Constant(scalar, len) => push_into_constant(alloc, validity, scalar, *len),
        ArrayLayout::Dict(codes, values, _) => {
            let pushed = push_into_layout(alloc, validity, codes)?;
            let dictionary = ArrayRef::of_dict(alloc, pushed, values.clone()?, false)?;
            Ok(dictionary)
        }
        ArrayLayout::FixedSizeList(elements, size, len, own) => {
            push_into_fixed_lists(alloc, validity, elements, *size, *len, own)
        }
        ArrayLayout::ListView(elements, offsets, sizes, flag, own) => {
            push_into_list_views(alloc, validity, elements, offsets, sizes, *flag, own)
        }
        ArrayLayout::Struct(names, fields, len, own) => {
            push_into_records(alloc, validity, names, fields, *len, own)
        }
    }
}

#[tactic(auto, using(vortex_arrays_model::proofs::PushLemmas::pushed))]
fn push_into_bools(
    alloc: Global,
    validity: &Validity,
    bits: &BitBuffer,
    own: &Validity,
) -> Result<ArrayRef, AllocError>
    requires sound { IsSound (bools bits.now (valid_of own.now)) }
    requires fits { HasLength (valid_of validity.now) (length bits.now) }
    ensures masked { IfOk result
        (λ pushed. IsMasked (valid_of validity.now) (bools bits.now (valid_of own.now)) pushed) }
    ensures flags { IfOk result (λ pushed. flags_of pushed ≡ no_view) }
{
    let both = validity.and(alloc, own, bits.len())?;
    let pushed = ArrayRef::of_bools(alloc, bits.clone()?, both)?;
    Ok(pushed)
}

#[tactic(auto, using(vortex_arrays_model::proofs::PushLemmas::pushed))]
fn push_into_numbers(
    alloc: Global,
    validity: &Validity,
    items: &PrimitiveBuffer,
    own: &Validity,
) -> Result<ArrayRef, AllocError>
    requires sound { IsSound (numbers (kind_of_numbers items.now) (integers_of items.now)
        (valid_of own.now)) }
    requires fits { HasLength (valid_of validity.now) (length (integers_of items.now)) }
    ensures masked { IfOk result
        (λ pushed. IsMasked (valid_of validity.now)
        (numbers (kind_of_numbers items.now) (integers_of items.now) (valid_of own.now)) pushed) }
    ensures flags { IfOk result (λ pushed. flags_of pushed ≡ no_view) }
{
    let both = validity.and(alloc, own, items.len())?;
    let pushed = ArrayRef::of_numbers(alloc, items.clone()?, both)?;
    Ok(pushed)
}

#[tactic(auto, using(crate::proofs::Pushes::into_strings))]
fn push_into_strings(
    alloc: Global,
    validity: &Validity,
    kind: StringKind,
    views: &Buffer<BinaryView>,
    buffers: &Rc<Vec<Bytes>>,
    own: &Validity,
) -> Result<ArrayRef, AllocError>
    requires sound { IsSound (strings (strings_of kind) views.now buffers.now.value.items
        (valid_of own.now)) }
    requires fits { HasLength (valid_of validity.now) (length views.now) }
    ensures masked { IfOk result
        (λ pushed. IsMasked (valid_of validity.now)
        (strings (strings_of kind) views.now buffers.now.value.items (valid_of own.now)) pushed) }
    ensures flags { IfOk result (λ pushed. flags_of pushed ≡ no_view) }
{
    let both = validity.and(alloc, own, views.len())?;
    let pushed = ArrayRef::of_strings(alloc, kind, views.clone()?, buffers.clone()?, both)?;
    Ok(pushed)
}

// A dictionary of the one value, with code 0 where the validity has no null.
#[tactic(auto, using(crate::proofs::Constants::pushed))]
fn push_into_constant(
    alloc: Global,
    validity: &Validity,
    scalar: &Scalar,
    len: usize,
) -> Result<ArrayRef, AllocError>
    requires sound { IsSound (constant (scalar_type scalar.now) (scalar_raw scalar.now) len) }
    requires fits { HasLength (valid_of validity.now) len }
    ensures masked { IfOk result
        (λ pushed. IsMasked (valid_of validity.now)
        (constant (scalar_type scalar.now) (scalar_raw scalar.now) len) pushed) }
    ensures flags { IfOk result (λ pushed. flags_of pushed ≡ no_view) }
{
    let codes = zero_codes(alloc, validity, len)?;
    let value = ArrayRef::of_constant(alloc, scalar.clone()?, 1)?;
    let pushed = ArrayRef::of_dict(alloc, codes, value, false)?;
    Ok(pushed)
}

// The code 0 in `len` rows, null where the validity is.
#[tactic(auto, using(crate::proofs::Constants::zeros))]
fn zero_codes(alloc: Global, validity: &Validity, len: usize) -> Result<ArrayRef, AllocError>
    requires { HasLength (valid_of validity.now) len }
    ensures { IfOk result (λ codes. codes ≡ codes_of_zero len (valid_of validity.now)) }
{
    let zeros = Buffer::from_vec(vec![in alloc; 0; len]?)?;
    let codes = ArrayRef::of_numbers(alloc, PrimitiveBuffer::U8(zeros), validity.clone()?)?;
    Ok(codes)
}

#[tactic(auto, using(vortex_arrays_model::proofs::PushLemmas::pushed))]
fn push_into_fixed_lists(
    alloc: Global,
    validity: &Validity,
    elements: &ArrayRef,
    size: u32,
    len: usize,
    own: &Validity,
) -> Result<ArrayRef, AllocError>
    requires sound { IsSound (fixed_lists elements.now size len (valid_of own.now)) }
    requires fits { HasLength (valid_of validity.now) len }
    ensures masked { IfOk result
        (λ pushed. IsMasked (valid_of validity.now)
        (fixed_lists elements.now size len (valid_of own.now)) pushed) }
    ensures flags { IfOk result (λ pushed. flags_of pushed ≡ no_view) }
{
    let both = validity.and(alloc, own, len)?;
    let pushed = ArrayRef::of_fixed_lists(alloc, elements.clone()?, size, len, both)?;
    Ok(pushed)
}

#[tactic(auto, using(vortex_arrays_model::proofs::PushLemmas::pushed))]
fn push_into_list_views(
    alloc: Global,
    validity: &Validity,
    elements: &ArrayRef,
    offsets: &ArrayRef,
    sizes: &ArrayRef,
    is_zero_copy_to_list: bool,
    own: &Validity,
) -> Result<ArrayRef, AllocError>
    requires sound { IsSound (list_views elements.now offsets.now sizes.now is_zero_copy_to_list
        (valid_of own.now)) }
    requires fits { HasLength (valid_of validity.now) (len_of offsets.now) }
    ensures masked { IfOk result
        (λ pushed. IsMasked (valid_of validity.now)
        (list_views elements.now offsets.now sizes.now is_zero_copy_to_list (valid_of own.now))
        pushed) }
    ensures flags { IfOk result (λ pushed. flags_of pushed ≡ view_flag is_zero_copy_to_list) }
{
    let both = validity.and(alloc, own, offsets.len())?;
    let elements = elements.clone()?;
    let offsets = offsets.clone()?;
    let sizes = sizes.clone()?;
    let pushed = ArrayRef::of_list_views(
        alloc,
        elements,
        offsets,
        sizes,
        is_zero_copy_to_list,
        both,
    )?;
    Ok(pushed)
}

#[tactic(auto, using(vortex_arrays_model::proofs::PushLemmas::pushed))]
fn push_into_records(
    alloc: Global,
    validity: &Validity,
    names: &Rc<FieldNames>,
    fields: &[ArrayRef],
    len: usize,
    own: &Validity,
) -> Result<ArrayRef, AllocError>
    requires named { length names.now.value ≡ length fields.now }
    requires sound { IsSound
        (records (columns_of names.now.value fields.now) len (valid_of own.now)) }
    requires fits { HasLength (valid_of validity.now) len }
    ensures masked { IfOk result
        (λ pushed. IsMasked (valid_of validity.now)
        (records (columns_of names.now.value fields.now) len (valid_of own.now)) pushed) }
    ensures flags { IfOk result (λ pushed. flags_of pushed
        ≡ flags_in (columns_of names.now.value fields.now)) }
{
    let both = validity.and(alloc, own, len)?;
    let fields = shared_fields(alloc, fields)?;
    let pushed = ArrayRef::of_records(alloc, names.clone()?, fields, len, both)?;
    Ok(pushed)
}

/// Shares the arrays.
pub(crate) fn shared_fields(alloc: Global, fields: &[ArrayRef]) -> Result<Vec<ArrayRef>, AllocError>
    ensures { IfOk result (λ copies. copies.items ≡ fields.now) }
{
    let mut copies = Vec::with_capacity(alloc, fields.len())?;
    for field in fields {
        copies.push(field.clone()?)?;
    }
    Ok(copies)
}
