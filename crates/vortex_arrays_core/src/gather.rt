//! The rows at indices, in their order.
ghost use Rattle.std.specs.Prelude.{◌≡◌, ◌<◌, pos, length, map, slice_index_or, IfOk, All};
ghost use Rattle.vortex_model.specs.LogicalType.{u64};
ghost use Rattle.vortex_arrays_model.specs.Layout.{len_of, IsSound, HasLength, HaveLength, bools, numbers, strings, required, by_array};
ghost use Rattle.vortex_arrays_model.specs.Picks.{Picks, PicksValid, PicksColumns};
ghost use Rattle.vortex_arrays_model.specs.Parts.{columns_of};
ghost use Rattle.vortex_arrays_buffer.specs.PrimitiveBuffers.{kind_of_numbers, integers_of};
ghost use Rattle.vortex_arrays_core.specs.LayoutOf.{valid_of, strings_of};

use crate::array::{ArrayLayout, ArrayRef, StringKind, Validity};
use bytes::Bytes;
use std::alloc::{AllocError, Global};
use std::rc::Rc;
use vortex_arrays_buffer::{BitBuffer, Buffer, PrimitiveBuffer};
use vortex_arrays_view::view::BinaryView;
use vortex_dtype_ptype::field_names::FieldNames;

impl ArrayRef {
    /// The rows at `positions`, which are within the array. Child arrays that aren't indexed by row
    /// are shared.
    #[cycle(gather)]
    #[tactic(auto, using(crate::proofs::Gathered::arms))]
    pub(crate) fn gather(&self, alloc: Global, positions: &[usize]) -> Result<ArrayRef, AllocError>
        requires { All (λ i. i < len_of self.now) positions.now }
        ensures { IfOk result
            (λ r. Picks self.now r (length positions.now) (λ i. slice_index_or positions.now i 0)) }
    {
        match &self.data.layout {
            ArrayLayout::Bool(bits, validity) => gather_bools(alloc, bits, validity, positions),
            ArrayLayout::Primitive(items, validity) => {
                gather_numbers(alloc, items, validity, positions)
            }
            ArrayLayout::VarBinView(kind, views, buffers, validity) => {
                gather_strings(alloc, *kind, views, buffers, validity, positions)
            }
            ArrayLayout::Constant(scalar, _) => {
                ArrayRef::of_constant(alloc, scalar.clone()?, positions.len())
            }
            ArrayLayout::Dict(codes, values, _) => {
                let codes = codes.gather(alloc, positions)?;
                ArrayRef::of_dict(alloc, codes, values.clone()?, false)
            }
            ArrayLayout::FixedSizeList(_, _, _, _) => self.dictionary_at(alloc, positions),
            ArrayLayout::ListView(elements, offsets, sizes, _, validity) => {
                let validity = validity.gather(alloc, positions, offsets.len())?;
                let offsets = offsets.gather(alloc, positions)?;
                let sizes = sizes.gather(alloc, positions)?;
                ArrayRef::of_list_views(alloc, elements.clone()?, offsets, sizes, false, validity)
            }
            ArrayLayout::Struct(names, fields, len, validity) => {
                let validity = validity.gather(alloc, positions, *len)?;
                let fields = gather_fields(alloc, names, fields, *len, positions)?;
                ArrayRef::of_records(alloc, names.clone()?, fields, positions.len(), validity)
            }
        }
    }

    // A dictionary whose codes are `positions` and whose values are this array.
    fn dictionary_at(&self, alloc: Global, positions: &[usize]) -> Result<ArrayRef, AllocError>
        requires { All (λ i. i < len_of self.now) positions.now }
        ensures { IfOk result
            (λ r. Picks self.now r (length positions.now) (λ i. slice_index_or positions.now i 0)) }
    {
        let codes = position_codes(alloc, positions)?;
        codes.is_sound();
        self.is_sound();
        ArrayRef::of_dict(alloc, codes, self.clone()?, false)
    }
}

impl Validity {
    /// Which of the rows at `positions` are null, in an array of `len` rows.
    #[tactic(auto, using(crate::proofs::Gathered::valid))]
    pub(crate) fn gather(
        &self,
        alloc: Global,
        positions: &[usize],
        len: usize,
    ) -> Result<Validity, AllocError>
        requires within { All (λ i. i < len) positions.now }
        requires fits { HasLength (valid_of self.now) len }
        ensures { IfOk result
            (λ w. PicksValid (valid_of self.now) (valid_of w) (length positions.now)
            (λ i. slice_index_or positions.now i 0)) }
    {
        match self {
            Validity::NonNullable => Ok(Validity::NonNullable),
            Validity::AllValid => Ok(Validity::AllValid),
            Validity::AllInvalid => Ok(Validity::AllInvalid),
            Validity::Array(bits) => Ok(Validity::Array(truths_at(alloc, bits, positions)?)),
        }
    }
}

// The booleans at `positions`, with false for null.
fn truths_at(alloc: Global, array: &ArrayRef, positions: &[usize]) -> Result<ArrayRef, AllocError>
    requires { All (λ i. i < len_of array.now) positions.now }
    ensures { IfOk result (λ r. PicksValid (by_array array.now) (by_array r) (length positions.now)
        (λ i. slice_index_or positions.now i 0)) }
{
    if let ArrayLayout::Bool(bits, Validity::NonNullable) = &array.data.layout {
        return ArrayRef::of_bools(alloc, bits.gather(alloc, positions)?, Validity::NonNullable);
    }
    let bits = BitBuffer::collect_bool(alloc, positions.len(), |i| array.truth(positions[i]))?;
    ArrayRef::of_bools(alloc, bits, Validity::NonNullable)
}

// The booleans at `positions`.
#[tactic(auto, using(crate::proofs::Gathered::leaves))]
fn gather_bools(
    alloc: Global,
    bits: &BitBuffer,
    validity: &Validity,
    positions: &[usize],
) -> Result<ArrayRef, AllocError>
    requires within { All (λ i. i < length bits.now) positions.now }
    requires sound { IsSound (bools bits.now (valid_of validity.now)) }
    ensures { IfOk result
        (λ r. Picks (bools bits.now (valid_of validity.now)) r (length positions.now)
        (λ i. slice_index_or positions.now i 0)) }
{
    let chosen = bits.gather(alloc, positions)?;
    let validity = validity.gather(alloc, positions, bits.len())?;
    ArrayRef::of_bools(alloc, chosen, validity)
}

// The integers at `positions`.
#[tactic(auto, using(crate::proofs::Gathered::leaves))]
fn gather_numbers(
    alloc: Global,
    items: &PrimitiveBuffer,
    validity: &Validity,
    positions: &[usize],
) -> Result<ArrayRef, AllocError>
    requires within { All (λ i. i < length (integers_of items.now)) positions.now }
    requires sound { IsSound (numbers (kind_of_numbers items.now) (integers_of items.now)
        (valid_of validity.now)) }
    ensures { IfOk result
        (λ r. Picks (numbers (kind_of_numbers items.now) (integers_of items.now)
        (valid_of validity.now)) r
        (length positions.now) (λ i. slice_index_or positions.now i 0)) }
{
    let chosen = items.gather(alloc, positions)?;
    let validity = validity.gather(alloc, positions, items.len())?;
    ArrayRef::of_numbers(alloc, chosen, validity)
}

// The strings or bytes at `positions`, which share the buffers.
fn gather_strings(
    alloc: Global,
    kind: StringKind,
    views: &Buffer<BinaryView>,
    buffers: &Rc<Vec<Bytes>>,
    validity: &Validity,
    positions: &[usize],
) -> Result<ArrayRef, AllocError>
    requires within { All (λ i. i < length views.now) positions.now }
    requires sound { IsSound (strings (strings_of kind) views.now buffers.now.value.items
        (valid_of validity.now)) }
    ensures { IfOk result
        (λ r. Picks (strings (strings_of kind) views.now buffers.now.value.items
        (valid_of validity.now)) r
        (length positions.now) (λ i. slice_index_or positions.now i 0)) }
{
    let buffers = buffers.clone()?;
    let validity = validity.gather(alloc, positions, views.len())?;
    let chosen = views.gather(alloc, positions)?;
    ArrayRef::of_strings(alloc, kind, chosen, buffers, validity)
}

// The rows of each field at `positions`.
#[cycle(gather)]
#[tactic(auto, using(vortex_arrays_model::proofs::PicksLemmas::fields_read))]
fn gather_fields(
    alloc: Global,
    names: &FieldNames,
    fields: &Vec<ArrayRef>,
    len: usize,
    positions: &[usize],
) -> Result<Vec<ArrayRef>, AllocError>
    requires within { All (λ i. i < len) positions.now }
    requires fit { HaveLength (columns_of names.now fields.now.items) len }
    ensures parts { IfOk result (λ parts. PicksColumns (columns_of names.now fields.now.items)
        (columns_of names.now parts.items)
        (length positions.now) (λ i. slice_index_or positions.now i 0)) }
    ensures count { IfOk result (λ parts. length parts.items ≡ length fields.now.items) }
{
    let mut parts = Vec::with_capacity(alloc, fields.len())?;
    for field in fields {
        let part = field.gather(alloc, positions)?;
        parts.push(part)?;
    }
    Ok(parts)
}

fn position_codes(alloc: Global, positions: &[usize]) -> Result<ArrayRef, AllocError>
    ensures { IfOk result (λ codes. codes ≡ numbers u64 (map pos positions.now) required) }
{
    let codes = positions.iter().map(|i| *i as u64).collect(alloc)?;
    let codes = PrimitiveBuffer::U64(Buffer::from_vec(codes)?);
    ArrayRef::of_numbers(alloc, codes, Validity::NonNullable)
}
