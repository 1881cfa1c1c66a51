//! The rows of a range.
ghost use Rattle.std.specs.Prelude.{◌≡◌, ◌≤◌, ◌+◌, ◌-◌, ◌*◌, IfOk, IfErr, false, length, map, slice_range};
ghost use Rattle.vortex_arrays_model.specs.Layout.{len_of, IsSound, HasLength, HaveLength, bools, numbers, strings};
ghost use Rattle.vortex_arrays_buffer.specs.PrimitiveBuffers.{kind_of_numbers, integers_of};
ghost use Rattle.vortex_arrays_model.specs.Parts.{columns_of};
ghost use Rattle.vortex_arrays_model.specs.Picks.{Picks, PicksValid, PicksColumns};
ghost use Rattle.vortex_arrays_core.specs.Flags.{flags_of};
ghost use Rattle.vortex_arrays_core.specs.LayoutOf.{valid_of, strings_of};
ghost use Rattle.vortex_arrays_core.specs.Picking.{IsSliceFault};

use crate::array::{ArrayLayout, ArrayRef, StringKind, Validity};
use bytes::Bytes;
use std::alloc::{AllocError, Global};
use std::ops::Range;
use std::rc::Rc;
use vortex_arrays_buffer::{BitBuffer, Buffer, PrimitiveBuffer};
use vortex_arrays_view::{ArrayError, BinaryView};
use vortex_dtype_ptype::field_names::FieldNames;

impl ArrayRef {
    /// The rows of the range, as Vortex's `ArrayRef::slice`. Buffers are shared and not copied.
    /// `OutOfRange` where the range is not within the rows. The range of all rows returns the array
    /// itself. A shorter slice of a dictionary loses the flag, since it may have no code for some
    /// value. A list view keeps its flag, also in the fields of structs.
    #[tactic(auto, using(crate::proofs::Picked::picks_whole))]
    pub fn slice(&self, alloc: Global, range: Range<usize>) -> Result<ArrayRef, ArrayError>
        ensures made { IfOk result (λ part. (range.start ≤ range.end)
            × (range.end ≤ len_of self.now)
            × Picks self.now part (range.end - range.start) (λ i. range.start + i)) }
        ensures whole { IfOk result
            (λ part. range.end - range.start ≡ len_of self.now → part ≡ self.now) }
        ensures flags { IfOk result (λ part. flags_of part ≡ flags_of self.now) }
        ensures refused { IfErr result
            (λ e. IsSliceFault e (len_of self.now) range.start range.end) }
    {
        let len = self.len();
        if range.start > range.end || range.end > len {
            return Err(ArrayError::OutOfRange);
        }
        if range.end - range.start == len {
            self.is_sound();
            return Ok(self.clone()?);
        }
        Ok(self.rows_between(alloc, range.start, range.end)?)
    }

    // The rows from `start` to `end`.
    #[cycle(slice)]
    #[tactic(auto, using(crate::proofs::Picked::picked))]
    fn rows_between(&self, alloc: Global, start: usize, end: usize) -> Result<ArrayRef, AllocError>
        requires order { start ≤ end }
        requires within { end ≤ len_of self.now }
        ensures rows { IfOk result (λ part. Picks self.now part (end - start) (λ i. start + i)) }
        ensures flags { IfOk result (λ part. flags_of part ≡ flags_of self.now) }
    {
        match &self.data.layout {
            ArrayLayout::Bool(bits, validity) => {
                let validity = validity.rows_between(alloc, start, end, bits.len())?;
                bools_between(alloc, bits, start, end, validity)
            }
            ArrayLayout::Primitive(items, validity) => {
                let validity = validity.rows_between(alloc, start, end, items.len())?;
                numbers_between(alloc, items, start, end, validity)
            }
            ArrayLayout::VarBinView(kind, views, buffers, validity) => {
                let validity = validity.rows_between(alloc, start, end, views.len())?;
                strings_between(alloc, *kind, views, buffers, start, end, validity)
            }
            ArrayLayout::Constant(scalar, _) => {
                ArrayRef::of_constant(alloc, scalar.clone()?, end - start)
            }
            ArrayLayout::Dict(codes, values, _) => {
                let codes = codes.rows_between(alloc, start, end)?;
                ArrayRef::of_dict(alloc, codes, values.clone()?, false)
            }
            ArrayLayout::FixedSizeList(elements, size, len, validity) => {
                let validity = validity.rows_between(alloc, start, end, *len)?;
                let range = elements_between(elements, *size, *len, start, end);
                let elements = elements.rows_between(alloc, range.start, range.end)?;
                ArrayRef::of_fixed_lists(alloc, elements, *size, end - start, validity)
            }
            ArrayLayout::ListView(elements, offsets, sizes, follow, validity) => {
                let validity = validity.rows_between(alloc, start, end, offsets.len())?;
                let offsets = offsets.rows_between(alloc, start, end)?;
                let sizes = sizes.rows_between(alloc, start, end)?;
                let elements = elements.clone()?;
                ArrayRef::of_list_views(alloc, elements, offsets, sizes, *follow, validity)
            }
            ArrayLayout::Struct(names, fields, len, validity) => {
                let validity = validity.rows_between(alloc, start, end, *len)?;
                let fields = fields_between(alloc, names, fields, *len, start, end)?;
                ArrayRef::of_records(alloc, names.clone()?, fields, end - start, validity)
            }
        }
    }
}

impl Validity {
    /// Which rows of the range are null, in an array of `len` rows. `OutOfRange` where the range is
    /// not within them.
    pub fn slice(
        &self,
        alloc: Global,
        range: Range<usize>,
        len: usize,
    ) -> Result<Validity, ArrayError>
        requires { HasLength (valid_of self.now) len }
        ensures made { IfOk result (λ part. (range.start ≤ range.end) × (range.end ≤ len)
            × PicksValid (valid_of self.now) (valid_of part) (range.end - range.start)
            (λ i. range.start + i)) }
        ensures refused { IfErr result (λ e. IsSliceFault e len range.start range.end) }
    {
        if range.start > range.end || range.end > len {
            return Err(ArrayError::OutOfRange);
        }
        Ok(self.rows_between(alloc, range.start, range.end, len)?)
    }

    // Which of the rows from `start` to `end` are null, in an array of `len` rows.
    #[cycle(slice)]
    #[tactic(auto, using(vortex_arrays_model::proofs::PicksLemmas::picked))]
    fn rows_between(
        &self,
        alloc: Global,
        start: usize,
        end: usize,
        len: usize,
    ) -> Result<Validity, AllocError>
        requires order { start ≤ end }
        requires within { end ≤ len }
        requires fits { HasLength (valid_of self.now) len }
        ensures { IfOk result (λ part. PicksValid (valid_of self.now) (valid_of part) (end - start)
            (λ i. start + i)) }
    {
        match self {
            Validity::NonNullable => Ok(Validity::NonNullable),
            Validity::AllValid => Ok(Validity::AllValid),
            Validity::AllInvalid => Ok(Validity::AllInvalid),
            Validity::Array(bits) => Ok(Validity::Array(bits.rows_between(alloc, start, end)?)),
        }
    }
}

// The booleans from `start` to `end`.
#[tactic(auto, using(crate::proofs::Picked::parts_fit))]
fn bools_between(
    alloc: Global,
    bits: &BitBuffer,
    start: usize,
    end: usize,
    validity: Validity,
) -> Result<ArrayRef, AllocError>
    requires order { start ≤ end }
    requires within { end ≤ length bits.now }
    requires fits { HasLength (valid_of validity) (end - start) }
    ensures { IfOk result (λ r. r ≡ bools (slice_range bits.now start end) (valid_of validity)) }
{
    ArrayRef::of_bools(alloc, bits.slice(start..end)?, validity)
}

// The integers from `start` to `end`.
#[tactic(auto, using(crate::proofs::Picked::parts_fit))]
fn numbers_between(
    alloc: Global,
    items: &PrimitiveBuffer,
    start: usize,
    end: usize,
    validity: Validity,
) -> Result<ArrayRef, AllocError>
    requires order { start ≤ end }
    requires within { end ≤ length (integers_of items.now) }
    requires fits { HasLength (valid_of validity) (end - start) }
    ensures { IfOk result
        (λ r. r ≡ numbers (kind_of_numbers items.now)
        (slice_range (integers_of items.now) start end) (valid_of validity)) }
{
    let part = items.slice(start..end)?;
    ArrayRef::of_numbers(alloc, part, validity)
}

// The strings or bytes from `start` to `end`.
fn strings_between(
    alloc: Global,
    kind: StringKind,
    views: &Buffer<BinaryView>,
    buffers: &Rc<Vec<Bytes>>,
    start: usize,
    end: usize,
    validity: Validity,
) -> Result<ArrayRef, AllocError>
    requires order { start ≤ end }
    requires within { end ≤ length views.now }
    requires sound { IsSound
        (strings (strings_of kind) (slice_range views.now start end) buffers.now.value.items
        (valid_of validity)) }
    ensures { IfOk result
        (λ r. r ≡ strings (strings_of kind) (slice_range views.now start end)
        buffers.now.value.items (valid_of validity)) }
{
    let buffers = buffers.clone()?;
    let views = views.slice(start..end)?;
    ArrayRef::of_strings(alloc, kind, views, buffers, validity)
}

// The elements of the lists of one size from `start` to `end`.
#[tactic(auto, using(crate::proofs::Picked::elements_fit))]
fn elements_between(
    elements: &ArrayRef,
    size: u32,
    lists: usize,
    start: usize,
    end: usize,
) -> Range<usize>
    requires order { start ≤ end }
    requires within { end ≤ lists }
    requires elements { len_of elements.now ≡ lists * size }
    ensures start { result.start ≡ start * size }
    ensures end { result.end ≡ end * size }
{
    let _count = elements.len();
    let size = size as usize;
    start * size..end * size
}

// The rows of each field from `start` to `end`.
#[cycle(slice)]
#[tactic(auto, using(vortex_arrays_model::proofs::PicksLemmas::fields_read))]
fn fields_between(
    alloc: Global,
    names: &FieldNames,
    fields: &Vec<ArrayRef>,
    len: usize,
    start: usize,
    end: usize,
) -> Result<Vec<ArrayRef>, AllocError>
    requires order { start ≤ end }
    requires within { end ≤ len }
    requires fit { HaveLength (columns_of names.now fields.now.items) len }
    ensures parts { IfOk result (λ parts. PicksColumns (columns_of names.now fields.now.items)
        (columns_of names.now parts.items) (end - start) (λ i. start + i)) }
    ensures count { IfOk result (λ parts. length parts.items ≡ length fields.now.items) }
    ensures flags { IfOk result (λ parts. map flags_of parts.items
        ≡ map flags_of fields.now.items) }
{
    let mut parts = Vec::with_capacity(alloc, fields.len())?;
    for field in fields {
        let part = field.rows_between(alloc, start, end)?;
        parts.push(part)?;
    }
    Ok(parts)
}
