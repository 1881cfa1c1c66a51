//! Lists whose elements were cast.
ghost use Rattle.std.specs.Prelude.{◌≡◌, ◌<◌, ◌+◌, ◌*◌, ◌^◌, ℕ, suc, length, map, replicate, slice_index_or, true, false, IfOk, IfSome, IsTrue};
ghost use Rattle.std.specs.List.{range_with_len};
ghost use Rattle.vortex_arrays_model.specs.Layout.{bools, list_views, required, by_array, len_of, is_valid, AreEndToEnd, HasLength, IsSound};
ghost use Rattle.vortex_arrays_model.specs.Canonical.{counts, IsLaidOut};
ghost use Rattle.vortex_arrays_core.specs.LayoutOf.{valid_of};
ghost use Rattle.vortex_arrays_cast.specs.Cast.{StandEvenly};

use std::alloc::{AllocError, Global};
use vortex_arrays_buffer::bit_buffer::BitBuffer;
use vortex_arrays_buffer::buffer::Buffer;
use vortex_arrays_buffer::primitive_buffer::PrimitiveBuffer;
use vortex_arrays_core::array::{ArrayLayout, ArrayRef, Validity};

/// Whether the lists are as a rebuilding makes them: they are known to follow one another, from the
/// first element to the last, offsets and sizes are `u64`, and null lists have size 0.
pub(crate) fn are_laid_out(
    elements: &ArrayRef,
    offsets: &ArrayRef,
    sizes: &ArrayRef,
    follow: bool,
    validity: &Validity,
) -> bool
    requires { IsSound
        (list_views elements.now offsets.now sizes.now follow (valid_of validity.now)) }
    ensures { IsTrue result → IsLaidOut elements.now offsets.now sizes.now (valid_of validity.now)
        (list_views elements.now offsets.now sizes.now follow (valid_of validity.now)) }
{
    let Some(offsets) = counts_in(offsets) else {
        return false;
    };
    let Some(sizes) = counts_in(sizes) else {
        return false;
    };
    follow && take_all(elements, offsets, sizes, validity)
}

// The integers of a plain `u64` array without null.
fn counts_in(array: &ArrayRef) -> Option<&[u64]>
    ensures { IfSome result (λ items. array.now ≡ counts items.now) }
{
    match array.layout() {
        ArrayLayout::Primitive(PrimitiveBuffer::U64(items), Validity::NonNullable) => {
            Some(items.as_slice())
        }
        _ => None,
    }
}

// For lists that follow one another: whether the first begins with the first element, the last ends
// with the last, and null lists are empty.
fn take_all(elements: &ArrayRef, offsets: &[u64], sizes: &[u64], validity: &Validity) -> bool
    requires count { length sizes.now ≡ length offsets.now }
    requires fits { HasLength (valid_of validity.now) (length sizes.now) }
    requires follow { AreEndToEnd (counts offsets.now) (counts sizes.now) }
    ensures { IsTrue result → IsLaidOut elements.now (counts offsets.now) (counts sizes.now)
        (valid_of validity.now) (list_views elements.now (counts offsets.now) (counts sizes.now)
        true (valid_of validity.now)) }
{
    span_all(elements, offsets, sizes) && are_null_lists_empty(sizes, validity)
}

// Whether the first list begins with the first element, and the last ends with the last.
fn span_all(elements: &ArrayRef, offsets: &[u64], sizes: &[u64]) -> bool
    requires { length sizes.now ≡ length offsets.now }
    ensures none { IsTrue result → length offsets.now ≡ 0 → len_of elements.now ≡ 0 }
    ensures first { IsTrue result → slice_index_or offsets.now 0 0 ≡ 0 }
    ensures last { IsTrue result → (n : ℕ) → length offsets.now ≡ suc n
        → slice_index_or offsets.now n 0 + slice_index_or sizes.now n 0 ≡ len_of elements.now }
{
    if offsets.is_empty() {
        return elements.is_empty();
    }
    let last = offsets.len() - 1;
    offsets[0] == 0 && ends_at(offsets[last], sizes[last], elements.len() as u64)
}

// Whether a list ends at this element.
fn ends_at(offset: u64, size: u64, end: u64) -> bool
    ensures { IsTrue result → offset + size ≡ end }
{
    match offset.checked_add(size) {
        Some(sum) => sum == end,
        None => false,
    }
}

fn are_null_lists_empty(sizes: &[u64], validity: &Validity) -> bool
    requires { HasLength (valid_of validity.now) (length sizes.now) }
    ensures { IsTrue result → (i : ℕ) → i < length sizes.now
        → is_valid (valid_of validity.now) i ≡ false → slice_index_or sizes.now i 0 ≡ 0 }
{
    if let Some(bits) = validity.packed() {
        return are_empty_where_false(sizes, bits);
    }
    match validity {
        Validity::NonNullable => true,
        Validity::AllValid => true,
        Validity::AllInvalid => are_empty_where_null(sizes, validity),
        Validity::Array(_) => are_empty_where_null(sizes, validity),
    }
}

#[tactic(auto, using(crate::proofs::ListLemmas::empty_lists))]
fn are_empty_where_null(sizes: &[u64], validity: &Validity) -> bool
    requires { HasLength (valid_of validity.now) (length sizes.now) }
    ensures { IsTrue result → (i : ℕ) → i < length sizes.now
        → is_valid (valid_of validity.now) i ≡ false → slice_index_or sizes.now i 0 ≡ 0 }
{
    for i in 0..sizes.len() {
        let is_valid = validity.is_valid(i, sizes.len());
        if !is_valid_or_empty(is_valid, sizes[i]) {
            return false;
        }
    }
    true
}

// Whether each list whose bit is false is empty.
#[tactic(auto, using(crate::proofs::ListLemmas::empty_lists))]
fn are_empty_where_false(sizes: &[u64], bits: &BitBuffer) -> bool
    requires { length bits.now ≡ length sizes.now }
    ensures { IsTrue result → (i : ℕ) → i < length sizes.now
        → is_valid (by_array (bools bits.now required)) i ≡ false
        → slice_index_or sizes.now i 0 ≡ 0 }
{
    for i in 0..sizes.len() {
        if !is_valid_or_empty(bits.value(i), sizes[i]) {
            return false;
        }
    }
    true
}

fn is_valid_or_empty(is_valid: bool, size: u64) -> bool
    ensures { IsTrue result → is_valid ≡ false → size ≡ 0 }
{
    is_valid || size == 0
}

/// Whether the lists have this size and are end to end from the first element to the last. Offsets
/// and sizes are `u64`.
#[tactic(auto, using(crate::proofs::EvenLemmas::checked))]
pub(crate) fn stand_evenly(
    elements: &ArrayRef,
    offsets: &ArrayRef,
    sizes: &ArrayRef,
    size: u32,
) -> bool
    requires { len_of sizes.now ≡ len_of offsets.now }
    ensures { IsTrue result → StandEvenly elements.now offsets.now sizes.now size }
{
    let Some(offsets) = counts_in(offsets) else {
        return false;
    };
    let Some(sizes) = counts_in(sizes) else {
        return false;
    };
    are_even(elements, offsets, sizes, size as u64)
}

fn are_even(elements: &ArrayRef, offsets: &[u64], sizes: &[u64], size: u64) -> bool
    requires { length sizes.now ≡ length offsets.now }
    ensures { IsTrue result
        → StandEvenly elements.now (counts offsets.now) (counts sizes.now) size }
{
    let mut end = 0;
    for i in 0..offsets.len() {
        let Some(next) = even_end(end, offsets[i], sizes[i], size) else {
            return false;
        };
        end = next;
    }
    end == elements.len() as u64
}

// The end of a list that begins at `end` and has the wanted size.
fn even_end(end: u64, offset: u64, size: u64, wanted: u64) -> Option<u64>
    ensures { IfSome result
        (λ next. (offset ≡ end) × (size ≡ wanted) × (next ≡ end + wanted)) }
{
    if offset != end || size != wanted {
        return None;
    }
    end.checked_add(size)
}

// The offsets of `len` lists of one size that are end to end.
fn starts(alloc: Global, size: u32, len: usize) -> Result<Vec<u64>, AllocError>
    requires { len * size < 2 ^ 64 }
    ensures { IfOk result
        (λ starts. starts.items ≡ map (λ i. i * size) (range_with_len 0 len)) }
{
    (0..len).map(|i| i as u64 * size as u64).collect(alloc)
}

/// The offsets of `len` lists of one size that are end to end, as an array.
pub(crate) fn even_offsets(alloc: Global, size: u32, len: usize) -> Result<ArrayRef, AllocError>
    requires { len * size < 2 ^ 64 }
    ensures { IfOk result
        (λ offsets. offsets ≡ counts (map (λ i. i * size) (range_with_len 0 len))) }
{
    let offsets = starts(alloc, size, len)?;
    of_counts(alloc, offsets)
}

/// The sizes of `len` lists of one size, as an array.
pub(crate) fn even_sizes(alloc: Global, size: u32, len: usize) -> Result<ArrayRef, AllocError>
    ensures { IfOk result (λ sizes. sizes ≡ counts (replicate len size)) }
{
    let sizes = vec![in alloc; size as u64; len]?;
    of_counts(alloc, sizes)
}

// An array of these integers, without null.
#[tactic(auto, using(vortex_arrays_builder::proofs::ListLemmas::counted))]
fn of_counts(alloc: Global, items: Vec<u64>) -> Result<ArrayRef, AllocError>
    ensures { IfOk result (λ array. array ≡ counts items.items) }
{
    let items = PrimitiveBuffer::from_buffer(Buffer::from_vec(items)?);
    let array = ArrayRef::of_numbers(alloc, items, Validity::NonNullable)?;
    Ok(array)
}
