//! The ranges of elements that lists have, for offsets and sizes of known integer types.
ghost use Rattle.std.specs.Prelude.{◌≡◌, ◌<◌, ◌≤◌, ◌+◌, ◌-◌, ◌^◌, length, map, min, sum_by, MatchOption, IfSome};
ghost use Rattle.vortex_arrays_buffer.specs.PrimitiveBuffers.{kind_of_numbers, integers_of};
ghost use Rattle.vortex_arrays_model.specs.Layout.{numbers, required, content_at, natural, number_in, rows_of};
ghost use Rattle.vortex_arrays_model.specs.Trimmed.{AreBounds};
ghost use Rattle.vortex_arrays_nested.specs.ListViews.{AllLieWithin};

use vortex_arrays_buffer::element::Element;
use vortex_arrays_buffer::primitive_buffer::PrimitiveBuffer;

/// The least offset and the greatest end of the lists, which are within `count` elements.
#[tactic(auto, using(vortex_arrays_buffer::proofs::NumberLemmas::eq_numbers))]
pub(crate) fn numbers_bounds(
    offsets: &PrimitiveBuffer,
    sizes: &PrimitiveBuffer,
    count: usize,
) -> Option<(usize, usize)>
    requires many { length (integers_of sizes.now) ≡ length (integers_of offsets.now) }
    requires views { AllLieWithin count (integers_of offsets.now) (integers_of sizes.now) }
    ensures bounds { MatchOption result (length (integers_of offsets.now) ≡ 0)
        (λ b. AreBounds (numbers (kind_of_numbers offsets.now) (integers_of offsets.now) required)
        (numbers (kind_of_numbers sizes.now) (integers_of sizes.now) required) b.0 b.1) }
    ensures within { IfSome result (λ b. b.1 ≤ count) }
{
    match offsets {
        PrimitiveBuffer::U8(items) => items_bounds(items.as_slice(), sizes, count),
        PrimitiveBuffer::U16(items) => items_bounds(items.as_slice(), sizes, count),
        PrimitiveBuffer::U32(items) => items_bounds(items.as_slice(), sizes, count),
        PrimitiveBuffer::U64(items) => items_bounds(items.as_slice(), sizes, count),
        PrimitiveBuffer::I8(items) => items_bounds(items.as_slice(), sizes, count),
        PrimitiveBuffer::I16(items) => items_bounds(items.as_slice(), sizes, count),
        PrimitiveBuffer::I32(items) => items_bounds(items.as_slice(), sizes, count),
        PrimitiveBuffer::I64(items) => items_bounds(items.as_slice(), sizes, count),
    }
}

// As `numbers_bounds`, where the type of the offsets is known.
#[tactic(auto, using(vortex_arrays_buffer::proofs::NumberLemmas::eq_numbers))]
fn items_bounds<T: Element>(
    offsets: &[T],
    sizes: &PrimitiveBuffer,
    count: usize,
) -> Option<(usize, usize)>
    requires many { length (integers_of sizes.now) ≡ length offsets.now }
    requires views { AllLieWithin count (map T.integer offsets.now) (integers_of sizes.now) }
    ensures bounds { MatchOption result (length offsets.now ≡ 0)
        (λ b. AreBounds (numbers T.kind (map T.integer offsets.now) required)
        (numbers (kind_of_numbers sizes.now) (integers_of sizes.now) required) b.0 b.1) }
    ensures within { IfSome result (λ b. b.1 ≤ count) }
{
    match sizes {
        PrimitiveBuffer::U8(items) => pairs_bounds(offsets, items.as_slice(), count),
        PrimitiveBuffer::U16(items) => pairs_bounds(offsets, items.as_slice(), count),
        PrimitiveBuffer::U32(items) => pairs_bounds(offsets, items.as_slice(), count),
        PrimitiveBuffer::U64(items) => pairs_bounds(offsets, items.as_slice(), count),
        PrimitiveBuffer::I8(items) => pairs_bounds(offsets, items.as_slice(), count),
        PrimitiveBuffer::I16(items) => pairs_bounds(offsets, items.as_slice(), count),
        PrimitiveBuffer::I32(items) => pairs_bounds(offsets, items.as_slice(), count),
        PrimitiveBuffer::I64(items) => pairs_bounds(offsets, items.as_slice(), count),
    }
}

// As `numbers_bounds`, where both types are known.
#[tactic(auto, using(crate::proofs::BoundsLemmas::bounds))]
fn pairs_bounds<T: Element, S: Element>(
    offsets: &[T],
    sizes: &[S],
    count: usize,
) -> Option<(usize, usize)>
    requires many { length sizes.now ≡ length offsets.now }
    requires views { AllLieWithin count (map T.integer offsets.now) (map S.integer sizes.now) }
    ensures bounds { MatchOption result (length offsets.now ≡ 0)
        (λ b. AreBounds (numbers T.kind (map T.integer offsets.now) required)
        (numbers S.kind (map S.integer sizes.now) required) b.0 b.1) }
    ensures within { IfSome result (λ b. b.1 ≤ count) }
{
    let len = offsets.len();
    if len == 0 {
        return None;
    }
    let (mut least, size) = pair_at(offsets, sizes, 0, count);
    let mut greatest = least + size;
    for i in 1..len {
        let (offset, size) = pair_at(offsets, sizes, i, count);
        least = least.min(offset);
        greatest = greatest.max(offset + size);
    }
    Some((least, greatest))
}

/// The offset and the size of a list, for lists within `count` elements.
pub(crate) fn pair_at<T: Element, S: Element>(
    offsets: &[T],
    sizes: &[S],
    i: usize,
    count: usize,
) -> (usize, usize)
    requires offset_within { i < length offsets.now }
    requires size_within { i < length sizes.now }
    requires views { AllLieWithin count (map T.integer offsets.now) (map S.integer sizes.now) }
    ensures start { result.0
        ≡ number_in (content_at (numbers T.kind (map T.integer offsets.now) required) i) }
    ensures size { result.1
        ≡ number_in (content_at (numbers S.kind (map S.integer sizes.now) required) i) }
    ensures within { result.0 + result.1 ≤ count }
{
    let _count = count;
    (natural_of(offsets[i]), natural_of(sizes[i]))
}

/// The integer, and 0 for a negative one.
#[tactic(auto, using(crate::proofs::ReachLemmas::held))]
pub(crate) fn natural_of<T: Element>(item: T) -> usize
    ensures { result ≡ natural (T.integer item) }
{
    let number = item.get();
    if number < 0 { 0 } else { number as usize }
}

/// The sum of the sizes, at most `usize::MAX`.
#[tactic(auto, using(vortex_arrays_buffer::proofs::NumberLemmas::eq_numbers))]
pub(crate) fn numbers_total(sizes: &PrimitiveBuffer) -> usize
    ensures { result ≡ min (sum_by number_in (rows_of
        (numbers (kind_of_numbers sizes.now) (integers_of sizes.now) required))) (2 ^ 64 - 1) }
{
    match sizes {
        PrimitiveBuffer::U8(items) => items_total(items.as_slice()),
        PrimitiveBuffer::U16(items) => items_total(items.as_slice()),
        PrimitiveBuffer::U32(items) => items_total(items.as_slice()),
        PrimitiveBuffer::U64(items) => items_total(items.as_slice()),
        PrimitiveBuffer::I8(items) => items_total(items.as_slice()),
        PrimitiveBuffer::I16(items) => items_total(items.as_slice()),
        PrimitiveBuffer::I32(items) => items_total(items.as_slice()),
        PrimitiveBuffer::I64(items) => items_total(items.as_slice()),
    }
}

// As `numbers_total`, where the type is known.
fn items_total<T: Element>(sizes: &[T]) -> usize
    ensures { result ≡ min (sum_by number_in
        (rows_of (numbers T.kind (map T.integer sizes.now) required))) (2 ^ 64 - 1) }
{
    let mut total: usize = 0;
    for i in 0..sizes.len() {
        total = total.saturating_add(natural_of(sizes[i]));
    }
    total
}
