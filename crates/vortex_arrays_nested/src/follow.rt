//! Whether lists are end to end, for offsets and sizes of known integer types.
ghost use Rattle.std.specs.Prelude.{◌≡◌, ◌↔◌, length, map, IsTrue};
ghost use Rattle.vortex_arrays_buffer.specs.PrimitiveBuffers.{kind_of_numbers, integers_of};
ghost use Rattle.vortex_arrays_model.specs.Layout.{numbers, required, AreEndToEnd};
ghost use Rattle.vortex_arrays_nested.specs.ListViews.{AllLieWithin};

use crate::reach::pair_at;
use vortex_arrays_buffer::element::Element;
use vortex_arrays_buffer::primitive_buffer::PrimitiveBuffer;

/// Whether each list begins where the one before ends, for lists within `count` elements.
#[tactic(auto, using(vortex_arrays_buffer::proofs::NumberLemmas::eq_numbers))]
pub(crate) fn numbers_follow(
    offsets: &PrimitiveBuffer,
    sizes: &PrimitiveBuffer,
    count: usize,
) -> bool
    requires many { length (integers_of sizes.now) ≡ length (integers_of offsets.now) }
    requires views { AllLieWithin count (integers_of offsets.now) (integers_of sizes.now) }
    ensures { IsTrue result ↔ AreEndToEnd
        (numbers (kind_of_numbers offsets.now) (integers_of offsets.now) required)
        (numbers (kind_of_numbers sizes.now) (integers_of sizes.now) required) }
{
    match offsets {
        PrimitiveBuffer::U8(items) => items_follow(items.as_slice(), sizes, count),
        PrimitiveBuffer::U16(items) => items_follow(items.as_slice(), sizes, count),
        PrimitiveBuffer::U32(items) => items_follow(items.as_slice(), sizes, count),
        PrimitiveBuffer::U64(items) => items_follow(items.as_slice(), sizes, count),
        PrimitiveBuffer::I8(items) => items_follow(items.as_slice(), sizes, count),
        PrimitiveBuffer::I16(items) => items_follow(items.as_slice(), sizes, count),
        PrimitiveBuffer::I32(items) => items_follow(items.as_slice(), sizes, count),
        PrimitiveBuffer::I64(items) => items_follow(items.as_slice(), sizes, count),
    }
}

// As `numbers_follow`, where the type of the offsets is known.
#[tactic(auto, using(vortex_arrays_buffer::proofs::NumberLemmas::eq_numbers))]
fn items_follow<T: Element>(offsets: &[T], sizes: &PrimitiveBuffer, count: usize) -> bool
    requires many { length (integers_of sizes.now) ≡ length offsets.now }
    requires views { AllLieWithin count (map T.integer offsets.now) (integers_of sizes.now) }
    ensures { IsTrue result ↔ AreEndToEnd (numbers T.kind (map T.integer offsets.now) required)
        (numbers (kind_of_numbers sizes.now) (integers_of sizes.now) required) }
{
    match sizes {
        PrimitiveBuffer::U8(items) => pairs_follow(offsets, items.as_slice(), count),
        PrimitiveBuffer::U16(items) => pairs_follow(offsets, items.as_slice(), count),
        PrimitiveBuffer::U32(items) => pairs_follow(offsets, items.as_slice(), count),
        PrimitiveBuffer::U64(items) => pairs_follow(offsets, items.as_slice(), count),
        PrimitiveBuffer::I8(items) => pairs_follow(offsets, items.as_slice(), count),
        PrimitiveBuffer::I16(items) => pairs_follow(offsets, items.as_slice(), count),
        PrimitiveBuffer::I32(items) => pairs_follow(offsets, items.as_slice(), count),
        PrimitiveBuffer::I64(items) => pairs_follow(offsets, items.as_slice(), count),
    }
}

// As `numbers_follow`, where both types are known.
fn pairs_follow<T: Element, S: Element>(offsets: &[T], sizes: &[S], count: usize) -> bool
    requires many { length sizes.now ≡ length offsets.now }
    requires views { AllLieWithin count (map T.integer offsets.now) (map S.integer sizes.now) }
    ensures { IsTrue result ↔ AreEndToEnd (numbers T.kind (map T.integer offsets.now) required)
        (numbers S.kind (map S.integer sizes.now) required) }
{
    for i in 1..offsets.len() {
        let (before, size) = pair_at(offsets, sizes, i - 1, count);
        let (offset, _) = pair_at(offsets, sizes, i, count);
        if offset != before + size {
            return false;
        }
    }
    true
}
