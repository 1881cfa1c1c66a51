//! Offsets and sizes of known integer types.
ghost use Rattle.std.specs.Prelude.{◌≡◌, ◌↔◌, length, map, IsTrue};
ghost use Rattle.vortex_arrays_buffer.specs.PrimitiveBuffers.{integers_of};
ghost use Rattle.vortex_arrays_nested.specs.ListViews.{AllLieWithin};

use crate::views::is_view;
use vortex_arrays_buffer::element::Element;
use vortex_arrays_buffer::primitive_buffer::PrimitiveBuffer;

/// Whether each list is within `count` elements.
pub(crate) fn numbers_lie_within(
    offsets: &PrimitiveBuffer,
    sizes: &PrimitiveBuffer,
    count: usize,
) -> bool
    requires { length (integers_of sizes.now) ≡ length (integers_of offsets.now) }
    ensures { IsTrue result
        ↔ AllLieWithin count (integers_of offsets.now) (integers_of sizes.now) }
{
    match offsets {
        PrimitiveBuffer::U8(items) => items_lie_within(items.as_slice(), sizes, count),
        PrimitiveBuffer::U16(items) => items_lie_within(items.as_slice(), sizes, count),
        PrimitiveBuffer::U32(items) => items_lie_within(items.as_slice(), sizes, count),
        PrimitiveBuffer::U64(items) => items_lie_within(items.as_slice(), sizes, count),
        PrimitiveBuffer::I8(items) => items_lie_within(items.as_slice(), sizes, count),
        PrimitiveBuffer::I16(items) => items_lie_within(items.as_slice(), sizes, count),
        PrimitiveBuffer::I32(items) => items_lie_within(items.as_slice(), sizes, count),
        PrimitiveBuffer::I64(items) => items_lie_within(items.as_slice(), sizes, count),
    }
}

// As `numbers_lie_within`, where the type of the offsets is known.
fn items_lie_within<T: Element>(offsets: &[T], sizes: &PrimitiveBuffer, count: usize) -> bool
    requires { length (integers_of sizes.now) ≡ length offsets.now }
    ensures { IsTrue result
        ↔ AllLieWithin count (map T.integer offsets.now) (integers_of sizes.now) }
{
    match sizes {
        PrimitiveBuffer::U8(items) => pairs_lie_within(offsets, items.as_slice(), count),
        PrimitiveBuffer::U16(items) => pairs_lie_within(offsets, items.as_slice(), count),
        PrimitiveBuffer::U32(items) => pairs_lie_within(offsets, items.as_slice(), count),
        PrimitiveBuffer::U64(items) => pairs_lie_within(offsets, items.as_slice(), count),
        PrimitiveBuffer::I8(items) => pairs_lie_within(offsets, items.as_slice(), count),
        PrimitiveBuffer::I16(items) => pairs_lie_within(offsets, items.as_slice(), count),
        PrimitiveBuffer::I32(items) => pairs_lie_within(offsets, items.as_slice(), count),
        PrimitiveBuffer::I64(items) => pairs_lie_within(offsets, items.as_slice(), count),
    }
}

// As `numbers_lie_within`, where both types are known.
fn pairs_lie_within<T: Element, S: Element>(offsets: &[T], sizes: &[S], count: usize) -> bool
    requires { length sizes.now ≡ length offsets.now }
    ensures { IsTrue result
        ↔ AllLieWithin count (map T.integer offsets.now) (map S.integer sizes.now) }
{
    for i in 0..offsets.len() {
        let offset = offsets[i].get();
        let size = sizes[i].get();
        if !is_view(Some(offset), Some(size), count) {
            return false;
        }
    }
    true
}
