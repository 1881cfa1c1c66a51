//! Offsets and sizes.
ghost use Rattle.std.specs.Prelude.{◌≡◌, ◌<◌, ◌+◌, ◌↔◌, IsTrue};
ghost use Rattle.vortex_arrays_model.specs.Layout.{len_of, array_type_of, IsOffsets, IsView, AreEndToEnd};
ghost use Rattle.vortex_arrays_core.specs.LayoutOf.{integer_content};
ghost use Rattle.vortex_arrays_nested.specs.ListViews.{LieWithin};

use crate::follow::numbers_follow;
use crate::pairs::numbers_lie_within;
use vortex_arrays_core::array::{ArrayLayout, ArrayRef};
use vortex_arrays_core::scalar::view_at;

/// Whether the array has an integer type without null.
#[tactic(auto, using(crate::proofs::ListLemmas::offsets))]
pub(crate) fn has_offsets(array: &ArrayRef) -> bool
    ensures { IsTrue result ↔ IsOffsets (array_type_of array.now) }
{
    array.is_integer() && !array.dtype().is_nullable()
}

/// Whether each list is within `count` elements.
pub(crate) fn lie_within(offsets: &ArrayRef, sizes: &ArrayRef, count: usize) -> bool
    requires offsets { IsOffsets (array_type_of offsets.now) }
    requires sizes { IsOffsets (array_type_of sizes.now) }
    requires many { len_of sizes.now ≡ len_of offsets.now }
    ensures { IsTrue result ↔ LieWithin count offsets.now sizes.now }
{
    if let ArrayLayout::Primitive(mine, _) = offsets.layout() {
        if let ArrayLayout::Primitive(theirs, _) = sizes.layout() {
            return numbers_lie_within(mine, theirs, count);
        }
    }
    rows_lie_within(offsets, sizes, count)
}

// Whether each list is within `count` elements, of arrays of any layout, row by row.
#[tactic(auto, using(vortex_arrays_model::proofs::CanonicalLemmas::offsets_are_integers))]
fn rows_lie_within(offsets: &ArrayRef, sizes: &ArrayRef, count: usize) -> bool
    requires offsets { IsOffsets (array_type_of offsets.now) }
    requires sizes { IsOffsets (array_type_of sizes.now) }
    requires many { len_of sizes.now ≡ len_of offsets.now }
    ensures { IsTrue result ↔ LieWithin count offsets.now sizes.now }
{
    for i in 0..offsets.len() {
        if !is_view(offsets.integer(i), sizes.integer(i), count) {
            return false;
        }
    }
    true
}

/// Whether a range is within `count` elements. It does not add offset and size, which might
/// overflow.
pub(crate) fn is_view(offset: Option<i128>, size: Option<i128>, count: usize) -> bool
    ensures { IsTrue result ↔ IsView count (integer_content offset) (integer_content size) }
{
    match (offset, size) {
        (Some(offset), Some(size)) => {
            let count = count as i128;
            offset >= 0 && size >= 0 && offset <= count && size <= count - offset
        }
        _ => false,
    }
}

/// Whether each list begins where the one before ends.
pub(crate) fn are_end_to_end(offsets: &ArrayRef, sizes: &ArrayRef, count: usize) -> bool
    requires offsets { IsOffsets (array_type_of offsets.now) }
    requires sizes { IsOffsets (array_type_of sizes.now) }
    requires many { len_of sizes.now ≡ len_of offsets.now }
    requires views { LieWithin count offsets.now sizes.now }
    ensures { IsTrue result ↔ AreEndToEnd offsets.now sizes.now }
{
    if let ArrayLayout::Primitive(mine, _) = offsets.layout() {
        if let ArrayLayout::Primitive(theirs, _) = sizes.layout() {
            return numbers_follow(mine, theirs, count);
        }
    }
    rows_follow(offsets, sizes, count)
}

// Whether each list begins where the one before ends, of arrays of any layout, row by row.
fn rows_follow(offsets: &ArrayRef, sizes: &ArrayRef, count: usize) -> bool
    requires offsets { IsOffsets (array_type_of offsets.now) }
    requires sizes { IsOffsets (array_type_of sizes.now) }
    requires many { len_of sizes.now ≡ len_of offsets.now }
    requires views { LieWithin count offsets.now sizes.now }
    ensures { IsTrue result ↔ AreEndToEnd offsets.now sizes.now }
{
    for i in 1..offsets.len() {
        let (before, size) = view_at(offsets, sizes, i - 1, count);
        let (offset, _) = view_at(offsets, sizes, i, count);
        if offset != before + size {
            return false;
        }
    }
    true
}
