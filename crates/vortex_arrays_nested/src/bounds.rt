//! The ranges of elements that lists have.
ghost use Rattle.std.specs.Prelude.{◌≡◌, ◌≤◌, ◌-◌, ◌^◌, MatchOption, IfSome, min, sum_by};
ghost use Rattle.vortex_arrays_model.specs.Layout.{len_of, array_type_of, number_in, rows_of, IsOffsets};
ghost use Rattle.vortex_arrays_model.specs.Trimmed.{AreBounds};
ghost use Rattle.vortex_arrays_nested.specs.ListViews.{LieWithin};

use crate::reach::{numbers_bounds, numbers_total};
use vortex_arrays_core::array::{ArrayLayout, ArrayRef};
use vortex_arrays_core::scalar::view_at;

/// The least offset and the greatest end of the lists, which are within `count` elements.
pub(crate) fn element_bounds(
    offsets: &ArrayRef,
    sizes: &ArrayRef,
    count: usize,
) -> Option<(usize, usize)>
    requires offsets { IsOffsets (array_type_of offsets.now) }
    requires sizes { IsOffsets (array_type_of sizes.now) }
    requires many { len_of sizes.now ≡ len_of offsets.now }
    requires views { LieWithin count offsets.now sizes.now }
    ensures bounds { MatchOption result (len_of offsets.now ≡ 0)
        (λ b. AreBounds offsets.now sizes.now b.0 b.1) }
    ensures within { IfSome result (λ b. b.1 ≤ count) }
{
    if let ArrayLayout::Primitive(mine, _) = offsets.layout() {
        if let ArrayLayout::Primitive(theirs, _) = sizes.layout() {
            return numbers_bounds(mine, theirs, count);
        }
    }
    rows_bounds(offsets, sizes, count)
}

// The least offset and the greatest end, of arrays of any layout, row by row.
#[tactic(auto, using(crate::proofs::BoundsLemmas::bounds))]
fn rows_bounds(offsets: &ArrayRef, sizes: &ArrayRef, count: usize) -> Option<(usize, usize)>
    requires offsets { IsOffsets (array_type_of offsets.now) }
    requires sizes { IsOffsets (array_type_of sizes.now) }
    requires many { len_of sizes.now ≡ len_of offsets.now }
    requires views { LieWithin count offsets.now sizes.now }
    ensures bounds { MatchOption result (len_of offsets.now ≡ 0)
        (λ b. AreBounds offsets.now sizes.now b.0 b.1) }
    ensures within { IfSome result (λ b. b.1 ≤ count) }
{
    let len = offsets.len();
    if len == 0 {
        return None;
    }
    let (mut least, size) = view_at(offsets, sizes, 0, count);
    let mut greatest = least + size;
    for i in 1..len {
        let (offset, size) = view_at(offsets, sizes, i, count);
        least = least.min(offset);
        greatest = greatest.max(offset + size);
    }
    Some((least, greatest))
}

/// The sum of the lists' sizes, at most `usize::MAX`.
pub(crate) fn total_size(offsets: &ArrayRef, sizes: &ArrayRef, count: usize) -> usize
    requires offsets { IsOffsets (array_type_of offsets.now) }
    requires sizes { IsOffsets (array_type_of sizes.now) }
    requires many { len_of sizes.now ≡ len_of offsets.now }
    requires views { LieWithin count offsets.now sizes.now }
    ensures { result ≡ min (sum_by number_in (rows_of sizes.now)) (2 ^ 64 - 1) }
{
    match sizes.layout() {
        ArrayLayout::Primitive(items, _) => numbers_total(items),
        _ => rows_total(offsets, sizes, count),
    }
}

// The sum of the lists' sizes, of arrays of any layout, row by row.
#[tactic(auto, using(crate::proofs::BoundsLemmas::more_elements))]
fn rows_total(offsets: &ArrayRef, sizes: &ArrayRef, count: usize) -> usize
    requires offsets { IsOffsets (array_type_of offsets.now) }
    requires sizes { IsOffsets (array_type_of sizes.now) }
    requires many { len_of sizes.now ≡ len_of offsets.now }
    requires views { LieWithin count offsets.now sizes.now }
    ensures { result ≡ min (sum_by number_in (rows_of sizes.now)) (2 ^ 64 - 1) }
{
    let mut total: usize = 0;
    for i in 0..sizes.len() {
        let (_, size) = view_at(offsets, sizes, i, count);
        total = total.saturating_add(size);
    }
    total
}
