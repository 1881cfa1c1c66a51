//! Ranges that the integers of leaf columns are known to be within.
ghost use Rattle.std.specs.Prelude.{◌≡◌, ◌≤◌, ◌+◌, ℕ, length};
ghost use Rattle.std.specs.List.{All};
ghost use Rattle.vortex_model.specs.Content.{Content, tuple};
ghost use Rattle.vortex_model.specs.Path.{part_of};
ghost use Rattle.vortex_arrays_model.specs.Layout.{Layout, Columns, records, content_at, row_at};
ghost use Rattle.vortex_arrays_core.specs.LayoutOf.{valid_of};
ghost use Rattle.vortex_arrays_cast.specs.Ranges.{AreRangesOf, IsRangeIn, LieIn, stands_in};

use vortex_arrays_core::array::Validity;

/// A range that the integers of a leaf column are within where they are not null.
#[derive(Clone, Copy, Drop)]
pub struct LeafRange<'a> {
    /// The positions of the leaf, from the root on.
    pub positions: &'a [usize],
    /// No integer is below this one.
    pub low: i128,
    /// No integer is above this one.
    pub high: i128,
}

/// The range of the column itself, which is `depth` steps down.
pub(crate) fn own_range(ranges: &[LeafRange<'_>], depth: usize) -> Option<(i128, i128)>
    ensures { (a : Layout) → AreRangesOf depth a ranges.now → LieIn result a }
{
    let range = ranges.first()?;
    if range.positions.len() > depth {
        return None;
    }
    Some((range.low, range.high))
}

/// The ranges for the fields of structs, of which some may be null.
pub(crate) fn field_ranges<'a, 'b>(
    ranges: &'a [LeafRange<'b>],
    validity: &Validity,
) -> &'a [LeafRange<'b>]
    ensures { (d n : ℕ) (cs : Columns)
        → All (IsRangeIn d n (content_at (records cs n (valid_of validity.now)))) ranges.now
        → All (IsRangeIn d n (λ i. tuple (row_at cs i))) result.now }
{
    match validity {
        Validity::NonNullable => ranges,
        Validity::AllValid => ranges,
        // In a null struct a field's value may be outside of the range.
        Validity::AllInvalid => &[],
        Validity::Array(_) => &[],
    }
}

// Whether the leaf is in the field at this index, of structs `depth` steps down.
fn stands_in(range: &LeafRange<'_>, depth: usize, index: usize) -> bool
    ensures { result ≡ stands_in depth index range.now }
{
    match range.positions.get(depth) {
        Some(position) => *position == index,
        None => false,
    }
}

// The first ranges, as long as they are in the field at this index, of structs `depth` steps down.
fn in_front<'a, 'b>(ranges: &'a [LeafRange<'b>], depth: usize, index: usize) -> &'a [LeafRange<'b>]
    ensures field { (n : ℕ) (f : ℕ → Content) → All (IsRangeIn depth n f) ranges.now
        → All (IsRangeIn (depth + 1) n (λ i. part_of (f i) index)) result.now }
    ensures count { length result.now ≤ length ranges.now }
{
    for count in 0..ranges.len() {
        if !stands_in(&ranges[count], depth, index) {
            return ranges.split_at(count).0;
        }
    }
    ranges.split_at(ranges.len()).0
}

/// The ranges in the field at this index, which begin at `from`, of structs `depth` steps down.
pub(crate) fn in_field<'a, 'b>(
    ranges: &'a [LeafRange<'b>],
    from: usize,
    depth: usize,
    index: usize,
) -> &'a [LeafRange<'b>]
    requires { from ≤ length ranges.now }
    ensures field { (n : ℕ) (f : ℕ → Content) → All (IsRangeIn depth n f) ranges.now
        → All (IsRangeIn (depth + 1) n (λ i. part_of (f i) index)) result.now }
    ensures within { from + length result.now ≤ length ranges.now }
{
    in_front(ranges.split_at(from).1, depth, index)
}
