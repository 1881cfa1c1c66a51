//! Ranges of the integers of a chunk's leaf columns, by its statistics.
ghost use Rattle.std.specs.Prelude.{◌≡◌, ℕ, List, All, OnOk, IfSome};
ghost use Rattle.vortex_model.specs.Content.{Content, integer};
ghost use Rattle.vortex_model_table.specs.Statistics.{exact};
ghost use Rattle.vortex_arrays_model.specs.Layout.{len_of, content_at};
ghost use Rattle.vortex_arrays_cast.specs.Ranges.{AreRangesOf, IsBetween, IsRangeIn};
ghost use Rattle.vortex_stats_array.specs.Zones.{bound_content};
ghost use Rattle.vortex_table_chunk.specs.zones.Bounds.{WereBoundsOf};

use std::alloc::AllocError;
use vortex_arrays_cast::ranges::LeafRange;
use vortex_scalar_value::scalar_value::ScalarValue;
use vortex_stats_array::array_stats::ArrayStats;
use vortex_stats_bound::precision::Precision;
use vortex_table_chunk::chunk::Chunk;

// The integer of a bound that is known to be exact.
#[tactic(auto, using(vortex_scalar_value::proofs::Views::one_level))]
fn integer_in(bound: &Precision<ScalarValue>) -> Option<i128>
    ensures { IfSome result (λ number. bound_content bound.now ≡ exact (integer number)) }
{
    let Precision::Exact(value) = bound else {
        return None;
    };
    match value {
        ScalarValue::Primitive(number) => Some(number.get()),
        ScalarValue::Bool(_) => None,
        ScalarValue::Utf8(_) => None,
        ScalarValue::Binary(_) => None,
        ScalarValue::Tuple(_) => None,
        ScalarValue::Union(_) => None,
        ScalarValue::Variant(_) => None,
    }
}

// The least and the greatest of the integers that have these statistics.
fn range_of(bounds: &ArrayStats) -> Option<(i128, i128)>
    ensures { (L : ℕ) (values : List Content) → WereBoundsOf L bounds.now values
        → IfSome result (λ range. All (IsBetween range.0 range.1) values) }
{
    let low = integer_in(&bounds.min)?;
    let high = integer_in(&bounds.max)?;
    Some((low, high))
}

// The range of the chunk's leaf column at this index, where its integers have one.
fn range_at(chunk: &Chunk, index: usize) -> Option<LeafRange<'_>>
    ensures { IfSome result (IsRangeIn 0 (len_of chunk.now.array) (content_at chunk.now.array)) }
{
    let Some(leaf) = chunk.leaves.get(index) else {
        return None;
    };
    let Some(bounds) = chunk.bounds.get(index) else {
        return None;
    };
    let Some((low, high)) = range_of(bounds) else {
        return None;
    };
    let positions = leaf.as_slice();
    Some(LeafRange {
        positions,
        low,
        high,
    })
}

/// Sets `ranges` to those of the chunk's leaf columns with integers that are not all null, in the
/// order of the leaves. The old ranges are dropped, and the memory is reused.
#[tactic(auto, using(crate::proofs::RangeLemmas::pushed))]
pub(crate) fn find_ranges<'a>(
    ranges: &mut Vec<LeafRange<'a>>,
    chunk: &'a Chunk,
) -> Result<(), AllocError>
    ensures { OnOk result (AreRangesOf 0 chunk.now.array ranges.new.items) }
{
    ranges.clear();
    for index in 0..chunk.leaves.len() {
        if let Some(range) = range_at(chunk, index) {
            ranges.push(range)?;
        }
    }
    Ok(())
}
