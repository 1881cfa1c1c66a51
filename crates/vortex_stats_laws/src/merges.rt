//! Merges and intersections of honest sets are honest: functions that make the calls, with the laws
//! as their contracts.
ghost use Rattle.std.specs.Prelude.{◌≡◌, ◌≢◌, ◌++◌, List, true, false, IfOk, IfErr, OnOk};
ghost use Rattle.std.specs.List.Sorted.{IsPermutation};
ghost use Rattle.vortex_model.specs.Content.{Content};
ghost use Rattle.vortex_model_table.specs.Statistics.{IsHonest};
ghost use Rattle.vortex_dtype_core.specs.View.{type_of};
ghost use Rattle.vortex_stats_expr.specs.declared.error.StatsError.TheVariants.{Memory, NoOverlap};
ghost use Rattle.vortex_stats_set.specs.Combine.{combined_in_turn};
ghost use Rattle.vortex_stats_set.specs.Known.{raw_pairs};
ghost use Rattle.vortex_stats_set.specs.Merge.{merged_ordered, merged_unordered};
ghost use Rattle.vortex_stats_set.specs.Said.{statistics_in};
ghost use Rattle.vortex_stats_set.specs.Valid.{are_valid_for};

use vortex_dtype_core::dtype::DType;
use vortex_stats_expr::error::StatsError;
use vortex_stats_set::stats_set::StatsSet;

/// `merge_ordered` of sets that are valid for the type: if they are honest of two lists of rows,
/// the result is of the first followed by the second.
pub fn merge_rows_in_order(
    left: StatsSet,
    right: &StatsSet,
    dtype: &DType,
) -> Result<StatsSet, StatsError>
    requires left { are_valid_for (type_of dtype.now) left ≡ true }
    requires right { are_valid_for (type_of dtype.now) right.now ≡ true }
    ensures merged { IfOk result (λ set. raw_pairs set
        ≡ merged_ordered true (raw_pairs left) (raw_pairs right.now)) }
    ensures honest { IfOk result (λ set. (cs ds : List Content)
        → IsHonest (statistics_in (raw_pairs left)) cs
        → IsHonest (statistics_in (raw_pairs right.now)) ds
        → IsHonest (statistics_in (raw_pairs set)) (cs ++ ds)) }
    ensures refused { IfErr result (λ e. e ≡ Memory) }
{
    left.merge_ordered(right, dtype)
}

/// `merge_unordered` of sets that are valid for the type: if they are honest of two lists of rows,
/// the result is of the rows of both in any order.
pub fn merge_rows_in_any_order(
    left: StatsSet,
    right: &StatsSet,
    dtype: &DType,
) -> Result<StatsSet, StatsError>
    requires left { are_valid_for (type_of dtype.now) left ≡ true }
    requires right { are_valid_for (type_of dtype.now) right.now ≡ true }
    ensures merged { IfOk result (λ set. raw_pairs set
        ≡ merged_unordered true (raw_pairs left) (raw_pairs right.now)) }
    ensures honest { IfOk result (λ set. (cs ds rows : List Content)
        → IsPermutation (cs ++ ds) rows
        → IsHonest (statistics_in (raw_pairs left)) cs
        → IsHonest (statistics_in (raw_pairs right.now)) ds
        → IsHonest (statistics_in (raw_pairs set)) rows) }
    ensures refused { IfErr result (λ e. e ≡ Memory) }
{
    left.merge_unordered(right, dtype)
}

/// `combine_sets` of sets that are valid for the type: if both are honest of the same rows, the
/// result is too, also where a statistic is refused.
pub fn combine_of_same_rows(
    left: &mut StatsSet,
    right: &StatsSet,
    dtype: &DType,
) -> Result<(), StatsError>
    requires left { are_valid_for (type_of dtype.now) left.old ≡ true }
    requires right { are_valid_for (type_of dtype.now) right.now ≡ true }
    ensures ok { OnOk result ((raw_pairs left.new, true)
        ≡ combined_in_turn true (raw_pairs left.old) (raw_pairs right.now)) }
    ensures no_overlap { IfErr result (λ e. e ≡ NoOverlap → (raw_pairs left.new, false)
        ≡ combined_in_turn true (raw_pairs left.old) (raw_pairs right.now)) }
    ensures refused { IfErr result (λ e. e ≢ NoOverlap → (e ≡ Memory)
        × (left.new ≡ left.old)) }
    ensures honest { (cs : List Content)
        → IsHonest (statistics_in (raw_pairs left.old)) cs
        → IsHonest (statistics_in (raw_pairs right.now)) cs
        → IsHonest (statistics_in (raw_pairs left.new)) cs }
{
    let _distinct = right.iter();
    left.combine_sets(right, dtype)
}
