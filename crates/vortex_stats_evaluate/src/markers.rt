//! A marker for each statistic, which names it and what it bounds, as Vortex's in `expr::stats`.
ghost use Rattle.vortex_stats_expr.specs.declared.stat.Stat.TheVariants as stat;

use vortex_stats_bound::bound::{LowerBound, UpperBound};
use vortex_stats_bound::bound_ord::BoundOrd;
use vortex_stats_bound::precision::Precision;
use vortex_stats_bound::stat_bound::StatType;
use vortex_stats_expr::stat::Stat;

/// Whether all rows are null, or all are one value. It is no bound.
pub struct IsConstant;

/// Whether values never fall. It is no bound.
pub struct IsSorted;

/// Whether each value is above the one before. It is no bound.
pub struct IsStrictSorted;

/// The greatest value, bounded from above.
pub struct Max;

/// The least value, bounded from below.
pub struct Min;

/// The sum, which is no bound.
pub struct Sum;

/// How many rows are null, bounded from above.
pub struct NullCount;

/// How many bytes the rows take, bounded from above.
pub struct UncompressedSizeInBytes;

/// How many rows are NaN, bounded from above.
pub struct NaNCount;

impl StatType<bool> for IsConstant {
    type Bound = Precision<bool>;

    const STAT: Stat = Stat::IsConstant;

    ghost STAT = { stat.IsConstant };
}

impl StatType<bool> for IsSorted {
    type Bound = Precision<bool>;

    const STAT: Stat = Stat::IsSorted;

    ghost STAT = { stat.IsSorted };
}

impl StatType<bool> for IsStrictSorted {
    type Bound = Precision<bool>;

    const STAT: Stat = Stat::IsStrictSorted;

    ghost STAT = { stat.IsStrictSorted };
}

impl<T: BoundOrd + Drop> StatType<T> for Max {
    type Bound = UpperBound<T>;

    const STAT: Stat = Stat::Max;

    ghost STAT = { stat.Max };
}

impl<T: BoundOrd + Drop> StatType<T> for Min {
    type Bound = LowerBound<T>;

    const STAT: Stat = Stat::Min;

    ghost STAT = { stat.Min };
}

impl<T: BoundOrd + Drop> StatType<T> for Sum {
    type Bound = Precision<T>;

    const STAT: Stat = Stat::Sum;

    ghost STAT = { stat.Sum };
}

impl<T: BoundOrd + Drop> StatType<T> for NullCount {
    type Bound = UpperBound<T>;

    const STAT: Stat = Stat::NullCount;

    ghost STAT = { stat.NullCount };
}

impl<T: BoundOrd + Drop> StatType<T> for UncompressedSizeInBytes {
    type Bound = UpperBound<T>;

    const STAT: Stat = Stat::UncompressedSizeInBytes;

    ghost STAT = { stat.UncompressedSizeInBytes };
}

impl<T: BoundOrd + Drop> StatType<T> for NaNCount {
    type Bound = UpperBound<T>;

    const STAT: Stat = Stat::NaNCount;

    ghost STAT = { stat.NaNCount };
}
