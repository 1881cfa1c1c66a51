//! Unions of bounds commute and associate: functions that make the calls, with the laws as their
//! contracts.
ghost use Rattle.std.specs.Prelude.{◌≡◌, Bool, option_map};
ghost use Rattle.std.specs.Option.{option_and_then};
ghost use Rattle.vortex_stats_bound.specs.Bounds.{lower_of, upper_of, union_lower, union_upper};
ghost use Rattle.vortex_stats_bound.specs.Laws.{AreAlike, Agree, ComparesInGroups, Passes};
ghost use Rattle.vortex_stats_bound.specs.Precision.{precision_of};

use vortex_stats_bound::bound::{LowerBound, UpperBound};
use vortex_stats_bound::bound_ord::BoundOrd;
use vortex_stats_bound::laws::{
    lower_unions_associate, lower_unions_commute, upper_unions_associate, upper_unions_commute,
};
use vortex_stats_bound::precision::Precision;
use vortex_stats_bound::stat_bound::StatBound;

/// The unions of two lower bounds in both orders: equal up to which of two equal values results.
pub fn unite_lower_both_ways<T: BoundOrd + Copy + Drop>(
    left: Precision<T>,
    right: Precision<T>,
) -> (Option<LowerBound<T>>, Option<LowerBound<T>>)
    ensures first { option_map lower_of result.0
        ≡ union_lower T.order (precision_of left) (precision_of right) }
    ensures second { option_map lower_of result.1
        ≡ union_lower T.order (precision_of right) (precision_of left) }
    ensures alike { AreAlike (Agree T.order) (option_map lower_of result.0)
        (option_map lower_of result.1) }
{
    lower_unions_commute::<T>();
    let first = LowerBound::lift(left).union(LowerBound::lift(right));
    let second = LowerBound::lift(right).union(LowerBound::lift(left));
    (first, second)
}

/// The unions of two upper bounds in both orders: equal up to which of two equal values results.
pub fn unite_upper_both_ways<T: BoundOrd + Copy + Drop>(
    left: Precision<T>,
    right: Precision<T>,
) -> (Option<UpperBound<T>>, Option<UpperBound<T>>)
    ensures first { option_map upper_of result.0
        ≡ union_upper T.order (precision_of left) (precision_of right) }
    ensures second { option_map upper_of result.1
        ≡ union_upper T.order (precision_of right) (precision_of left) }
    ensures alike { AreAlike (Agree T.order) (option_map upper_of result.0)
        (option_map upper_of result.1) }
{
    upper_unions_commute::<T>();
    let first = UpperBound::lift(left).union(UpperBound::lift(right));
    let second = UpperBound::lift(right).union(UpperBound::lift(left));
    (first, second)
}

/// The unions of three lower bounds, with the first two or the last two united first: equal where
/// values that compare with a third one compare.
pub fn unite_three_lower<T: BoundOrd + Copy + Drop>(
    first: Precision<T>,
    second: Precision<T>,
    third: Precision<T>,
) -> (Option<LowerBound<T>>, Option<LowerBound<T>>)
    ensures from_left { option_map lower_of result.0
        ≡ option_and_then (λ u. union_lower T.order u (precision_of third))
        (union_lower T.order (precision_of first) (precision_of second)) }
    ensures from_right { option_map lower_of result.1
        ≡ option_and_then (λ u. union_lower T.order (precision_of first) u)
        (union_lower T.order (precision_of second) (precision_of third)) }
    ensures same { (passes : T → Bool) → ComparesInGroups T.order passes
        → Passes passes (precision_of first) → Passes passes (precision_of second)
        → Passes passes (precision_of third)
        → option_map lower_of result.0 ≡ option_map lower_of result.1 }
{
    lower_unions_associate::<T>();
    let left = lower_from_left(first, second, third);
    let right = lower_from_right(first, second, third);
    (left, right)
}

fn lower_from_left<T: BoundOrd + Copy + Drop>(
    first: Precision<T>,
    second: Precision<T>,
    third: Precision<T>,
) -> Option<LowerBound<T>>
    ensures { option_map lower_of result
        ≡ option_and_then (λ u. union_lower T.order u (precision_of third))
        (union_lower T.order (precision_of first) (precision_of second)) }
{
    match LowerBound::lift(first).union(LowerBound::lift(second)) {
        Some(united) => united.union(LowerBound::lift(third)),
        None => None,
    }
}

fn lower_from_right<T: BoundOrd + Copy + Drop>(
    first: Precision<T>,
    second: Precision<T>,
    third: Precision<T>,
) -> Option<LowerBound<T>>
    ensures { option_map lower_of result
        ≡ option_and_then (λ u. union_lower T.order (precision_of first) u)
        (union_lower T.order (precision_of second) (precision_of third)) }
{
    match LowerBound::lift(second).union(LowerBound::lift(third)) {
        Some(united) => LowerBound::lift(first).union(united),
        None => None,
    }
}

/// The unions of three upper bounds, with the first two or the last two united first: equal where
/// values that compare with a third one compare.
pub fn unite_three_upper<T: BoundOrd + Copy + Drop>(
    first: Precision<T>,
    second: Precision<T>,
    third: Precision<T>,
) -> (Option<UpperBound<T>>, Option<UpperBound<T>>)
    ensures from_left { option_map upper_of result.0
        ≡ option_and_then (λ u. union_upper T.order u (precision_of third))
        (union_upper T.order (precision_of first) (precision_of second)) }
    ensures from_right { option_map upper_of result.1
        ≡ option_and_then (λ u. union_upper T.order (precision_of first) u)
        (union_upper T.order (precision_of second) (precision_of third)) }
    ensures same { (passes : T → Bool) → ComparesInGroups T.order passes
        → Passes passes (precision_of first) → Passes passes (precision_of second)
        → Passes passes (precision_of third)
        → option_map upper_of result.0 ≡ option_map upper_of result.1 }
{
    upper_unions_associate::<T>();
    let left = upper_from_left(first, second, third);
    let right = upper_from_right(first, second, third);
    (left, right)
}

fn upper_from_left<T: BoundOrd + Copy + Drop>(
    first: Precision<T>,
    second: Precision<T>,
    third: Precision<T>,
) -> Option<UpperBound<T>>
    ensures { option_map upper_of result
        ≡ option_and_then (λ u. union_upper T.order u (precision_of third))
        (union_upper T.order (precision_of first) (precision_of second)) }
{
    match UpperBound::lift(first).union(UpperBound::lift(second)) {
        Some(united) => united.union(UpperBound::lift(third)),
        None => None,
    }
}

fn upper_from_right<T: BoundOrd + Copy + Drop>(
    first: Precision<T>,
    second: Precision<T>,
    third: Precision<T>,
) -> Option<UpperBound<T>>
    ensures { option_map upper_of result
        ≡ option_and_then (λ u. union_upper T.order (precision_of first) u)
        (union_upper T.order (precision_of second) (precision_of third)) }
{
    match UpperBound::lift(second).union(UpperBound::lift(third)) {
        Some(united) => UpperBound::lift(first).union(united),
        None => None,
    }
}
