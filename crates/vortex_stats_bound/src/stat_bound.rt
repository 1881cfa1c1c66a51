//! Unions and intersections of precisions of a statistic.
ghost use Rattle.std.specs.Prelude.{◌≡◌, option_map};
ghost use Rattle.std.specs.Option.{option_copied};
ghost use Rattle.vortex_model_table.specs.Statistics.{Precision as Known};
ghost use Rattle.vortex_stats_expr.specs.declared.stat.Stat.{Stat};
ghost use Rattle.vortex_stats_bound.specs.Precision.{precision_of, exact_value, if_known};
ghost use Rattle.vortex_stats_bound.specs.Bounds.{
  Union,
  Intersection,
  exact_unless_below,
  union_plain,
  intersection_plain,
  intersection_map,
};

use crate::bound_ord::BoundOrd;
use crate::intersection::IntersectionResult;
use crate::precision::Precision;
use crate::union::Side;
use std::cmp::Ordering;
use vortex_stats_expr::stat::Stat;

/// The precision of a statistic as a bound, as Vortex's `StatBound`.
pub trait StatBound<T>: Sized {
    ghost known: { Self → Known T };

    ghost union_of: { Union T };

    ghost intersection_of: { Intersection T };

    /// The precision as a bound.
    fn lift(value: Precision<T>) -> Self
        ensures { known result ≡ precision_of value };

    /// The bound as a precision.
    fn into_value(self) -> Precision<T>
        ensures { precision_of result ≡ known self };

    /// The bound of the values of both. `None` where a side is absent or the values do not compare.
    /// It allocates nothing.
    fn union(self, other: Self) -> Option<Self>
        ensures { option_map known result ≡ union_of (known self) (known other) };

    /// The bound of the values in both. `None` as for `union`. It allocates nothing.
    fn intersection(self, other: Self) -> Option<IntersectionResult<Self>>
        ensures { option_map (λ common. intersection_map known common) result
            ≡ intersection_of (known self) (known other) };

    /// The value, if it is exact.
    fn to_exact(&self) -> Option<&T>
        ensures { option_copied result ≡ exact_value (known self.now) };
}

/// A marker of a statistic whose values are of type `T`, as Vortex's `StatType`.
pub trait StatType<T> {
    /// The bound of the statistic.
    type Bound: StatBound<T>;

    /// The statistic.
    const STAT: Stat;

    ghost STAT: { Stat };
}

impl<T> Precision<T> {
    /// The precision as the statistic's bound. `None` where it is absent.
    pub fn bound<S: StatType<T>>(self) -> Option<S::Bound>
        ensures { option_map S.Bound.known result ≡ if_known (precision_of self) }
    {
        match self {
            Precision::Exact(value) => Some(S::Bound::lift(Precision::Exact(value))),
            Precision::Inexact(value) => Some(S::Bound::lift(Precision::Inexact(value))),
            Precision::Absent => None,
        }
    }
}

/// A value that is no bound. An intersection with an absent one is empty.
impl<T: BoundOrd + Drop> StatBound<T> for Precision<T> {
    ghost known = { λ p. precision_of p };

    ghost union_of = { union_plain T.order };

    ghost intersection_of = { intersection_plain T.order };

    fn lift(value: Precision<T>) -> Precision<T>
        ensures { precision_of result ≡ precision_of value }
    {
        value
    }

    fn into_value(self) -> Precision<T> {
        self
    }

    fn union(self, other: Precision<T>) -> Option<Precision<T>> {
        match self.zip(other) {
            Precision::Exact((left, right)) => {
                Some(Precision::Exact(Side::Lower.lesser(left, right)?))
            }
            Precision::Inexact((left, right)) => {
                Some(Precision::Inexact(Side::Lower.lesser(left, right)?))
            }
            Precision::Absent => None,
        }
    }

    fn intersection(self, other: Precision<T>) -> Option<IntersectionResult<Precision<T>>> {
        match self {
            Precision::Exact(left) => match other {
                Precision::Exact(right) => Side::Lower.same_value(left, right),
                Precision::Inexact(right) => exact_unless_below(left, right),
                Precision::Absent => Some(IntersectionResult::Empty),
            },
            Precision::Inexact(left) => match other {
                Precision::Exact(right) => exact_unless_below(right, left),
                Precision::Inexact(right) => {
                    let value = Side::Lower.lesser(left, right)?;
                    Some(IntersectionResult::Value(Precision::Inexact(value)))
                }
                Precision::Absent => Some(IntersectionResult::Empty),
            },
            Precision::Absent => Some(IntersectionResult::Empty),
        }
    }

    fn to_exact(&self) -> Option<&T> {
        self.as_ref().as_exact()
    }
}

// the exact value, made inexact where it is below the inexact one
fn exact_unless_below<T: BoundOrd + Drop>(
    exact: T,
    inexact: T,
) -> Option<IntersectionResult<Precision<T>>>
    ensures { option_map (λ common. intersection_map precision_of common) result
        ≡ exact_unless_below T.order exact inexact }
{
    match exact.bound_cmp(&inexact)? {
        Ordering::Less => Some(IntersectionResult::Value(Precision::Inexact(exact))),
        Ordering::Equal => Some(IntersectionResult::Value(Precision::Exact(exact))),
        Ordering::Greater => Some(IntersectionResult::Value(Precision::Exact(exact))),
    }
}
