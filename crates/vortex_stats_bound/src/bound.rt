//! Precisions of a least and of a greatest value, as bounds.
ghost use Rattle.std.specs.Prelude.{◌≡◌};
ghost use Rattle.vortex_stats_bound.specs.Precision.{precision_of, is_exact, eq_exact};
ghost use Rattle.vortex_stats_bound.specs.Bounds.{
  lower_of,
  upper_of,
  union_lower,
  union_upper,
  intersection_lower,
  intersection_upper,
  cmp_lower,
  cmp_upper,
};

use crate::bound_ord::BoundOrd;
use crate::intersection::IntersectionResult;
use crate::precision::Precision;
use crate::stat_bound::StatBound;
use crate::union::Side;
use std::cmp::Ordering;

/// A value that none is less than, as Vortex's `LowerBound`. An exact one is the least value, an
/// inexact one may be less than all.
#[derive(Clone, Debug, PartialEq, Eq, Drop)]
pub struct LowerBound<T>(Precision<T>);

/// A value that none is greater than, as Vortex's `UpperBound`. An exact one is the greatest value,
/// an inexact one may be greater than all.
#[derive(Clone, Debug, PartialEq, Eq, Drop)]
pub struct UpperBound<T>(Precision<T>);

impl<T> LowerBound<T> {
    /// Whether it is the least value.
    pub fn is_exact(&self) -> bool
        ensures { result ≡ is_exact (lower_of self.now) }
    {
        self.0.is_exact()
    }

    /// Whether it is exact and equals this value.
    pub fn eq_value(&self, value: &T) -> bool
    where
        T: PartialEq,
        ensures { result ≡ eq_exact T.eq (lower_of self.now) value.now }
    {
        self.0.eq_value(value)
    }

    /// The order of the bounded value and this one. `None` where the bound is absent, where the two
    /// do not compare, and for an inexact bound that is less.
    pub fn partial_cmp_value(&self, value: &T) -> Option<Ordering>
    where
        T: BoundOrd,
        ensures { result ≡ cmp_lower T.order (lower_of self.now) value.now }
    {
        match &self.0 {
            Precision::Exact(own) => own.bound_cmp(value),
            Precision::Inexact(own) => match own.bound_cmp(value)? {
                Ordering::Less => None,
                Ordering::Equal => Some(Ordering::Equal),
                Ordering::Greater => Some(Ordering::Greater),
            },
            Precision::Absent => None,
        }
    }
}

impl<T> UpperBound<T> {
    /// Whether it is exact and equals this value.
    pub fn eq_value(&self, value: &T) -> bool
    where
        T: PartialEq,
        ensures { result ≡ eq_exact T.eq (upper_of self.now) value.now }
    {
        self.0.eq_value(value)
    }

    /// The order of the bounded value and this one. `None` where the bound is absent, where the two
    /// do not compare, and for an inexact bound that is greater.
    pub fn partial_cmp_value(&self, value: &T) -> Option<Ordering>
    where
        T: BoundOrd,
        ensures { result ≡ cmp_upper T.order (upper_of self.now) value.now }
    {
        match &self.0 {
            Precision::Exact(own) => own.bound_cmp(value),
            Precision::Inexact(own) => match own.bound_cmp(value)? {
                Ordering::Less => Some(Ordering::Less),
                Ordering::Equal => Some(Ordering::Equal),
                Ordering::Greater => None,
            },
            Precision::Absent => None,
        }
    }
}

impl<T: BoundOrd + Drop> StatBound<T> for LowerBound<T> {
    ghost known = { λ b. lower_of b };

    ghost union_of = { union_lower T.order };

    ghost intersection_of = { intersection_lower T.order };

    fn lift(value: Precision<T>) -> LowerBound<T>
        ensures { lower_of result ≡ precision_of value }
    {
        LowerBound(value)
    }

    fn into_value(self) -> Precision<T> {
        self.0
    }

    fn union(self, other: LowerBound<T>) -> Option<LowerBound<T>> {
        let union = Side::Lower.union(self.0, other.0)?;
        Some(LowerBound(union))
    }

    fn intersection(self, other: LowerBound<T>) -> Option<IntersectionResult<LowerBound<T>>> {
        match Side::Lower.intersection(self.0, other.0)? {
            IntersectionResult::Value(common) => Some(IntersectionResult::Value(LowerBound(
                common,
            ))),
            IntersectionResult::Empty => Some(IntersectionResult::Empty),
        }
    }

    fn to_exact(&self) -> Option<&T> {
        self.0.as_ref().as_exact()
    }
}

impl<T: BoundOrd + Drop> StatBound<T> for UpperBound<T> {
    ghost known = { λ b. upper_of b };

    ghost union_of = { union_upper T.order };

    ghost intersection_of = { intersection_upper T.order };

    fn lift(value: Precision<T>) -> UpperBound<T>
        ensures { upper_of result ≡ precision_of value }
    {
        UpperBound(value)
    }

    fn into_value(self) -> Precision<T> {
        self.0
    }

    fn union(self, other: UpperBound<T>) -> Option<UpperBound<T>> {
        let union = Side::Upper.union(self.0, other.0)?;
        Some(UpperBound(union))
    }

    fn intersection(self, other: UpperBound<T>) -> Option<IntersectionResult<UpperBound<T>>> {
        match Side::Upper.intersection(self.0, other.0)? {
            IntersectionResult::Value(common) => Some(IntersectionResult::Value(UpperBound(
                common,
            ))),
            IntersectionResult::Empty => Some(IntersectionResult::Empty),
        }
    }

    fn to_exact(&self) -> Option<&T> {
        self.0.as_ref().as_exact()
    }
}
