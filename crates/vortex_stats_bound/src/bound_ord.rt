//! The order by which bounds compare.
ghost use Rattle.std.specs.Prelude.{◌≡◌, refl};
ghost use Rattle.std.specs.Ordering.{nat_cmp, int_cmp, bool_cmp, as_partial_cmp};
ghost use Rattle.std.specs.Cmp.{po, nat_cmp_total, int_cmp_total, bool_cmp_total};
ghost use Rattle.vortex_stats_bound.specs.Order.{Comparison, IsLawful};
ghost use Rattle.vortex_stats_bound.specs.ScalarOrder.{scalar_order, scalar_order_lawful};
ghost use Rattle.vortex_stats_bound.specs.ValueOrder.{value_order, value_order_lawful};

use std::cmp::Ordering;
use vortex_scalar_core::scalar::Scalar;
use vortex_scalar_ops::compare::compare_values;
use vortex_scalar_value::scalar_value::ScalarValue;

/// Values that bounds are made of. Unlike `PartialOrd` it doesn't require `PartialEq`, since values
/// of variants may be equal and yet don't compare.
pub trait BoundOrd {
    ghost order: { Comparison Self };

    /// The order of the two, and `None` where they do not compare. It allocates nothing.
    fn bound_cmp(&self, other: &Self) -> Option<Ordering>
        ensures { result ≡ order self.now other.now };

    ghost lawful: { IsLawful order };
}

impl BoundOrd for bool {
    ghost order = { as_partial_cmp bool_cmp };

    ghost lawful = { po bool_cmp_total (λ a b. refl) };

    fn bound_cmp(&self, other: &bool) -> Option<Ordering> {
        Some(self.cmp(other))
    }
}

impl BoundOrd for u8 {
    ghost order = { as_partial_cmp nat_cmp };

    ghost lawful = { po nat_cmp_total (λ a b. refl) };

    fn bound_cmp(&self, other: &u8) -> Option<Ordering> {
        Some(self.cmp(other))
    }
}

impl BoundOrd for u16 {
    ghost order = { as_partial_cmp nat_cmp };

    ghost lawful = { po nat_cmp_total (λ a b. refl) };

    fn bound_cmp(&self, other: &u16) -> Option<Ordering> {
        Some(self.cmp(other))
    }
}

impl BoundOrd for u32 {
    ghost order = { as_partial_cmp nat_cmp };

    ghost lawful = { po nat_cmp_total (λ a b. refl) };

    fn bound_cmp(&self, other: &u32) -> Option<Ordering> {
        Some(self.cmp(other))
    }
}

impl BoundOrd for u64 {
    ghost order = { as_partial_cmp nat_cmp };

    ghost lawful = { po nat_cmp_total (λ a b. refl) };

    fn bound_cmp(&self, other: &u64) -> Option<Ordering> {
        Some(self.cmp(other))
    }
}

impl BoundOrd for i8 {
    ghost order = { as_partial_cmp int_cmp };

    ghost lawful = { po int_cmp_total (λ a b. refl) };

    fn bound_cmp(&self, other: &i8) -> Option<Ordering> {
        Some(self.cmp(other))
    }
}

impl BoundOrd for i16 {
    ghost order = { as_partial_cmp int_cmp };

    ghost lawful = { po int_cmp_total (λ a b. refl) };

    fn bound_cmp(&self, other: &i16) -> Option<Ordering> {
        Some(self.cmp(other))
    }
}

impl BoundOrd for i32 {
    ghost order = { as_partial_cmp int_cmp };

    ghost lawful = { po int_cmp_total (λ a b. refl) };

    fn bound_cmp(&self, other: &i32) -> Option<Ordering> {
        Some(self.cmp(other))
    }
}

impl BoundOrd for i64 {
    ghost order = { as_partial_cmp int_cmp };

    ghost lawful = { po int_cmp_total (λ a b. refl) };

    fn bound_cmp(&self, other: &i64) -> Option<Ordering> {
        Some(self.cmp(other))
    }
}

/// Values compare where their types are equal up to nullability. Null is least, and values of
/// variants compare only with null.
impl BoundOrd for Scalar {
    ghost order = { scalar_order };

    ghost lawful = { scalar_order_lawful };

    fn bound_cmp(&self, other: &Scalar) -> Option<Ordering> {
        self.partial_cmp(other)
    }
}

/// Values without their type compare by their contents. Those of two different forms don't compare,
/// nor do those of variants.
impl BoundOrd for ScalarValue {
    ghost order = { value_order };

    ghost lawful = { value_order_lawful };

    fn bound_cmp(&self, other: &ScalarValue) -> Option<Ordering> {
        compare_values(Some(self), Some(other))
    }
}
