//! The operators `+` and `-` of integers, which require that the result fits.
ghost use Rattle.vortex_scalar_views.specs.Numeric.{CanMake, Makes};
ghost use Rattle.vortex_scalar_views.specs.Views.{typed_primitive};
ghost use Rattle.vortex_scalar_views.specs.declared.numeric_operator.NumericOperator.TheVariants as operator;

use crate::primitive_scalar::PrimitiveScalar;
use std::ops::{Add, Sub};

/// The sum of integers of one primitive type, which has to hold it. Null where a side is null, of a
/// nullable type where a side's is. `checked_add` tests whether it fits.
impl<'a> Add for PrimitiveScalar<'a> {
    type Output = PrimitiveScalar<'a>;

    ghost can_add = { λ first second. CanMake operator.Add (typed_primitive first)
        (typed_primitive second) };

    ghost add_gives = { λ first second sum. Makes operator.Add (typed_primitive first)
        (typed_primitive second) (typed_primitive sum) };

    fn add(self, other: PrimitiveScalar<'a>) -> PrimitiveScalar<'a> {
        self.checked_add(&other).unwrap()
    }
}

/// The difference of integers of one primitive type, which has to hold it. Null where a side is
/// null, of a nullable type where a side's is. `checked_sub` tests whether it fits.
impl<'a> Sub for PrimitiveScalar<'a> {
    type Output = PrimitiveScalar<'a>;

    ghost can_sub = { λ first second. CanMake operator.Sub (typed_primitive first)
        (typed_primitive second) };

    ghost sub_gives = { λ first second difference. Makes operator.Sub (typed_primitive first)
        (typed_primitive second) (typed_primitive difference) };

    fn sub(self, other: PrimitiveScalar<'a>) -> PrimitiveScalar<'a> {
        self.checked_sub(&other).unwrap()
    }
}
