//! Laws of casts and comparisons at run time. Each function makes the calls of its law and returns
//! their results, and its clauses are the law.
ghost use Rattle.std.specs.Prelude.{◌≡◌, ◌≢◌, ◌↔◌, ◌&&◌, true, false, Some, IfOk, IfErr};
ghost use Rattle.std.specs.List.{fold};
ghost use Rattle.std.specs.declared.cmp.Ordering.TheVariants.{Equal};
ghost use Rattle.vortex_model.specs.LogicalType.{nullable, with_nullability, EqualIgnoringNullability};
ghost use Rattle.vortex_model.specs.Convert.{converts};
ghost use Rattle.vortex_model.specs.Order.{scalar_cmp};
ghost use Rattle.vortex_dtype_core.specs.View.{type_of};
ghost use Rattle.vortex_scalar_value.specs.declared.error.ScalarError.TheVariants.{Memory, NotConvertible};
ghost use Rattle.vortex_scalar_ops.specs.Equality.{has_variant};
ghost use Rattle.vortex_scalar_core.specs.Equality.{eq_scalar, scalar_writes};
ghost use Rattle.vortex_scalar_core.specs.Scalar.{scalar_type, scalar_raw, scalar_content};
ghost use Rattle.vortex_scalar_convert.specs.Laws.{GivenByCast};

use crate::laws::tied_values_are_equal;
use std::alloc::Global;
use std::cmp::Ordering;
use std::hash::{Hash, Hasher};
use vortex_dtype_core::dtype::DType;
use vortex_model::laws::{conversions_compose, tests_of_conversion_are_right};
use vortex_scalar_core::scalar::Scalar;
use vortex_scalar_value::error::ScalarError;

/// The scalar cast to `target`, and that cast back, which equals the scalar. Only the first cast
/// can be refused by `NotConvertible`.
#[tactic(auto, using(crate::proofs::Told::back_again))]
pub fn there_and_back(
    alloc: Global,
    scalar: &Scalar,
    target: &DType,
) -> Result<(Scalar, Scalar), ScalarError>
    ensures there { IfOk result (λ p. GivenByCast scalar.now (type_of target.now) p.0) }
    ensures back { IfOk result (λ p. GivenByCast p.0 (scalar_type scalar.now) p.1) }
    ensures value { IfOk result (λ p. scalar_raw p.1 ≡ scalar_raw scalar.now) }
    ensures refused { IfErr result (λ e. e ≢ Memory → (e ≡ NotConvertible)
        × (converts (scalar_type scalar.now) (type_of target.now) (scalar_content scalar.now)
        ≡ false)) }
{
    tests_of_conversion_are_right();
    // Proves that both are valid for the type.
    let _ = scalar.value();
    let there = scalar.cast(alloc, target)?;
    let back = there.cast(alloc, scalar.dtype())?;
    let _ = back.value();
    Ok((there, back))
}

/// The scalar cast to `middle`, that cast to `target`, and the scalar cast to `target` at once,
/// which equals the second. Only the first two casts can be refused by `NotConvertible`.
#[tactic(auto, using(crate::proofs::Told::back_again))]
pub fn by_way_of(
    alloc: Global,
    scalar: &Scalar,
    middle: &DType,
    target: &DType,
) -> Result<(Scalar, Scalar, Scalar), ScalarError>
    ensures first { IfOk result (λ p. GivenByCast scalar.now (type_of middle.now) p.0) }
    ensures second { IfOk result (λ p. GivenByCast p.0 (type_of target.now) p.1) }
    ensures at_once { IfOk result (λ p. GivenByCast scalar.now (type_of target.now) p.2) }
    ensures same { IfOk result (λ p. scalar_raw p.2 ≡ scalar_raw p.1) }
    ensures refused { IfErr result (λ e. e ≢ Memory → (e ≡ NotConvertible)
        × ((converts (scalar_type scalar.now) (type_of middle.now) (scalar_content scalar.now)
        && converts (type_of middle.now) (type_of target.now) (scalar_content scalar.now))
        ≡ false)) }
{
    conversions_compose();
    tests_of_conversion_are_right();
    let first = scalar.cast(alloc, middle)?;
    let second = first.cast(alloc, target)?;
    let at_once = scalar.cast(alloc, target)?;
    // Proves that both are valid for the target.
    let _ = second.value();
    let _ = at_once.value();
    Ok((first, second, at_once))
}

/// The scalar made nullable, and that cast back to its type, which equals the scalar. Only memory
/// can run out.
#[tactic(auto, using(crate::proofs::Told::back_again))]
pub fn nullable_and_back(alloc: Global, scalar: &Scalar) -> Result<(Scalar, Scalar), ScalarError>
    ensures dtype { IfOk result
        (λ p. scalar_type p.0 ≡ with_nullability nullable (scalar_type scalar.now)) }
    ensures kept { IfOk result (λ p. scalar_raw p.0 ≡ scalar_raw scalar.now) }
    ensures back { IfOk result (λ p. GivenByCast p.0 (scalar_type scalar.now) p.1) }
    ensures value { IfOk result (λ p. scalar_raw p.1 ≡ scalar_raw scalar.now) }
    ensures refused { IfErr result (λ e. e ≡ Memory) }
{
    tests_of_conversion_are_right();
    // Proves that the scalar is valid for its type.
    let _ = scalar.value();
    let copy = scalar.clone()?;
    let nullable = copy.into_nullable()?;
    let back = nullable.cast(alloc, scalar.dtype())?;
    let _ = back.value();
    Ok((nullable, back))
}

/// The results of `partial_cmp` and `eq_ignore_nullability`. For a type without `Variant` at any
/// level the second is true exactly where the first is `Equal`.
pub fn order_and_equality(left: &Scalar, right: &Scalar) -> (Option<Ordering>, bool)
    ensures order { result.0 ≡ scalar_cmp (scalar_type left.now) (scalar_content left.now)
        (scalar_type right.now) (scalar_content right.now) }
    ensures equality { result.1 ≡ eq_scalar left.now right.now }
    ensures tied { has_variant (scalar_type left.now) ≡ false
        → (result.0 ≡ Some Equal) ↔ (result.1 ≡ true) }
{
    tied_values_are_equal();
    // Proves that it is valid for its type.
    let _ = left.value();
    (left.partial_cmp(right), left.eq_ignore_nullability(right))
}

/// Hashes each scalar by a hasher of its own, and returns the result of `eq_ignore_nullability`.
/// Equal scalars leave equal hashers equal.
pub fn equality_and_hashes<H: Hasher>(
    left: &Scalar,
    right: &Scalar,
    of_left: &mut H,
    of_right: &mut H,
) -> bool
    ensures equality { result ≡ eq_scalar left.now right.now }
    ensures left { of_left.new ≡ fold H.write of_left.old (scalar_writes left.now) }
    ensures right { of_right.new ≡ fold H.write of_right.old (scalar_writes right.now) }
    ensures alike { result ≡ true → of_left.old ≡ of_right.old → of_left.new ≡ of_right.new }
{
    left.hash(of_left);
    right.hash(of_right);
    left.eq_ignore_nullability(right)
}

/// Both scalars cast to `target`, and the results of `order_and_equality` before and after, which
/// are equal where the types of both are equal up to nullability.
pub fn casts_of_both(
    alloc: Global,
    left: &Scalar,
    right: &Scalar,
    target: &DType,
) -> Result<
    (
        Scalar,
        Scalar,
        (Option<Ordering>, bool),
        (Option<Ordering>, bool),
    ),
    ScalarError,
>
    ensures left { IfOk result (λ p. GivenByCast left.now (type_of target.now) p.0) }
    ensures right { IfOk result (λ p. GivenByCast right.now (type_of target.now) p.1) }
    ensures order_before { IfOk result
        (λ p. (p.2).0 ≡ scalar_cmp (scalar_type left.now) (scalar_content left.now)
        (scalar_type right.now) (scalar_content right.now)) }
    ensures equality_before { IfOk result (λ p. (p.2).1 ≡ eq_scalar left.now right.now) }
    ensures order_kept { IfOk result
        (λ p. EqualIgnoringNullability (scalar_type left.now) (scalar_type right.now)
        → (p.3).0 ≡ (p.2).0) }
    ensures equality_kept { IfOk result
        (λ p. EqualIgnoringNullability (scalar_type left.now) (scalar_type right.now)
        → (p.3).1 ≡ (p.2).1) }
    ensures order_after { IfOk result (λ p. (p.3).0 ≡ scalar_cmp (scalar_type p.0)
        (scalar_content p.0) (scalar_type p.1) (scalar_content p.1)) }
    ensures equality_after { IfOk result (λ p. (p.3).1 ≡ eq_scalar p.0 p.1) }
    ensures refused { IfErr result (λ e. e ≢ Memory → (e ≡ NotConvertible)
        × ((converts (scalar_type left.now) (type_of target.now) (scalar_content left.now)
        && converts (scalar_type right.now) (type_of target.now) (scalar_content right.now))
        ≡ false)) }
{
    let of_left = left.cast(alloc, target)?;
    let of_right = right.cast(alloc, target)?;
    let before = order_and_equality(left, right);
    let after = order_and_equality(&of_left, &of_right);
    Ok((of_left, of_right, before, after))
}
