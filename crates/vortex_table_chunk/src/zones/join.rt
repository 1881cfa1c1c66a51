//! The statistics of two neighbouring groups of rows of a column as those of one.
ghost use Rattle.std.specs.Prelude.{◌≡◌, ◌<◌, ◌+◌, ◌+ℤ◌, ◌^◌, ◌∷◌, [], true, Option, IfOk, option_map};
ghost use Rattle.std.specs.Ordering.{is_eq};
ghost use Rattle.vortex_model.specs.LogicalType.{LogicalType, IntKind};
ghost use Rattle.vortex_model_table.specs.Statistics.{exact, least_value, greatest_value};
ghost use Rattle.vortex_model_table.specs.ZoneMap.{bound_among, sum_in, joined_total, joined_constant};
ghost use Rattle.vortex_dtype_ptype.specs.Numbers.{int_kind_in};
ghost use Rattle.vortex_dtype_ptype.specs.View.{number_kind_of};
ghost use Rattle.vortex_scalar_value.specs.Numbers.{integer_of};
ghost use Rattle.vortex_stats_bound.specs.Bounds.{union_lower, union_upper};
ghost use Rattle.vortex_stats_bound.specs.Precision.{precision_of, exact_value};
ghost use Rattle.vortex_stats_bound.specs.ValueOrder.{value_order};
ghost use Rattle.vortex_stats_array.specs.Alike.{raw_bound};
ghost use Rattle.vortex_stats_array.specs.Sums.{known_sum};
ghost use Rattle.vortex_stats_array.specs.Zones.{bound_content, known_constancy};
ghost use Rattle.vortex_table_chunk.specs.zones.Join.{or_absent, equal_values, BothCompare, IsJoinOf};
ghost use Rattle.vortex_table_chunk.specs.zones.Sums.{is_sum_of};
ghost use Rattle.vortex_table_chunk.specs.zones.Typed.{is_said_of};

use std::alloc::AllocError;
use vortex_dtype_ptype::ptype::PType;
use vortex_scalar_value::pvalue::PValue;
use vortex_scalar_value::scalar_value::ScalarValue;
use vortex_stats_array::array_stats::{ArrayStats, clone_bound};
use vortex_stats_bound::bound::{LowerBound, UpperBound};
use vortex_stats_bound::bound_ord::BoundOrd;
use vortex_stats_bound::precision::Precision;
use vortex_stats_bound::stat_bound::StatBound;

// The union of two bounds from below, if both are known and compare.
fn lower_union(
    left: Precision<ScalarValue>,
    right: Precision<ScalarValue>,
) -> Option<Precision<ScalarValue>>
    ensures { option_map precision_of result
        ≡ union_lower value_order (precision_of left) (precision_of right) }
{
    let union = LowerBound::lift(left).union(LowerBound::lift(right))?;
    Some(union.into_value())
}

fn upper_union(
    left: Precision<ScalarValue>,
    right: Precision<ScalarValue>,
) -> Option<Precision<ScalarValue>>
    ensures { option_map precision_of result
        ≡ union_upper value_order (precision_of left) (precision_of right) }
{
    let union = UpperBound::lift(left).union(UpperBound::lift(right))?;
    Some(union.into_value())
}

fn known_or_absent(bound: Option<Precision<ScalarValue>>) -> Precision<ScalarValue>
    ensures { precision_of result ≡ or_absent (option_map precision_of bound) }
{
    match bound {
        Some(bound) => bound,
        None => Precision::Absent,
    }
}

// A bound from below of the rows of both sides. It is missing where one side has none.
fn joined_low(
    left: &Precision<ScalarValue>,
    right: &Precision<ScalarValue>,
) -> Result<Precision<ScalarValue>, AllocError>
    ensures bound { IfOk result (λ low. BothCompare (bound_content left.now)
        (bound_content right.now) → bound_content low
        ≡ bound_among least_value (bound_content left.now ∷ bound_content right.now ∷ [])) }
    ensures kind { IfOk result (λ low. (k : LogicalType) → is_said_of k (raw_bound left.now) ≡ true
        → is_said_of k (raw_bound right.now) ≡ true → is_said_of k (raw_bound low) ≡ true) }
{
    let left = clone_bound(left)?;
    let right = clone_bound(right)?;
    Ok(known_or_absent(lower_union(left, right)))
}

// A bound from above of the rows of both sides.
fn joined_high(
    left: &Precision<ScalarValue>,
    right: &Precision<ScalarValue>,
) -> Result<Precision<ScalarValue>, AllocError>
    ensures bound { IfOk result (λ high. BothCompare (bound_content left.now)
        (bound_content right.now) → bound_content high
        ≡ bound_among greatest_value (bound_content left.now ∷ bound_content right.now ∷ [])) }
    ensures kind { IfOk result (λ high. (k : LogicalType) → is_said_of k (raw_bound left.now) ≡ true
        → is_said_of k (raw_bound right.now) ≡ true → is_said_of k (raw_bound high) ≡ true) }
{
    let left = clone_bound(left)?;
    let right = clone_bound(right)?;
    Ok(known_or_absent(upper_union(left, right)))
}

fn exact_in(bound: &Precision<ScalarValue>) -> Option<&ScalarValue>
    ensures { option_map (λ v. v.now) result ≡ exact_value (precision_of bound.now) }
{
    match bound {
        Precision::Exact(value) => Some(value),
        Precision::Inexact(_) => None,
        Precision::Absent => None,
    }
}

// Whether two values are equal, if they compare.
fn are_equal(left: &ScalarValue, right: &ScalarValue) -> Option<bool>
    ensures { result ≡ option_map is_eq (value_order left.now right.now) }
{
    match left.bound_cmp(right) {
        Some(order) => Some(order.is_eq()),
        None => None,
    }
}

// Whether two values are equal, if both are known and compare.
fn equal_values(left: Option<&ScalarValue>, right: Option<&ScalarValue>) -> Option<bool>
    ensures { result ≡ equal_values (option_map (λ v. v.now) left.entry)
        (option_map (λ v. v.now) right.entry) }
{
    match (left, right) {
        (Some(left), Some(right)) => are_equal(left, right),
        (Some(_), None) | (None, Some(_)) | (None, None) => None,
    }
}

// Whether two columns of one value each have the same value, as far as exact bounds show it.
fn have_one_value(left: &Precision<ScalarValue>, right: &Precision<ScalarValue>) -> Option<bool>
    ensures { BothCompare (bound_content left.now) (bound_content right.now)
        → known_constancy result ≡ joined_constant (exact true) (exact true)
        (bound_content left.now) (bound_content right.now) }
{
    equal_values(exact_in(left), exact_in(right))
}

#[tactic(auto, using(crate::proofs::zones::SumLemmas::numbers))]
fn sum_of(left: PValue, right: PValue) -> i128
    ensures { result ≡ integer_of left +ℤ integer_of right }
{
    left.get() + right.get()
}

// The number as one of an integer type that holds it.
fn of_kind(ptype: PType, number: i128) -> Option<PValue>
    ensures number { known_sum result ≡ sum_in (int_kind_in (number_kind_of ptype)) number }
    ensures kind { is_sum_of (int_kind_in (number_kind_of ptype)) result ≡ true }
{
    PValue::of(ptype, number)
}

// The sum as a number of the type, where that holds it.
fn sum_of_kind(ptype: PType, left: PValue, right: PValue) -> Option<PValue>
    ensures number { known_sum result
        ≡ sum_in (int_kind_in (number_kind_of ptype)) (integer_of left +ℤ integer_of right) }
    ensures kind { is_sum_of (int_kind_in (number_kind_of ptype)) result ≡ true }
{
    let sum = sum_of(left, right);
    of_kind(ptype, sum)
}

// The sum of both, where each is there and its type holds it.
#[tactic(auto, using(crate::proofs::zones::JoinLemmas::unknown_sums))]
fn joined_sum(left: Option<PValue>, right: Option<PValue>) -> Option<PValue>
    ensures number { (i : Option IntKind) → is_sum_of i left ≡ true
        → known_sum result ≡ joined_total i (known_sum left) (known_sum right) }
    ensures kind { (i : Option IntKind) → is_sum_of i left ≡ true → is_sum_of i result ≡ true }
{
    let left = left?;
    let right = right?;
    sum_of_kind(left.ptype(), left, right)
}

fn joined_constancy(left: &ArrayStats, right: &ArrayStats) -> Option<bool>
    ensures { BothCompare (bound_content left.now.min) (bound_content right.now.min)
        → known_constancy result ≡ joined_constant (known_constancy left.now.is_constant)
        (known_constancy right.now.is_constant) (bound_content left.now.min)
        (bound_content right.now.min) }
{
    match (left.is_constant, right.is_constant) {
        (Some(true), Some(true)) => have_one_value(&left.min, &right.min),
        (Some(false), Some(_)) => Some(false),
        (Some(false), None) => Some(false),
        (Some(true), Some(false)) => Some(false),
        (None, Some(false)) => Some(false),
        (Some(true), None) => None,
        (None, Some(true)) => None,
        (None, None) => None,
    }
}

/// The statistics of the rows on the left and of those after them, as one group. It takes time in
/// the order of the bounds' lengths, and none in that of the rows.
///
/// A bound is missing where one side has none. The sum is missing where its type doesn't hold it,
/// and the constancy where both sides are constant and their values aren't known.
pub fn join_stats(left: &ArrayStats, right: &ArrayStats) -> Result<ArrayStats, AllocError>
    requires nulls { left.now.null_count + right.now.null_count < 2 ^ 64 }
    requires rows { left.now.row_count + right.now.row_count < 2 ^ 64 }
    ensures { IfOk result (λ both. IsJoinOf left.now right.now both) }
{
    let min = joined_low(&left.min, &right.min)?;
    let max = joined_high(&left.max, &right.max)?;
    Ok(ArrayStats {
        min,
        max,
        null_count: left.null_count + right.null_count,
        row_count: left.row_count + right.row_count,
        sum: joined_sum(left.sum, right.sum),
        is_constant: joined_constancy(left, right),
    })
}
