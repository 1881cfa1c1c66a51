//! Proofs over statistics: that no row satisfies a predicate, and that every row does.
//!
//! A proof is an expression whose placeholders are statistics of some rows. What it proves holds
//! where it evaluates to true, and nothing is known where it is false or null. The least and the
//! greatest value of a literal are the literal itself, and its null count is 1 or 0.
//!
//! | Predicate | true of no row where | true of every row where |
//! |---|---|---|
//! | literal `b` | `not b` | `b` |
//! | `x = y` | `min x > max y` or `min y > max x` | |
//! | `x != y` | `min x = max y` and `max x = min y` | |
//! | `x > y` | `max x <= min y` | |
//! | `x >= y` | `max x < min y` | |
//! | `x < y` | `min x >= max y` | |
//! | `x <= y` | `min x > max y` | |
//! | `p AND q` | the proof of `p` or that of `q` | |
//! | `p OR q` | the proof of `p` and that of `q` | |
//! | `x BETWEEN a AND b` | the proof of `a <= x AND x <= b` | |
//! | `x IS NULL` | `null_count x = 0` or `all_non_null x` | no row satisfies `x IS NOT NULL` |
//! | `x IS NOT NULL` | `null_count x = row_count` or `all_null x` | no row satisfies `x IS NULL` |
//! | `x IS NAN` | `nan_count x = 0` or `all_non_nan x` | `nan_count x = row_count` or `all_nan x` |
//! | `x LIKE` a string `t` | `min x > t` or `max x < t` | |
//! | `x LIKE` a prefix `t` | `min x >=` the raised `t`, or `max x < t` | |
//! | a null literal or one of another type, a column, NOT, a row count, a placeholder | | |
//!
//! Where a side of a comparison has no least and no greatest value there is no proof, and where it
//! may hold NaN the proof also asks that it holds none. A strict end of BETWEEN is compared by `<`.
//! IS NAN has a proof of floats alone. A LIKE has one where its pattern is a literal, and where it
//! is not negated and keeps case.
//!
//! At each node these built-in proofs come first and those of callers' rules after them, in the
//! order in which they are handed in; all are joined by OR, neighbours first. A node is handed to
//! the rules whose function is that of its root: for `falsify` the predicate itself, both sides of
//! each AND and OR among the nodes that are handed over, and of each BETWEEN its AND with both
//! comparisons; for `satisfy` the predicate alone.
ghost use Rattle.std.specs.Prelude.{◌≡◌, length, not, IfOk, IfErr, IfSome, OnOk, OnErr, chars, option_map, string_bytes};
ghost use Rattle.vortex_model.specs.LogicalType.{LogicalType};
ghost use Rattle.vortex_model_table.specs.Rewrite.{exact_text, beginning};
ghost use Rattle.vortex_model_rules.specs.Rules.{answer_of, fals, sat, handed_over};
ghost use Rattle.vortex_stats_bind.specs.Bound.{test, expression_of};
ghost use Rattle.vortex_stats_bind.specs.Bindings.{IsBoundTo};
ghost use Rattle.vortex_stats_expr.specs.Aggregate.{aggregate_of};
ghost use Rattle.vortex_stats_expr.specs.Tree.{comparison_of, is_strict};
ghost use Rattle.vortex_stats_rules.specs.Meanings.{rules_of, IsJudged};
ghost use Rattle.vortex_stats_rules.specs.Refusals.{IsPredicate, IsRefusal};
ghost use Rattle.vortex_stats_rules.specs.Table.{unboxed, all_unboxed, range_of, truth_proofs, falsifiers, satisfiers, comparison_proofs, is_comparable, may_be_nan, kept_from_nan, guarded, no_nan, refuted, low, high, counted, no_nulls, only_nulls, no_nans, only_nans, like_proof, shape_proof, outside};
ghost use Rattle.vortex_stats_rules.specs.Visits.{visited};

use crate::answers::{Claim, join_answers};
use crate::joined::{as_list, both_proofs, either_proof, one, two};
use crate::like_variant::{LikeVariant, like_variant};
use crate::meter::Meter;
use crate::negation::truth_in;
use crate::rule::StatsRewriteRuleRef;
use crate::stats::{
    Proof, compared, count, end_of_values, nan_count, null_count, out_of_box, placeholder, text,
    truth,
};
use std::alloc::{AllocError, Global};
use std::string::String;
use vortex_dtype_core::BufferString;
use vortex_scalar_builders::raising::raise;
use vortex_stats_bind::bound::{
    BoundExpression, BoundNode, bound_and, bound_compare, bound_or, bound_row_count,
};
use vortex_stats_expr::aggregate::AggregateFn;
use vortex_stats_expr::error::StatsError;
use vortex_stats_expr::operator::Comparison;
use vortex_stats_expr::options::{BetweenOptions, LikeOptions};

/// The proof that no row satisfies a predicate, as Vortex's `falsify`, and `None` where no rule
/// gives one. It is over rows of the type that the predicate is bound to. Rows whose statistics
/// make it true can be skipped. Without rules it takes time and memory linear in the predicate's
/// size.
///
/// `NotBoolean` where the expression is no predicate; `RuleFault` where a rule answers an error
/// other than `Memory`, or a proof that can't be used. A refused call counts no visit.
pub fn falsify(
    alloc: Global,
    e: &BoundExpression,
    rules: &[StatsRewriteRuleRef],
    meter: &mut Meter,
) -> Result<Option<BoundExpression>, StatsError>
    ensures predicate { (k : LogicalType) → IsBoundTo k e.now →
        OnOk result (IsPredicate k (expression_of e.now)) }
    ensures answer { (k : LogicalType) → IsBoundTo k e.now → IfOk result
        (λ proof. fals k (rules_of meaning rules.now) (expression_of e.now)
        ≡ answer_of (option_map expression_of proof)) }
    ensures bound { (k : LogicalType) → IsBoundTo k e.now →
        IfOk result (λ proof. IfSome proof (λ b. IsBoundTo k b)) }
    ensures refused { (k : LogicalType) → IsBoundTo k e.now → IfErr result
        (IsRefusal k (expression_of e.now)
        (fals k (rules_of meaning rules.now) (expression_of e.now))) }
    ensures visits { OnOk result
        (meter.new ≡ visited (length (handed_over (expression_of e.now))) meter.old) }
    ensures uncounted { OnErr result (meter.new ≡ meter.old) }
{
    if !e.is_boolean() {
        return Err(StatsError::NotBoolean);
    }
    let mut counted = *meter;
    let proof = falsify_node(alloc, e, rules, &mut counted)?;
    *meter = counted;
    Ok(out_of_box(proof))
}

/// The proof that every row satisfies a predicate, as Vortex's `satisfy`, and `None` where no rule
/// gives one. Rows whose statistics make it true can be taken whole. Errors as for `falsify`.
pub fn satisfy(
    alloc: Global,
    e: &BoundExpression,
    rules: &[StatsRewriteRuleRef],
    meter: &mut Meter,
) -> Result<Option<BoundExpression>, StatsError>
    ensures predicate { (k : LogicalType) → IsBoundTo k e.now →
        OnOk result (IsPredicate k (expression_of e.now)) }
    ensures answer { (k : LogicalType) → IsBoundTo k e.now → IfOk result
        (λ proof. sat k (rules_of meaning rules.now) (expression_of e.now)
        ≡ answer_of (option_map expression_of proof)) }
    ensures bound { (k : LogicalType) → IsBoundTo k e.now →
        IfOk result (λ proof. IfSome proof (λ b. IsBoundTo k b)) }
    ensures refused { (k : LogicalType) → IsBoundTo k e.now → IfErr result
        (IsRefusal k (expression_of e.now)
        (sat k (rules_of meaning rules.now) (expression_of e.now))) }
    ensures visits { OnOk result (meter.new ≡ visited 1 meter.old) }
    ensures uncounted { OnErr result (meter.new ≡ meter.old) }
{
    if !e.is_boolean() {
        return Err(StatsError::NotBoolean);
    }
    let mut counted = *meter;
    let proofs = satisfiers(alloc, e)?;
    let proof = join_answers(alloc, Claim::EveryRow, e, proofs, rules, &mut counted)?;
    *meter = counted;
    Ok(out_of_box(proof))
}

pub(crate) fn falsify_node(
    alloc: Global,
    e: &BoundExpression,
    rules: &[StatsRewriteRuleRef],
    meter: &mut Meter,
) -> Result<Option<Proof>, StatsError>
    ensures answer { (k : LogicalType) → IsBoundTo k e.now →
        IsJudged k result (fals k (rules_of meaning rules.now) (expression_of e.now)) }
    ensures visits { OnOk result
        (meter.new ≡ visited (length (handed_over (expression_of e.now))) meter.old) }
{
    match &e.node {
        BoundNode::And(x, y) => {
            let left = falsify_node(alloc, x, rules, meter)?;
            let right = falsify_node(alloc, y, rules, meter)?;
            let built_in = either_proof(alloc, left, right)?;
            let proofs = as_list(alloc, built_in)?;
            join_answers(alloc, Claim::NoRow, e, proofs, rules, meter)
        }
        BoundNode::Or(x, y) => {
            let left = falsify_node(alloc, x, rules, meter)?;
            let right = falsify_node(alloc, y, rules, meter)?;
            let built_in = both_proofs(alloc, left, right)?;
            let proofs = as_list(alloc, built_in)?;
            join_answers(alloc, Claim::NoRow, e, proofs, rules, meter)
        }
        BoundNode::Between(x, lower, upper, options) => {
            let range = compare_ends(alloc, x, lower, upper, *options)?;
            let built_in = falsify_node(alloc, &range, rules, meter)?;
            let proofs = as_list(alloc, built_in)?;
            join_answers(alloc, Claim::NoRow, e, proofs, rules, meter)
        }
        BoundNode::Literal(_)
        | BoundNode::Column(_)
        | BoundNode::Compare(_, _, _)
        | BoundNode::Not(_)
        | BoundNode::IsNull(_)
        | BoundNode::IsNotNull(_)
        | BoundNode::IsNan(_)
        | BoundNode::Like(_, _, _)
        | BoundNode::RowCount
        | BoundNode::Stat(_, _, _) => {
            let proofs = falsifiers(alloc, e)?;
            join_answers(alloc, Claim::NoRow, e, proofs, rules, meter)
        }
    }
}

// The AND of a BETWEEN: of the comparison of the lower end with the value, and of that of the value
// with the upper end.
fn compare_ends(
    alloc: Global,
    x: &BoundExpression,
    lower: &BoundExpression,
    upper: &BoundExpression,
    options: BetweenOptions,
) -> Result<Box<BoundExpression>, AllocError>
    ensures { IfOk result (λ range. range.value ≡ range_of x.now lower.now upper.now
        (is_strict options.lower_strict) (is_strict options.upper_strict)) }
{
    let from = options.lower_strict.to_comparison();
    let to = options.upper_strict.to_comparison();
    let above = compared(alloc, from, lower, x)?;
    let below = compared(alloc, to, x, upper)?;
    bound_and(alloc, above, below)
}

// The proofs that no row satisfies a predicate which the built-in rules give at its root, in their
// order. AND, OR and BETWEEN have none there: their proofs come from their parts.
fn falsifiers(alloc: Global, e: &BoundExpression) -> Result<Vec<Proof>, AllocError>
    ensures { IfOk result (λ proofs. all_unboxed proofs.items ≡ falsifiers e.now) }
{
    match &e.node {
        BoundNode::Literal(value) => truth_proofs(alloc, opposite(truth_in(value))),
        BoundNode::Compare(comparison, x, y) => comparison_proofs(alloc, *comparison, x, y),
        BoundNode::IsNull(x) => no_nulls(alloc, x),
        BoundNode::IsNotNull(x) => only_nulls(alloc, x),
        BoundNode::IsNan(x) => no_nans(alloc, x),
        BoundNode::Like(x, pattern, options) => {
            let proof = falsify_like(alloc, x, pattern, *options)?;
            as_list(alloc, proof)
        }
        BoundNode::Column(_)
        | BoundNode::And(_, _)
        | BoundNode::Or(_, _)
        | BoundNode::Not(_)
        | BoundNode::Between(_, _, _, _)
        | BoundNode::RowCount
        | BoundNode::Stat(_, _, _) => Ok(Vec::new(alloc)),
    }
}

// The proofs that every row satisfies a predicate, in the order of the built-in rules.
pub(crate) fn satisfiers(alloc: Global, e: &BoundExpression) -> Result<Vec<Proof>, AllocError>
    ensures { IfOk result (λ proofs. all_unboxed proofs.items ≡ satisfiers e.now) }
{
    match &e.node {
        BoundNode::Literal(value) => truth_proofs(alloc, truth_in(value)),
        BoundNode::IsNull(x) => only_nulls(alloc, x),
        BoundNode::IsNotNull(x) => no_nulls(alloc, x),
        BoundNode::IsNan(x) => only_nans(alloc, x),
        BoundNode::Column(_)
        | BoundNode::Compare(_, _, _)
        | BoundNode::And(_, _)
        | BoundNode::Or(_, _)
        | BoundNode::Not(_)
        | BoundNode::Between(_, _, _, _)
        | BoundNode::Like(_, _, _)
        | BoundNode::RowCount
        | BoundNode::Stat(_, _, _) => Ok(Vec::new(alloc)),
    }
}

fn opposite(value: Option<bool>) -> Option<bool>
    ensures { result ≡ option_map not value }
{
    Some(!value?)
}

// The literal of a boolean, where there is one, as Vortex's `LiteralStatsRewrite`.
fn truth_proofs(alloc: Global, value: Option<bool>) -> Result<Vec<Proof>, AllocError>
    ensures { IfOk result (λ proofs. all_unboxed proofs.items ≡ truth_proofs value) }
{
    match value {
        Some(value) => {
            let proof = truth(alloc, value)?;
            one(alloc, proof)
        }
        None => Ok(Vec::new(alloc)),
    }
}

// The proofs of a comparison: none, one, or for floats two. There are any only where each side is a
// literal or has a least and a greatest value. These don't count NaN, so where a side is of floats
// and no literal, a proof also asks that no value there is NaN: one by the count of NaN, Vortex's
// `BinaryNanCountStatsRewrite`, and one by the flag, `BinaryAllNonNanStatsRewrite`.
#[tactic(auto, using(crate::proofs::Comparisons::of_sides))]
fn comparison_proofs(
    alloc: Global,
    comparison: Comparison,
    x: &BoundExpression,
    y: &BoundExpression,
) -> Result<Vec<Proof>, AllocError>
    ensures { IfOk result (λ proofs. all_unboxed proofs.items
        ≡ comparison_proofs (comparison_of comparison) x.now y.now) }
{
    if !is_comparable(x) {
        return Ok(Vec::new(alloc));
    }
    if !is_comparable(y) {
        return Ok(Vec::new(alloc));
    }
    let left = may_be_nan(x);
    let right = may_be_nan(y);
    keep_from_nan(alloc, comparison, left, right, x, y)
}

// The proof, and where it may hold NaN twice. `left` and `right` are whether that side may.
fn keep_from_nan(
    alloc: Global,
    comparison: Comparison,
    left: bool,
    right: bool,
    x: &BoundExpression,
    y: &BoundExpression,
) -> Result<Vec<Proof>, AllocError>
    ensures { IfOk result (λ proofs. all_unboxed proofs.items ≡ kept_from_nan left right x.now y.now
        (refuted (comparison_of comparison) x.now y.now)) }
{
    if left || right {
        let by_count = guarded(alloc, NanGuard::Count, comparison, left, right, x, y)?;
        let by_flag = guarded(alloc, NanGuard::Flag, comparison, left, right, x, y)?;
        two(alloc, by_count, by_flag)
    } else {
        let proof = refuted(alloc, comparison, x, y)?;
        one(alloc, proof)
    }
}

fn is_comparable(x: &BoundExpression) -> bool
    ensures { result ≡ is_comparable x.now }
{
    x.as_literal().is_some() || x.has_bounds()
}

// A value of such an expression may be NaN, which no least or greatest value accounts for.
fn may_be_nan(x: &BoundExpression) -> bool
    ensures { result ≡ may_be_nan x.now }
{
    x.as_literal().is_none() && x.is_of_floats()
}

// The statistic by which a proof asks that no value is NaN.
#[derive(Clone, Copy)]
pub(crate) enum NanGuard {
    Count,
    Flag,
}

fn guarded(
    alloc: Global,
    guard: NanGuard,
    comparison: Comparison,
    left: bool,
    right: bool,
    x: &BoundExpression,
    y: &BoundExpression,
) -> Result<Proof, AllocError>
    ensures { IfOk result (λ all. all.value ≡ guarded guard left right x.now y.now
        (refuted (comparison_of comparison) x.now y.now)) }
{
    let proof = refuted(alloc, comparison, x, y)?;
    match (left, right) {
        (true, true) => {
            let first = no_nan(alloc, guard, x)?;
            let second = no_nan(alloc, guard, y)?;
            let both = bound_and(alloc, first, second)?;
            bound_and(alloc, both, proof)
        }
        (true, false) => bound_and(alloc, no_nan(alloc, guard, x)?, proof),
        (false, true) => bound_and(alloc, no_nan(alloc, guard, y)?, proof),
        (false, false) => Ok(proof),
    }
}

fn no_nan(alloc: Global, guard: NanGuard, x: &BoundExpression) -> Result<Proof, AllocError>
    ensures { IfOk result (λ proof. proof.value ≡ no_nan guard x.now) }
{
    match guard {
        NanGuard::Count => {
            let nans = placeholder(alloc, AggregateFn::NanCount, x)?;
            let none = count(alloc, 0)?;
            bound_compare(alloc, Comparison::Eq, nans, none)
        }
        NanGuard::Flag => placeholder(alloc, AggregateFn::AllNonNan, x),
    }
}

// The rows of the table that compare.
fn refuted(
    alloc: Global,
    comparison: Comparison,
    x: &BoundExpression,
    y: &BoundExpression,
) -> Result<Proof, AllocError>
    ensures { IfOk result
        (λ proof. proof.value ≡ refuted (comparison_of comparison) x.now y.now) }
{
    match comparison {
        Comparison::Eq => {
            let above = compare_least(alloc, Comparison::Gt, x, y)?;
            let below = compare_least(alloc, Comparison::Gt, y, x)?;
            bound_or(alloc, above, below)
        }
        Comparison::NotEq => {
            let low = compare_least(alloc, Comparison::Eq, x, y)?;
            let high = compare_greatest(alloc, Comparison::Eq, x, y)?;
            bound_and(alloc, low, high)
        }
        Comparison::Gt => compare_greatest(alloc, Comparison::Lte, x, y),
        Comparison::Gte => compare_greatest(alloc, Comparison::Lt, x, y),
        Comparison::Lt => compare_least(alloc, Comparison::Gte, x, y),
        Comparison::Lte => compare_least(alloc, Comparison::Gt, x, y),
    }
}

fn compare_least(
    alloc: Global,
    comparison: Comparison,
    x: &BoundExpression,
    y: &BoundExpression,
) -> Result<Proof, AllocError>
    ensures { IfOk result
        (λ proof. proof.value ≡ test (comparison_of comparison) (low x.now) (high y.now)) }
{
    let least = end_of_values(alloc, AggregateFn::Min, x)?;
    let greatest = end_of_values(alloc, AggregateFn::Max, y)?;
    bound_compare(alloc, comparison, least, greatest)
}

fn compare_greatest(
    alloc: Global,
    comparison: Comparison,
    x: &BoundExpression,
    y: &BoundExpression,
) -> Result<Proof, AllocError>
    ensures { IfOk result
        (λ proof. proof.value ≡ test (comparison_of comparison) (high x.now) (low y.now)) }
{
    let greatest = end_of_values(alloc, AggregateFn::Max, x)?;
    let least = end_of_values(alloc, AggregateFn::Min, y)?;
    bound_compare(alloc, comparison, greatest, least)
}

// No value is null. This falsifies IS NULL, by Vortex's `IsNullNullCountStatsRewrite` and
// `IsNullAllNonNullStatsRewrite`, and satisfies IS NOT NULL, by `IsNotNullNullCountStatsRewrite`
// and `IsNotNullAllNonNullStatsRewrite`.
fn no_nulls(alloc: Global, x: &BoundExpression) -> Result<Vec<Proof>, AllocError>
    ensures { IfOk result (λ proofs. all_unboxed proofs.items ≡ no_nulls x.now) }
{
    let nulls = null_count(alloc, x)?;
    let none = count(alloc, 0)?;
    counted(alloc, nulls, none, AggregateFn::AllNonNull, x)
}

/// Each value is null. This satisfies IS NULL, by Vortex's `IsNullNullCountStatsRewrite` and
/// `IsNullAllNullStatsRewrite`, and falsifies IS NOT NULL, by `IsNotNullNullCountStatsRewrite` and
/// `IsNotNullAllNullStatsRewrite`.
pub(crate) fn only_nulls(alloc: Global, x: &BoundExpression) -> Result<Vec<Proof>, AllocError>
    ensures { IfOk result (λ proofs. all_unboxed proofs.items ≡ only_nulls x.now) }
{
    let nulls = null_count(alloc, x)?;
    let all = bound_row_count(alloc)?;
    counted(alloc, nulls, all, AggregateFn::AllNull, x)
}

// No value is NaN, by Vortex's `IsNanNaNCountStatsRewrite` and `IsNanAllNonNanStatsRewrite`.
fn no_nans(alloc: Global, x: &BoundExpression) -> Result<Vec<Proof>, AllocError>
    ensures { IfOk result (λ proofs. all_unboxed proofs.items ≡ no_nans x.now) }
{
    if !x.is_of_floats() {
        return Ok(Vec::new(alloc));
    }
    let nans = nan_count(alloc, x)?;
    let none = count(alloc, 0)?;
    counted(alloc, nans, none, AggregateFn::AllNonNan, x)
}

// Each value is NaN, by Vortex's `IsNanNaNCountStatsRewrite` and `IsNanAllNanStatsRewrite`.
fn only_nans(alloc: Global, x: &BoundExpression) -> Result<Vec<Proof>, AllocError>
    ensures { IfOk result (λ proofs. all_unboxed proofs.items ≡ only_nans x.now) }
{
    if !x.is_of_floats() {
        return Ok(Vec::new(alloc));
    }
    let nans = nan_count(alloc, x)?;
    let all = bound_row_count(alloc)?;
    counted(alloc, nans, all, AggregateFn::AllNan, x)
}

// Two proofs, by a count that is this number of rows and by the flag for it, since a binder may
// know only one of them.
fn counted(
    alloc: Global,
    found: Proof,
    rows: Proof,
    flag: AggregateFn,
    x: &BoundExpression,
) -> Result<Vec<Proof>, AllocError>
    ensures { IfOk result (λ proofs. all_unboxed proofs.items
        ≡ counted found.value rows.value (aggregate_of flag) x.now) }
{
    let by_count = bound_compare(alloc, Comparison::Eq, found, rows)?;
    let by_flag = placeholder(alloc, flag, x)?;
    two(alloc, by_count, by_flag)
}

// Vortex's `LikeStatsRewrite`. There is none where a lone backslash ends the pattern, nor where it
// begins with a wildcard or a string that can't be raised.
fn falsify_like(
    alloc: Global,
    x: &BoundExpression,
    pattern: &BoundExpression,
    options: LikeOptions,
) -> Result<Option<Proof>, AllocError>
    ensures { IfOk result (λ proof. unboxed proof
        ≡ like_proof x.now pattern.now options.negated options.case_insensitive) }
{
    if options.negated || options.case_insensitive {
        return Ok(None);
    }
    let Some(pattern) = pattern.as_text() else {
        return Ok(None);
    };
    match like_variant(alloc, pattern.as_str())? {
        Some(LikeVariant::Exact(text)) => falsify_text(alloc, x, text),
        Some(LikeVariant::Prefix(prefix)) => falsify_prefix(alloc, x, prefix),
        None => Ok(None),
    }
}

fn falsify_text(
    alloc: Global,
    x: &BoundExpression,
    text: String,
) -> Result<Option<Proof>, AllocError>
    ensures { IfOk result
        (λ proof. unboxed proof ≡ shape_proof x.now (exact_text (chars (string_bytes text)))) }
{
    let above = BufferString::from_string(text)?;
    let below = above.clone()?;
    let proof = outside(alloc, Comparison::Gt, x, below, above)?;
    Ok(Some(proof))
}

// A string with a prefix is not below the prefix, and is below the raised one.
fn falsify_prefix(
    alloc: Global,
    x: &BoundExpression,
    prefix: String,
) -> Result<Option<Proof>, AllocError>
    ensures { IfOk result
        (λ proof. unboxed proof ≡ shape_proof x.now (beginning (chars (string_bytes prefix)))) }
{
    match raise(alloc, &prefix)? {
        Some(raised) => {
            let below = BufferString::from_string(prefix)?;
            let above = BufferString::from_string(raised)?;
            let proof = outside(alloc, Comparison::Gte, x, below, above)?;
            Ok(Some(proof))
        }
        None => Ok(None),
    }
}

// The least value compares with `above`, or the greatest is less than `below`.
fn outside(
    alloc: Global,
    comparison: Comparison,
    x: &BoundExpression,
    below: BufferString,
    above: BufferString,
) -> Result<Proof, AllocError>
    ensures { IfOk result
        (λ proof. proof.value ≡ outside x.now below above (comparison_of comparison)) }
{
    let least = end_of_values(alloc, AggregateFn::Min, x)?;
    let above = text(alloc, above)?;
    let least_above = bound_compare(alloc, comparison, least, above)?;
    let greatest = end_of_values(alloc, AggregateFn::Max, x)?;
    let below = text(alloc, below)?;
    let greatest_below = bound_compare(alloc, Comparison::Lt, greatest, below)?;
    bound_or(alloc, least_above, greatest_below)
}
