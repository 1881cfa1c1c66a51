//! A rule for NOT: its proofs are those of the predicate with its NOTs pushed inward.
ghost use Rattle.std.specs.Prelude.{◌≡◌, not, IfOk};
ghost use Rattle.vortex_model_rules.specs.PushNot.{opposite};
ghost use Rattle.vortex_scalar_core.specs.Scalar.{scalar_type, scalar_content};
ghost use Rattle.vortex_stats_bind.specs.Bound.{fixed, range_test, match_test};
ghost use Rattle.vortex_stats_expr.specs.Tree.{comparison_of, is_strict};
ghost use Rattle.vortex_stats_rules.specs.PushedIn.{pushed_in, negated};

use crate::joined::join_proofs;
use crate::meter::Meter;
use crate::negation::truth_in;
use crate::rewrite::{falsify_node, satisfiers};
use crate::rule::StatsRewriteRule;
use crate::stats::{compared, copied, out_of_box, truth};
use std::alloc::{AllocError, Global};
use vortex_model_rules::laws::no_rules_add_nothing;
use vortex_scalar_core::scalar::Scalar;
use vortex_stats_bind::bound::{
    BoundExpression, BoundNode, bound_and, bound_is_not_null, bound_is_null, bound_like,
    bound_literal, bound_not, bound_or,
};
use vortex_stats_expr::error::StatsError;
use vortex_stats_expr::operator::Comparison;
use vortex_stats_expr::options::{BetweenOptions, LikeOptions};
use vortex_stats_expr::scalar_fn::ScalarFnId;

/// Answers at each NOT the built-in proofs of the predicate with its NOTs pushed inward: those of
/// `NOT x > 5` are those of `x <= 5`. AND and OR go over into each other, as do IS NULL and IS NOT
/// NULL, LIKE and NOT LIKE, and the two truth literals; `NOT x BETWEEN a AND b` is `a > x` OR
/// `x > b`, where a strict end is compared by `>=`; and NOT of NOT is nothing. NOT of anything else
/// has no proof. Handed in alone, it makes a scan do what one of the predicate so rewritten does.
#[derive(Drop)]
pub struct PushNot;

impl StatsRewriteRule for PushNot {
    ghost use Rattle.vortex_stats_rules.specs.OfModel.{push_not_is_sound};

    ghost meaning = { λ _. push_not_is_sound };

    fn scalar_fn_id(&self) -> ScalarFnId {
        ScalarFnId::Not
    }

    fn falsify(
        &self,
        alloc: Global,
        expr: &BoundExpression,
    ) -> Result<Option<BoundExpression>, StatsError> {
        let pushed = pushed_in(alloc, expr)?;
        no_rules_add_nothing();
        let mut meter = Meter::new();
        let proof = falsify_node(alloc, &pushed, &[], &mut meter)?;
        Ok(out_of_box(proof))
    }

    fn satisfy(
        &self,
        alloc: Global,
        expr: &BoundExpression,
    ) -> Result<Option<BoundExpression>, StatsError> {
        let pushed = pushed_in(alloc, expr)?;
        let proofs = satisfiers(alloc, &pushed)?;
        let proof = join_proofs(alloc, proofs)?;
        Ok(out_of_box(proof))
    }
}

// The predicate with its NOTs pushed inward.
#[cycle(push)]
fn pushed_in(alloc: Global, e: &BoundExpression) -> Result<Box<BoundExpression>, AllocError>
    ensures { IfOk result (λ pushed. pushed.value ≡ pushed_in e.now) }
{
    match &e.node {
        BoundNode::And(x, y) => {
            let left = pushed_in(alloc, x)?;
            let right = pushed_in(alloc, y)?;
            bound_and(alloc, left, right)
        }
        BoundNode::Or(x, y) => {
            let left = pushed_in(alloc, x)?;
            let right = pushed_in(alloc, y)?;
            bound_or(alloc, left, right)
        }
        BoundNode::Not(x) => negated(alloc, x),
        BoundNode::Literal(_)
        | BoundNode::Column(_)
        | BoundNode::Compare(_, _, _)
        | BoundNode::IsNull(_)
        | BoundNode::IsNotNull(_)
        | BoundNode::IsNan(_)
        | BoundNode::Between(_, _, _, _)
        | BoundNode::Like(_, _, _)
        | BoundNode::RowCount
        | BoundNode::Stat(_, _, _) => copied(alloc, e),
    }
}

// Its NOT, pushed inward.
#[cycle(push)]
fn negated(alloc: Global, e: &BoundExpression) -> Result<Box<BoundExpression>, AllocError>
    ensures { IfOk result (λ pushed. pushed.value ≡ negated e.now) }
{
    match &e.node {
        BoundNode::Literal(value) => negate_literal(alloc, value),
        BoundNode::Compare(comparison, x, y) => compared(alloc, opposite(*comparison), x, y),
        BoundNode::And(x, y) => {
            let left = negated(alloc, x)?;
            let right = negated(alloc, y)?;
            bound_or(alloc, left, right)
        }
        BoundNode::Or(x, y) => {
            let left = negated(alloc, x)?;
            let right = negated(alloc, y)?;
            bound_and(alloc, left, right)
        }
        BoundNode::Not(x) => pushed_in(alloc, x),
        BoundNode::IsNull(x) => {
            let input = copied(alloc, x)?;
            bound_is_not_null(alloc, input)
        }
        BoundNode::IsNotNull(x) => {
            let input = copied(alloc, x)?;
            bound_is_null(alloc, input)
        }
        BoundNode::Between(x, lower, upper, options) => outside(alloc, x, lower, upper, *options),
        BoundNode::Like(x, pattern, options) => unlike(alloc, x, pattern, *options),
        BoundNode::Column(_)
        | BoundNode::IsNan(_)
        | BoundNode::RowCount
        | BoundNode::Stat(_, _, _) => {
            let input = copied(alloc, e)?;
            bound_not(alloc, input)
        }
    }
}

fn negate_literal(alloc: Global, value: &Scalar) -> Result<Box<BoundExpression>, AllocError>
    ensures { IfOk result (λ pushed. pushed.value
        ≡ negated (fixed (scalar_type value.now) (scalar_content value.now))) }
{
    match truth_in(value) {
        Some(flag) => truth(alloc, !flag),
        None => {
            let same = bound_literal(alloc, value.clone()?)?;
            bound_not(alloc, same)
        }
    }
}

// The comparison that is true of two values where this one is false.
fn opposite(comparison: Comparison) -> Comparison
    ensures { comparison_of result ≡ opposite (comparison_of comparison) }
{
    match comparison {
        Comparison::Eq => Comparison::NotEq,
        Comparison::NotEq => Comparison::Eq,
        Comparison::Gt => Comparison::Lte,
        Comparison::Gte => Comparison::Lt,
        Comparison::Lt => Comparison::Gte,
        Comparison::Lte => Comparison::Gt,
    }
}

// Outside the range: past one of its ends.
fn outside(
    alloc: Global,
    x: &BoundExpression,
    lower: &BoundExpression,
    upper: &BoundExpression,
    options: BetweenOptions,
) -> Result<Box<BoundExpression>, AllocError>
    ensures { IfOk result (λ pushed. pushed.value ≡ negated (range_test x.now lower.now upper.now
        (is_strict options.lower_strict) (is_strict options.upper_strict))) }
{
    let from = options.lower_strict.to_comparison();
    let to = options.upper_strict.to_comparison();
    let below = compared(alloc, opposite(from), lower, x)?;
    let above = compared(alloc, opposite(to), x, upper)?;
    bound_or(alloc, below, above)
}

fn unlike(
    alloc: Global,
    x: &BoundExpression,
    pattern: &BoundExpression,
    options: LikeOptions,
) -> Result<Box<BoundExpression>, AllocError>
    ensures { IfOk result (λ pushed. pushed.value
        ≡ match_test x.now pattern.now (not options.negated) options.case_insensitive) }
{
    let value = copied(alloc, x)?;
    let form = copied(alloc, pattern)?;
    let other = LikeOptions {
        negated: !options.negated,
        case_insensitive: options.case_insensitive,
    };
    bound_like(alloc, value, form, other)
}
