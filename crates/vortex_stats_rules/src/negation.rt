//! Two rules for NOT, which has no built-in proofs: examples of rules that keep their law.
ghost use Rattle.std.specs.Prelude.{◌≡◌};
ghost use Rattle.vortex_scalar_core.specs.Scalar.{scalar_content};
ghost use Rattle.vortex_stats_bind.specs.Bound.{expression_of};
ghost use Rattle.vortex_stats_rules.specs.NotLiterals.{negated_truth, truth_in};

use crate::rule::StatsRewriteRule;
use crate::stats::truth;
use std::alloc::Global;
use vortex_scalar_core::scalar::Scalar;
use vortex_stats_bind::bound::{BoundExpression, BoundNode};
use vortex_stats_expr::error::StatsError;
use vortex_stats_expr::scalar_fn::ScalarFnId;

/// Answers the literal false at each NOT: proofs that are never true.
#[derive(Drop)]
pub struct Never;

impl StatsRewriteRule for Never {
    ghost use Rattle.vortex_stats_rules.specs.Not.{never_is_sound};

    ghost meaning = { λ _. never_is_sound };

    fn scalar_fn_id(&self) -> ScalarFnId {
        ScalarFnId::Not
    }

    fn falsify(
        &self,
        alloc: Global,
        _expr: &BoundExpression,
    ) -> Result<Option<BoundExpression>, StatsError> {
        let proof = truth(alloc, false)?;
        Ok(Some(Box::into_inner(proof)))
    }

    fn satisfy(
        &self,
        alloc: Global,
        _expr: &BoundExpression,
    ) -> Result<Option<BoundExpression>, StatsError> {
        let proof = truth(alloc, false)?;
        Ok(Some(Box::into_inner(proof)))
    }
}

/// Answers at NOT of a truth literal: the literal where no row is to satisfy it, and its negation
/// where every row is. NOT of anything else has no proof.
#[derive(Drop)]
pub struct NotLiteral;

impl StatsRewriteRule for NotLiteral {
    ghost use Rattle.vortex_stats_rules.specs.Not.{not_literal_is_sound};

    ghost meaning = { λ _. not_literal_is_sound };

    fn scalar_fn_id(&self) -> ScalarFnId {
        ScalarFnId::Not
    }

    fn falsify(
        &self,
        alloc: Global,
        expr: &BoundExpression,
    ) -> Result<Option<BoundExpression>, StatsError> {
        let Some(value) = negated_truth(expr) else {
            return Ok(None);
        };
        let proof = truth(alloc, value)?;
        Ok(Some(Box::into_inner(proof)))
    }

    fn satisfy(
        &self,
        alloc: Global,
        expr: &BoundExpression,
    ) -> Result<Option<BoundExpression>, StatsError> {
        let Some(value) = negated_truth(expr) else {
            return Ok(None);
        };
        let proof = truth(alloc, !value)?;
        Ok(Some(Box::into_inner(proof)))
    }
}

// The boolean of which an expression is the NOT.
#[tactic(auto, using(crate::proofs::NotLiterals::negated_literals))]
fn negated_truth(e: &BoundExpression) -> Option<bool>
    ensures { result ≡ negated_truth (expression_of e.now) }
{
    match &e.node {
        BoundNode::Not(input) => truth_in(input.as_literal()?),
        BoundNode::Literal(_)
        | BoundNode::Column(_)
        | BoundNode::Compare(_, _, _)
        | BoundNode::And(_, _)
        | BoundNode::Or(_, _)
        | BoundNode::IsNull(_)
        | BoundNode::IsNotNull(_)
        | BoundNode::IsNan(_)
        | BoundNode::Between(_, _, _, _)
        | BoundNode::Like(_, _, _)
        | BoundNode::RowCount
        | BoundNode::Stat(_, _, _) => None,
    }
}

/// The boolean, where it is one.
#[tactic(auto, using(crate::proofs::NotLiterals::truth_said))]
pub(crate) fn truth_in(value: &Scalar) -> Option<bool>
    ensures { result ≡ truth_in (scalar_content value.now) }
{
    let value = value.value()?;
    value.as_bool()
}
