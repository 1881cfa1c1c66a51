//! A rule for comparisons: a side of nulls alone leaves nothing to select.
ghost use Rattle.std.specs.Prelude.{◌≡◌, IfOk};
ghost use Rattle.vortex_stats_rules.specs.Table.{unboxed, only_null, null_side};

use crate::joined::{either_proof, join_proofs};
use crate::rewrite::only_nulls;
use crate::rule::StatsRewriteRule;
use crate::stats::{Proof, out_of_box, truth};
use std::alloc::{AllocError, Global};
use vortex_stats_bind::bound::{BoundExpression, BoundNode};
use vortex_stats_expr::error::StatsError;
use vortex_stats_expr::scalar_fn::ScalarFnId;

/// Answers at each comparison, where no row is to satisfy it, that one of its sides is null at each
/// row: `null_count x = row_count` or `all_null x`, as the built-in rule of IS NOT NULL has it. A
/// literal null is so without a statistic, and a literal with a value never. A column of nulls has
/// no least and no greatest value, so that the built-in proofs can't prove it. It has no proof
/// that every row satisfies a comparison, and none of AND and OR.
#[derive(Drop)]
pub struct NullComparison;

impl StatsRewriteRule for NullComparison {
    ghost use Rattle.vortex_stats_rules.specs.OfModel.{null_comparison_is_sound};

    ghost meaning = { λ _. null_comparison_is_sound };

    fn scalar_fn_id(&self) -> ScalarFnId {
        ScalarFnId::Binary
    }

    fn falsify(
        &self,
        alloc: Global,
        expr: &BoundExpression,
    ) -> Result<Option<BoundExpression>, StatsError> {
        let proof = null_side(alloc, expr)?;
        Ok(out_of_box(proof))
    }

    fn satisfy(
        &self,
        _alloc: Global,
        _expr: &BoundExpression,
    ) -> Result<Option<BoundExpression>, StatsError> {
        Ok(None)
    }
}

// At a comparison, that one of its sides is null at each row.
fn null_side(alloc: Global, e: &BoundExpression) -> Result<Option<Proof>, AllocError>
    ensures { IfOk result (λ proof. unboxed proof ≡ null_side e.now) }
{
    match &e.node {
        BoundNode::Compare(_, x, y) => {
            let left = only_null(alloc, x)?;
            let right = only_null(alloc, y)?;
            either_proof(alloc, left, right)
        }
        BoundNode::Literal(_)
        | BoundNode::Column(_)
        | BoundNode::And(_, _)
        | BoundNode::Or(_, _)
        | BoundNode::Not(_)
        | BoundNode::IsNull(_)
        | BoundNode::IsNotNull(_)
        | BoundNode::IsNan(_)
        | BoundNode::Between(_, _, _, _)
        | BoundNode::Like(_, _, _)
        | BoundNode::RowCount
        | BoundNode::Stat(_, _, _) => Ok(None),
    }
}

// The proof that the expression is null at each row: that no row satisfies IS NOT NULL of it.
#[tactic(auto, using(crate::proofs::OfLiterals::null_sides))]
fn only_null(alloc: Global, x: &BoundExpression) -> Result<Option<Proof>, AllocError>
    ensures { IfOk result (λ proof. unboxed proof ≡ only_null x.now) }
{
    match x.as_literal() {
        Some(value) => {
            if value.is_null() {
                let proof = truth(alloc, true)?;
                Ok(Some(proof))
            } else {
                Ok(None)
            }
        }
        None => {
            let proofs = only_nulls(alloc, x)?;
            join_proofs(alloc, proofs)
        }
    }
}
