//! What rules answer at a node, joined with the built-in proofs.
ghost use Rattle.std.specs.Prelude.{◌≡◌, ◌++◌, map, OnOk, MatchResult};
ghost use Rattle.vortex_model.specs.LogicalType.{LogicalType};
ghost use Rattle.vortex_model_rules.specs.Rules.{Answer, proof, joined_answers, judged};
ghost use Rattle.vortex_stats_bind.specs.Bound.{expression_of};
ghost use Rattle.vortex_stats_bind.specs.Bindings.{IsBoundTo};
ghost use Rattle.vortex_stats_rules.specs.Meanings.{rules_of, IsAnswer, AreProofs, expressions_in, IsFault, IsJudged, AreJoined, IsPushed, asked_of, answers_to, is_usable};
ghost use Rattle.vortex_stats_rules.specs.Visits.{visited};

use crate::joined::join_proofs;
use crate::meter::Meter;
use crate::rule::StatsRewriteRuleRef;
use crate::stats::Proof;
use std::alloc::Global;
use vortex_stats_bind::bound::BoundExpression;
use vortex_stats_expr::error::StatsError;

/// What a proof claims of rows: that none satisfies a predicate, or that each does.
#[derive(Clone, Copy)]
pub(crate) enum Claim {
    NoRow,
    EveryRow,
}

/// The proof at a node of which the built-in rules answer these, followed by those of the rules.
pub(crate) fn join_answers(
    alloc: Global,
    claim: Claim,
    e: &BoundExpression,
    built_in: Vec<Proof>,
    rules: &[StatsRewriteRuleRef],
    meter: &mut Meter,
) -> Result<Option<Proof>, StatsError>
    ensures answer { (k : LogicalType) → IsBoundTo k e.now → AreProofs k built_in.items →
        IsJudged k result (joined_answers (map proof (expressions_in built_in.items)
        ++ answers_to claim k (expression_of e.now) (rules_of meaning rules.now))) }
    ensures visits { OnOk result (meter.new ≡ visited 1 meter.old) }
{
    meter.visit();
    let proofs = push_answers(alloc, claim, e, built_in, rules)?;
    let proof = join_proofs(alloc, proofs)?;
    Ok(proof)
}

// The proofs of the rules after these.
fn push_answers(
    alloc: Global,
    claim: Claim,
    e: &BoundExpression,
    built_in: Vec<Proof>,
    rules: &[StatsRewriteRuleRef],
) -> Result<Vec<Proof>, StatsError>
    ensures { (k : LogicalType) → IsBoundTo k e.now → AreProofs k built_in.items →
        MatchResult result (λ proofs. AreJoined k proofs.items (joined_answers
        (map proof (expressions_in built_in.items)
        ++ answers_to claim k (expression_of e.now) (rules_of meaning rules.now))))
        (λ error. IsFault error (joined_answers (map proof (expressions_in built_in.items)
        ++ answers_to claim k (expression_of e.now) (rules_of meaning rules.now)))) }
{
    let mut proofs = built_in;
    for rule in rules {
        push_answer(alloc, claim, e, rule, &mut proofs)?;
    }
    Ok(proofs)
}

// The proof of one rule after these, where it answers one.
fn push_answer(
    alloc: Global,
    claim: Claim,
    e: &BoundExpression,
    rule: &StatsRewriteRuleRef,
    proofs: &mut Vec<Proof>,
) -> Result<(), StatsError>
    ensures { (k : LogicalType) → IsBoundTo k e.now → AreProofs k proofs.old.items →
        MatchResult result (λ _. IsPushed k proofs.old.items proofs.new.items
        (asked_of claim k (expression_of e.now) (meaning rule.now).rule))
        (λ error. IsFault error
        (asked_of claim k (expression_of e.now) (meaning rule.now).rule)) }
{
    let answer = ask(alloc, claim, e, rule)?;
    match answer {
        Some(proof) => {
            proofs.push(proof)?;
            Ok(())
        }
        None => Ok(()),
    }
}

// What a rule answers at a node, which is handed to it where the function of its root is the
// rule's.
#[tactic(auto, using(crate::proofs::Roots::handed))]
fn ask(
    alloc: Global,
    claim: Claim,
    e: &BoundExpression,
    rule: &StatsRewriteRuleRef,
) -> Result<Option<Proof>, StatsError>
    ensures { (k : LogicalType) → IsBoundTo k e.now → IsJudged k result
        (asked_of claim k (expression_of e.now) (meaning rule.now).rule) }
{
    if rule.scalar_fn_id() != e.scalar_fn_id() {
        return Ok(None);
    }
    match claim {
        Claim::NoRow => judge(alloc, rule.falsify(alloc, e)),
        Claim::EveryRow => judge(alloc, rule.satisfy(alloc, e)),
    }
}

// A proof that may not be used is a fault, as is any error but `Memory`.
fn judge(
    alloc: Global,
    answer: Result<Option<BoundExpression>, StatsError>,
) -> Result<Option<Proof>, StatsError>
    ensures { (k : LogicalType) (a : Answer) → IsAnswer k answer a →
        IsJudged k result (judged k a) }
{
    match answer {
        Ok(Some(proof)) => {
            if !is_usable(&proof) {
                return Err(StatsError::RuleFault);
            }
            let proof = Box::new(alloc, proof)?;
            Ok(Some(proof))
        }
        Ok(None) => Ok(None),
        Err(StatsError::Memory) => Err(StatsError::Memory),
        Err(_) => Err(StatsError::RuleFault),
    }
}

// A proof may be used where it has a truth, is boolean, and reads no column outside placeholders.
fn is_usable(p: &BoundExpression) -> bool
    ensures { result ≡ is_usable p.now }
{
    p.has_truth() && p.is_boolean() && !p.reads_columns()
}
