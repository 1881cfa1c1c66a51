//! The two proofs of a predicate that a scan accepts, by the built-in rules and those of a caller.
ghost use Rattle.std.specs.Prelude.{◌≡◌, Bool, true, IfOk, IfErr, option_map};
ghost use Rattle.vortex_model.specs.LogicalType.{LogicalType};
ghost use Rattle.vortex_model_table.specs.Expression.{Expression};
ghost use Rattle.vortex_model_rules.specs.Rules.{answer_of, is_fault, fals, sat};
ghost use Rattle.vortex_stats_bind.specs.Bindings.{IsBoundProof};
ghost use Rattle.vortex_stats_bind.specs.Bound.{expression_of};
ghost use Rattle.vortex_stats_rules.specs.Meanings.{rules_of};
ghost use Rattle.vortex_table_plan.specs.Rules.{IsAccepted, IsOfRules, IsRuleError};

use std::alloc::Global;
use vortex_stats_bind::bound::BoundExpression;
use vortex_stats_expr::error::StatsError;
use vortex_stats_rules::meter::Meter;
use vortex_stats_rules::rewrite::{falsify, satisfy};
use vortex_stats_rules::rule::StatsRewriteRuleRef;
use vortex_table_schema::error::TableError;

// A rewrite of a predicate that a scan accepts fails as memory runs out, or as a rule is at fault.
pub(crate) fn rule_error(error: StatsError) -> TableError
    requires { IsOfRules true error }
    ensures { (faulty : Bool) → IsOfRules faulty error → IsRuleError faulty result }
{
    match error {
        StatsError::Memory => TableError::Memory,
        StatsError::RuleFault => TableError::RuleFault,
        _ => unreachable!(),
    }
}

/// The proof that no row satisfies a predicate.
pub(crate) fn falsify_with(
    alloc: Global,
    predicate: &BoundExpression,
    rules: &[StatsRewriteRuleRef],
) -> Result<Option<BoundExpression>, TableError>
    requires { (k : LogicalType) × (e : Expression) × IsAccepted k e predicate.now }
    ensures proof { (k : LogicalType) (e : Expression) → IsAccepted k e predicate.now →
        IfOk result (λ proof. fals k (rules_of meaning rules.now) e
        ≡ answer_of (option_map expression_of proof)) }
    ensures bound { (k : LogicalType) (e : Expression) → IsAccepted k e predicate.now →
        IfOk result (λ proof. IsBoundProof k (option_map expression_of proof) proof) }
    ensures refused { (k : LogicalType) (e : Expression) → IsAccepted k e predicate.now →
        IfErr result (IsRuleError (is_fault (fals k (rules_of meaning rules.now) e))) }
{
    let mut meter = Meter::new();
    match falsify(alloc, predicate, rules, &mut meter) {
        Ok(proof) => Ok(proof),
        Err(error) => Err(rule_error(error)),
    }
}

/// The proof that every row satisfies a predicate.
pub(crate) fn satisfy_with(
    alloc: Global,
    predicate: &BoundExpression,
    rules: &[StatsRewriteRuleRef],
) -> Result<Option<BoundExpression>, TableError>
    requires { (k : LogicalType) × (e : Expression) × IsAccepted k e predicate.now }
    ensures proof { (k : LogicalType) (e : Expression) → IsAccepted k e predicate.now →
        IfOk result (λ proof. sat k (rules_of meaning rules.now) e
        ≡ answer_of (option_map expression_of proof)) }
    ensures bound { (k : LogicalType) (e : Expression) → IsAccepted k e predicate.now →
        IfOk result (λ proof. IsBoundProof k (option_map expression_of proof) proof) }
    ensures refused { (k : LogicalType) (e : Expression) → IsAccepted k e predicate.now →
        IfErr result (IsRuleError (is_fault (sat k (rules_of meaning rules.now) e))) }
{
    let mut meter = Meter::new();
    match satisfy(alloc, predicate, rules, &mut meter) {
        Ok(proof) => Ok(proof),
        Err(error) => Err(rule_error(error)),
    }
}
