//! The preparation of a scan: its tests, the bound predicate, the two proofs and the cut.
ghost use Rattle.std.specs.Prelude.{◌≡◌, None, OnOk, IfOk, IfErr, map, option_map};
ghost use Rattle.vortex_model_table.specs.Expression.{HasFormedLiterals};
ghost use Rattle.vortex_model_table.specs.Rewrite.{falsifier, satisfier};
ghost use Rattle.vortex_model.specs.Refusal.{or_else};
ghost use Rattle.vortex_model_table.specs.Command.{paths_fault, predicate_fault};
ghost use Rattle.vortex_model_rules.specs.Rules.{answer_of, fals, sat};
ghost use Rattle.vortex_dtype_core.specs.View.{type_of};
ghost use Rattle.vortex_dtype_path.specs.View.{steps_of};
ghost use Rattle.vortex_stats_bind.specs.Bound.{expression_of};
ghost use Rattle.vortex_stats_rules.specs.Meanings.{rules_of};
ghost use Rattle.vortex_table_schema.specs.Cut.{paths_of};
ghost use Rattle.vortex_table_schema.specs.Error.{Explains};
ghost use Rattle.vortex_table_plan.specs.Prepared.{IsPreparedFor};
ghost use Rattle.vortex_table_plan.specs.Rules.{IsAccepted, have_fault, ExplainsWith};

use crate::bind::bind;
use crate::plan::ScanPlan;
use crate::rules::{falsify_with, satisfy_with};
use std::alloc::Global;
use vortex_dtype_core::dtype::DType;
use vortex_dtype_path::path::FieldPath;
use vortex_model_rules::laws::no_rules_add_nothing;
use vortex_stats_bind::bound::BoundExpression;
use vortex_stats_expr::expression::Expression;
use vortex_stats_rules::rule::StatsRewriteRuleRef;
use vortex_table_schema::check::check_paths;
use vortex_table_schema::cut::make_cut;
use vortex_table_schema::error::TableError;

// Tests the paths and then the predicate against the type, and binds the predicate.
fn check_scan(
    alloc: Global,
    dtype: &DType,
    paths: &[FieldPath],
    predicate: &Expression,
) -> Result<BoundExpression, TableError>
    ensures bound { IfOk result
        (λ bound. IsAccepted (type_of dtype.now) predicate.now bound) }
    ensures formed { OnOk result (HasFormedLiterals predicate.now) }
    ensures accepted { OnOk result
        (or_else (paths_fault 0 (type_of dtype.now) (map steps_of paths.now))
        (predicate_fault (type_of dtype.now) predicate.now) ≡ None) }
    ensures refused { IfErr result (λ e. Explains ⊥
        (or_else (paths_fault 0 (type_of dtype.now) (map steps_of paths.now))
        (predicate_fault (type_of dtype.now) predicate.now)) e) }
{
    check_paths(alloc, dtype, paths)?;
    let bound = bind(alloc, predicate, dtype)?;
    Ok(bound)
}

/// As `prepare`, with proofs that are made with these rules beside the built-in ones. The last
/// reason for a refusal is `RuleFault`.
#[inline(never)]
#[tactic(auto, using(crate::proofs::Refusals::refusals))]
pub fn prepare_with(
    alloc: Global,
    dtype: &DType,
    paths: &[FieldPath],
    predicate: &Expression,
    rules: &[StatsRewriteRuleRef],
) -> Result<ScanPlan, TableError>
    ensures prepared { IfOk result
        (λ made. IsPreparedFor (type_of dtype.now) (paths_of paths.now) predicate.now made) }
    ensures falsifier { IfOk result (λ made.
        fals (type_of dtype.now) (rules_of meaning rules.now) predicate.now
        ≡ answer_of (option_map expression_of made.falsifier)) }
    ensures satisfier { IfOk result (λ made.
        sat (type_of dtype.now) (rules_of meaning rules.now) predicate.now
        ≡ answer_of (option_map expression_of made.satisfier)) }
    ensures faultless { OnOk result (predicate_fault (type_of dtype.now) predicate.now ≡ None) }
    ensures formed { OnOk result (HasFormedLiterals predicate.now) }
    ensures accepted { OnOk result
        (or_else (paths_fault 0 (type_of dtype.now) (map steps_of paths.now))
        (predicate_fault (type_of dtype.now) predicate.now) ≡ None) }
    ensures refused { IfErr result (ExplainsWith
        (or_else (paths_fault 0 (type_of dtype.now) (map steps_of paths.now))
        (predicate_fault (type_of dtype.now) predicate.now))
        (have_fault (type_of dtype.now) (rules_of meaning rules.now) predicate.now)) }
{
    let bound = check_scan(alloc, dtype, paths, predicate)?;
    let falsifier = falsify_with(alloc, &bound, rules)?;
    let satisfier = satisfy_with(alloc, &bound, rules)?;
    let cut = make_cut(alloc, dtype, paths)?;
    Ok(ScanPlan {
        bound,
        falsifier,
        satisfier,
        cut,
    })
}

/// Tests the paths and then the predicate against the type, and prepares what every chunk needs.
/// No row is read.
pub fn prepare(
    alloc: Global,
    dtype: &DType,
    paths: &[FieldPath],
    predicate: &Expression,
) -> Result<ScanPlan, TableError>
    ensures prepared { IfOk result
        (λ made. IsPreparedFor (type_of dtype.now) (paths_of paths.now) predicate.now made) }
    ensures falsifier { IfOk result (λ made. option_map expression_of made.falsifier
        ≡ falsifier (type_of dtype.now) predicate.now) }
    ensures satisfier { IfOk result (λ made. option_map expression_of made.satisfier
        ≡ satisfier (type_of dtype.now) predicate.now) }
    ensures faultless { OnOk result (predicate_fault (type_of dtype.now) predicate.now ≡ None) }
    ensures formed { OnOk result (HasFormedLiterals predicate.now) }
    ensures accepted { OnOk result
        (or_else (paths_fault 0 (type_of dtype.now) (map steps_of paths.now))
        (predicate_fault (type_of dtype.now) predicate.now) ≡ None) }
    ensures refused { IfErr result (λ e. Explains ⊥
        (or_else (paths_fault 0 (type_of dtype.now) (map steps_of paths.now))
        (predicate_fault (type_of dtype.now) predicate.now)) e) }
{
    no_rules_add_nothing();
    prepare_with(alloc, dtype, paths, predicate, &[])
}
