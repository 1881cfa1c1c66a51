//! Truths of bound expressions, at rows and over statistics of rows.
ghost use Rattle.std.specs.Prelude.{◌≡◌, map, IfOk, IfErr, OnOk, OnErr};
ghost use Rattle.vortex_arrays_model.specs.Layout.{len_of, rows_of};
ghost use Rattle.vortex_stats_bind.specs.Bound.{evaluate_bound};
ghost use Rattle.vortex_stats_bind.specs.OperandValue.{boolean_in};
ghost use Rattle.vortex_stats_evaluate.specs.Refusals.{IsEvaluable, IsTruthFault, IsProvable, IsProofFault};
ghost use Rattle.vortex_stats_evaluate.specs.Scopes.{at_row, over_rows};
ghost use Rattle.vortex_stats_evaluate.specs.Meters.{tested, proved};

use crate::scope::Scope;
use crate::truths::{truth_over, truths_of};
use std::alloc::Global;
use vortex_stats_bind::bound::BoundExpression;
use vortex_stats_bind::stats::bind_stats;
use vortex_stats_expr::error::StatsError;
use vortex_stats_rules::meter::Meter;

/// The truth of an expression at each row of the scope's array, in order, where `None` is null.
/// Placeholders have the values that `stat_scalar` gives of the statistics at their column's path,
/// null where the scope has none. The rows are counted as tested.
///
/// `NotEvaluable` where it has no truth, and else `NotBoolean` where it is no boolean. A refused
/// call counts nothing.
#[tactic(auto, using(crate::proofs::RowTruths::counted))]
pub fn evaluate(
    alloc: Global,
    e: &BoundExpression,
    scope: &Scope,
    meter: &mut Meter,
) -> Result<Vec<Option<bool>>, StatsError>
    ensures truths { IfOk result (λ truths. truths.items ≡ map (λ row. boolean_in
        (evaluate_bound (at_row scope.now.columns.items scope.now.rows row) e.now))
        (rows_of scope.now.array)) }
    ensures evaluable { OnOk result (IsEvaluable e.now) }
    ensures refused { IfErr result (IsTruthFault e.now) }
    ensures counted { OnOk result (meter.new ≡ tested (len_of scope.now.array) meter.old) }
    ensures uncounted { OnErr result (meter.new ≡ meter.old) }
{
    check_truth(e)?;
    let bound = bind_stats(alloc, e, scope)?;
    let truths = truths_of(alloc, &bound, &scope.array, scope.rows as u64)?;
    let len = scope.array.len() as u64;
    meter.rows_tested = meter.rows_tested.saturating_add(len);
    Ok(truths)
}

/// The truth of a proof about the scope's rows, as far as its statistics show, where `None` is
/// null. It is counted, and the array isn't looked at.
///
/// The first fault decides the refusal, children before their parent, left before right:
/// `RuleFault` of a column outside placeholders, `NotEvaluable` of a part that has no truth, and
/// last `NotBoolean` where it is no boolean. A refused call counts nothing.
#[tactic(auto, using(crate::proofs::RowTruths::counted))]
pub fn prove(
    alloc: Global,
    e: &BoundExpression,
    scope: &Scope,
    meter: &mut Meter,
) -> Result<Option<bool>, StatsError>
    ensures truth { IfOk result (λ truth. truth ≡ boolean_in
        (evaluate_bound (over_rows scope.now.columns.items scope.now.rows) e.now)) }
    ensures provable { OnOk result (IsProvable e.now) }
    ensures refused { IfErr result (IsProofFault e.now) }
    ensures counted { OnOk result (meter.new ≡ proved meter.old) }
    ensures uncounted { OnErr result (meter.new ≡ meter.old) }
{
    check_proof(e)?;
    let bound = bind_stats(alloc, e, scope)?;
    let truth = truth_over(&bound, scope.rows as u64);
    meter.proofs = meter.proofs.saturating_add(1);
    Ok(truth)
}

// Whether the expression has a truth, and then whether it is a boolean.
fn check_truth(e: &BoundExpression) -> Result<(), StatsError>
    ensures evaluable { OnOk result (IsEvaluable e.now) }
    ensures refused { IfErr result (IsTruthFault e.now) }
{
    if !e.has_truth() {
        return Err(StatsError::NotEvaluable);
    }
    if !e.is_boolean() {
        return Err(StatsError::NotBoolean);
    }
    Ok(())
}

// Whether each part may be in a proof, and then whether it is a boolean.
#[tactic(auto, using(crate::proofs::Refused::of_proofs))]
fn check_proof(e: &BoundExpression) -> Result<(), StatsError>
    ensures provable { OnOk result (IsProvable e.now) }
    ensures refused { IfErr result (IsProofFault e.now) }
{
    if let Some(fault) = e.proof_fault() {
        return Err(fault);
    }
    if !e.is_boolean() {
        return Err(StatsError::NotBoolean);
    }
    Ok(())
}
