//! The meaning of bound expressions, and the soundness of proofs that a reader of files binds to
//! its own statistics. Each law is the clause of a function without a body, or of one that makes
//! the calls.
ghost use Rattle.std.specs.Prelude.{◌≡◌, length, IfOk, IfErr, IfSome, OnOk, OnErr, option_copied, option_map};
ghost use Rattle.vortex_model_table.specs.Expression.{HasFormedLiterals};
ghost use Rattle.vortex_model_table.specs.Truth.{HasTruth};
ghost use Rattle.vortex_model_rules.specs.Rules.{fals, sat, handed_over};
ghost use Rattle.vortex_dtype_core.specs.View.{type_of};
ghost use Rattle.vortex_stats_bind.specs.Bindings.{IsBound};
ghost use Rattle.vortex_stats_bind.specs.Replaced.{answered, replaced};
ghost use Rattle.vortex_stats_rules.specs.Meanings.{rules_of};
ghost use Rattle.vortex_stats_rules.specs.Refusals.{IsPredicate};
ghost use Rattle.vortex_stats_rules.specs.Visits.{visited};
ghost use Rattle.vortex_stats_evaluate.specs.Readers.{IsAnswered, SelectsNone, SelectsEach, FalsifiedZonesHoldNone, SatisfiedZonesHoldAll};
ghost use Rattle.vortex_stats_evaluate.specs.Refusals.{IsPredicateFault, IsRewriteFault};
ghost use Rattle.vortex_stats_evaluate.specs.InCommon.{BoundExpressionsSayTheSame};

use std::alloc::{AllocError, Global};
use vortex_dtype_core::dtype::DType;
use vortex_model_laws::laws::built_in_proofs_read_no_columns;
use vortex_stats_bind::bind::bind;
use vortex_stats_bind::bound::BoundExpression;
use vortex_stats_bind::stats::{StatBinder, bind_stats, bind_stats_in_zones};
use vortex_stats_expr::error::StatsError;
use vortex_stats_expr::expression::Expression;
use vortex_stats_rules::laws::{falsifiers_are_sound, satisfiers_are_sound};
use vortex_stats_rules::meter::Meter;
use vortex_stats_rules::rewrite::{falsify, satisfy};
use vortex_stats_rules::rule::StatsRewriteRuleRef;

/// What `bind` makes has the value of its expression, at rows and over statistics of rows, its
/// type, and a truth, a column that is read and a fault as a proof exactly where it has one.
pub fn bound_expressions_say_the_same()
    ensures { BoundExpressionsSayTheSame }
{}

/// Where a falsifier, made with these rules and bound to a binder whose answers are honest of the
/// rows of a zone, is true there, the predicate selects no row of the zone.
pub fn falsified_zones_hold_none(rules: &[StatsRewriteRuleRef])
    ensures { FalsifiedZonesHoldNone (rules_of meaning rules.now) }
{
    built_in_proofs_read_no_columns();
    falsifiers_are_sound(rules);
}

/// Where a satisfier, made and bound so, is true there, the predicate selects every row.
pub fn satisfied_zones_hold_all(rules: &[StatsRewriteRuleRef])
    ensures { SatisfiedZonesHoldAll (rules_of meaning rules.now) }
{
    built_in_proofs_read_no_columns();
    satisfiers_are_sound(rules);
}

/// The falsifier of a predicate over rows of the type, bound to a reader's statistics: where it is
/// true of a zone of whose rows these are honest, none of them is selected. With `row_counts` it is
/// bound to a table of zones.
///
/// Refused as `bind` is, by `NotEvaluable` where the predicate has no truth, and as `falsify` is. A
/// refused call counts no visit.
pub fn bound_falsifier<B: StatBinder>(
    alloc: Global,
    e: &Expression,
    dtype: &DType,
    rules: &[StatsRewriteRuleRef],
    binder: &B,
    row_counts: Option<&BoundExpression>,
    meter: &mut Meter,
) -> Result<Option<BoundExpression>, StatsError>
    ensures sound { IfOk result (λ found. IfSome found (SelectsNone (type_of dtype.now)
        (answered (option_copied row_counts.entry) (B.answers binder.now) (B.missing binder.now))
        e.now)) }
    ensures answer { IfOk result (λ found. IsAnswered (type_of dtype.now)
        (answered (option_copied row_counts.entry) (B.answers binder.now) (B.missing binder.now))
        (fals (type_of dtype.now) (rules_of meaning rules.now) e.now) found) }

    ensures truth { OnOk result (HasTruth (type_of dtype.now) e.now) }
    ensures boolean { OnOk result (IsPredicate (type_of dtype.now) e.now) }
    ensures refused { IfErr result (IsRewriteFault (type_of dtype.now) e.now
        (fals (type_of dtype.now) (rules_of meaning rules.now) e.now)) }

    ensures visits { OnOk result (meter.new ≡ visited (length (handed_over e.now)) meter.old) }
    ensures uncounted { OnErr result (meter.new ≡ meter.old) }
{
    let predicate = bind_predicate(alloc, e, dtype)?;
    let mut counted = *meter;
    let proof = falsify(alloc, &predicate, rules, &mut counted)?;
    falsified_zones_hold_none(rules);
    let bound = bound_to(alloc, &proof, binder, row_counts)?;
    *meter = counted;
    Ok(bound)
}

/// The satisfier of a predicate, bound so: where it is true of a zone, each row is selected. Errors
/// as for `bound_falsifier`.
pub fn bound_satisfier<B: StatBinder>(
    alloc: Global,
    e: &Expression,
    dtype: &DType,
    rules: &[StatsRewriteRuleRef],
    binder: &B,
    row_counts: Option<&BoundExpression>,
    meter: &mut Meter,
) -> Result<Option<BoundExpression>, StatsError>
    ensures sound { IfOk result (λ found. IfSome found (SelectsEach (type_of dtype.now)
        (answered (option_copied row_counts.entry) (B.answers binder.now) (B.missing binder.now))
        e.now)) }
    ensures answer { IfOk result (λ found. IsAnswered (type_of dtype.now)
        (answered (option_copied row_counts.entry) (B.answers binder.now) (B.missing binder.now))
        (sat (type_of dtype.now) (rules_of meaning rules.now) e.now) found) }

    ensures truth { OnOk result (HasTruth (type_of dtype.now) e.now) }
    ensures boolean { OnOk result (IsPredicate (type_of dtype.now) e.now) }
    ensures refused { IfErr result (IsRewriteFault (type_of dtype.now) e.now
        (sat (type_of dtype.now) (rules_of meaning rules.now) e.now)) }

    ensures visits { OnOk result (meter.new ≡ visited 1 meter.old) }
    ensures uncounted { OnErr result (meter.new ≡ meter.old) }
{
    let predicate = bind_predicate(alloc, e, dtype)?;
    let mut counted = *meter;
    let proof = satisfy(alloc, &predicate, rules, &mut counted)?;
    satisfied_zones_hold_all(rules);
    let bound = bound_to(alloc, &proof, binder, row_counts)?;
    *meter = counted;
    Ok(bound)
}

/// The predicate, bound to the type of its rows. Refused as `bind` is, and by `NotEvaluable` where it
/// has no truth.
#[tactic(auto, using(crate::proofs::ByCalls::binding))]
pub fn bind_predicate(
    alloc: Global,
    e: &Expression,
    dtype: &DType,
) -> Result<BoundExpression, StatsError>
    ensures bound { IfOk result (λ b. IsBound (type_of dtype.now) e.now b) }
    ensures truth { OnOk result (HasTruth (type_of dtype.now) e.now) }
    ensures formed { OnOk result (HasFormedLiterals e.now) }
    ensures refused { IfErr result (IsPredicateFault (type_of dtype.now) e.now) }
{
    let predicate = bind(alloc, e, dtype)?;
    if !predicate.has_truth() {
        return Err(StatsError::NotEvaluable);
    }
    Ok(predicate)
}

// The proof, where there is one, with what the binder answers.
fn bound_to<B: StatBinder>(
    alloc: Global,
    proof: &Option<BoundExpression>,
    binder: &B,
    row_counts: Option<&BoundExpression>,
) -> Result<Option<BoundExpression>, AllocError>
    ensures { IfOk result (λ bound. bound ≡ option_map
        (replaced (answered (option_copied row_counts.entry)
        (B.answers binder.now) (B.missing binder.now))) proof.now) }
{
    let Some(proof) = proof else {
        return Ok(None);
    };
    let bound = match row_counts {
        Some(counts) => bind_stats_in_zones(alloc, proof, binder, counts)?,
        None => bind_stats(alloc, proof, binder)?,
    };
    Ok(Some(bound))
}
