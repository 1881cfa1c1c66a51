//! Zones that hold no selected row, and zones of which each row is selected.
ghost use Rattle.std.specs.Prelude.{◌≡◌, length, map, IfOk, IfErr, OnOk, OnErr, Some};
ghost use Rattle.std.proofs.Math.Logic.{∥∥₁_prop};
ghost use Rattle.vortex_model_table.specs.Truth.{HasTruth};
ghost use Rattle.vortex_model_rules.specs.Rules.{fals, sat, handed_over};
ghost use Rattle.vortex_dtype_core.specs.View.{type_of};
ghost use Rattle.vortex_arrays_model.specs.Layout.{rows_of};
ghost use Rattle.vortex_stats_bind.specs.Bound.{expression_of};
ghost use Rattle.vortex_stats_bind.specs.Bindings.{IsBound};
ghost use Rattle.vortex_stats_bind.specs.Replaced.{answered};
ghost use Rattle.vortex_stats_rules.specs.Meanings.{rules_of};
ghost use Rattle.vortex_stats_rules.specs.Refusals.{IsPredicate};
ghost use Rattle.vortex_stats_rules.specs.Visits.{visited};
ghost use Rattle.vortex_stats_evaluate.specs.Readers.{IsProofOf};
ghost use Rattle.vortex_stats_pruner.specs.Pruning.{AreSound, IsPrunerFault, is_proved, MarksUnselected, MarksSelected};

use std::alloc::{AllocError, Global};
use vortex_arrays_core::array::ArrayRef;
use vortex_dtype_core::dtype::DType;
use vortex_stats_bind::bound::BoundExpression;
use vortex_stats_bind::stats::{StatBinder, bind_stats_in_zones};
use vortex_stats_evaluate::laws::{
    bind_predicate, falsified_zones_hold_none, satisfied_zones_hold_all,
};
use vortex_stats_evaluate::rows::ArrayColumns;
use vortex_stats_expr::error::StatsError;
use vortex_stats_expr::expression::Expression;
use vortex_stats_mask::masks::no_rows;
use vortex_stats_rules::meter::Meter;
use vortex_stats_rules::rewrite::{falsify, satisfy};
use vortex_stats_rules::rule::StatsRewriteRuleRef;
use vortex_stats_select::select::select;

/// A predicate with its proofs over statistics, which a reader with a table of zones asks which of
/// these it needn't read.
#[derive(Drop)]
pub struct Pruner {
    /// The type of the rows.
    pub dtype: DType,
    /// The predicate, bound to it.
    pub predicate: BoundExpression,
    /// The proof that no row is selected, where there is one.
    pub falsifier: Option<BoundExpression>,
    /// The proof that each row is selected, where there is one.
    pub satisfier: Option<BoundExpression>,
    pub ghost sound: { ∥ AreSound (type_of dtype) (expression_of predicate) falsifier
        satisfier ∥₁ } by { ∥∥₁_prop },
}

impl Pruner {
    /// Makes the proofs of a predicate over rows of the type, with callers' rules.
    ///
    /// Refused as `bind` is, by `NotEvaluable` where the predicate has no truth, and as `falsify`
    /// and `satisfy` are. A refused call counts no visit.
    pub fn new(
        alloc: Global,
        predicate: &Expression,
        dtype: &DType,
        rules: &[StatsRewriteRuleRef],
        meter: &mut Meter,
    ) -> Result<Pruner, StatsError>
        ensures dtype { IfOk result (λ p. type_of p.dtype ≡ type_of dtype.now) }
        ensures bound { IfOk result (λ p. IsBound (type_of dtype.now) predicate.now p.predicate) }
        ensures predicate { IfOk result (λ p. expression_of p.predicate ≡ predicate.now) }
        ensures falsifier { IfOk result (λ p. IsProofOf (type_of dtype.now)
            (fals (type_of dtype.now) (rules_of meaning rules.now) predicate.now) p.falsifier) }
        ensures satisfier { IfOk result (λ p. IsProofOf (type_of dtype.now)
            (sat (type_of dtype.now) (rules_of meaning rules.now) predicate.now) p.satisfier) }

        ensures truth { OnOk result (HasTruth (type_of dtype.now) predicate.now) }
        ensures boolean { OnOk result (IsPredicate (type_of dtype.now) predicate.now) }
        ensures refused { IfErr result (IsPrunerFault (type_of dtype.now)
            (rules_of meaning rules.now) predicate.now) }

        ensures visits { OnOk result (meter.new
            ≡ visited 1 (visited (length (handed_over predicate.now)) meter.old)) }
        ensures uncounted { OnErr result (meter.new ≡ meter.old) }
    {
        let bound = bind_predicate(alloc, predicate, dtype)?;
        let mut counted = *meter;
        let falsifier = falsify(alloc, &bound, rules, &mut counted)?;
        let satisfier = satisfy(alloc, &bound, rules, &mut counted)?;
        falsified_zones_hold_none(rules);
        satisfied_zones_hold_all(rules);
        let copy = dtype.clone()?;
        *meter = counted;
        Ok(Pruner {
            dtype: copy,
            predicate: bound,
            falsifier,
            satisfier,
        })
    }

    /// Of a table with a row for each zone, the zones in which no row is selected, as far as their
    /// statistics show it. The binder answers columns of the table, and `row_counts` is the one
    /// with the number of rows of each zone.
    pub fn none_selected<B: StatBinder>(
        &self,
        alloc: Global,
        zones: &ArrayRef,
        binder: &B,
        row_counts: &BoundExpression,
    ) -> Result<Vec<bool>, AllocError>
        ensures proved { IfOk result (λ mask. mask.items ≡ map (is_proved
            (answered (Some row_counts.now) (B.answers binder.now) (B.missing binder.now))
            self.now.falsifier) (rows_of zones.now)) }
        ensures sound { IfOk result (λ mask. MarksUnselected (type_of self.now.dtype)
            (expression_of self.now.predicate)
            (answered (Some row_counts.now) (B.answers binder.now) (B.missing binder.now))
            (rows_of zones.now) mask.items) }
    {
        proved_zones(alloc, &self.falsifier, zones, binder, row_counts)
    }

    /// The zones of which each row is selected, so.
    pub fn all_selected<B: StatBinder>(
        &self,
        alloc: Global,
        zones: &ArrayRef,
        binder: &B,
        row_counts: &BoundExpression,
    ) -> Result<Vec<bool>, AllocError>
        ensures proved { IfOk result (λ mask. mask.items ≡ map (is_proved
            (answered (Some row_counts.now) (B.answers binder.now) (B.missing binder.now))
            self.now.satisfier) (rows_of zones.now)) }
        ensures sound { IfOk result (λ mask. MarksSelected (type_of self.now.dtype)
            (expression_of self.now.predicate)
            (answered (Some row_counts.now) (B.answers binder.now) (B.missing binder.now))
            (rows_of zones.now) mask.items) }
    {
        proved_zones(alloc, &self.satisfier, zones, binder, row_counts)
    }
}

// The zones at whose rows of the table the proof, bound to it, is true.
#[tactic(auto, using(crate::proofs::PruningLemmas::proving))]
fn proved_zones<B: StatBinder>(
    alloc: Global,
    proof: &Option<BoundExpression>,
    zones: &ArrayRef,
    binder: &B,
    row_counts: &BoundExpression,
) -> Result<Vec<bool>, AllocError>
    ensures { IfOk result (λ mask. mask.items ≡ map (is_proved
        (answered (Some row_counts.now) (B.answers binder.now) (B.missing binder.now)) proof.now)
        (rows_of zones.now)) }
{
    let Some(proof) = proof else {
        return no_rows(alloc, zones.len());
    };
    let bound = bind_stats_in_zones(alloc, proof, binder, row_counts)?;
    let columns = ArrayColumns {
        array: zones,
        rows: 1,
    };
    select(alloc, &bound, true, &columns)
}
