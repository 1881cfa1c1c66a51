//! Scans over the chunks of a table.
use crate::plan::Scan;
use crate::table::Table;
use std::alloc::{AllocError, Global};
use vortex_dtype_path::path::FieldPath;
use vortex_model_rules::laws::scans_with_rules_lose_none;
use vortex_stats_expr::expression::Expression;
use vortex_stats_rules::rule::StatsRewriteRuleRef;
use vortex_table_plan::make::{prepare, prepare_with};
use vortex_table_plan::plan::ScanPlan;
use vortex_table_schema::answer::ScanAnswer;
use vortex_table_schema::error::TableError;
use vortex_table_select::read::read_answer;
use vortex_table_select::selection::{LazyAnswer, ScanSelection};
use vortex_table_zonemaps::bind::resolve;

impl Table {
    ghost use Rattle.std.specs.Prelude.{◌≡◌, None, Some, false, map, option_map, IfOk, OnOk, IfErr};
    ghost use Rattle.vortex_model_table.specs.Scan.{scanned};
    ghost use Rattle.vortex_model_table.specs.Expression.{HasFormedLiterals};
    ghost use Rattle.vortex_model_table.specs.Table.{answer};
    ghost use Rattle.vortex_model_table.specs.Command.{scan, names_of, refusal};
    ghost use Rattle.vortex_model_rules.specs.Scanned.{scanned_by, scanned_with};
    ghost use Rattle.vortex_dtype_path.specs.View.{steps_of};
    ghost use Rattle.vortex_dtype_core.specs.View.{type_of};
    ghost use Rattle.vortex_stats_bind.specs.Bound.{expression_of};
    ghost use Rattle.vortex_stats_rules.specs.Meanings.{rules_of};
    ghost use Rattle.vortex_table_schema.specs.Error.{Explains};
    ghost use Rattle.vortex_table_plan.specs.Prepared.{IsPreparedFor};
    ghost use Rattle.vortex_table_plan.specs.Rules.{have_fault, ExplainsWith};
    ghost use Rattle.vortex_table_core.specs.TableView.{table_of};
    ghost use Rattle.vortex_table_schema.specs.Answer.{answer_of, IsTyped};
    ghost use Rattle.vortex_table_schema.specs.Cut.{paths_of};
    ghost use Rattle.vortex_table_select.specs.Selected.{answer_in, answer_cut, AreOfType};

    /// The rows that the predicate selects, in order, each with the columns that the paths ask for.
    /// The path without a step asks for whole rows, and no path for empty records.
    ///
    /// A chunk is skipped where its statistics prove that none of its rows is selected, in time
    /// that does not depend on its rows.
    ///
    /// Refused, in this order: `UnknownPath` or `ElementStep` with the first path at fault; the
    /// first fault of the predicate, children before their parent and left before right:
    /// `Placeholder`, `UnknownColumn`, `NotALeaf`, `UnsupportedPredicate`, `UnequalTypes`,
    /// `NotBoolean`, `UnsupportedLike`.
    pub fn scan(
        &self,
        alloc: Global,
        paths: &[FieldPath],
        predicate: &Expression,
    ) -> Result<ScanAnswer, TableError>
        ensures found { IfOk result
            (λ a. answer_of a ≡ scanned (table_of self.now) (map names_of (map steps_of paths.now))
            predicate.now) }
        ensures typed { IfOk result (λ a. IsTyped a) }
        ensures accepted { OnOk result
            (refusal (table_of self.now) (scan (map steps_of paths.now) predicate.now) ≡ None) }
        ensures formed { OnOk result (HasFormedLiterals predicate.now) }
        ensures refused { IfErr result
            (λ e. Explains ⊥
            (refusal (table_of self.now) (scan (map steps_of paths.now) predicate.now)) e) }
    {
        let prepared = prepare(alloc, &self.dtype, paths, predicate)?;
        let answer = self.run_prepared(alloc, paths, predicate, &prepared)?;
        Ok(answer)
    }

    /// As `scan`, by proofs that are made with these rules beside the built-in ones: which chunks
    /// are skipped, taken whole and tested may differ, and the rows never do, since each rule is
    /// handed in with why its proofs are sound.
    ///
    /// Refused as `scan`, and then `RuleFault` where a rule answers an error other than `Memory`,
    /// or a proof that can't be used: one without a type or a truth, of another type than boolean,
    /// or with a column outside placeholders.
    pub fn scan_with(
        &self,
        alloc: Global,
        paths: &[FieldPath],
        predicate: &Expression,
        rules: &[StatsRewriteRuleRef],
    ) -> Result<ScanAnswer, TableError>
        ensures found { IfOk result (λ a. scanned_with (table_of self.now)
            (rules_of meaning rules.now) (map names_of (map steps_of paths.now)) predicate.now
            ≡ Some (answer_of a)) }
        ensures rows { IfOk result (λ a. (answer_of a).rows
            ≡ answer (table_of self.now) (map names_of (map steps_of paths.now)) predicate.now) }
        ensures typed { IfOk result (λ a. IsTyped a) }
        ensures accepted { OnOk result
            (refusal (table_of self.now) (scan (map steps_of paths.now) predicate.now) ≡ None) }
        ensures formed { OnOk result (HasFormedLiterals predicate.now) }
        ensures faultless { OnOk result (have_fault (table_of self.now).kind
            (rules_of meaning rules.now) predicate.now ≡ false) }
        ensures refused { IfErr result (ExplainsWith
            (refusal (table_of self.now) (scan (map steps_of paths.now) predicate.now))
            (have_fault (table_of self.now).kind (rules_of meaning rules.now) predicate.now)) }
    {
        scans_with_rules_lose_none();
        let prepared = prepare_with(alloc, &self.dtype, paths, predicate, rules)?;
        let answer = self.run_prepared(alloc, paths, predicate, &prepared)?;
        Ok(answer)
    }

    /// As `scan`, with the rows left where they are: a caller that only writes or counts them makes
    /// no value of any.
    ///
    /// Refused as `scan`.
    pub fn select(
        &self,
        alloc: Global,
        paths: &[FieldPath],
        predicate: &Expression,
    ) -> Result<LazyAnswer, TableError>
        ensures found { IfOk result
            (λ a. answer_in a ≡ scanned (table_of self.now) (map names_of (map steps_of paths.now))
            predicate.now) }
        ensures accepted { OnOk result
            (refusal (table_of self.now) (scan (map steps_of paths.now) predicate.now) ≡ None) }
        ensures formed { OnOk result (HasFormedLiterals predicate.now) }
        ensures refused { IfErr result
            (λ e. Explains ⊥
            (refusal (table_of self.now) (scan (map steps_of paths.now) predicate.now)) e) }
    {
        let prepared = prepare(alloc, &self.dtype, paths, predicate)?;
        let selection = self.select_prepared(alloc, paths, predicate, &prepared)?;
        Ok(LazyAnswer {
            cut: prepared.cut,
            selection,
        })
    }

    // The answer to a scan for which this is prepared.
    fn run_prepared(
        &self,
        alloc: Global,
        paths: &[FieldPath],
        predicate: &Expression,
        prepared: &ScanPlan,
    ) -> Result<ScanAnswer, AllocError>
        requires { IsPreparedFor (type_of self.now.dtype) (paths_of paths.now) predicate.now
            prepared.now }
        ensures found { IfOk result (λ a. answer_of a
            ≡ scanned_by (table_of self.now) (paths_of paths.now) predicate.now
            (option_map expression_of prepared.now.falsifier)
            (option_map expression_of prepared.now.satisfier)) }
        ensures typed { IfOk result (λ a. IsTyped a) }
    {
        let found = self.select_prepared(alloc, paths, predicate, prepared)?;
        let answer = read_answer(alloc, &prepared.cut, found)?;
        Ok(answer)
    }

    // What a scan finds for which this is prepared.
    fn select_prepared(
        &self,
        alloc: Global,
        paths: &[FieldPath],
        predicate: &Expression,
        prepared: &ScanPlan,
    ) -> Result<ScanSelection, AllocError>
        requires { IsPreparedFor (type_of self.now.dtype) (paths_of paths.now) predicate.now
            prepared.now }
        ensures found { IfOk result (λ found. answer_cut prepared.now.cut found
            ≡ scanned_by (table_of self.now) (paths_of paths.now) predicate.now
            (option_map expression_of prepared.now.falsifier)
            (option_map expression_of prepared.now.satisfier)) }
        ensures typed { IfOk result
            (λ found. AreOfType (type_of self.now.dtype) found.selections.items) }
    {
        let falsifier = resolve(alloc, &self.leaves, &prepared.falsifier)?;
        let satisfier = resolve(alloc, &self.leaves, &prepared.satisfier)?;
        let plan = Scan {
            table: self,
            paths,
            predicate,
            prepared,
            falsifier,
            satisfier,
        };
        plan.run(alloc)
    }
}
