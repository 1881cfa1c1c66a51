//! A scan of a table, chunk by chunk: each is skipped, taken whole or tested row by row.
ghost use Rattle.std.specs.Prelude.{◌≡◌, OnOk};
ghost use Rattle.vortex_model_table.specs.Scan.{is_skipped, is_whole};
ghost use Rattle.vortex_table_core.specs.Progress.{push_if, tested_rows};
ghost use Rattle.vortex_table_chunk.specs.Chunk.{chunk_rows};
ghost use Rattle.vortex_table_core.specs.Outcome.{outcome_of};

use crate::table::Table;
use std::alloc::{AllocError, Global};
use vortex_dtype_path::path::FieldPath;
use vortex_stats_array::array_stats::ArrayStats;
use vortex_stats_bind::bound::BoundExpression;
use vortex_stats_expr::expression::Expression;
use vortex_table_chunk::chunk::Chunk;
use vortex_table_plan::plan::ScanPlan;
use vortex_table_select::select::{select_rows, take_rows};
use vortex_table_select::selection::{ScanSelection, Selection};
use vortex_table_zonemaps::bind::is_proved;
use vortex_table_zonemaps::operands::ZoneRow;

/// The way a scan treats a chunk.
#[derive(Clone, Copy)]
pub enum Pruning {
    /// Its statistics prove that no row is selected, so that none is read.
    Skip,
    /// Its statistics prove that every row is selected, so that all are answered untested.
    TakeAll,
    /// The predicate is evaluated at each row.
    Filter,
}

/// A scan of a table with what is prepared for it.
#[derive(Drop)]
pub struct Scan<'a> {
    pub table: &'a Table,
    pub paths: &'a [FieldPath],
    pub predicate: &'a Expression,
    pub prepared: &'a ScanPlan,
    pub falsifier: Option<BoundExpression>,
    pub satisfier: Option<BoundExpression>,
}

impl Scan<'_> {
    ghost use Rattle.std.specs.Prelude.{◌≡◌, ◌++◌, OnOk, IsTrue, is_some};
    ghost use Rattle.vortex_model_table.specs.Table.{bound_length};
    ghost use Rattle.vortex_table_chunk.specs.Chunk.{chunk_rows};
    ghost use Rattle.vortex_table_select.specs.Selected.{rows_in, cut_rows, AreOfType};
    ghost use Rattle.vortex_table_zonemaps.specs.Proved.{zone_proved};
    ghost use Rattle.vortex_table_core.specs.Outcome.{outcome_of};
    ghost use Rattle.vortex_table_core.specs.Plan.{IsPlan, table_in, question_in, answer_by, falsified_by};
    ghost use Rattle.vortex_table_core.specs.Progress.{outcome_to, with_chunk, found_rows, proofs_at};
    ghost use Rattle.vortex_table_chunk.specs.Formed.{is_formed};

    /// Whether the statistics of the table's leaf columns in `rows` rows make the proof true.
    pub fn proves(
        &self,
        bounds: &[ArrayStats],
        rows: usize,
        proof: &Option<BoundExpression>,
    ) -> bool
        ensures { result ≡ zone_proved bounds.now rows proof.now }
    {
        is_proved(proof, &ZoneRow { bounds, rows })
    }

    // The satisfier is asked only where the falsifier fails.
    fn outcome(&self, chunk: &Chunk, falsified: bool) -> Pruning
        requires plan { IsPlan self.now }
        requires formed { IsTrue
            (is_formed (bound_length (table_in self.now)) (table_in self.now).kind chunk.now) }
        requires falsified { falsified ≡ falsified_by self.now chunk.now }
        ensures { outcome_of result ≡ outcome_to (question_in self.now) (chunk_rows chunk.now) }
    {
        if falsified {
            return Pruning::Skip;
        }
        let bounds = chunk.bounds.as_slice();
        let satisfied = self.proves(bounds, chunk.rows, &self.satisfier);
        if satisfied {
            return Pruning::TakeAll;
        }
        Pruning::Filter
    }

    // The number of proofs that were evaluated to come to the outcome.
    fn proofs_at(&self, outcome: Pruning) -> u64
        ensures { result ≡ proofs_at (is_some self.now.prepared.now.falsifier)
            (is_some self.now.prepared.now.satisfier) (outcome_of outcome) }
    {
        let falsified = u64::from(self.prepared.falsifier.is_some());
        match outcome {
            Pruning::Skip => falsified,
            Pruning::TakeAll => falsified + u64::from(self.prepared.satisfier.is_some()),
            Pruning::Filter => falsified + u64::from(self.prepared.satisfier.is_some()),
        }
    }

    fn find_rows(
        &self,
        alloc: Global,
        chunk: &Chunk,
        outcome: Pruning,
        found: &mut Vec<Selection>,
    ) -> Result<(), AllocError>
        requires plan { IsPlan self.now }
        requires formed { IsTrue
            (is_formed (bound_length (table_in self.now)) (table_in self.now).kind chunk.now) }
        requires typed { AreOfType (table_in self.now).kind found.old.items }
        ensures rows { OnOk result (cut_rows self.now.prepared.now.cut (rows_in found.new.items)
            ≡ cut_rows self.now.prepared.now.cut (rows_in found.old.items)
            ++ found_rows (question_in self.now) (outcome_of outcome) (chunk_rows chunk.now)) }
        ensures typed { OnOk result (AreOfType (table_in self.now).kind found.new.items) }
    {
        match outcome {
            Pruning::Skip => Ok(()),
            Pruning::TakeAll => {
                take_rows(alloc, &chunk.array, found)?;
                Ok(())
            }
            Pruning::Filter => {
                select_rows(alloc, &self.prepared.bound, &chunk.array, chunk, found)?;
                Ok(())
            }
        }
    }

    /// Adds to the answer the selected rows of the chunk, and its counts. `number` is the index of
    /// the chunk in the table, and `falsified` whether its statistics make the falsifier true.
    pub fn add_chunk(
        &self,
        alloc: Global,
        number: usize,
        chunk: &Chunk,
        falsified: bool,
        answer: &mut ScanSelection,
    ) -> Result<(), AllocError>
        requires plan { IsPlan self.now }
        requires formed { IsTrue
            (is_formed (bound_length (table_in self.now)) (table_in self.now).kind chunk.now) }
        requires falsified { falsified ≡ falsified_by self.now chunk.now }
        requires typed { AreOfType (table_in self.now).kind answer.old.selections.items }
        ensures found { OnOk result (answer_by self.now answer.new
            ≡ with_chunk (question_in self.now) number (chunk_rows chunk.now)
            (outcome_to (question_in self.now) (chunk_rows chunk.now))
            (answer_by self.now answer.old)) }
        ensures typed { OnOk result
            (AreOfType (table_in self.now).kind answer.new.selections.items) }
    {
        let outcome = self.outcome(chunk, falsified);
        self.find_rows(alloc, chunk, outcome, &mut answer.selections)?;
        push_if(is_skipped(outcome), number, &mut answer.skipped)?;
        push_if(is_whole(outcome), number, &mut answer.whole)?;
        answer.rows_tested = answer
            .rows_tested
            .saturating_add(tested_rows(outcome, chunk));
        answer.proofs = answer.proofs.saturating_add(self.proofs_at(outcome));
        Ok(())
    }
}

fn push_if(passes: bool, number: usize, numbers: &mut Vec<usize>) -> Result<(), AllocError>
    ensures { OnOk result (numbers.new.items ≡ push_if passes number numbers.old.items) }
{
    if passes {
        numbers.push(number)?;
    }
    Ok(())
}

fn tested_rows(outcome: Pruning, chunk: &Chunk) -> u64
    ensures { result ≡ tested_rows (outcome_of outcome) (chunk_rows chunk.now) }
{
    match outcome {
        Pruning::Filter => chunk.rows as u64,
        Pruning::Skip => 0,
        Pruning::TakeAll => 0,
    }
}

fn is_skipped(outcome: Pruning) -> bool
    ensures { result ≡ is_skipped (outcome_of outcome) }
{
    match outcome {
        Pruning::Skip => true,
        Pruning::TakeAll | Pruning::Filter => false,
    }
}

fn is_whole(outcome: Pruning) -> bool
    ensures { result ≡ is_whole (outcome_of outcome) }
{
    match outcome {
        Pruning::TakeAll => true,
        Pruning::Skip | Pruning::Filter => false,
    }
}
