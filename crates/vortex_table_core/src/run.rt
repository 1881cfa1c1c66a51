//! The run of a scan, group by group: the chunks of a group are looked at unless its statistics
//! prove that none of their rows is selected. Neighbours that are skipped are added at once.
ghost use Rattle.std.specs.Prelude.{◌≡◌, ◌≤◌, ◌<◌, ◌+◌, ◌^◌, ◌++◌, OnOk, false, length, slice_index_or};
ghost use Rattle.vortex_table_core.specs.Progress.{numbers_from};
ghost use Rattle.vortex_table_core.specs.Truths.{is_block, AreTrue};

use crate::group::Group;
use crate::plan::Scan;
use std::alloc::{AllocError, Global};
use vortex_table_chunk::chunk::Chunk;
use vortex_table_select::selection::ScanSelection;
use vortex_table_zonemaps::proved::{ZoneRange, proved_zones};

// Adds the numbers of `count` chunks from `first` on.
fn push_numbers(first: usize, count: usize, numbers: &mut Vec<usize>) -> Result<(), AllocError>
    requires { first + count < 2 ^ 64 }
    ensures { OnOk result (numbers.new.items ≡ numbers.old.items ++ numbers_from first count) }
{
    numbers.extend(first..first + count)
}

// Whether 64 truths follow from here and all are true. They are tested at once.
fn is_block(truths: &[bool], from: usize) -> bool
    requires { from ≤ length truths.now }
    ensures { result ≡ is_block truths.now from }
{
    if truths.len() - from < 64 {
        return false;
    }
    let block = &truths[from..from + 64];
    !block.contains(&false)
}

// The index of the first truth from here on that is not true, and else the length.
fn past_true(truths: &[bool], from: usize) -> usize
    requires { from ≤ length truths.now }
    ensures order { from ≤ result }
    ensures within { result ≤ length truths.now }
    ensures truths { AreTrue truths.now from result }
    ensures end { result < length truths.now → slice_index_or truths.now result false ≡ false }
{
    let mut at = from;
    while is_block(truths, at) {
        at += 64;
    }
    while at < truths.len() && truths[at] {
        at += 1;
    }
    at
}

impl Scan<'_> {
    ghost use Rattle.std.specs.Prelude.{◌≡◌, ◌≤◌, ◌<◌, ◌+◌, ◌*◌, ◌^◌, List, IfOk, OnOk, IsTrue, is_some, length, map};
    ghost use Rattle.std.specs.List.{list_all};
    ghost use Rattle.vortex_model_table.specs.Table.{bound_length};
    ghost use Rattle.vortex_model_table.specs.Scan.{one_if, saturated};
    ghost use Rattle.vortex_table_select.specs.Selected.{AreOfType};
    ghost use Rattle.vortex_table_chunk.specs.Chunk.{chunk_rows};
    ghost use Rattle.vortex_table_chunk.specs.declared.chunk.Chunk.{Chunk};
    ghost use Rattle.vortex_table_core.specs.Group.{IsGroup, chunks_of};
    ghost use Rattle.vortex_table_core.specs.Plan.{IsPlan, table_in, question_in, answer_by, chunks_in, falsified_in};
    ghost use Rattle.vortex_table_core.specs.Progress.{answer_to, no_answer, outcome_to, with_chunks, with_skipped, with_group, is_group_skipped, IsCounted};
    ghost use Rattle.vortex_table_chunk.specs.Formed.{is_formed};

    // A group of one chunk isn't looked at, since its chunk is.
    fn is_skipped(&self, group: &Group) -> bool
        requires { IsPlan self.now }
        ensures { (chunks : List Chunk)
            → IsTrue (list_all
            (is_formed (bound_length (table_in self.now)) (table_in self.now).kind) chunks)
            → IsGroup (table_in self.now).kind (bound_length (table_in self.now)) group.now chunks
            → result ≡ is_group_skipped (question_in self.now) (map chunk_rows chunks) }
    {
        match &group.joined {
            Some(bounds) => self.proves(bounds.as_slice(), group.rows, &self.falsifier),
            None => false,
        }
    }

    // The number of proofs that are evaluated of the group alone.
    fn proofs_at_group(&self, group: &Group) -> u64
        ensures { result ≡ one_if (is_some self.now.prepared.now.falsifier)
            * one_if (is_some group.now.joined) }
    {
        match &group.joined {
            Some(_) => u64::from(self.prepared.falsifier.is_some()),
            None => 0,
        }
    }

    // `count` neighbouring chunks from number `first` on.
    fn chunks_in<'a>(&'a self, first: usize, count: usize) -> &'a [Chunk]
        requires { first + count ≤ length self.now.table.now.chunks.items }
        ensures { result.now ≡ chunks_in self.now first count }
    {
        &self.table.chunks.as_slice()[first..first + count]
    }

    // In which of these neighbouring chunks the statistics make the falsifier true.
    fn falsified(&self, alloc: Global, first: usize, count: usize) -> Result<Vec<bool>, AllocError>
        requires { first + count ≤ length self.now.table.now.chunks.items }
        ensures { IfOk result (λ mask. mask.items
            ≡ falsified_in self.now (chunks_in self.now first count)) }
    {
        let range = ZoneRange {
            maps: &self.table.zones,
            chunks: self.table.chunks.as_slice(),
            first,
            count,
        };
        proved_zones(alloc, &self.falsifier, &range)
    }

    // The number of proofs that are evaluated of `count` chunks that are skipped.
    fn proofs_at_skipped(&self, count: usize) -> u64
        ensures { result ≡ count * one_if (is_some self.now.prepared.now.falsifier) }
    {
        if self.prepared.falsifier.is_some() {
            count as u64
        } else {
            0
        }
    }

    // Adds `count` neighbouring chunks from number `first` on, which are skipped.
    fn add_skipped(
        &self,
        first: usize,
        count: usize,
        answer: &mut ScanSelection,
    ) -> Result<(), AllocError>
        requires plan { IsPlan self.now }
        requires fits { first + count < 2 ^ 64 }
        ensures found { OnOk result (answer_by self.now answer.new
            ≡ with_skipped (question_in self.now) first count (answer_by self.now answer.old)) }
        ensures rows { answer.new.selections ≡ answer.old.selections }
    {
        push_numbers(first, count, &mut answer.skipped)?;
        answer.proofs = answer.proofs.saturating_add(self.proofs_at_skipped(count));
        Ok(())
    }

    // `first` is the number of the first of the chunks, and `falsified` has for each whether its
    // statistics make the falsifier true.
    fn add_chunks(
        &self,
        alloc: Global,
        first: usize,
        chunks: &[Chunk],
        falsified: &[bool],
        answer: &mut ScanSelection,
    ) -> Result<(), AllocError>
        requires plan { IsPlan self.now }
        requires formed { IsTrue (list_all
            (is_formed (bound_length (table_in self.now)) (table_in self.now).kind) chunks.now) }
        requires falsified { falsified.now ≡ falsified_in self.now chunks.now }
        requires fits { first + length chunks.now < 2 ^ 64 }
        requires counted { IsCounted (answer_by self.now answer.old) }
        requires typed { AreOfType (table_in self.now).kind answer.old.selections.items }
        ensures found { OnOk result (answer_by self.now answer.new
            ≡ with_chunks (question_in self.now) (outcome_to (question_in self.now)) first
            (map chunk_rows chunks.now) (answer_by self.now answer.old)) }
        ensures typed { OnOk result
            (AreOfType (table_in self.now).kind answer.new.selections.items) }
    {
        let mut offset = 0;
        while offset < chunks.len() {
            if falsified[offset] {
                let end = past_true(falsified, offset);
                self.add_skipped(first + offset, end - offset, answer)?;
                offset = end;
            } else {
                self.add_chunk(alloc, first + offset, &chunks[offset], false, answer)?;
                offset += 1;
            }
        }
        Ok(())
    }

    // Adds `count` neighbouring chunks. Their proofs are evaluated at once, unless there is none.
    fn add_range(
        &self,
        alloc: Global,
        first: usize,
        count: usize,
        answer: &mut ScanSelection,
    ) -> Result<(), AllocError>
        requires plan { IsPlan self.now }
        requires within { first + count ≤ length self.now.table.now.chunks.items }
        requires counted { IsCounted (answer_by self.now answer.old) }
        requires typed { AreOfType (table_in self.now).kind answer.old.selections.items }
        ensures found { OnOk result (answer_by self.now answer.new
            ≡ with_chunks (question_in self.now) (outcome_to (question_in self.now)) first
            (map chunk_rows (chunks_in self.now first count)) (answer_by self.now answer.old)) }
        ensures typed { OnOk result
            (AreOfType (table_in self.now).kind answer.new.selections.items) }
    {
        if count == 0 {
            return Ok(());
        }
        let falsified = self.falsified(alloc, first, count)?;
        let chunks = self.chunks_in(first, count);
        self.add_chunks(alloc, first, chunks, &falsified, answer)?;
        Ok(())
    }

    // Adds to the answer the selected rows of the group, and its counts.
    fn add_group(
        &self,
        alloc: Global,
        group: &Group,
        answer: &mut ScanSelection,
    ) -> Result<(), AllocError>
        requires plan { IsPlan self.now }
        requires inside { group.now.first + group.now.chunks
            ≤ length self.now.table.now.chunks.items }
        requires group { IsGroup (table_in self.now).kind (bound_length (table_in self.now))
            group.now (chunks_of self.now.table.now.chunks.items group.now) }
        requires counted { IsCounted (answer_by self.now answer.old) }
        requires typed { AreOfType (table_in self.now).kind answer.old.selections.items }
        ensures found { OnOk result (answer_by self.now answer.new
            ≡ with_group (question_in self.now) group.now.first
            (map chunk_rows (chunks_of self.now.table.now.chunks.items group.now))
            (answer_by self.now answer.old)) }
        ensures typed { OnOk result
            (AreOfType (table_in self.now).kind answer.new.selections.items) }
    {
        answer.proofs = answer.proofs.saturating_add(self.proofs_at_group(group));
        let skipped = self.is_skipped(group);
        if skipped {
            push_numbers(group.first, group.chunks, &mut answer.skipped)?;
            return Ok(());
        }
        self.add_range(alloc, group.first, group.chunks, answer)?;
        Ok(())
    }

    // Adds all groups in order to the answer of none.
    fn add_groups(&self, alloc: Global, answer: &mut ScanSelection) -> Result<(), AllocError>
        requires plan { IsPlan self.now }
        requires none { answer_by self.now answer.old ≡ no_answer (question_in self.now) }
        requires typed { AreOfType (table_in self.now).kind answer.old.selections.items }
        ensures found { OnOk result
            (answer_by self.now answer.new ≡ answer_to (question_in self.now)) }
        ensures typed { OnOk result
            (AreOfType (table_in self.now).kind answer.new.selections.items) }
    {
        let mut groups = self.table.groups.walk();
        // The chunks of neighbouring groups of one chunk each, which are added together.
        let mut first = 0;
        let mut count = 0;
        while let Some(group) = groups.next_item() {
            if group.joined.is_some() {
                self.add_range(alloc, first, count, answer)?;
                self.add_group(alloc, group, answer)?;
                first = group.first + group.chunks;
                count = 0;
            } else {
                count += 1;
            }
        }
        self.add_range(alloc, first, count, answer)?;
        Ok(())
    }

    // As `add_groups`. As many groups as chunks have one chunk each, so that none is looked at.
    fn add_all(&self, alloc: Global, answer: &mut ScanSelection) -> Result<(), AllocError>
        requires plan { IsPlan self.now }
        requires none { answer_by self.now answer.old ≡ no_answer (question_in self.now) }
        requires typed { AreOfType (table_in self.now).kind answer.old.selections.items }
        ensures found { OnOk result
            (answer_by self.now answer.new ≡ answer_to (question_in self.now)) }
        ensures typed { OnOk result
            (AreOfType (table_in self.now).kind answer.new.selections.items) }
    {
        let chunks = self.table.chunks.len();
        if self.table.groups.len() == chunks {
            self.add_range(alloc, 0, chunks, answer)?;
            return Ok(());
        }
        self.add_groups(alloc, answer)
    }

    /// What the whole scan finds, group by group in order.
    pub fn run(&self, alloc: Global) -> Result<ScanSelection, AllocError>
        requires { IsPlan self.now }
        ensures found { IfOk result (λ answer. answer_by self.now answer
            ≡ answer_to (question_in self.now)) }
        ensures typed { IfOk result
            (λ answer. AreOfType (table_in self.now).kind answer.selections.items) }
    {
        // Most chunks of a scan that statistics serve are skipped.
        let skipped = Vec::with_capacity(alloc, self.table.chunks.len())?;
        let mut answer = ScanSelection {
            selections: Vec::new(alloc),
            skipped,
            whole: Vec::new(alloc),
            rows_tested: 0,
            proofs: 0,
        };
        self.add_all(alloc, &mut answer)?;
        Ok(answer)
    }
}
