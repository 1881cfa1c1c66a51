//! Joins of neighbouring groups.

use crate::group::Group;
use crate::table::Table;
use std::alloc::{AllocError, Global};
use vortex_stats_array::array_stats::ArrayStats;
use vortex_table_chunk::bounds::join_bounds;
use vortex_table_schema::error::TableError;

impl Table {
    ghost use Rattle.std.specs.Prelude.{◌≡◌, ◌<◌, ◌≤◌, ◌+◌, None, length, map, slice_index_or, IfOk, OnOk, IfErr, OnErr, MatchOption};
    ghost use Rattle.vortex_model_table.specs.Command.{join, refusal, after};
    ghost use Rattle.vortex_dtype_core.specs.View.{type_of};
    ghost use Rattle.vortex_table_chunk.specs.Chunk.{chunk_rows};
    ghost use Rattle.vortex_table_chunk.specs.Joined.{AreJoined};
    ghost use Rattle.vortex_table_schema.specs.Leaves.{leaf_positions};
    ghost use Rattle.vortex_table_schema.specs.Error.{Explains};
    ghost use Rattle.vortex_table_schema.specs.Lengths.{length_in};
    ghost use Rattle.vortex_table_core.specs.Group.{IsGroup, IsOneGroup, chunks_of};
    ghost use Rattle.vortex_table_core.specs.GroupRows.{rows_of_group};
    ghost use Rattle.vortex_table_core.specs.Kept.{HasChunksOf};
    ghost use Rattle.vortex_table_core.specs.Statistics.{statistics_in, statistics_of, AreMergedAt, IsMergedGroup};
    ghost use Rattle.vortex_table_core.specs.TableView.{table_of};

    // The statistics of each leaf column in the rows of a group.
    pub(crate) fn statistics<'a>(&'a self, group: &'a Group) -> &'a [ArrayStats]
        requires inside { group.now.first < length self.now.chunks.items }
        requires group { IsGroup (type_of self.now.dtype) (length_in self.now.bound_lengths)
            group.now (chunks_of self.now.chunks.items group.now) }
        ensures joined { ∥ AreJoined (type_of self.now.dtype) (length_in self.now.bound_lengths)
            (leaf_positions (type_of self.now.dtype)) result.now
            (map chunk_rows (chunks_of self.now.chunks.items group.now)) ∥₁ }
        ensures own { result.now ≡ statistics_in self.now.chunks.items group.now }
    {
        match &group.joined {
            Some(bounds) => bounds.as_slice(),
            None => self.chunks[group.first].bounds.as_slice(),
        }
    }

    // The group at the index and the next one, as one.
    fn joined_group(&self, alloc: Global, index: usize) -> Result<Group, AllocError>
        requires { index + 1 < length self.now.groups }
        ensures group { IfOk result (λ group. IsOneGroup (type_of self.now.dtype)
            (length_in self.now.bound_lengths) self.now.groups index self.now.chunks.items group) }
        ensures merged { IfOk result (λ group. IsMergedGroup (type_of self.now.dtype)
            self.now.groups index self.now.chunks.items group) }
    {
        let left = self.groups.item(index);
        let right = self.groups.item(index + 1);
        let joined = join_bounds(alloc, self.statistics(left), self.statistics(right))?;
        Ok(Group {
            first: left.first,
            chunks: left.chunks + right.chunks,
            rows: left.rows + right.rows,
            joined: Some(joined),
        })
    }

    /// Joins the group at the index with the next one: a scan then looks at them as one. The chunks
    /// and the other groups stay. After an error the table is as before.
    ///
    /// Refused where there aren't both groups: `NoSuchGroup`.
    pub fn join(&mut self, index: usize) -> Result<(), TableError>
        ensures joined { OnOk result (table_of self.new ≡ after (table_of self.old) (join index)) }
        ensures chunks { OnOk result (HasChunksOf self.old self.new) }
        ensures zones { OnOk result (self.new.zones ≡ self.old.zones) }
        ensures statistics { OnOk result (AreMergedAt (type_of self.old.dtype) index
            (statistics_of self.old) (statistics_of self.new)) }
        ensures accepted { OnOk result (refusal (table_of self.old) (join index) ≡ None) }
        ensures refused { IfErr result
            (λ e. Explains ⊥ (refusal (table_of self.old) (join index)) e) }
        ensures unchanged { OnErr result (self.new ≡ self.old) }
    {
        let alloc = *self.chunks.allocator();
        if self.groups.len() < 2 || index > self.groups.len() - 2 {
            return Err(TableError::NoSuchGroup);
        }
        let joined = self.joined_group(alloc, index)?;
        self.groups.replace(index, joined);
        self.groups.remove(index + 1);
        Ok(())
    }

    /// The number of rows of the group at the index, if there is one.
    #[tactic(auto, using(crate::proofs::GroupCounts::counted))]
    pub fn group_len(&self, group: usize) -> Option<usize>
        ensures { MatchOption result (length (table_of self.now).groups ≤ group)
            (λ rows. (group < length (table_of self.now).groups)
            × (rows ≡ length (rows_of_group (table_of self.now) group))) }
    {
        if group >= self.groups.len() {
            return None;
        }
        let rows = self.groups.item(group).rows;
        Some(rows)
    }

    /// The number of groups.
    pub fn group_count(&self) -> usize
        ensures { result ≡ length (table_of self.now).groups }
    {
        self.groups.len()
    }
}
