//! Descriptions of columns of groups.

use crate::table::Table;
use std::alloc::Global;
use vortex_dtype_path::path::FieldPath;
use vortex_dtype_ptype::nullability::Nullability;
use vortex_stats_array::array_stats::ArrayStats;
use vortex_table_chunk::chunk::bounds_at;
use vortex_table_plan::describe::description_of;
use vortex_table_schema::description::Description;
use vortex_table_schema::error::TableError;
use vortex_table_schema::leaf::leaf_at;

impl Table {
    ghost use Rattle.std.specs.Prelude.{◌≡◌, ◌<◌, Some, None, true, length, map, slice_index_or, IfOk, OnOk, IfErr};
    ghost use Rattle.vortex_model_table.specs.Scan.{kind_at};
    ghost use Rattle.vortex_model_table.specs.ZoneMap.{ZoneMap};
    ghost use Rattle.vortex_model_table.specs.Reply.{Describes};
    ghost use Rattle.vortex_model_table.specs.Command.{describe, positions_of, refusal};
    ghost use Rattle.vortex_dtype_path.specs.View.{steps_of};
    ghost use Rattle.vortex_model.specs.Kept.{is_leaf_at};
    ghost use Rattle.vortex_dtype_core.specs.View.{type_of};
    ghost use Rattle.vortex_table_chunk.specs.Chunk.{chunk_rows};
    ghost use Rattle.vortex_table_chunk.specs.Joined.{IsJoined};
    ghost use Rattle.vortex_stats_array.specs.declared.array_stats.ArrayStats.{ArrayStats};
    ghost use Rattle.vortex_table_schema.specs.Error.{Explains};
    ghost use Rattle.vortex_table_schema.specs.Lengths.{length_in};
    ghost use Rattle.vortex_table_core.specs.Group.{chunks_of};
    ghost use Rattle.vortex_table_core.specs.declared.group.Group.{Group};
    ghost use Rattle.vortex_table_core.specs.Statistics.{statistics_at, IsDescribedBy};
    ghost use Rattle.vortex_table_core.specs.TableView.{table_of};
    ghost use Rattle.vortex_table_plan.specs.Described.{IsOfLeaf};
    ghost use Rattle.vortex_table_schema.specs.Description.{IsDescription};

    /// The statistics of the leaf column that the path leads to, in the rows of a group.
    /// Its bounds and its sum are of nullable types.
    ///
    /// Refused, in this order: `UnknownPath` or `ElementStep` by the first step of the path at
    /// fault, with the index 0; `NotALeaf`; `NoSuchGroup`.
    pub fn describe(
        &self,
        alloc: Global,
        path: &FieldPath,
        group: usize,
    ) -> Result<Description, TableError>
        ensures described { IfOk result (λ d. (z : ZoneMap)
            × Describes (table_of self.now)
            (positions_of (table_of self.now).kind (steps_of path.now)) group z
            × IsDescription d z) }
        ensures statistics { IfOk result (λ d. (b : ArrayStats) × (statistics_at self.now
            (positions_of (table_of self.now).kind (steps_of path.now)) group ≡ Some b)
            × IsDescribedBy b d) }
        ensures types { IfOk result (λ d. IsOfLeaf (kind_at (table_of self.now).kind
            (positions_of (table_of self.now).kind (steps_of path.now))) d) }
        ensures accepted { OnOk result
            (refusal (table_of self.now) (describe (steps_of path.now) group) ≡ None) }
        ensures refused { IfErr result
            (λ e. Explains ⊥
            (refusal (table_of self.now) (describe (steps_of path.now) group)) e) }
    {
        let place = leaf_at(alloc, 0, &self.dtype, path)?;
        if group >= self.groups.len() {
            return Err(TableError::NoSuchGroup);
        }
        let statistics = self.leaf_statistics(group, &place);
        let description = description_of(statistics, Nullability::Nullable)?;
        Ok(description)
    }

    // The statistics of the leaf column at these positions in the rows of a group.
    fn leaf_statistics<'a>(&'a self, group: usize, place: &[usize]) -> &'a ArrayStats
        requires group { group < length self.now.groups }
        requires leaf { is_leaf_at (type_of self.now.dtype) place.now ≡ true }
        ensures joined { (g : Group) → ∥ IsJoined (type_of self.now.dtype)
            (length_in self.now.bound_lengths) place.now result.now
            (map chunk_rows (chunks_of self.now.chunks.items
            (slice_index_or self.now.groups group g))) ∥₁ }
        ensures own { statistics_at self.now place.now group ≡ Some result.now }
    {
        let group = self.groups.item(group);
        let Some(bounds) = bounds_at(&self.leaves, self.statistics(group), place) else {
            unreachable!()
        };
        bounds
    }
}
