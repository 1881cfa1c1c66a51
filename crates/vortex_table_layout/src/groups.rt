//! The statistics of a group of converted chunks.
use crate::retyping::Retyping;
use std::alloc::{AllocError, Global};
use vortex_stats_array::array_stats::ArrayStats;
use vortex_table_chunk::bounds::join_bounds;
use vortex_table_chunk::chunk::Chunk;

impl Retyping<'_> {
    ghost use Rattle.std.specs.Prelude.{◌<◌, ◌^◌, length, map, IfOk, IsTrue};
    ghost use Rattle.std.specs.List.{list_all};
    ghost use Rattle.vortex_table_schema.specs.Leaves.{leaf_positions};
    ghost use Rattle.vortex_table_chunk.specs.Chunk.{chunk_rows, row_count};
    ghost use Rattle.vortex_table_chunk.specs.Formed.{is_formed};
    ghost use Rattle.vortex_table_layout.specs.InOrder.{AreJoinedInOrder};
    ghost use Rattle.vortex_table_layout.specs.Retyping.{target_of, lengths_of};

    /// The statistics of two or more converted chunks as those of one group, joined from the first
    /// chunk to the last.
    pub fn join_chunks(
        &self,
        alloc: Global,
        chunks: &[Chunk],
    ) -> Result<Vec<ArrayStats>, AllocError>
        requires many { 1 < length chunks.now }
        requires formed { IsTrue
            (list_all (is_formed (lengths_of self.now) (target_of self.now)) chunks.now) }
        requires fits { row_count chunks.now < 2 ^ 64 }
        ensures { IfOk result (λ joined. ∥ AreJoinedInOrder (target_of self.now)
            (lengths_of self.now) (leaf_positions (target_of self.now)) joined.items
            (map chunk_rows chunks.now) ∥₁) }
    {
        let mut joined = join_bounds(alloc, &chunks[0].bounds, &chunks[1].bounds)?;
        for chunk in &chunks[2..] {
            joined = join_bounds(alloc, &joined, &chunk.bounds)?;
        }
        Ok(joined)
    }
}
