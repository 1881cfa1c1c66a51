//! Tables with rows of another type.
ghost use Rattle.std.specs.Prelude.{◌<◌, ◌^◌, map, option_map, IfOk, IsTrue};
ghost use Rattle.std.specs.List.{list_all};
ghost use Rattle.vortex_table_chunk.specs.Chunk.{chunk_rows, row_count};
ghost use Rattle.vortex_table_chunk.specs.Formed.{is_formed};
ghost use Rattle.vortex_table_layout.specs.Retyping.{target_of, lengths_of};
ghost use Rattle.vortex_table_core.specs.Group.{chunks_of};
ghost use Rattle.vortex_table_core.specs.Retyped.{IsSizeOf, HasOrdered};

use crate::group::Group;
use crate::table::Table;
use std::alloc::{AllocError, Global};
use std::rc::Rc;
use vortex_dtype_core::dtype::DType;
use vortex_stats_array::array_stats::ArrayStats;
use vortex_table_chunk::chunk::Chunk;
use vortex_table_io::block_list::BlockList;
use vortex_table_layout::retyping::Retyping;
use vortex_table_schema::check::check_type;
use vortex_table_schema::error::TableError;
use vortex_table_schema::leaves::{LeafPath, leaf_positions};
use vortex_table_zonemaps::zone_maps::ZoneMaps;

// The statistics of the group's converted chunks, which are among these. One chunk has its own.
fn joined_again(
    alloc: Global,
    retyping: &Retyping,
    group: &Group,
    chunks: &[Chunk],
) -> Result<Option<Vec<ArrayStats>>, AllocError>
    requires size { IsSizeOf group.now (map chunk_rows (chunks_of chunks.now group.now)) }
    requires formed { IsTrue
        (list_all (is_formed (lengths_of retyping.now) (target_of retyping.now)) chunks.now) }
    requires fits { row_count chunks.now < 2 ^ 64 }
    ensures { IfOk result (λ joined. HasOrdered (target_of retyping.now) (lengths_of retyping.now)
        (option_map (λ v. v.items) joined) (chunks_of chunks.now group.now)) }
{
    match &group.joined {
        Some(_) => {
            let own = &chunks[group.first..group.first + group.chunks];
            let joined = retyping.join_chunks(alloc, own)?;
            Ok(Some(joined))
        }
        None => Ok(None),
    }
}

impl Table {
    ghost use Rattle.std.specs.Prelude.{◌≡◌, Some, None, map, All, IfOk, OnOk, IfErr, OnErr, IsErrOf, IsTrue};
    ghost use Rattle.std.specs.List.{list_all};
    ghost use Rattle.vortex_model.specs.Kept.{type_fault};
    ghost use Rattle.vortex_model_table.specs.Table.{rows_of};
    ghost use Rattle.vortex_model_table.specs.Command.{retype, refusal, after, first_unconvertible};
    ghost use Rattle.vortex_dtype_core.specs.View.{type_of};
    ghost use Rattle.vortex_arrays_builder.specs.Types.{IsPlainLayout};
    ghost use Rattle.vortex_table_schema.specs.Leaves.{leaf_positions};
    ghost use Rattle.vortex_table_schema.specs.Error.{Explains};
    ghost use Rattle.vortex_table_schema.specs.Lengths.{length_in};
    ghost use Rattle.vortex_table_schema.specs.declared.error.TableError.TheVariants.{Total};
    ghost use Rattle.vortex_table_chunk.specs.Chunk.{chunk_rows};
    ghost use Rattle.vortex_table_chunk.specs.Formed.{is_formed};
    ghost use Rattle.vortex_table_layout.specs.Retyping.{target_of, lengths_of};
    ghost use Rattle.vortex_table_core.specs.Arrays.{arrays_of};
    ghost use Rattle.vortex_table_core.specs.Retyped.{AreRegrouped};
    ghost use Rattle.vortex_table_core.specs.Statistics.{HasMergedInOrder};
    ghost use Rattle.vortex_table_layout.specs.AnyTooLarge.{AnyTooLarge};
    ghost use Rattle.vortex_table_core.specs.TableView.{table_of};
    ghost use Rattle.vortex_table_core.specs.Totals.{PassesTotal};

    // The groups with the statistics of the converted chunks.
    fn regrouped(
        &self,
        alloc: Global,
        retyping: &Retyping,
        chunks: &[Chunk],
    ) -> Result<BlockList<Group>, AllocError>
        requires rows { map chunk_rows chunks.now ≡ map chunk_rows self.now.chunks.items }
        requires formed { IsTrue
            (list_all (is_formed (lengths_of retyping.now) (target_of retyping.now)) chunks.now) }
        ensures { IfOk result (λ groups. AreRegrouped (target_of retyping.now)
            (lengths_of retyping.now) chunks.now self.now.groups groups) }
    {
        let mut groups = BlockList::new(alloc);
        let mut old = self.groups.walk();
        // Both show the prover that the groups and the rows can be counted.
        let _ = self.groups.len();
        let _ = self.len();
        while let Some(group) = old.next_item() {
            let joined = joined_again(alloc, retyping, group, chunks)?;
            groups.push(Group {
                first: group.first,
                chunks: group.chunks,
                rows: group.rows,
                joined,
            })?;
        }
        Ok(groups)
    }

    // The chunks and groups converted to the type, which has these leaf columns and bound lengths.
    fn converted(
        &self,
        alloc: Global,
        dtype: &DType,
        leaves: &Rc<Vec<LeafPath>>,
        lengths: &Rc<Vec<usize>>,
    ) -> Result<(Vec<Chunk>, BlockList<Group>), TableError>
        requires kept { type_fault (type_of dtype.now) ≡ None }
        requires leaves { leaves.now.value.items ≡ leaf_positions (type_of dtype.now) }
        requires lengths { lengths.now.value.items
            ≡ map (length_in self.now.bound_lengths) (leaf_positions (type_of dtype.now)) }
        ensures formed { IfOk result (λ parts. IsTrue (list_all
            (is_formed (length_in self.now.bound_lengths) (type_of dtype.now)) parts.0.items)) }
        ensures rows { IfOk result
            (λ parts. map chunk_rows parts.0.items ≡ map chunk_rows self.now.chunks.items) }
        ensures layout { IfOk result (λ parts. All (λ c. IsPlainLayout c.array) parts.0.items) }
        ensures groups { IfOk result (λ parts. AreRegrouped (type_of dtype.now)
            (length_in self.now.bound_lengths) parts.0.items self.now.groups parts.1) }
        ensures converts { OnOk result (first_unconvertible 0 (table_of self.now).kind
            (type_of dtype.now) (rows_of (table_of self.now)) ≡ None) }
        ensures refused { IfErr result (λ e. Explains
            (AnyTooLarge (type_of dtype.now) (table_of self.now).chunks) (first_unconvertible 0
            (table_of self.now).kind (type_of dtype.now) (rows_of (table_of self.now))) e) }
        ensures total { IsErrOf result Total → first_unconvertible 0 (table_of self.now).kind
            (type_of dtype.now) (rows_of (table_of self.now)) ≡ None }
    {
        // Shows the prover that the rows can be counted.
        let _ = self.len();
        let retyping = Retyping {
            source: &self.dtype,
            target: dtype,
            bound_lengths: &self.bound_lengths,
            leaves,
            lengths,
        };
        let chunks = retyping.retype_chunks(alloc, &self.chunks)?;
        let groups = self.regrouped(alloc, &retyping, &chunks)?;
        Ok((chunks, groups))
    }

    /// Converts all rows to the type, which becomes the table's, and lays them out plain. A leaf
    /// column that stays one at its positions keeps its bounds and null counts in each chunk. All
    /// other statistics are taken anew, those of a group from its chunks, from the first to the
    /// last. To the table's own type nothing changes, and after an error the table is as before.
    ///
    /// Refused, in this order: where a table can't hold the type, `NotARecord`, `RepeatedName`,
    /// `UnkeptType`; `NotConvertible` with the first row that the type can't hold, counted over the
    /// whole table; `Total` where a column of a chunk, laid out plain, has strings or bytes that
    /// are too large for views and buffers.
    pub fn retype(&mut self, dtype: DType) -> Result<(), TableError>
        ensures retyped { OnOk result
            (table_of self.new ≡ after (table_of self.old) (retype (type_of dtype))) }
        ensures layout { OnOk result ((¬ (type_of dtype ≡ (table_of self.old).kind))
            → All IsPlainLayout (arrays_of self.new)) }
        ensures statistics { OnOk result ((¬ (type_of dtype ≡ (table_of self.old).kind))
            → HasMergedInOrder self.new) }
        ensures accepted { OnOk result
            (refusal (table_of self.old) (retype (type_of dtype)) ≡ None) }
        ensures refused { IfErr result
            (λ e. Explains (PassesTotal (Some (table_of self.old)) (retype (type_of dtype)))
            (refusal (table_of self.old) (retype (type_of dtype))) e) }
        ensures total { IsErrOf result Total
            → refusal (table_of self.old) (retype (type_of dtype)) ≡ None }
        ensures unchanged { OnErr result (self.new ≡ self.old) }
        ensures equal { type_of dtype ≡ (table_of self.old).kind → self.new ≡ self.old }
    {
        let alloc = *self.chunks.allocator();
        check_type(alloc, &dtype)?;
        if dtype == self.dtype {
            return Ok(());
        }
        let leaves = leaf_positions(alloc, &dtype)?;
        let lengths = self.bound_lengths.of_leaves(alloc, &leaves)?;
        let (chunks, groups) = self.converted(alloc, &dtype, &leaves, &lengths)?;
        let zones = ZoneMaps::of_converted(alloc, &dtype, &self.leaves, &leaves, &chunks)?;
        self.dtype = dtype;
        self.leaves = leaves;
        self.lengths = lengths;
        self.chunks = chunks;
        self.groups = groups;
        // Where the same leaf columns stay, so do their bounds and null counts.
        if let Some(zones) = zones {
            self.zones = zones;
        }
        Ok(())
    }
}
