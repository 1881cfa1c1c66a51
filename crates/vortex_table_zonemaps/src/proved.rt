//! Predicates over neighbouring zones, evaluated for all of them at once.
ghost use Rattle.std.specs.Prelude.{◌≡◌, ◌≤◌, ◌+◌, length, map, IfOk};
ghost use Rattle.vortex_stats_mask.specs.Wanted.{is_wanted};
ghost use Rattle.vortex_stats_select.specs.Wants.{value_at};
ghost use Rattle.vortex_table_zonemaps.specs.Proved.{proved_at};
ghost use Rattle.vortex_table_zonemaps.specs.Stats.{zone_of, zones_in};
ghost use Rattle.vortex_table_zonemaps.specs.Zone.{columns_of};
ghost use Rattle.vortex_table_zonemaps.specs.Zones.{AreZoneMaps, AreZoneMaps-prop};

use crate::operands::ZoneRow;
use crate::place::{ZoneStat, stat_at};
use crate::zone_maps::ZoneMaps;
use std::alloc::{AllocError, Global};
use vortex_arrays_core::array::ArrayRef;
use vortex_stats_bind::bound::BoundExpression;
use vortex_stats_evaluate::rows::is_wanted_at;
use vortex_stats_mask::column::Column;
use vortex_stats_mask::masks::no_rows;
use vortex_stats_select::columns::Columns;
use vortex_stats_select::select::select;
use vortex_table_chunk::chunk::Chunk;

/// Neighbouring chunks of a table, each a row of its zone maps.
#[derive(Clone, Copy)]
pub struct ZoneRange<'s> {
    /// The zone maps of all chunks.
    pub maps: &'s ZoneMaps,
    /// All chunks of the table.
    pub chunks: &'s [Chunk],
    /// The index of the first chunk of the range.
    pub first: usize,
    /// The number of its chunks.
    pub count: usize,
    pub ghost held: { AreZoneMaps maps.now (map zone_of chunks.now) } by { AreZoneMaps-prop maps.now
        (map zone_of chunks.now) },
    pub ghost within: { first + count ≤ length chunks.now },
}

impl ZoneRange<'_> {
    ghost use Rattle.std.specs.Prelude.{◌≡◌, map, IfSome};
    ghost use Rattle.vortex_stats_mask.specs.Columns.{column_of};
    ghost use Rattle.vortex_table_zonemaps.specs.Stats.{zones_in};
    ghost use Rattle.vortex_table_zonemaps.specs.Zone.{stat_in};

    // A column of the zone maps, where it is held.
    fn column_of<'a>(&'a self, stat: ZoneStat) -> Option<Column<'a>>
        ensures { IfSome result (λ column. column_of column
            ≡ map (stat_in stat) (zones_in self.now.chunks.now self.now.first self.now.count)) }
    {
        let column = self.maps.column(stat)?;
        column.slice(self.first, self.count)
    }
}

fn is_wanted_of(predicate: &BoundExpression, want: bool, chunk: &Chunk) -> bool
    ensures { result ≡ is_wanted want (value_at predicate.now (columns_of (zone_of chunk.now))) }
{
    let zone = ZoneRow {
        bounds: chunk.bounds.as_slice(),
        rows: chunk.array.len(),
    };
    is_wanted_at(predicate, want, &zone)
}

// By a look at the statistics of each chunk.
fn test_each(
    alloc: Global,
    predicate: &BoundExpression,
    want: bool,
    chunks: &[Chunk],
) -> Result<Vec<bool>, AllocError>
    ensures { IfOk result (λ mask. mask.items ≡ map
        (λ c. is_wanted want (value_at predicate.now (columns_of (zone_of c)))) chunks.now) }
{
    chunks
        .iter()
        .map(|chunk| is_wanted_of(predicate, want, chunk))
        .collect(alloc)
}

impl Columns for ZoneRange<'_> {
    ghost use Rattle.std.specs.Prelude.{map};
    ghost use Rattle.vortex_table_zonemaps.specs.Stats.{zones_in};
    ghost use Rattle.vortex_table_zonemaps.specs.Zone.{columns_of};

    ghost rows = { λ s. map columns_of (zones_in s.chunks.now s.first s.count) };

    fn len(&self) -> usize {
        self.count
    }

    fn column(&self, _alloc: Global, _path: &[usize]) -> Result<Option<ArrayRef>, AllocError> {
        Ok(None)
    }

    fn leaf(&self, path: &[usize]) -> Option<Column<'_>> {
        self.column_of(stat_at(path)?)
    }

    fn test_rows(
        &self,
        alloc: Global,
        predicate: &BoundExpression,
        want: bool,
    ) -> Result<Vec<bool>, AllocError> {
        let chunks = &self.chunks[self.first..self.first + self.count];
        test_each(alloc, predicate, want, chunks)
    }
}

/// In which zones of a range the predicate is true, a byte a zone. No predicate is never true.
pub fn proved_zones(
    alloc: Global,
    proof: &Option<BoundExpression>,
    range: &ZoneRange,
) -> Result<Vec<bool>, AllocError>
    ensures { IfOk result (λ mask. mask.items ≡ map (proved_at proof.now)
        (zones_in range.now.chunks.now range.now.first range.now.count)) }
{
    let Some(proof) = proof else {
        return no_rows(alloc, range.count);
    };
    select(alloc, proof, true, range)
}
