//! The statistics of all leaf columns of zones.
ghost use Rattle.std.specs.Prelude.{◌≡◌, ◌∷◌, ◌++◌, [], List, length, OnOk};
ghost use Rattle.vortex_table_chunk.specs.Formed.{eq_leaves};
ghost use Rattle.vortex_stats_array.specs.declared.array_stats.ArrayStats.{ArrayStats};
ghost use Rattle.vortex_table_zonemaps.specs.Stats.{Zone};
ghost use Rattle.vortex_table_zonemaps.specs.Zones.{AreLeaves};

use crate::column::ZoneColumn;
use crate::leaf::LeafZones;
use crate::place::ZoneStat;
use std::alloc::{AllocError, Global};
use vortex_dtype_core::dtype::DType;
use vortex_stats_array::array_stats::ArrayStats;
use vortex_stats_bind::value::Value;
use vortex_table_chunk::chunk::Chunk;
use vortex_table_schema::leaves::LeafPath;

/// What proofs read of zones, such as the chunks of a table: of each leaf column the low, the high
/// and the null count, and the number of rows. What an array of columns is to rows, this is to
/// zones.
#[derive(Drop)]
pub struct ZoneMaps {
    pub leaves: Vec<LeafZones>,
    pub rows: ZoneColumn,
}

// Puts the statistics of a zone of `rows` rows after those of `count` zones.
fn put_leaves(
    leaves: &mut Vec<LeafZones>,
    count: usize,
    bounds: &[ArrayStats],
    rows: usize,
) -> Result<(), AllocError>
    ensures kept { (zones : List Zone) → length zones ≡ count
        → AreLeaves leaves.old.items zones → AreLeaves leaves.new.items zones }
    ensures put { OnOk result ((zones : List Zone) → length zones ≡ count
        → AreLeaves leaves.old.items zones
        → AreLeaves leaves.new.items (zones ++ (bounds.now, rows) ∷ [])) }
{
    for index in 0..leaves.len() {
        leaves[index].put(count, bounds.get(index), rows)?;
    }
    Ok(())
}

// Whether the paths are these, one by one.
#[tactic(auto, using(crate::proofs::Paths::alike))]
fn are_leaves(found: &[LeafPath], wanted: &[LeafPath]) -> bool
    ensures { result ≡ eq_leaves found.now wanted.now }
{
    if found.len() != wanted.len() {
        return false;
    }
    for (i, leaf) in found.iter().enumerate() {
        let other = &wanted[i];
        if !leaf.equals(other.as_slice()) {
            return false;
        }
    }
    true
}

impl ZoneMaps {
    ghost use Rattle.std.specs.Prelude.{◌≡◌, ◌∷◌, ◌++◌, [], List, length, map, is_none, IfOk, OnOk, IfSome};
    ghost use Rattle.vortex_table_chunk.specs.Formed.{eq_leaves};
    ghost use Rattle.vortex_table_zonemaps.specs.Column.{IsColumnOf};
    ghost use Rattle.vortex_table_zonemaps.specs.Stats.{Zone, zone_of};
    ghost use Rattle.vortex_table_zonemaps.specs.Zone.{stat_in};
    ghost use Rattle.vortex_table_zonemaps.specs.Zones.{IsLeaf, AreZoneMaps};

    /// The zone maps of no zones, of a table of the type with these leaf columns.
    pub fn new(alloc: Global, dtype: &DType, leaves: &[LeafPath]) -> Result<ZoneMaps, AllocError>
        ensures { IfOk result (λ maps. AreZoneMaps maps []) }
    {
        let mut held = Vec::with_capacity(alloc, leaves.len())?;
        for leaf in leaves {
            held.push(LeafZones::new(alloc, dtype, leaf.as_slice()))?;
        }
        Ok(ZoneMaps {
            leaves: held,
            rows: ZoneColumn::of_counts(alloc),
        })
    }

    /// Puts a zone after the first `count` zones, which stay as they are, also after an error. Its
    /// `bounds` are those of the leaf columns in their order. Later values, which an earlier call
    /// left that was refused, are dropped.
    pub fn put(
        &mut self,
        count: usize,
        bounds: &[ArrayStats],
        rows: usize,
    ) -> Result<(), AllocError>
        ensures kept { (zones : List Zone) → length zones ≡ count
            → AreZoneMaps self.old zones → AreZoneMaps self.new zones }
        ensures put { OnOk result ((zones : List Zone) → length zones ≡ count
            → AreZoneMaps self.old zones
            → AreZoneMaps self.new (zones ++ (bounds.now, rows) ∷ [])) }
    {
        put_leaves(&mut self.leaves, count, bounds, rows)?;
        self.rows.put(count, Value::Count(rows as u64))?;
        Ok(())
    }

    /// The zone maps of these chunks of a table of the type with these leaf columns.
    pub fn of_chunks(
        alloc: Global,
        dtype: &DType,
        leaves: &[LeafPath],
        chunks: &[Chunk],
    ) -> Result<ZoneMaps, AllocError>
        ensures { IfOk result (λ maps. AreZoneMaps maps (map zone_of chunks.now)) }
    {
        let mut maps = ZoneMaps::new(alloc, dtype, leaves)?;
        for (index, chunk) in chunks.iter().enumerate() {
            maps.put(index, &chunk.bounds, chunk.array.len())?;
        }
        Ok(maps)
    }

    /// The zone maps of chunks that were converted to the type with these leaf columns. `None`
    /// where those are the `old` ones: bounds and null counts don't change with a type, so the zone
    /// maps of the chunks are those of the converted ones too.
    pub fn of_converted(
        alloc: Global,
        dtype: &DType,
        old: &[LeafPath],
        leaves: &[LeafPath],
        chunks: &[Chunk],
    ) -> Result<Option<ZoneMaps>, AllocError>
        ensures when { IfOk result (λ made. is_none made ≡ eq_leaves old.now leaves.now) }
        ensures made { IfOk result
            (λ made. IfSome made (λ maps. AreZoneMaps maps (map zone_of chunks.now))) }
    {
        if are_leaves(old, leaves) {
            return Ok(None);
        }
        let maps = ZoneMaps::of_chunks(alloc, dtype, leaves, chunks)?;
        Ok(Some(maps))
    }

    /// The column of a statistic, and `None` where the leaf isn't there.
    pub fn column(&self, stat: ZoneStat) -> Option<&ZoneColumn>
        ensures { (zones : List Zone) → AreZoneMaps self.now zones → IfSome result
            (λ column. IsColumnOf column.now (map (stat_in stat) zones)) }
    {
        match stat {
            ZoneStat::Low(leaf) => Some(&self.leaf(leaf)?.lows),
            ZoneStat::High(leaf) => Some(&self.leaf(leaf)?.highs),
            ZoneStat::NullCount(leaf) => Some(&self.leaf(leaf)?.null_counts),
            ZoneStat::Rows => Some(&self.rows),
        }
    }

    fn leaf(&self, index: usize) -> Option<&LeafZones>
        ensures { (zones : List Zone) → AreZoneMaps self.now zones → IfSome result
            (λ leaf. IsLeaf index leaf.now zones) }
    {
        if index >= self.leaves.len() {
            return None;
        }
        Some(&self.leaves[index])
    }
}
