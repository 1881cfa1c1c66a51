//! The zone maps of a leaf column.

use crate::column::ZoneColumn;
use crate::operands::statistic_in;
use std::alloc::{AllocError, Global};
use vortex_dtype_core::dtype::DType;
use vortex_stats_array::array_stats::ArrayStats;
use vortex_stats_expr::aggregate::AggregateFn;
use vortex_table_chunk::retyped::leaf_type;

/// The statistics of a leaf column that predicates are compared with, a zone after the other.
#[derive(Drop)]
pub struct LeafZones {
    pub lows: ZoneColumn,
    pub highs: ZoneColumn,
    pub null_counts: ZoneColumn,
}

impl LeafZones {
    ghost use Rattle.std.specs.Prelude.{◌≡◌, ◌∷◌, ◌++◌, [], ℕ, List, length, slice_get, option_map, OnOk};
    ghost use Rattle.vortex_table_zonemaps.specs.Stats.{Zone};
    ghost use Rattle.vortex_table_zonemaps.specs.Zones.{IsLeaf};

    /// The zone maps of no zones, of the leaf column at these positions of a table of the type.
    pub fn new(alloc: Global, dtype: &DType, leaf: &[usize]) -> LeafZones
        ensures { (j : ℕ) → IsLeaf j result [] }
    {
        let dtype = leaf_type(dtype, leaf);
        LeafZones {
            lows: ZoneColumn::of_type(alloc, dtype),
            highs: ZoneColumn::of_type(alloc, dtype),
            null_counts: ZoneColumn::of_counts(alloc),
        }
    }

    // Puts the statistics of a zone of `rows` rows after those of `count` zones.
    pub(crate) fn put(
        &mut self,
        count: usize,
        bounds: Option<&ArrayStats>,
        rows: usize,
    ) -> Result<(), AllocError>
        ensures kept { (j : ℕ) (zones : List Zone) → length zones ≡ count
            → IsLeaf j self.old zones → IsLeaf j self.new zones }
        ensures put { OnOk result ((j : ℕ) (zones : List Zone) (zone : Zone) → length zones ≡ count
            → slice_get zone.0 j ≡ option_map (λ b. b.now) bounds.entry → zone.1 ≡ rows
            → IsLeaf j self.old zones → IsLeaf j self.new (zones ++ zone ∷ [])) }
    {
        let low = statistic_in(bounds, rows, AggregateFn::Min);
        let high = statistic_in(bounds, rows, AggregateFn::Max);
        let null_count = statistic_in(bounds, rows, AggregateFn::NullCount);
        self.lows.put(count, low)?;
        self.highs.put(count, high)?;
        self.null_counts.put(count, null_count)?;
        Ok(())
    }
}
