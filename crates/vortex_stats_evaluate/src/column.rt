//! The statistics of a column.
ghost use Rattle.std.specs.Prelude.{◌≡◌, true};
ghost use Rattle.vortex_model.specs.Path.{eq_positions};
ghost use Rattle.vortex_dtype_core.specs.View.{type_of};
ghost use Rattle.vortex_stats_set.specs.Known.{raw_pairs};
ghost use Rattle.vortex_stats_set.specs.Valid.{are_valid_for};

use std::alloc::AllocError;
use vortex_dtype_core::dtype::DType;
use vortex_stats_set::stats_set::StatsSet;

/// The statistics of a column, each with a value that the column can have.
#[derive(Drop)]
pub struct ColumnStats {
    // The positions of the column, and its type.
    pub(crate) path: Vec<usize>,
    pub(crate) dtype: DType,
    pub(crate) stats: StatsSet,
    ghost valid: { are_valid_for (type_of dtype) stats ≡ true },
}

impl Clone for ColumnStats {
    ghost is_clone = { λ old new. (new.path.items ≡ old.path.items)
        × (type_of new.dtype ≡ type_of old.dtype) × (raw_pairs new.stats ≡ raw_pairs old.stats) };

    #[tactic(auto, using(crate::proofs::Adding::stays_valid))]
    fn clone(&self) -> Result<ColumnStats, AllocError> {
        let path = self.path.clone()?;
        let dtype = self.dtype.clone()?;
        let stats = self.stats.clone()?;
        Ok(ColumnStats { path, dtype, stats })
    }
}

impl ColumnStats {
    pub(crate) fn is_at(&self, path: &[usize]) -> bool
        ensures { result ≡ eq_positions self.now.path.items path.now }
    {
        self.path.as_slice() == path
    }
}
