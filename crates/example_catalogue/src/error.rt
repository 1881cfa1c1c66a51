//! Why a call on a catalogue is refused.
ghost use Rattle.std.specs.Prelude.{◌≡◌};

use vortex_stats::StatsError;

/// Why a call on a catalogue is refused.
#[derive(Clone, Copy, Debug, PartialEq, Eq, Drop)]
pub enum CatalogueError {
    /// By a call on statistics: `Memory`, or `InvalidStat` for one that such a column can't have.
    Stats(StatsError),
    /// A partition has the number already.
    Taken,
    /// No partition has the number.
    Missing,
    /// The two partitions are one.
    Same,
}

impl From<StatsError> for CatalogueError {
    ghost use Rattle.example_catalogue.specs.declared.error.CatalogueError.TheVariants.{Stats};

    ghost from_gives = { λ error e. e ≡ Stats error };

    fn from(error: StatsError) -> CatalogueError {
        CatalogueError::Stats(error)
    }
}
