//! The description of a leaf column in a group of chunks.
ghost use Rattle.std.specs.Prelude.{◌≡◌, IfOk};
ghost use Rattle.vortex_table_schema.specs.Description.{known_raw};

use std::alloc::AllocError;
use vortex_scalar_core::scalar::Scalar;
use vortex_stats_bound::precision::Precision;

/// The statistics of a leaf column in a group of chunks. A bound that was shortened is inexact: it
/// lies below each value, or above each, and need not be one.
#[derive(Drop)]
pub struct Description {
    /// A bound from below, absent where some chunk has null alone.
    pub min: Precision<Scalar>,
    /// A bound from above, absent where some chunk has null alone, or a greatest value above which
    /// no bound is short enough.
    pub max: Precision<Scalar>,
    /// How many values are null.
    pub null_count: Precision<Scalar>,
    /// The sum, where true counts 1. It is absent for strings and bytes, and where its type doesn't
    /// hold it or the sum of chunks that were joined before.
    pub sum: Precision<Scalar>,
    /// Whether all values are equal, where null is equal to null alone. It is absent where joins
    /// could not decide it.
    pub constant: Precision<Scalar>,
}

fn clone_known(known: &Precision<Scalar>) -> Result<Precision<Scalar>, AllocError>
    ensures { IfOk result (λ new. known_raw new ≡ known_raw known.now) }
{
    match known {
        Precision::Exact(value) => Ok(Precision::Exact(value.clone()?)),
        Precision::Inexact(value) => Ok(Precision::Inexact(value.clone()?)),
        Precision::Absent => Ok(Precision::Absent),
    }
}

impl Description {
    ghost use Rattle.std.specs.Prelude.{IfOk};
    ghost use Rattle.vortex_table_schema.specs.Description.{IsSameDescription};

    /// The description once more.
    pub fn clone(&self) -> Result<Description, AllocError>
        ensures { IfOk result (λ new. IsSameDescription self.now new) }
    {
        Ok(Description {
            min: clone_known(&self.min)?,
            max: clone_known(&self.max)?,
            null_count: clone_known(&self.null_count)?,
            sum: clone_known(&self.sum)?,
            constant: clone_known(&self.constant)?,
        })
    }
}
