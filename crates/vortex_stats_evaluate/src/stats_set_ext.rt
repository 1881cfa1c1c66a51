//! Statistics of a set read as native values.
ghost use Rattle.std.specs.Prelude.{◌≡◌, ◌≢◌, Some, true, false, IfOk, IfErr};
ghost use Rattle.vortex_model.specs.Content.{Raw};
ghost use Rattle.vortex_model_table.specs.Statistics.{Precision as Known};
ghost use Rattle.vortex_dtype_core.specs.View.{type_of};
ghost use Rattle.vortex_stats_bound.specs.Precision.{precision_of, precision_map};
ghost use Rattle.vortex_stats_expr.specs.declared.error.StatsError.TheVariants.{Memory, InvalidStat};
ghost use Rattle.vortex_stats_expr.specs.declared.stat.Stat.{Stat};
ghost use Rattle.vortex_stats_set.specs.Known.{raw_pairs};
ghost use Rattle.vortex_stats_set.specs.Pairs.{known};
ghost use Rattle.vortex_stats_evaluate.specs.Reading.{said, is_read_at};

use crate::reading::read_as;
use std::alloc::Global;
use vortex_dtype_core::dtype::DType;
use vortex_scalar_convert::from_scalar::FromScalar;
use vortex_stats_bound::precision::Precision;
use vortex_stats_expr::error::StatsError;
use vortex_stats_expr::stat::Stat;
use vortex_stats_set::stats_set::StatsSet;

/// What can be asked of a set beside its pairs.
pub trait StatsSetExt {
    ghost knows: { Self → Stat → Known Raw };

    /// What is known about the statistic, as a native value read from one of the type.
    /// `InvalidStat` where a value is there that isn't one of the type or doesn't read as one of
    /// `T`, and `Memory`.
    fn get_as<T: FromScalar>(
        &self,
        alloc: Global,
        stat: Stat,
        dtype: &DType,
    ) -> Result<Precision<T>, StatsError>
        ensures value { IfOk result (λ p. precision_map T.says (precision_of p)
            ≡ said (knows self.now stat)) }
        ensures read { IfOk result (λ _.
            is_read_at T.reads (Some (type_of dtype.now)) (knows self.now stat) ≡ true) }
        ensures refused { IfErr result (λ e. e ≢ Memory → (e ≡ InvalidStat)
            × (is_read_at T.reads (Some (type_of dtype.now)) (knows self.now stat) ≡ false)) };
}

impl StatsSetExt for StatsSet {
    ghost knows = { λ set stat. known (raw_pairs set) stat };

    fn get_as<T: FromScalar>(
        &self,
        alloc: Global,
        stat: Stat,
        dtype: &DType,
    ) -> Result<Precision<T>, StatsError> {
        let known = self.get_ref(stat).into_scalar(dtype.clone()?)?;
        read_as(alloc, &known)
    }
}
