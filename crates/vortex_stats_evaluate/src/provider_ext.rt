//! Statistics read as native values and as bounds, from whatever provides them.
ghost use Rattle.std.specs.Prelude.{◌≡◌, ◌≢◌, true, false, option_map, IfOk, IfErr, IfSome};
ghost use Rattle.std.specs.Option.{ForSome};
ghost use Rattle.vortex_scalar_core.specs.Scalar.{scalar_raw};
ghost use Rattle.vortex_stats_bound.specs.Precision.{precision_of, precision_map, if_known};
ghost use Rattle.vortex_stats_bound.specs.Typed.{AreOfType};
ghost use Rattle.vortex_stats_expr.specs.declared.error.StatsError.TheVariants.{Memory, InvalidStat};
ghost use Rattle.vortex_stats_expr.specs.Stats.{stat_type};
ghost use Rattle.vortex_stats_set.specs.Valid.{is_known_of};
ghost use Rattle.vortex_stats_evaluate.specs.Reading.{said, is_read_at};

use crate::provider::StatsProvider;
use crate::reading::read_as;
use std::alloc::Global;
use vortex_scalar_convert::from_scalar::FromScalar;
use vortex_scalar_core::scalar::Scalar;
use vortex_stats_bound::precision::Precision;
use vortex_stats_bound::stat_bound::StatType;
use vortex_stats_expr::error::StatsError;
use vortex_stats_expr::stat::Stat;

/// What can be asked of whatever provides statistics, as Vortex's `StatsProviderExt`.
pub trait StatsProviderExt: StatsProvider {
    /// What is known about the statistic, as a native value. `InvalidStat` where a value is there
    /// that isn't one of the statistic's type or doesn't read as one of `T`, and `Memory`.
    final fn get_as<T: FromScalar>(
        &self,
        alloc: Global,
        stat: Stat,
    ) -> Result<Precision<T>, StatsError>
        ensures value { IfOk result (λ p. precision_map T.says (precision_of p)
            ≡ said (Self.knows self.now stat)) }
        ensures read { IfOk result (λ _. is_read_at T.reads (stat_type stat (Self.column self.now))
            (Self.knows self.now stat) ≡ true) }
        ensures refused { IfErr result (λ e. e ≢ Memory → (e ≡ InvalidStat)
            × (is_read_at T.reads (stat_type stat (Self.column self.now))
            (Self.knows self.now stat) ≡ false)) }
    {
        let known = self.get(stat)?;
        read_as(alloc, &known)
    }

    /// What is known about the marker's statistic, as its bound. `None` where nothing is. It is
    /// refused as `get` is.
    final fn get_scalar_bound<S: StatType<Scalar>>(&self) -> Result<Option<S::Bound>, StatsError>
        ensures value { IfOk result (λ b.
            option_map (λ x. precision_map scalar_raw (S.Bound.known x)) b
            ≡ if_known (Self.knows self.now S.STAT)) }
        ensures dtype { IfOk result (λ b. IfSome b (λ x.
            ForSome (stat_type S.STAT (Self.column self.now))
            (λ k. AreOfType k (S.Bound.known x)))) }
        ensures valid { IfOk result (λ _. is_known_of (Self.column self.now) S.STAT
            (Self.knows self.now S.STAT) ≡ true) }
        ensures refused { IfErr result (λ e. e ≢ Memory → (e ≡ InvalidStat)
            × (is_known_of (Self.column self.now) S.STAT (Self.knows self.now S.STAT) ≡ false)) }
    {
        let known = self.get(S::STAT)?;
        Ok(known.bound::<S>())
    }

    /// What is known about the marker's statistic, as a bound of native values. `None` where
    /// nothing is. It is refused as `get_as` is.
    final fn get_as_bound<S: StatType<U>, U: FromScalar>(
        &self,
        alloc: Global,
    ) -> Result<Option<S::Bound>, StatsError>
        ensures value { IfOk result (λ b.
            option_map (λ x. precision_map U.says (S.Bound.known x)) b
            ≡ if_known (said (Self.knows self.now S.STAT))) }
        ensures read { IfOk result (λ _. is_read_at U.reads
            (stat_type S.STAT (Self.column self.now)) (Self.knows self.now S.STAT) ≡ true) }
        ensures refused { IfErr result (λ e. e ≢ Memory → (e ≡ InvalidStat)
            × (is_read_at U.reads (stat_type S.STAT (Self.column self.now))
            (Self.knows self.now S.STAT) ≡ false)) }
    {
        let known = self.get_as::<U>(alloc, S::STAT)?;
        Ok(known.bound::<S>())
    }
}

impl<P: StatsProvider> StatsProviderExt for P {}
