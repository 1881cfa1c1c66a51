//! What provides statistics of a column with their types.
ghost use Rattle.std.specs.Prelude.{◌≡◌, ◌≢◌, ℕ, true, false, length, IfOk, IfErr};
ghost use Rattle.std.specs.Option.{ForSome};
ghost use Rattle.vortex_model.specs.LogicalType.{LogicalType};
ghost use Rattle.vortex_model.specs.Content.{Raw};
ghost use Rattle.vortex_model_table.specs.Statistics.{Precision as Known};
ghost use Rattle.vortex_dtype_core.specs.View.{type_of};
ghost use Rattle.vortex_scalar_core.specs.Scalar.{scalar_raw};
ghost use Rattle.vortex_stats_bound.specs.Precision.{precision_of, precision_map, is_absent};
ghost use Rattle.vortex_stats_bound.specs.Typed.{AreOfType};
ghost use Rattle.vortex_stats_expr.specs.declared.error.StatsError.TheVariants.{Memory, InvalidStat};
ghost use Rattle.vortex_stats_expr.specs.declared.stat.Stat.{Stat};
ghost use Rattle.vortex_stats_expr.specs.Stats.{stat_type};
ghost use Rattle.vortex_stats_set.specs.Known.{raw_pairs, raw_precision_at};
ghost use Rattle.vortex_stats_set.specs.Pairs.{known};
ghost use Rattle.vortex_stats_set.specs.Valid.{is_known_of};

use vortex_dtype_core::dtype::DType;
use vortex_scalar_core::scalar::Scalar;
use vortex_scalar_value::scalar_value::ScalarValue;
use vortex_stats_bound::precision::Precision;
use vortex_stats_expr::error::StatsError;
use vortex_stats_expr::stat::Stat;
use vortex_stats_set::stats_set::StatsSet;
use vortex_stats_set::typed::{MutTypedStatsSetRef, TypedStatsSetRef};

/// What provides statistics of a column, as Vortex's `StatsProvider`.
pub trait StatsProvider {
    // The type of the column.
    ghost column: { Self → LogicalType };

    // What is known about each statistic.
    ghost knows: { Self → Stat → Known Raw };

    // How many statistics there are.
    ghost count: { Self → ℕ };

    /// What is known about the statistic, as a value of the type that `Stat::dtype` gives it.
    /// `InvalidStat` where a value is there that isn't one of that type, or where the column has no
    /// such statistic.
    fn get(&self, stat: Stat) -> Result<Precision<Scalar>, StatsError>
        ensures value { IfOk result (λ p. precision_map scalar_raw (precision_of p)
            ≡ knows self.now stat) }
        ensures dtype { IfOk result (λ p. ForSome (stat_type stat (column self.now))
            (λ k. AreOfType k (precision_of p))) }
        ensures valid { IfOk result (λ _.
            is_known_of (column self.now) stat (knows self.now stat) ≡ true) }
        ensures refused { IfErr result (λ e. e ≢ Memory → (e ≡ InvalidStat)
            × (is_known_of (column self.now) stat (knows self.now stat) ≡ false)) };

    /// How many statistics there are, `Absent` ones too.
    fn len(&self) -> usize
        ensures { result ≡ count self.now };
}

// Absent where nothing is known, and else `InvalidStat`.
fn absent_or_invalid(known: Precision<&ScalarValue>) -> Result<Precision<Scalar>, StatsError>
    ensures value { IfOk result (λ p. precision_map scalar_raw (precision_of p)
        ≡ raw_precision_at known.entry) }
    ensures absent { IfOk result (λ _. is_absent (precision_of known.entry) ≡ true) }
    ensures refused { IfErr result (λ e. (e ≡ InvalidStat)
        × (is_absent (precision_of known.entry) ≡ false)) }
{
    match known {
        Precision::Absent => Ok(Precision::Absent),
        Precision::Exact(_) | Precision::Inexact(_) => Err(StatsError::InvalidStat),
    }
}

// What a set knows of a statistic of a column of the type.
fn typed_stat(values: &StatsSet, dtype: &DType, stat: Stat) -> Result<Precision<Scalar>, StatsError>
    ensures value { IfOk result (λ p. precision_map scalar_raw (precision_of p)
        ≡ known (raw_pairs values.now) stat) }
    ensures dtype { IfOk result (λ p. ForSome (stat_type stat (type_of dtype.now))
        (λ k. AreOfType k (precision_of p))) }
    ensures valid { IfOk result (λ _.
        is_known_of (type_of dtype.now) stat (known (raw_pairs values.now) stat) ≡ true) }
    ensures refused { IfErr result (λ e. e ≢ Memory → (e ≡ InvalidStat)
        × (is_known_of (type_of dtype.now) stat (known (raw_pairs values.now) stat) ≡ false)) }
{
    let known = values.get_ref(stat);
    match stat.dtype(dtype)? {
        Some(dtype) => known.into_scalar(dtype),
        None => absent_or_invalid(known),
    }
}

impl StatsProvider for TypedStatsSetRef<'_, '_> {
    ghost column = { λ set. type_of set.dtype.now };

    ghost knows = { λ set stat. known (raw_pairs set.values.now) stat };

    ghost count = { λ set. length set.values.now };

    fn get(&self, stat: Stat) -> Result<Precision<Scalar>, StatsError> {
        typed_stat(self.values, self.dtype, stat)
    }

    fn len(&self) -> usize {
        self.values.len()
    }
}

impl StatsProvider for MutTypedStatsSetRef<'_, '_> {
    ghost column = { λ set. type_of set.dtype.now };

    ghost knows = { λ set stat. known (raw_pairs set.values.now) stat };

    ghost count = { λ set. length set.values.now };

    fn get(&self, stat: Stat) -> Result<Precision<Scalar>, StatsError> {
        typed_stat(self.values, self.dtype, stat)
    }

    fn len(&self) -> usize {
        self.values.len()
    }
}
