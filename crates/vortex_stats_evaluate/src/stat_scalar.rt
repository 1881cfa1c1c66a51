//! Values of placeholders from sets of statistics, as Vortex's `vortex.stat` function gives them.
ghost use Rattle.std.specs.Prelude.{◌≡◌, ◌≢◌, true, false, Some, IfOk, IfErr, IsTrue};
ghost use Rattle.std.specs.Option.{ForSome};
ghost use Rattle.vortex_model.specs.LogicalType.{integer_type, boolean_type, u64, nullable, with_nullability};
ghost use Rattle.vortex_model_table.specs.Typing.{type_of_aggregate};
ghost use Rattle.vortex_model.specs.Valid.{valid};
ghost use Rattle.vortex_model_table.specs.Statistics.{shown, shown_count, all_counted, none_counted, placeholder_value};
ghost use Rattle.vortex_dtype_core.specs.View.{type_of};
ghost use Rattle.vortex_scalar_value.specs.View.{raw_in, content_in};
ghost use Rattle.vortex_scalar_core.specs.Scalar.{scalar_type, scalar_content};
ghost use Rattle.vortex_stats_expr.specs.Aggregate.{aggregate_of};
ghost use Rattle.vortex_stats_bound.specs.Precision.{precision_of};
ghost use Rattle.vortex_stats_expr.specs.declared.error.StatsError.TheVariants.{Memory, InvalidStat};
ghost use Rattle.vortex_stats_expr.specs.Stats.{stat_type};
ghost use Rattle.vortex_stats_set.specs.Known.{raw_pairs};
ghost use Rattle.vortex_stats_set.specs.Pairs.{known};
ghost use Rattle.vortex_stats_set.specs.Said.{said_count, statistics_in};
ghost use Rattle.vortex_stats_set.specs.Valid.{is_known_of};
ghost use Rattle.vortex_stats_evaluate.specs.Told.{is_tellable, IsStatFault, IsCountOfRows};
ghost use Rattle.vortex_stats_evaluate.specs.Reading.{said};

use crate::provider::StatsProvider;
use crate::provider_ext::StatsProviderExt;
use std::alloc::Global;
use vortex_dtype_core::dtype::DType;
use vortex_scalar_core::scalar::Scalar;
use vortex_scalar_value::pvalue::PValue;
use vortex_scalar_value::scalar_value::ScalarValue;
use vortex_stats_bound::precision::Precision;
use vortex_stats_expr::aggregate::AggregateFn;
use vortex_stats_expr::aggregate_dtype::aggregate_dtype;
use vortex_stats_expr::error::StatsError;
use vortex_stats_expr::stat::Stat;
use vortex_stats_set::stats_set::StatsSet;
use vortex_stats_set::typed::TypedStatsSetRef;

/// The value of a placeholder over a column of the type, from what the set knows about `rows` rows,
/// as one of the placeholder's type. Null where that isn't known.
///
/// `UnsupportedAggregate` where the aggregate function doesn't take the type, else `InvalidStat`
/// where the statistic that it reads has a value that such a column can't have, and `Memory`.
pub fn stat_scalar(
    alloc: Global,
    aggregate: AggregateFn,
    stats: &StatsSet,
    dtype: &DType,
    rows: usize,
) -> Result<Scalar, StatsError>
    ensures dtype { IfOk result (λ scalar. type_of_aggregate (aggregate_of aggregate)
        (type_of dtype.now) ≡ Some (scalar_type scalar)) }
    ensures value { IfOk result (λ scalar. scalar_content scalar
        ≡ placeholder_value (aggregate_of aggregate) (statistics_in (raw_pairs stats.now)) rows) }
    ensures told { IfOk result (λ _. is_tellable (type_of dtype.now) (raw_pairs stats.now)
        (aggregate_of aggregate) ≡ true) }
    ensures refused { IfErr result (λ e. e ≢ Memory → IsStatFault e
        (type_of_aggregate (aggregate_of aggregate) (type_of dtype.now))
        (is_tellable (type_of dtype.now) (raw_pairs stats.now) (aggregate_of aggregate))) }
{
    let Some(placeholder) = aggregate_dtype(alloc, aggregate, dtype)? else {
        return Err(StatsError::UnsupportedAggregate);
    };
    let value = placeholder_value(alloc, aggregate, &stats.as_typed_ref(dtype), rows)?;
    Ok(Scalar::new_unchecked(placeholder, value))
}

// The value of the placeholder, where `None` is null.
#[tactic(auto, using(crate::proofs::Told::told))]
fn placeholder_value(
    alloc: Global,
    aggregate: AggregateFn,
    stats: &TypedStatsSetRef,
    rows: usize,
) -> Result<Option<ScalarValue>, StatsError>
    ensures value { IfOk result (λ v. content_in v ≡ placeholder_value (aggregate_of aggregate)
        (statistics_in (raw_pairs stats.now.values.now)) rows) }
    ensures told { IfOk result (λ _. is_tellable (type_of stats.now.dtype.now)
        (raw_pairs stats.now.values.now) (aggregate_of aggregate) ≡ true) }
    ensures valid { IfOk result (λ v. ForSome
        (type_of_aggregate (aggregate_of aggregate) (type_of stats.now.dtype.now))
        (λ k. IsTrue (valid k (raw_in v)))) }
    ensures refused { IfErr result (λ e. e ≢ Memory → (e ≡ InvalidStat)
        × (is_tellable (type_of stats.now.dtype.now) (raw_pairs stats.now.values.now)
        (aggregate_of aggregate) ≡ false)) }
{
    match aggregate {
        AggregateFn::Min => stored(stats, Stat::Min),
        AggregateFn::Max => stored(stats, Stat::Max),
        AggregateFn::Sum => stored(stats, Stat::Sum),
        AggregateFn::UncompressedSizeInBytes => stored(stats, Stat::UncompressedSizeInBytes),
        AggregateFn::NullCount => Ok(shown_count(count(alloc, stats, Stat::NullCount)?)),
        AggregateFn::NanCount => Ok(shown_count(count(alloc, stats, Stat::NaNCount)?)),
        AggregateFn::AllNull => Ok(all_counted(rows, count(alloc, stats, Stat::NullCount)?)),
        AggregateFn::AllNan => Ok(all_counted(rows, count(alloc, stats, Stat::NaNCount)?)),
        AggregateFn::AllNonNull => Ok(none_counted(count(alloc, stats, Stat::NullCount)?)),
        AggregateFn::AllNonNan => Ok(none_counted(count(alloc, stats, Stat::NaNCount)?)),
        AggregateFn::MinMax => Ok(None),
    }
}

// The statistic's value, exact or not.
#[tactic(auto, using(crate::proofs::Told::nullables))]
fn stored(stats: &TypedStatsSetRef, stat: Stat) -> Result<Option<ScalarValue>, StatsError>
    ensures value { IfOk result (λ v. content_in v
        ≡ shown (said (known (raw_pairs stats.now.values.now) stat))) }
    ensures told { IfOk result (λ _. is_known_of (type_of stats.now.dtype.now) stat
        (known (raw_pairs stats.now.values.now) stat) ≡ true) }
    ensures valid { IfOk result (λ v. ForSome (stat_type stat (type_of stats.now.dtype.now))
        (λ k. IsTrue (valid (with_nullability nullable k) (raw_in v)))) }
    ensures refused { IfErr result (λ e. e ≢ Memory → (e ≡ InvalidStat)
        × (is_known_of (type_of stats.now.dtype.now) stat
        (known (raw_pairs stats.now.values.now) stat) ≡ false)) }
{
    match stats.get(stat)?.into_inner() {
        Some(scalar) => Ok(scalar.into_value()),
        None => Ok(None),
    }
}

// The statistic as a number of rows.
#[tactic(auto, using(crate::proofs::Told::counts))]
fn count(alloc: Global, stats: &TypedStatsSetRef, stat: Stat) -> Result<Precision<u64>, StatsError>
    requires { IsCountOfRows stat }
    ensures value { IfOk result (λ p. precision_of p
        ≡ said_count (known (raw_pairs stats.now.values.now) stat)) }
    ensures told { IfOk result (λ _. is_known_of (type_of stats.now.dtype.now) stat
        (known (raw_pairs stats.now.values.now) stat) ≡ true) }
    ensures refused { IfErr result (λ e. e ≢ Memory → (e ≡ InvalidStat)
        × (is_known_of (type_of stats.now.dtype.now) stat
        (known (raw_pairs stats.now.values.now) stat) ≡ false)) }
{
    stats.get_as::<u64>(alloc, stat)
}

// A count: null where it is inexact and not 0.
#[tactic(auto, using(vortex_scalar_value::proofs::Views::one_level))]
fn shown_count(count: Precision<u64>) -> Option<ScalarValue>
    ensures value { content_in result ≡ shown_count (precision_of count) }
    ensures valid { IsTrue (valid (integer_type u64 nullable) (raw_in result)) }
{
    match count {
        Precision::Exact(n) => Some(ScalarValue::Primitive(PValue::U64(n))),
        Precision::Inexact(0) => Some(ScalarValue::Primitive(PValue::U64(0))),
        Precision::Inexact(_) => None,
        Precision::Absent => None,
    }
}

// Whether all rows are counted, as far as the count shows.
#[tactic(auto, using(vortex_scalar_value::proofs::Views::one_level))]
fn all_counted(rows: usize, count: Precision<u64>) -> Option<ScalarValue>
    ensures value { content_in result ≡ all_counted rows (precision_of count) }
    ensures valid { IsTrue (valid (boolean_type nullable) (raw_in result)) }
{
    let rows = rows as u64;
    match count {
        Precision::Exact(n) => Some(ScalarValue::Bool(n == rows)),
        Precision::Inexact(n) => {
            if n < rows {
                Some(ScalarValue::Bool(false))
            } else {
                None
            }
        }
        Precision::Absent => None,
    }
}

// Whether no row is counted, as far as the count shows.
#[tactic(auto, using(vortex_scalar_value::proofs::Views::one_level))]
fn none_counted(count: Precision<u64>) -> Option<ScalarValue>
    ensures value { content_in result ≡ none_counted (precision_of count) }
    ensures valid { IsTrue (valid (boolean_type nullable) (raw_in result)) }
{
    match count {
        Precision::Exact(n) => Some(ScalarValue::Bool(n == 0)),
        Precision::Inexact(0) => Some(ScalarValue::Bool(true)),
        Precision::Inexact(_) => None,
        Precision::Absent => None,
    }
}
