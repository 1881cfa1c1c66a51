//! The statistics of a zone of rows, by themselves and as a row of zone maps.
ghost use Rattle.std.specs.Prelude.{◌≡◌, option_map};
ghost use Rattle.vortex_model_table.specs.Statistics.{shown};
ghost use Rattle.vortex_stats_bind.specs.OperandValue.{operand_value};
ghost use Rattle.vortex_stats_expr.specs.Aggregate.{aggregate_of};
ghost use Rattle.vortex_table_chunk.specs.BoundStat.{stat_value_or_null};
ghost use Rattle.vortex_stats_array.specs.Zones.{bound_content};
ghost use Rattle.vortex_table_chunk.specs.zones.StatValue.{stat_value};

use crate::place::{ZoneStat, stat_at};
use vortex_scalar_value::scalar_value::ScalarValue;
use vortex_stats_array::array_stats::ArrayStats;
use vortex_stats_bind::bound::{BoundExpression, Operands};
use vortex_stats_bind::value::Value;
use vortex_stats_bound::precision::Precision;
use vortex_stats_expr::aggregate::AggregateFn;

fn bound_operand<'a>(bound: &'a Precision<ScalarValue>) -> Value<'a>
    ensures { operand_value result ≡ shown (bound_content bound.now) }
{
    match bound {
        Precision::Exact(value) => Value::Stored(value),
        Precision::Inexact(value) => Value::Stored(value),
        Precision::Absent => Value::Null,
    }
}

/// A statistic of a leaf column in a zone of `rows` rows.
pub fn statistic<'a>(bounds: &'a ArrayStats, rows: usize, aggregate: AggregateFn) -> Value<'a>
    ensures { operand_value result ≡ stat_value bounds.now rows (aggregate_of aggregate) }
{
    match aggregate {
        AggregateFn::Min => bound_operand(&bounds.min),
        AggregateFn::Max => bound_operand(&bounds.max),
        AggregateFn::NullCount => Value::Count(bounds.null_count as u64),
        AggregateFn::AllNull => Value::Truth(bounds.null_count == rows),
        AggregateFn::AllNonNull => Value::Truth(bounds.null_count == 0),
        AggregateFn::Sum => Value::Null,
        AggregateFn::NanCount => Value::Null,
        AggregateFn::UncompressedSizeInBytes => Value::Null,
        AggregateFn::MinMax => Value::Null,
        AggregateFn::AllNan => Value::Null,
        AggregateFn::AllNonNan => Value::Null,
    }
}

// As `statistic`, and null where the zone has no statistics of the leaf.
pub(crate) fn statistic_in<'a>(
    bounds: Option<&'a ArrayStats>,
    rows: usize,
    aggregate: AggregateFn,
) -> Value<'a>
    ensures { operand_value result
        ≡ stat_value_or_null (option_map (λ b. b.now) bounds.entry) rows (aggregate_of aggregate) }
{
    match bounds {
        Some(bounds) => statistic(bounds, rows, aggregate),
        None => Value::Null,
    }
}

/// A zone of rows, such as a chunk, as a row of zone maps.
#[derive(Clone, Copy, Drop)]
pub struct ZoneRow<'z> {
    /// The statistics of each leaf column, in order.
    pub bounds: &'z [ArrayStats],
    /// The number of rows of the zone.
    pub rows: usize,
}

impl ZoneRow<'_> {
    ghost use Rattle.std.specs.Prelude.{◌≡◌};
    ghost use Rattle.vortex_stats_bind.specs.OperandValue.{operand_value};
    ghost use Rattle.vortex_stats_expr.specs.Aggregate.{aggregate_of};
    ghost use Rattle.vortex_table_zonemaps.specs.Stats.{leaf_stat};

    fn leaf<'a>(&'a self, leaf: usize, aggregate: AggregateFn) -> Value<'a>
        ensures { operand_value result
            ≡ leaf_stat leaf (aggregate_of aggregate) (self.now.bounds.now, self.now.rows) }
    {
        statistic_in(self.bounds.get(leaf), self.rows, aggregate)
    }
}

impl Operands for ZoneRow<'_> {
    ghost use Rattle.vortex_table_zonemaps.specs.Zone.{provided_by};

    ghost provided = { provided_by };

    fn column<'a>(&'a self, path: &[usize]) -> Value<'a> {
        match stat_at(path) {
            Some(ZoneStat::Low(leaf)) => self.leaf(leaf, AggregateFn::Min),
            Some(ZoneStat::High(leaf)) => self.leaf(leaf, AggregateFn::Max),
            Some(ZoneStat::NullCount(leaf)) => self.leaf(leaf, AggregateFn::NullCount),
            Some(ZoneStat::Rows) => Value::Count(self.rows as u64),
            None => Value::Null,
        }
    }

    fn statistic<'a>(&'a self, _input: &BoundExpression, _aggregate: AggregateFn) -> Value<'a> {
        Value::Null
    }

    fn rows(&self) -> u64 {
        1
    }
}
