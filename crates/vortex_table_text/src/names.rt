//! Names of forms, and what ends the array of a form.
ghost use Rattle.std.specs.Prelude.{◌≡◌};
ghost use Rattle.vortex_stats_expr.specs.Aggregate.{aggregate_of};
ghost use Rattle.vortex_stats_expr.specs.Tree.{comparison_of};
ghost use Rattle.vortex_table_text.specs.Predicates.{comparison_name, aggregate_end, flags_end};

use vortex_stats_expr::aggregate::AggregateFn;
use vortex_stats_expr::operator::Comparison;

pub(crate) fn comparison_name(comparison: Comparison) -> &'static str
    ensures { result.now ≡ comparison_name (comparison_of comparison) }
{
    match comparison {
        Comparison::Eq => "=",
        Comparison::NotEq => "!=",
        Comparison::Gt => ">",
        Comparison::Gte => ">=",
        Comparison::Lt => "<",
        Comparison::Lte => "<=",
    }
}

/// What follows the operand of a placeholder: the name of the statistic.
pub(crate) fn aggregate_end(aggregate: AggregateFn) -> &'static str
    ensures { result.now ≡ aggregate_end (aggregate_of aggregate) }
{
    match aggregate {
        AggregateFn::Min => ",\"min\"]",
        AggregateFn::Max => ",\"max\"]",
        AggregateFn::Sum => ",\"sum\"]",
        AggregateFn::NullCount => ",\"null_count\"]",
        AggregateFn::NanCount => ",\"nan_count\"]",
        AggregateFn::UncompressedSizeInBytes => ",\"uncompressed_size_in_bytes\"]",
        AggregateFn::MinMax => ",\"min_max\"]",
        AggregateFn::AllNull => ",\"all_null\"]",
        AggregateFn::AllNonNull => ",\"all_non_null\"]",
        AggregateFn::AllNan => ",\"all_nan\"]",
        AggregateFn::AllNonNan => ",\"all_non_nan\"]",
    }
}

/// The two flags after the operands of a BETWEEN or a LIKE.
pub(crate) fn flags_end(first: bool, second: bool) -> &'static str
    ensures { result.now ≡ flags_end first second }
{
    if first {
        if second {
            ",true,true]"
        } else {
            ",true,false]"
        }
    } else if second {
        ",false,true]"
    } else {
        ",false,false]"
    }
}
