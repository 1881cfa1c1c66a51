//! Statistics and their precision, predicates over rows, and the proofs over statistics that are
//! made of them.
//!
//! A reader of predicates alone depends on this crate; nothing below it does.
#![tactic(auto)]

pub mod laws;

/// Bound expressions made of others, and placeholders over them.
pub mod bound {
    pub use vortex_stats_bind::make::{
        and, between, compare, is_nan, is_not_null, is_null, like, lit, not, or, row_count, stat,
    };
    pub use vortex_stats_evaluate::bound::{
        all_nan, all_non_nan, all_non_null, all_null, min_max, nan_count, null_count, sum,
    };
}

pub use vortex_stats_array::array_stats::ArrayStats;
pub use vortex_stats_array::of_array::array_stats;
pub use vortex_stats_bind::bind::bind;
pub use vortex_stats_bind::bound::BoundColumn;
pub use vortex_stats_bind::bound::BoundExpression;
pub use vortex_stats_bind::bound::BoundNode;
pub use vortex_stats_bind::bound::Operands;
pub use vortex_stats_bind::stats::StatBinder;
pub use vortex_stats_bind::stats::bind_stats;
pub use vortex_stats_bind::stats::bind_stats_in_zones;
pub use vortex_stats_bind::stats::null_of;
pub use vortex_stats_bind::value::Value;
pub use vortex_stats_bound::bound::LowerBound;
pub use vortex_stats_bound::bound::UpperBound;
pub use vortex_stats_bound::bound_ord::BoundOrd;
pub use vortex_stats_bound::intersection::IntersectionResult;
pub use vortex_stats_bound::precision::Precision;
pub use vortex_stats_bound::stat_bound::StatBound;
pub use vortex_stats_bound::stat_bound::StatType;
pub use vortex_stats_evaluate::evaluate::evaluate;
pub use vortex_stats_evaluate::evaluate::prove;
pub use vortex_stats_evaluate::markers::IsConstant;
pub use vortex_stats_evaluate::markers::IsSorted;
pub use vortex_stats_evaluate::markers::IsStrictSorted;
pub use vortex_stats_evaluate::markers::Max;
pub use vortex_stats_evaluate::markers::Min;
pub use vortex_stats_evaluate::markers::NaNCount;
pub use vortex_stats_evaluate::markers::NullCount;
pub use vortex_stats_evaluate::markers::Sum;
pub use vortex_stats_evaluate::markers::UncompressedSizeInBytes;
pub use vortex_stats_evaluate::provider::StatsProvider;
pub use vortex_stats_evaluate::provider_ext::StatsProviderExt;
pub use vortex_stats_evaluate::scope::Scope;
pub use vortex_stats_evaluate::stat_fn::StatFn;
pub use vortex_stats_evaluate::stat_fn::StatOptions;
pub use vortex_stats_evaluate::stat_scalar::stat_scalar;
pub use vortex_stats_evaluate::stats_set_ext::StatsSetExt;
pub use vortex_stats_expr::aggregate::AggregateFn;
pub use vortex_stats_expr::bitset::PRUNING_STATS;
pub use vortex_stats_expr::bitset::as_stat_bitset_bytes;
pub use vortex_stats_expr::bitset::stats_from_bitset_bytes;
pub use vortex_stats_expr::bitset::written_statistics_are_read;
pub use vortex_stats_expr::collect::and_collect;
pub use vortex_stats_expr::collect::or_collect;
pub use vortex_stats_expr::error::StatsError;
pub use vortex_stats_expr::expression::Expression;
pub use vortex_stats_expr::expression::Node;
pub use vortex_stats_expr::expression::and;
pub use vortex_stats_expr::expression::between;
pub use vortex_stats_expr::expression::binary;
pub use vortex_stats_expr::expression::col;
pub use vortex_stats_expr::expression::column;
pub use vortex_stats_expr::expression::column_at;
pub use vortex_stats_expr::expression::eq;
pub use vortex_stats_expr::expression::gt;
pub use vortex_stats_expr::expression::gt_eq;
pub use vortex_stats_expr::expression::is_nan;
pub use vortex_stats_expr::expression::is_not_null;
pub use vortex_stats_expr::expression::is_null;
pub use vortex_stats_expr::expression::like;
pub use vortex_stats_expr::expression::lit;
pub use vortex_stats_expr::expression::lt;
pub use vortex_stats_expr::expression::lt_eq;
pub use vortex_stats_expr::expression::not;
pub use vortex_stats_expr::expression::not_eq;
pub use vortex_stats_expr::expression::or;
pub use vortex_stats_expr::expression::root;
pub use vortex_stats_expr::expression::row_count;
pub use vortex_stats_expr::expression::stat;
pub use vortex_stats_expr::operator::Comparison;
pub use vortex_stats_expr::operator::Operator;
pub use vortex_stats_expr::options::BetweenOptions;
pub use vortex_stats_expr::options::LikeOptions;
pub use vortex_stats_expr::options::StrictComparison;
pub use vortex_stats_expr::placeholders::all_nan;
pub use vortex_stats_expr::placeholders::all_non_nan;
pub use vortex_stats_expr::placeholders::all_non_null;
pub use vortex_stats_expr::placeholders::all_null;
pub use vortex_stats_expr::placeholders::min_max;
pub use vortex_stats_expr::placeholders::nan_count;
pub use vortex_stats_expr::placeholders::null_count;
pub use vortex_stats_expr::placeholders::sum;
pub use vortex_stats_expr::scalar_fn::ScalarFnId;
pub use vortex_stats_expr::stat::Stat;
pub use vortex_stats_expr::stat_iter::StatIter;
pub use vortex_stats_mask::column::Column;
pub use vortex_stats_mask::column::Items;
pub use vortex_stats_mask::column::Numbers;
pub use vortex_stats_mask::column::Strings;
pub use vortex_stats_mask::column::ValidRows;
pub use vortex_stats_mask::compare::compare_literal;
pub use vortex_stats_mask::pairs::compare_columns;
pub use vortex_stats_match::buffers::Buffers;
pub use vortex_stats_match::like::has_backslash;
pub use vortex_stats_match::like::is_like;
pub use vortex_stats_pruner::pruner::Pruner;
pub use vortex_stats_rules::laws::comparisons_are_visited_once;
pub use vortex_stats_rules::laws::falsifiers_are_sound;
pub use vortex_stats_rules::laws::satisfiers_are_sound;
pub use vortex_stats_rules::meter::Meter;
pub use vortex_stats_rules::negation::Never;
pub use vortex_stats_rules::negation::NotLiteral;
pub use vortex_stats_rules::null_comparison::NullComparison;
pub use vortex_stats_rules::push_not::PushNot;
pub use vortex_stats_rules::rewrite::falsify;
pub use vortex_stats_rules::rewrite::satisfy;
pub use vortex_stats_rules::rule::StatsRewriteRule;
pub use vortex_stats_rules::rule::StatsRewriteRuleRef;
pub use vortex_stats_set::stats_set::StatsArray;
pub use vortex_stats_set::stats_set::StatsSet;
pub use vortex_stats_set::stats_set::StatsSetIntoIter;
pub use vortex_stats_set::typed::MutTypedStatsSetRef;
pub use vortex_stats_set::typed::TypedStatsSetRef;
