//! Laws of bounds, of merges and of wanted truths. Each is the clause of a function without
//! arguments, or of one that makes the calls.
pub use vortex_stats_bind::laws::binding_keeps_values;
pub use vortex_stats_bound::laws::{
    lower_unions_associate, lower_unions_commute, scalar_lower_unions_associate,
    scalar_lower_unions_commute, scalar_upper_unions_associate, scalar_upper_unions_commute,
    upper_unions_associate, upper_unions_commute,
};
pub use vortex_stats_evaluate::laws::{
    bound_expressions_say_the_same, bound_falsifier, bound_satisfier, falsified_zones_hold_none,
    satisfied_zones_hold_all,
};
pub use vortex_stats_expr::bitset::pruning_statistics_are_five;
pub use vortex_stats_laws::laws::{
    combined_sets_are_honest, merges_are_honest, merges_of_many_are_honest,
    unordered_merges_are_honest, valid_sets_count_nulls,
};
pub use vortex_stats_laws::merges::{
    combine_of_same_rows, merge_rows_in_any_order, merge_rows_in_order,
};
pub use vortex_stats_laws::unions::{
    unite_lower_both_ways, unite_three_lower, unite_three_upper, unite_upper_both_ways,
};
pub use vortex_stats_mask::laws::{
    and_joins_wanted_truths, false_comparisons_are_negated, not_turns_wanted_truths,
    or_joins_wanted_truths, sides_of_comparisons_swap,
};
