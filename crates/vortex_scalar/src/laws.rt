//! Laws of scalars. Those of definitions are functions without arguments, and the law is their
//! clause. The others make the calls that their law is about, and return the results.
pub use vortex_scalar_builders::laws::{
    bounds_are_well_formed, bounds_fit, highs_are_of_the_function, highs_are_unique,
    highs_stay_above, lows_are_of_the_function, lows_are_unique, lows_stay_below,
};
pub use vortex_scalar_convert::casts::{
    by_way_of, casts_of_both, equality_and_hashes, nullable_and_back, order_and_equality,
    there_and_back,
};
pub use vortex_scalar_convert::defaults::laws::{
    defaults_are_values, only_zeros_are_zero, zeros_are_zero, zeros_exist,
};
pub use vortex_scalar_convert::laws::{
    casts_come_back, casts_compose, casts_exist, casts_give_one_value, casts_have_one_back,
    casts_keep_equality, casts_keep_order, contents_tell_values, nullable_values_cast_back,
    tied_values_are_equal, values_cast_to_their_type,
};
pub use vortex_scalar_ops::laws::{
    eq_values_compare_alike, eq_values_hash_alike, equality_is_an_equivalence, order_is_transitive,
    order_turns, plain_types_have_plain_values, values_of_a_type_compare,
    values_that_tie_are_equal,
};
