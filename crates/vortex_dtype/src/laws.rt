//! Laws of types. Those of definitions are functions without arguments, and the law is their
//! clause. The others make the calls that their law is about, and return the results.
pub use vortex_dtype_fields::laws::{
    equal_types_hash_alike, equality_ignoring_nullability_is_an_equivalence, fitting_is_reflexive,
    fitting_is_transitive, projections_have_the_names, tags_lead_back,
};
pub use vortex_dtype_path::laws::{
    beginnings_exist, coverage_tells_iteration, coverage_tells_outermost, equal_paths_pass,
    equal_steps_pass, field_path_is_of_its_names, outermost_are_needed, outermost_cover_all,
    overlaps_are_shared, resolving_goes_on,
};
pub use vortex_dtype_proto::laws::{
    decimals_are_shaped, maps_are_shaped, read_types_are_read_again, read_types_are_shaped,
    unions_are_shaped, written_trees_read_alike, written_types_are_read,
};
