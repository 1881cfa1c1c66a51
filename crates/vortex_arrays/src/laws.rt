//! Laws of arrays. Laws of definitions are the clauses of functions without arguments. Laws of
//! slices and of rebuilding are functions that make the calls that a law is about and return their
//! results; `limits` returns the two limits of views.
pub use vortex_arrays_model::laws::{
    columns_step_down, dictionaries_take, equal_rows_rebuild_equally, rebuilding_keeps_rows,
    rebuilding_twice_is_once, rebuilt_lists_follow, referenced_values_are_the_rows,
    rows_are_contents, slices_have_their_rows, slices_of_slices_are_slices, trimming_keeps_rows,
};
pub use vortex_arrays_rebuild::laws::rebuild_twice;
pub use vortex_arrays_struct::slices::{slice_of_all, slice_of_slice};
pub use vortex_arrays_view::laws::{
    inlined_views_are_equal_as_values, inlined_views_are_in_order, limits,
    lower_prefixes_are_of_lower_values, short_views_are_zero_padded, views_have_their_parts,
    views_read_back,
};
