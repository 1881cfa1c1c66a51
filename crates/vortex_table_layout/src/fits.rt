//! Which layouts fit a column, by its rows.
ghost use Rattle.std.specs.Prelude.{◌≡◌, not};
ghost use Rattle.std.specs.List.{list_any};
ghost use Rattle.vortex_model.specs.Content.{is_null};
ghost use Rattle.vortex_arrays_model.specs.Layout.{array_type_of, rows_of};
ghost use Rattle.vortex_arrays_builder.specs.Fits.{fits_dictionary};

use vortex_arrays_core::array::ArrayRef;

/// Whether a dictionary would have values: for a column of booleans, integers, strings or bytes
/// with a row that is not null.
pub(crate) fn fits_dictionary(column: &ArrayRef) -> bool
    ensures { result ≡ fits_dictionary (array_type_of column.now) (rows_of column.now) }
{
    column.dtype().is_leaf() && has_value(column)
}

// Whether a row is not null.
#[tactic(auto, using(crate::proofs::FitsLemmas::present))]
fn has_value(column: &ArrayRef) -> bool
    ensures { result ≡ list_any (λ c. not (is_null c)) (rows_of column.now) }
{
    for i in 0..column.len() {
        if column.is_valid(i) {
            return true;
        }
    }
    false
}
