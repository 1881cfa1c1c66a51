//! Which rows are null, with packed bits read in place.
ghost use Rattle.std.specs.Prelude.{◌≡◌, ◌<◌};
ghost use Rattle.vortex_arrays_model.specs.Layout.{len_of, content_at, is_truth, is_valid, HasLength};
ghost use Rattle.vortex_arrays_core.specs.LayoutOf.{valid_of};

use vortex_arrays_core::array::{ArrayLayout, ArrayRef, Validity};

// Whether a row is true. Packed bits are read in place, without a call.
fn truth_at(rows: &ArrayRef, i: usize) -> bool
    requires { i < len_of rows.now }
    ensures { result ≡ is_truth (content_at rows.now i) }
{
    match rows.layout() {
        ArrayLayout::Bool(bits, Validity::NonNullable) => bits.value(i),
        _ => rows.truth(i),
    }
}

/// Whether a row is not null, in an array of `len` rows.
pub(crate) fn is_valid_at(validity: &Validity, i: usize, len: usize) -> bool
    requires within { i < len }
    requires fits { HasLength (valid_of validity.now) len }
    ensures { result ≡ is_valid (valid_of validity.now) i }
{
    match validity {
        Validity::Array(rows) => truth_at(rows, i),
        _ => validity.is_valid(i, len),
    }
}
