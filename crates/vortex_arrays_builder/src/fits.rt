//! Which layouts fit a column of values.
ghost use Rattle.std.specs.Prelude.{◌≡◌, map, not};
ghost use Rattle.std.specs.List.{list_any, list_all};
ghost use Rattle.vortex_model.specs.Content.{is_null};
ghost use Rattle.vortex_scalar_ops.specs.Equality.{eq_content};
ghost use Rattle.vortex_dtype_core.specs.View.{type_of};
ghost use Rattle.vortex_scalar_value.specs.View.{content_at};
ghost use Rattle.vortex_arrays_builder.specs.Fits.{fits_dictionary, fits_constant};

use vortex_dtype_core::dtype::DType;
use vortex_scalar_ops::eq::eq_values;
use vortex_scalar_value::scalar_value::ScalarValue;

/// Whether a dictionary would have values: for a column of booleans, integers, strings or bytes
/// with a value that is not null.
#[tactic(auto, using(crate::proofs::FitsLemmas::present))]
pub fn fits_dictionary(dtype: &DType, values: &[Option<&ScalarValue>]) -> bool
    ensures { result ≡ fits_dictionary (type_of dtype.now) (map content_at values.now) }
{
    dtype.is_leaf() && has_value(values)
}

// Whether a value is not null.
#[tactic(auto, using(crate::proofs::FitsLemmas::present))]
fn has_value(values: &[Option<&ScalarValue>]) -> bool
    ensures { result ≡ list_any (λ c. not (is_null c)) (map content_at values.now) }
{
    for value in values {
        if value.is_some() {
            return true;
        }
    }
    false
}

/// Whether there are rows and all are equal by `eq_values`. It takes time linear in the size of the
/// values.
#[tactic(auto, using(crate::proofs::FitsLemmas::equal))]
pub fn fits_constant(values: &[Option<&ScalarValue>]) -> bool
    ensures { result ≡ fits_constant (map content_at values.now) }
{
    !values.is_empty() && all_equal(values[0], &values[1..])
}

// Whether all values are equal to one.
#[tactic(auto, using(crate::proofs::FitsLemmas::equal))]
fn all_equal(value: Option<&ScalarValue>, others: &[Option<&ScalarValue>]) -> bool
    ensures { result ≡ list_all (λ other. eq_content (content_at value.entry) other)
        (map content_at others.now) }
{
    for other in others {
        if !eq_values(value, *other) {
            return false;
        }
    }
    true
}
