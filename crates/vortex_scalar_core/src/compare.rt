//! Equality, hash and order of scalars.
ghost use Rattle.std.specs.Prelude.{◌≡◌};
ghost use Rattle.std.specs.Cmp.{partial_equiv_from_equiv};
ghost use Rattle.vortex_model.specs.Order.{scalar_cmp};
ghost use Rattle.vortex_scalar_core.specs.Equality.{eq_scalar, eq_scalar_equiv, scalar_writes, eq_scalars_hash_alike};

use crate::scalar::Scalar;
use std::cmp::Ordering;
use std::hash::{Hash, Hasher};
use vortex_dtype_fields::dtype_ext::DTypeExt;
use vortex_scalar_ops::compare::compare_values;
use vortex_scalar_ops::eq::eq_values;
use vortex_scalar_ops::hash::hash_value;

impl Scalar {
    ghost use Rattle.vortex_scalar_core.specs.Scalar.{scalar_type, scalar_content};

    /// Whether the types are equal up to nullability, and the values are equal up to nullability of
    /// the types inside `Variant` values. Allocates nothing.
    pub fn eq_ignore_nullability(&self, other: &Scalar) -> bool
        ensures { result ≡ eq_scalar self.now other.now }
    {
        self.dtype().eq_ignore_nullability(other.dtype()) && eq_values(self.value(), other.value())
    }

    /// The order of two scalars, and `None` where their types differ in more than nullability, or
    /// the values don't compare, as `Variant` values. Null is least. Allocates nothing.
    pub fn partial_cmp(&self, other: &Scalar) -> Option<Ordering>
        ensures { result ≡ scalar_cmp (scalar_type self.now) (scalar_content self.now)
            (scalar_type other.now) (scalar_content other.now) }
    {
        if !self.dtype().eq_ignore_nullability(other.dtype()) {
            return None;
        }
        compare_values(self.value(), other.value())
    }
}

/// Up to nullability, also of the types inside `Variant` values.
impl PartialEq for Scalar {
    ghost eq = { eq_scalar };

    ghost laws = { partial_equiv_from_equiv eq_scalar_equiv };

    fn eq(&self, other: &Scalar) -> bool {
        self.eq_ignore_nullability(other)
    }
}

impl Eq for Scalar {
    ghost laws = { eq_scalar_equiv };
}

impl Hash for Scalar {
    ghost hash_input = { scalar_writes };

    ghost respects_eq = { eq_scalars_hash_alike };

    fn hash<H: Hasher>(&self, state: &mut H) {
        self.dtype().hash_ignore_nullability(state);
        hash_value(self.value(), state);
    }
}
