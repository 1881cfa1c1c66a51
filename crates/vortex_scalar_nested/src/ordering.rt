//! The order of views of lists, structs and extensions. Equal `Variant` values don't compare, so
//! there is no `PartialOrd`.
ghost use Rattle.std.specs.Prelude.{◌≡◌};
ghost use Rattle.vortex_scalar_views.specs.Compared.{typed_cmp};

use crate::ext_scalar::ExtScalar;
use crate::list_scalar::ListScalar;
use crate::struct_scalar::StructScalar;
use std::cmp::Ordering;
use vortex_scalar_ops::compare::compare_values;

impl ListScalar<'_> {
    ghost use Rattle.vortex_scalar_nested.specs.Nested.{typed_list};

    /// The order of two lists, lexicographic in their elements, and `None` where their types differ
    /// in more than nullability, or the order depends on `Variant` values. Null is least. Allocates
    /// nothing.
    pub fn partial_cmp(&self, other: &ListScalar<'_>) -> Option<Ordering>
        ensures { result ≡ typed_cmp (typed_list self.now) (typed_list other.now) }
    {
        if !self.dtype().eq_ignore_nullability(other.dtype()) {
            return None;
        }
        compare_values(self.value(), other.value())
    }
}

impl StructScalar<'_> {
    ghost use Rattle.vortex_scalar_nested.specs.Nested.{typed_struct};

    /// The order of two structs, lexicographic in their fields, and `None` where their types differ
    /// in more than nullability, or the order depends on `Variant` values. Null is least. Allocates
    /// nothing.
    pub fn partial_cmp(&self, other: &StructScalar<'_>) -> Option<Ordering>
        ensures { result ≡ typed_cmp (typed_struct self.now) (typed_struct other.now) }
    {
        if !self.dtype().eq_ignore_nullability(other.dtype()) {
            return None;
        }
        compare_values(self.value(), other.value())
    }
}

impl ExtScalar<'_> {
    ghost use Rattle.vortex_scalar_nested.specs.Nested.{typed_extension};

    /// The order of two values of the storage, and `None` where the types differ in more than
    /// nullability, or the order depends on `Variant` values. Null is least. Allocates nothing.
    pub fn partial_cmp(&self, other: &ExtScalar<'_>) -> Option<Ordering>
        ensures { result ≡ typed_cmp (typed_extension self.now) (typed_extension other.now) }
    {
        if !self.dtype().eq_ignore_nullability(other.dtype()) {
            return None;
        }
        compare_values(self.value(), other.value())
    }
}
