//! Views of scalars with parts by the kind of their type.
ghost use Rattle.std.specs.Prelude.{◌≡◌, IsTrue, option_map};
ghost use Rattle.vortex_dtype_core.specs.Parts.{is_struct_type, is_map_type, is_union_type, is_variant_type, is_extension_type};
ghost use Rattle.vortex_scalar_views.specs.Forms.{Typed, viewed};
ghost use Rattle.vortex_scalar_views.specs.Views.{typed_scalar};
ghost use Rattle.vortex_scalar_nested.specs.Places.{is_listing};
ghost use Rattle.vortex_scalar_views.specs.UnionViews.{typed_union, typed_variant};
ghost use Rattle.vortex_scalar_nested.specs.Nested.{typed_list, typed_struct, typed_map, typed_extension};

use crate::ext_scalar::ExtScalar;
use crate::list_scalar::{ListScalar, is_any_list};
use crate::map_scalar::MapScalar;
use crate::struct_scalar::StructScalar;
use vortex_scalar_core::scalar::Scalar;
use vortex_scalar_views::union_scalar::UnionScalar;
use vortex_scalar_views::variant_scalar::VariantScalar;

/// Views of scalars with parts. Each `_opt` call is `None` exactly where the type is of another
/// kind, and the others require the kind.
pub trait NestedScalarViews {
    ghost typed: { Self → Typed };

    /// The view of a list, of any length or of a fixed one.
    fn as_list(&self) -> ListScalar<'_>
        requires { IsTrue (is_listing (typed self.now).0) }
        ensures { typed_list result ≡ typed self.now };

    /// The view of a list, of any length or of a fixed one, and `None` for any other type.
    fn as_list_opt(&self) -> Option<ListScalar<'_>>
        ensures { option_map typed_list result ≡ viewed is_listing (typed self.now) };

    fn as_struct(&self) -> StructScalar<'_>
        requires { IsTrue (is_struct_type (typed self.now).0) }
        ensures { typed_struct result ≡ typed self.now };

    fn as_struct_opt(&self) -> Option<StructScalar<'_>>
        ensures { option_map typed_struct result ≡ viewed is_struct_type (typed self.now) };

    fn as_map(&self) -> MapScalar<'_>
        requires { IsTrue (is_map_type (typed self.now).0) }
        ensures { typed_map result ≡ typed self.now };

    fn as_map_opt(&self) -> Option<MapScalar<'_>>
        ensures { option_map typed_map result ≡ viewed is_map_type (typed self.now) };

    fn as_union(&self) -> UnionScalar<'_>
        requires { IsTrue (is_union_type (typed self.now).0) }
        ensures { typed_union result ≡ typed self.now };

    fn as_union_opt(&self) -> Option<UnionScalar<'_>>
        ensures { option_map typed_union result ≡ viewed is_union_type (typed self.now) };

    fn as_variant(&self) -> VariantScalar<'_>
        requires { IsTrue (is_variant_type (typed self.now).0) }
        ensures { typed_variant result ≡ typed self.now };

    fn as_variant_opt(&self) -> Option<VariantScalar<'_>>
        ensures { option_map typed_variant result ≡ viewed is_variant_type (typed self.now) };

    fn as_extension(&self) -> ExtScalar<'_>
        requires { IsTrue (is_extension_type (typed self.now).0) }
        ensures { typed_extension result ≡ typed self.now };

    fn as_extension_opt(&self) -> Option<ExtScalar<'_>>
        ensures { option_map typed_extension result ≡ viewed is_extension_type (typed self.now) };
}

impl NestedScalarViews for Scalar {
    ghost typed = { typed_scalar };

    fn as_list(&self) -> ListScalar<'_> {
        ListScalar::new(self.dtype(), self.value())
    }

    fn as_list_opt(&self) -> Option<ListScalar<'_>> {
        if is_any_list(self.dtype()) {
            Some(self.as_list())
        } else {
            None
        }
    }

    fn as_struct(&self) -> StructScalar<'_> {
        StructScalar::new(self.dtype(), self.value())
    }

    fn as_struct_opt(&self) -> Option<StructScalar<'_>> {
        if self.dtype().is_struct() {
            Some(self.as_struct())
        } else {
            None
        }
    }

    fn as_map(&self) -> MapScalar<'_> {
        MapScalar::new(self.dtype(), self.value())
    }

    fn as_map_opt(&self) -> Option<MapScalar<'_>> {
        if self.dtype().is_map() {
            Some(self.as_map())
        } else {
            None
        }
    }

    fn as_union(&self) -> UnionScalar<'_> {
        UnionScalar::new(self.dtype(), self.value())
    }

    fn as_union_opt(&self) -> Option<UnionScalar<'_>> {
        if self.dtype().is_union() {
            Some(self.as_union())
        } else {
            None
        }
    }

    fn as_variant(&self) -> VariantScalar<'_> {
        VariantScalar::new(self.dtype(), self.value())
    }

    fn as_variant_opt(&self) -> Option<VariantScalar<'_>> {
        if self.dtype().is_variant() {
            Some(self.as_variant())
        } else {
            None
        }
    }

    fn as_extension(&self) -> ExtScalar<'_> {
        ExtScalar::new(self.dtype(), self.value())
    }

    fn as_extension_opt(&self) -> Option<ExtScalar<'_>> {
        if self.dtype().is_extension() {
            Some(self.as_extension())
        } else {
            None
        }
    }
}
