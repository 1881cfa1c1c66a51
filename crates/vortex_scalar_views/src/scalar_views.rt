//! Views of scalars by the kind of their type.
ghost use Rattle.std.specs.Prelude.{◌≡◌, IsTrue, option_map};
ghost use Rattle.vortex_dtype_core.specs.Parts.{is_boolean_type, is_primitive_type, is_utf8_type, is_binary_type};
ghost use Rattle.vortex_scalar_views.specs.Forms.{Typed, viewed};
ghost use Rattle.vortex_scalar_views.specs.Views.{typed_scalar, typed_bool, typed_primitive, typed_utf8, typed_binary};

use crate::binary_scalar::BinaryScalar;
use crate::bool_scalar::BoolScalar;
use crate::primitive_scalar::PrimitiveScalar;
use crate::utf8_scalar::Utf8Scalar;
use vortex_scalar_core::scalar::Scalar;

/// Views of scalars without parts. Each `_opt` call is `None` exactly where the type is of another
/// kind, and the others require the kind.
pub trait ScalarViews {
    ghost typed: { Self → Typed };

    fn as_bool(&self) -> BoolScalar<'_>
        requires { IsTrue (is_boolean_type (typed self.now).0) }
        ensures { typed_bool result ≡ typed self.now };

    fn as_bool_opt(&self) -> Option<BoolScalar<'_>>
        ensures { option_map typed_bool result ≡ viewed is_boolean_type (typed self.now) };

    fn as_primitive(&self) -> PrimitiveScalar<'_>
        requires { IsTrue (is_primitive_type (typed self.now).0) }
        ensures { typed_primitive result ≡ typed self.now };

    fn as_primitive_opt(&self) -> Option<PrimitiveScalar<'_>>
        ensures { option_map typed_primitive result ≡ viewed is_primitive_type (typed self.now) };

    fn as_utf8(&self) -> Utf8Scalar<'_>
        requires { IsTrue (is_utf8_type (typed self.now).0) }
        ensures { typed_utf8 result ≡ typed self.now };

    fn as_utf8_opt(&self) -> Option<Utf8Scalar<'_>>
        ensures { option_map typed_utf8 result ≡ viewed is_utf8_type (typed self.now) };

    fn as_binary(&self) -> BinaryScalar<'_>
        requires { IsTrue (is_binary_type (typed self.now).0) }
        ensures { typed_binary result ≡ typed self.now };

    fn as_binary_opt(&self) -> Option<BinaryScalar<'_>>
        ensures { option_map typed_binary result ≡ viewed is_binary_type (typed self.now) };
}

impl ScalarViews for Scalar {
    ghost typed = { typed_scalar };

    fn as_bool(&self) -> BoolScalar<'_> {
        BoolScalar::new(self.dtype(), self.value())
    }

    fn as_bool_opt(&self) -> Option<BoolScalar<'_>> {
        if self.dtype().is_boolean() {
            Some(self.as_bool())
        } else {
            None
        }
    }

    fn as_primitive(&self) -> PrimitiveScalar<'_> {
        PrimitiveScalar::new(self.dtype(), self.value())
    }

    fn as_primitive_opt(&self) -> Option<PrimitiveScalar<'_>> {
        if self.dtype().is_primitive() {
            Some(self.as_primitive())
        } else {
            None
        }
    }

    fn as_utf8(&self) -> Utf8Scalar<'_> {
        Utf8Scalar::new(self.dtype(), self.value())
    }

    fn as_utf8_opt(&self) -> Option<Utf8Scalar<'_>> {
        if self.dtype().is_utf8() {
            Some(self.as_utf8())
        } else {
            None
        }
    }

    fn as_binary(&self) -> BinaryScalar<'_> {
        BinaryScalar::new(self.dtype(), self.value())
    }

    fn as_binary_opt(&self) -> Option<BinaryScalar<'_>> {
        if self.dtype().is_binary() {
            Some(self.as_binary())
        } else {
            None
        }
    }
}
