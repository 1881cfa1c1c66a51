//! Views of scalars by `TryFrom`: `ScalarError::Invalid` exactly where the type is of another kind.
ghost use Rattle.std.specs.Prelude.{◌≡◌, IfOk, IfErr};
ghost use Rattle.vortex_dtype_core.specs.Parts.{is_boolean_type, is_primitive_type, is_utf8_type, is_binary_type};
ghost use Rattle.vortex_scalar_value.specs.declared.error.ScalarError.TheVariants.{Memory};
ghost use Rattle.vortex_scalar_views.specs.Forms.{ViewsTyped};
ghost use Rattle.vortex_scalar_views.specs.Views.{typed_scalar, typed_bool, typed_primitive, typed_utf8, typed_binary};

use crate::binary_scalar::BinaryScalar;
use crate::bool_scalar::BoolScalar;
use crate::primitive_scalar::PrimitiveScalar;
use crate::scalar_views::ScalarViews;
use crate::utf8_scalar::Utf8Scalar;
use vortex_scalar_core::scalar::Scalar;
use vortex_scalar_value::error::ScalarError;

impl<'a> TryFrom<&'a Scalar> for BoolScalar<'a> {
    type Error = ScalarError;

    ghost try_from_gives = { λ scalar result. ViewsTyped typed_bool is_boolean_type
        (typed_scalar scalar.now) result };

    fn try_from(scalar: &'a Scalar) -> Result<BoolScalar<'a>, ScalarError> {
        match scalar.as_bool_opt() {
            Some(view) => Ok(view),
            None => Err(ScalarError::Invalid),
        }
    }
}

impl<'a> TryFrom<&'a Scalar> for PrimitiveScalar<'a> {
    type Error = ScalarError;

    ghost try_from_gives = { λ scalar result. ViewsTyped typed_primitive is_primitive_type
        (typed_scalar scalar.now) result };

    fn try_from(scalar: &'a Scalar) -> Result<PrimitiveScalar<'a>, ScalarError> {
        match scalar.as_primitive_opt() {
            Some(view) => Ok(view),
            None => Err(ScalarError::Invalid),
        }
    }
}

/// The scalar, with a clone of the type. Fails only by `ScalarError::Memory`.
impl TryFrom<PrimitiveScalar<'_>> for Scalar {
    type Error = ScalarError;

    ghost try_from_gives = { λ view result.
        (IfOk result (λ scalar. typed_scalar scalar ≡ typed_primitive view))
        × (IfErr result (λ e. e ≡ Memory)) };

    fn try_from(view: PrimitiveScalar<'_>) -> Result<Scalar, ScalarError> {
        let scalar = view.into_scalar()?;
        Ok(scalar)
    }
}

impl<'a> TryFrom<&'a Scalar> for Utf8Scalar<'a> {
    type Error = ScalarError;

    ghost try_from_gives = { λ scalar result. ViewsTyped typed_utf8 is_utf8_type
        (typed_scalar scalar.now) result };

    fn try_from(scalar: &'a Scalar) -> Result<Utf8Scalar<'a>, ScalarError> {
        match scalar.as_utf8_opt() {
            Some(view) => Ok(view),
            None => Err(ScalarError::Invalid),
        }
    }
}

impl<'a> TryFrom<&'a Scalar> for BinaryScalar<'a> {
    type Error = ScalarError;

    ghost try_from_gives = { λ scalar result. ViewsTyped typed_binary is_binary_type
        (typed_scalar scalar.now) result };

    fn try_from(scalar: &'a Scalar) -> Result<BinaryScalar<'a>, ScalarError> {
        match scalar.as_binary_opt() {
            Some(view) => Ok(view),
            None => Err(ScalarError::Invalid),
        }
    }
}
