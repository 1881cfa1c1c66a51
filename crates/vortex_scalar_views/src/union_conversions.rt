//! Views of unions and of `Variant` values by `TryFrom`: `ScalarError::Invalid` exactly where the
//! type is of another kind.
ghost use Rattle.vortex_dtype_core.specs.Parts.{is_union_type, is_variant_type};
ghost use Rattle.vortex_scalar_views.specs.Forms.{ViewsTyped};
ghost use Rattle.vortex_scalar_views.specs.Views.{typed_scalar};
ghost use Rattle.vortex_scalar_views.specs.UnionViews.{typed_union, typed_variant};

use crate::union_scalar::UnionScalar;
use crate::variant_scalar::VariantScalar;
use vortex_scalar_core::scalar::Scalar;
use vortex_scalar_value::error::ScalarError;

impl<'a> TryFrom<&'a Scalar> for UnionScalar<'a> {
    type Error = ScalarError;

    ghost try_from_gives = { λ scalar result. ViewsTyped typed_union is_union_type
        (typed_scalar scalar.now) result };

    fn try_from(scalar: &'a Scalar) -> Result<UnionScalar<'a>, ScalarError> {
        if !scalar.dtype().is_union() {
            return Err(ScalarError::Invalid);
        }
        Ok(UnionScalar::new(scalar.dtype(), scalar.value()))
    }
}

impl<'a> TryFrom<&'a Scalar> for VariantScalar<'a> {
    type Error = ScalarError;

    ghost try_from_gives = { λ scalar result. ViewsTyped typed_variant is_variant_type
        (typed_scalar scalar.now) result };

    fn try_from(scalar: &'a Scalar) -> Result<VariantScalar<'a>, ScalarError> {
        if !scalar.dtype().is_variant() {
            return Err(ScalarError::Invalid);
        }
        Ok(VariantScalar::new(scalar.dtype(), scalar.value()))
    }
}
