//! Views of `Variant` values.
ghost use Rattle.std.specs.Prelude.{◌≡◌, IsTrue, IfOk, option_map};
ghost use Rattle.vortex_model.specs.Content.{content_of, is_null};
ghost use Rattle.vortex_model.specs.Valid.{valid};
ghost use Rattle.vortex_dtype_core.specs.Parts.{is_variant_type};
ghost use Rattle.vortex_dtype_core.specs.View.{type_of};
ghost use Rattle.vortex_scalar_value.specs.View.{raw_at};
ghost use Rattle.vortex_scalar_convert.specs.defaults.Zero.{zero_test};
ghost use Rattle.vortex_scalar_views.specs.Choices.{inner_of};
ghost use Rattle.vortex_scalar_views.specs.Held.{raw_of_whichever};

use crate::copies::scalar_of;
use std::alloc::AllocError;
use vortex_dtype_core::dtype::DType;
use vortex_scalar_convert::defaults::is_zero::is_zero_value;
use vortex_scalar_core::scalar::Scalar;
use vortex_scalar_value::scalar_value::ScalarValue;
use vortex_scalar_value::variant_value::VariantValue;

/// A `Variant` value or null with its type, as Vortex's `VariantScalar`.
#[derive(Drop)]
pub struct VariantScalar<'a> {
    dtype: &'a DType,
    stored: Option<&'a ScalarValue>,
    ghost is_variant: { IsTrue (is_variant_type (type_of dtype.now)) },
    ghost is_valid: { IsTrue (valid (type_of dtype.now) (raw_at stored)) },
}

impl<'a> VariantScalar<'a> {
    ghost use Rattle.vortex_scalar_views.specs.Views.{typed_scalar};
    ghost use Rattle.vortex_scalar_views.specs.UnionViews.{typed_variant};

    /// The view, for a caller that knows that the type is `Variant`, and has the value.
    pub fn new(dtype: &'a DType, value: Option<&'a ScalarValue>) -> VariantScalar<'a>
        requires kind { IsTrue (is_variant_type (type_of dtype.now)) }
        requires valid { IsTrue (valid (type_of dtype.now) (raw_at value)) }
        ensures { typed_variant result ≡ (type_of dtype.now, raw_at value.entry) }
    {
        VariantScalar {
            dtype,
            stored: value,
        }
    }

    pub fn dtype(&self) -> &'a DType
        ensures { type_of result.now ≡ (typed_variant self.now).0 }
    {
        self.dtype
    }

    /// The value inside with its type, as it is stored. `None` is null.
    pub(crate) fn stored(&self) -> Option<&'a ScalarValue>
        ensures { raw_at result ≡ (typed_variant self.now).1 }
    {
        self.stored
    }

    // The value inside with its type, and `None` where the `Variant` value itself is null.
    #[tactic(auto, using(crate::proofs::Whichever::held))]
    fn whichever(&self) -> Option<&'a VariantValue>
        ensures value { raw_of_whichever result ≡ (typed_variant self.now).1 }
        ensures is_valid { IsTrue (valid (typed_variant self.now).0 (raw_of_whichever result)) }
    {
        match self.stored {
            Some(value) => value.as_variant(),
            None => None,
        }
    }

    /// Whether the `Variant` value itself is null.
    #[tactic(auto, using(crate::proofs::Whichever::inner))]
    pub fn is_null(&self) -> bool
        ensures { result ≡ is_null (content_of (typed_variant self.now).1) }
    {
        self.stored.is_none()
    }

    /// A clone of the value inside, and `None` where the `Variant` value itself is null.
    #[tactic(auto, using(crate::proofs::Whichever::inner))]
    pub fn value(&self) -> Result<Option<Scalar>, AllocError>
        ensures { IfOk result (λ inner. option_map typed_scalar inner
            ≡ inner_of (typed_variant self.now).1) }
    {
        let Some(value) = self.whichever() else {
            return Ok(None);
        };
        let inner = scalar_of(value.dtype(), value.value())?;
        Ok(Some(inner))
    }

    /// Whether the value inside is the zero of its type, and `None` where the `Variant` value
    /// itself is null. Allocates nothing.
    #[tactic(auto, using(vortex_scalar_value::proofs::Nulls::never_null))]
    pub fn is_zero(&self) -> Option<bool>
        ensures { result ≡ zero_test (typed_variant self.now).0 (typed_variant self.now).1 }
    {
        let value = self.stored()?;
        Some(is_zero_value(self.dtype, Some(value)))
    }

    /// Whether the value inside is null, and `None` where the `Variant` value itself is.
    #[tactic(auto, using(crate::proofs::Whichever::inner))]
    pub fn is_variant_null(&self) -> Option<bool>
        ensures { result ≡ option_map (λ inner. is_null (content_of inner.1))
            (inner_of (typed_variant self.now).1) }
    {
        match self.whichever() {
            Some(value) => Some(value.value().is_none()),
            None => None,
        }
    }
}
