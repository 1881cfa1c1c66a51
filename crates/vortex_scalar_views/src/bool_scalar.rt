//! Views of booleans.
ghost use Rattle.std.specs.Prelude.{◌≡◌, IsTrue, IfOk, option_map, not};
ghost use Rattle.vortex_model.specs.Content.{content_of, is_null};
ghost use Rattle.vortex_model.specs.Valid.{valid};
ghost use Rattle.vortex_dtype_core.specs.Parts.{is_boolean_type};
ghost use Rattle.vortex_dtype_core.specs.View.{type_of};
ghost use Rattle.vortex_scalar_value.specs.Parts.{boolean_in};
ghost use Rattle.vortex_scalar_value.specs.View.{raw_at};
ghost use Rattle.vortex_scalar_views.specs.Forms.{raw_of_boolean, GivesView};

use std::alloc::AllocError;
use vortex_dtype_core::dtype::DType;
use vortex_scalar_core::scalar::Scalar;
use vortex_scalar_ops::validate::validate;
use vortex_scalar_value::error::ScalarError;
use vortex_scalar_value::scalar_value::ScalarValue;

/// A boolean or null with its type, as Vortex's `BoolScalar`.
#[derive(Drop)]
pub struct BoolScalar<'a> {
    dtype: &'a DType,
    value: Option<bool>,
    ghost is_boolean: { IsTrue (is_boolean_type (type_of dtype.now)) },
    ghost is_valid: { IsTrue (valid (type_of dtype.now) (raw_of_boolean value)) },
}

impl<'a> BoolScalar<'a> {
    ghost use Rattle.vortex_scalar_views.specs.Views.{typed_bool, typed_scalar};

    /// The view, or `ScalarError::Invalid` where `dtype` isn't a boolean type, or doesn't have the
    /// value.
    pub fn try_new(
        dtype: &'a DType,
        value: Option<&ScalarValue>,
    ) -> Result<BoolScalar<'a>, ScalarError>
        ensures { GivesView typed_bool is_boolean_type (type_of dtype.now)
            (raw_at value.entry) result }
    {
        if !dtype.is_boolean() || !validate(dtype, value) {
            return Err(ScalarError::Invalid);
        }
        Ok(BoolScalar::new(dtype, value))
    }

    /// The view of a value that the type has.
    #[tactic(auto, using(crate::proofs::Leaves::truths))]
    pub(crate) fn new(dtype: &'a DType, value: Option<&ScalarValue>) -> BoolScalar<'a>
        requires kind { IsTrue (is_boolean_type (type_of dtype.now)) }
        requires valid { IsTrue (valid (type_of dtype.now) (raw_at value)) }
        ensures { typed_bool result ≡ (type_of dtype.now, raw_at value.entry) }
    {
        let value = match value {
            Some(value) => value.as_bool(),
            None => None,
        };
        BoolScalar { dtype, value }
    }

    pub fn dtype(&self) -> &'a DType
        ensures { type_of result.now ≡ (typed_bool self.now).0 }
    {
        self.dtype
    }

    /// The boolean, and `None` for null.
    #[tactic(auto, using(crate::proofs::Leaves::truths))]
    pub fn value(&self) -> Option<bool>
        ensures { result ≡ boolean_in (typed_bool self.now).1 }
    {
        self.value
    }

    #[tactic(auto, using(crate::proofs::Leaves::truths))]
    pub fn is_null(&self) -> bool
        ensures { result ≡ is_null (content_of (typed_bool self.now).1) }
    {
        self.value.is_none()
    }

    /// The negation, and null for null.
    #[tactic(auto, using(crate::proofs::Leaves::truths))]
    pub fn invert(self) -> BoolScalar<'a>
        ensures dtype { (typed_bool result).0 ≡ (typed_bool self.entry).0 }
        ensures value { boolean_in (typed_bool result).1
            ≡ option_map not (boolean_in (typed_bool self.entry).1) }
    {
        let value = match self.value {
            Some(value) => Some(!value),
            None => None,
        };
        BoolScalar {
            dtype: self.dtype,
            value,
        }
    }

    /// The scalar, with a clone of the type.
    #[tactic(auto, using(crate::proofs::Leaves::truths))]
    pub fn into_scalar(self) -> Result<Scalar, AllocError>
        ensures { IfOk result (λ scalar. typed_scalar scalar ≡ typed_bool self.entry) }
    {
        let dtype = self.dtype.clone()?;
        let value = match self.value {
            Some(value) => Some(ScalarValue::Bool(value)),
            None => None,
        };
        Ok(Scalar::new_unchecked(dtype, value))
    }
}
