//! Scalars: values with their type.
ghost use Rattle.std.specs.Prelude.{◌≡◌, is_ok, IfOk, IfErr, IsTrue};
ghost use Rattle.vortex_model.specs.LogicalType.{is_nullable, nullability_of};
ghost use Rattle.vortex_model.specs.Content.{raw_null, is_null};
ghost use Rattle.vortex_model.specs.Valid.{valid};
ghost use Rattle.vortex_dtype_core.specs.View.{type_of};
ghost use Rattle.vortex_scalar_value.specs.View.{raw_in, raw_at};

use std::alloc::AllocError;
use vortex_dtype_core::dtype::DType;
use vortex_scalar_ops::validate::validate;
use vortex_scalar_value::clone::clone_value;
use vortex_scalar_value::error::ScalarError;
use vortex_scalar_value::scalar_value::ScalarValue;

/// A value with its type, as Vortex's `Scalar`. Null is `None`.
#[derive(Drop)]
pub struct Scalar {
    dtype: DType,
    value: Option<ScalarValue>,
    ghost is_valid: { IsTrue (valid (type_of dtype) (raw_in value)) },
}

impl Scalar {
    ghost use Rattle.vortex_scalar_core.specs.Scalar.{scalar_type, scalar_raw, scalar_content};

    /// A scalar, or `ScalarError::Invalid`, and no other error, where the type doesn't have the
    /// value.
    pub fn try_new(dtype: DType, value: Option<ScalarValue>) -> Result<Scalar, ScalarError>
        ensures when { is_ok result ≡ valid (type_of dtype) (raw_in value) }
        ensures dtype { IfOk result (λ scalar. scalar_type scalar ≡ type_of dtype) }
        ensures value { IfOk result (λ scalar. scalar_raw scalar ≡ raw_in value) }
        ensures invalid { IfErr result (λ error. error ≡ ScalarError.Invalid) }
    {
        if !validate(&dtype, value.as_ref()) {
            return Err(ScalarError::Invalid);
        }
        Ok(Scalar { dtype, value })
    }

    /// A scalar, for a caller that knows that the type has the value. Nothing is tested when it
    /// runs.
    pub fn new_unchecked(dtype: DType, value: Option<ScalarValue>) -> Scalar
        requires { IsTrue (valid (type_of dtype) (raw_in value)) }
        ensures dtype { scalar_type result ≡ type_of dtype }
        ensures value { scalar_raw result ≡ raw_in value }
    {
        Scalar { dtype, value }
    }

    /// Null of a nullable type.
    #[tactic(auto, using(vortex_scalar_ops::proofs::Views::nulls))]
    pub fn null(dtype: DType) -> Scalar
        requires { IsTrue (is_nullable (nullability_of (type_of dtype))) }
        ensures dtype { scalar_type result ≡ type_of dtype }
        ensures value { scalar_raw result ≡ raw_null }
    {
        Scalar { dtype, value: None }
    }

    pub fn dtype(&self) -> &DType
        ensures { type_of result.now ≡ scalar_type self.now }
    {
        &self.dtype
    }

    /// The value. `None` is null.
    pub fn value(&self) -> Option<&ScalarValue>
        ensures value { raw_at result ≡ scalar_raw self.now }
        ensures is_valid { IsTrue (valid (scalar_type self.now) (raw_at result)) }
    {
        self.value.as_ref()
    }

    #[tactic(auto, using(vortex_scalar_value::proofs::Nulls::never_null))]
    pub fn is_null(&self) -> bool
        ensures { result ≡ is_null (scalar_content self.now) }
    {
        self.value.is_none()
    }

    pub fn into_parts(self) -> (DType, Option<ScalarValue>)
        ensures dtype { type_of result.0 ≡ scalar_type self }
        ensures value { raw_in result.1 ≡ scalar_raw self }
        ensures is_valid { IsTrue (valid (type_of result.0) (raw_in result.1)) }
    {
        (self.dtype, self.value)
    }
}

impl Clone for Scalar {
    ghost use Rattle.std.specs.Prelude.{◌≡◌};
    ghost use Rattle.vortex_scalar_core.specs.Scalar.{scalar_type, scalar_raw};

    ghost is_clone = { λ old new. (scalar_type new ≡ scalar_type old)
        × (scalar_raw new ≡ scalar_raw old) };

    fn clone(&self) -> Result<Scalar, AllocError> {
        let dtype = self.dtype.clone()?;
        let value = clone_value(self.value.as_ref())?;
        Ok(Scalar { dtype, value })
    }
}
