//! Calls on scalars, and scalars from scalars.
ghost use Rattle.std.specs.Prelude.{◌≡◌, ◌≢◌, true, false, not, is_ok, IfOk, IfErr, IsTrue};
ghost use Rattle.vortex_model.specs.LogicalType.{nullable, with_nullability};
ghost use Rattle.vortex_model.specs.Content.{is_null};
ghost use Rattle.vortex_model.specs.Convert.{converts};
ghost use Rattle.vortex_model.specs.Valid.{valid};
ghost use Rattle.vortex_dtype_core.specs.View.{type_of};
ghost use Rattle.vortex_scalar_value.specs.View.{raw_in, raw_at};
ghost use Rattle.vortex_scalar_value.specs.declared.error.ScalarError.TheVariants.{Memory, Invalid, NotConvertible};

use crate::scalar::Scalar;
use std::alloc::{AllocError, Global};
use vortex_dtype_core::dtype::DType;
use vortex_scalar_ops::cast::convert_value;
use vortex_scalar_ops::validate::validate;
use vortex_scalar_value::error::ScalarError;
use vortex_scalar_value::scalar_value::ScalarValue;

impl Scalar {
    ghost use Rattle.vortex_scalar_core.specs.Scalar.{scalar_type, scalar_raw, scalar_content};

    /// Tests that the type has the value: `ScalarError::Invalid` where it doesn't. `None` is null.
    /// Allocates nothing.
    pub fn validate(dtype: &DType, value: Option<&ScalarValue>) -> Result<(), ScalarError>
        ensures when { is_ok result ≡ valid (type_of dtype.now) (raw_at value.entry) }
        ensures refused { IfErr result (λ e. e ≡ Invalid) }
    {
        if !validate(dtype, value) {
            return Err(ScalarError::Invalid);
        }
        Ok(())
    }

    /// Whether the type has the value. `None` is null. Allocates nothing.
    pub fn is_compatible(dtype: &DType, value: Option<&ScalarValue>) -> bool
        ensures { result ≡ valid (type_of dtype.now) (raw_at value.entry) }
    {
        validate(dtype, value)
    }

    /// The value as one of `target`, with the same content. `ScalarError::NotConvertible` where
    /// `target` can't hold the content. Takes time linear in the size of the value.
    pub fn cast(&self, alloc: Global, target: &DType) -> Result<Scalar, ScalarError>
        ensures converts { IfOk result (λ _.
            converts (scalar_type self.now) (type_of target.now) (scalar_content self.now) ≡ true) }
        ensures dtype { IfOk result (λ new. scalar_type new ≡ type_of target.now) }
        ensures content { IfOk result (λ new. scalar_content new ≡ scalar_content self.now) }
        ensures refused { IfErr result (λ e. e ≢ Memory → (e ≡ NotConvertible)
            × (converts (scalar_type self.now) (type_of target.now) (scalar_content self.now)
            ≡ false)) }
    {
        let value = convert_value(alloc, self.dtype(), target, self.value())?;
        let dtype = target.clone()?;
        Ok(Scalar::new_unchecked(dtype, value))
    }

    /// The value as one of the nullable type.
    #[tactic(auto, using(vortex_scalar_ops::proofs::Nullable::kept))]
    pub fn into_nullable(self) -> Result<Scalar, AllocError>
        ensures dtype { IfOk result
            (λ new. scalar_type new ≡ with_nullability nullable (scalar_type self)) }
        ensures value { IfOk result (λ new. scalar_raw new ≡ scalar_raw self) }
    {
        let (dtype, value) = self.into_parts();
        let dtype = dtype.as_nullable()?;
        Ok(Scalar::new_unchecked(dtype, value))
    }

    pub fn is_valid(&self) -> bool
        ensures { result ≡ not (is_null (scalar_content self.now)) }
    {
        !self.is_null()
    }

    /// The value. `None` is null.
    pub fn into_value(self) -> Option<ScalarValue>
        ensures value { raw_in result ≡ scalar_raw self }
        ensures is_valid { IsTrue (valid (scalar_type self) (raw_in result)) }
    {
        let (_, value) = self.into_parts();
        value
    }
}
