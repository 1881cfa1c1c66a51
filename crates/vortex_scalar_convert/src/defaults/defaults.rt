//! Zeros and defaults of types.
ghost use Rattle.std.specs.Prelude.{◌≡◌, IfOk, IfSome, option_map};
ghost use Rattle.vortex_model.specs.LogicalType.{LogicalType};
ghost use Rattle.vortex_model.specs.Content.{Raw};
ghost use Rattle.vortex_dtype_core.specs.View.{type_of};
ghost use Rattle.vortex_scalar_core.specs.Scalar.{scalar_type, scalar_raw};
ghost use Rattle.vortex_scalar_convert.specs.defaults.Zero.{zero_of, default_of, zero_test};

use crate::defaults::is_zero::is_zero_value;
use crate::defaults::zero::zero_of;
use std::alloc::{AllocError, Global};
use vortex_dtype_core::dtype::DType;
use vortex_scalar_core::scalar::Scalar;

/// Zeros and defaults, which are methods of Vortex's `Scalar`.
pub trait ScalarDefaults {
    ghost kind: { Self → LogicalType };

    ghost raw: { Self → Raw };

    /// The zero of the type: false, 0, an empty string, list or map, a fixed-size list or struct of
    /// zeros, a union's first variant with its zero, and the zero of an extension's storage. `None`
    /// for `Null`, floats, decimals, `Variant` and unions without variants, and where a part has no
    /// zero.
    fn zero_value(alloc: Global, dtype: &DType) -> Result<Option<Self>, AllocError>
        ensures value { IfOk result (λ zero. option_map raw zero ≡ zero_of (type_of dtype.now)) }
        ensures dtype { IfOk result (λ zero. IfSome zero (λ made. kind made ≡ type_of dtype.now)) };

    /// Null for a nullable type, and else its zero. `None` where it has neither.
    fn default_value(alloc: Global, dtype: &DType) -> Result<Option<Self>, AllocError>
        ensures value { IfOk result (λ value. option_map raw value
            ≡ default_of (type_of dtype.now)) }
        ensures dtype { IfOk result (λ value. IfSome value
            (λ made. kind made ≡ type_of dtype.now)) };

    /// Whether the value is the zero of its type, and `None` for null. A `Variant` value is where
    /// the value inside is the zero of the type inside. Allocates nothing.
    fn is_zero(&self) -> Option<bool>
        ensures { result ≡ zero_test (kind self.now) (raw self.now) };
}

impl ScalarDefaults for Scalar {
    ghost kind = { scalar_type };

    ghost raw = { scalar_raw };

    #[tactic(auto, using(crate::proofs::defaults::Made::made))]
    fn zero_value(alloc: Global, dtype: &DType) -> Result<Option<Scalar>, AllocError> {
        let Some(zero) = zero_of(alloc, dtype)? else {
            return Ok(None);
        };
        let dtype = dtype.clone()?;
        Ok(Some(Scalar::new_unchecked(dtype, Some(zero))))
    }

    #[tactic(auto, using(crate::proofs::defaults::Made::made))]
    fn default_value(alloc: Global, dtype: &DType) -> Result<Option<Scalar>, AllocError> {
        if dtype.is_nullable() {
            let dtype = dtype.clone()?;
            return Ok(Some(Scalar::null(dtype)));
        }
        let zero = Scalar::zero_value(alloc, dtype)?;
        Ok(zero)
    }

    #[tactic(auto, using(vortex_scalar_value::proofs::Nulls::never_null))]
    fn is_zero(&self) -> Option<bool> {
        let value = self.value()?;
        Some(is_zero_value(self.dtype(), Some(value)))
    }
}
