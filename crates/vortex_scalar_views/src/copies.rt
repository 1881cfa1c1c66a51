//! Scalars from clones.
ghost use Rattle.std.specs.Prelude.{◌≡◌, IsTrue, IfOk};
ghost use Rattle.vortex_model.specs.Valid.{valid};
ghost use Rattle.vortex_dtype_core.specs.View.{type_of};
ghost use Rattle.vortex_scalar_value.specs.View.{raw_at};
ghost use Rattle.vortex_scalar_views.specs.Views.{typed_scalar};

use std::alloc::AllocError;
use vortex_dtype_core::dtype::DType;
use vortex_scalar_core::scalar::Scalar;
use vortex_scalar_value::clone::clone_value;
use vortex_scalar_value::scalar_value::ScalarValue;

/// A scalar of a clone of the value and a clone of the type.
pub fn scalar_of(dtype: &DType, value: Option<&ScalarValue>) -> Result<Scalar, AllocError>
    requires { IsTrue (valid (type_of dtype.now) (raw_at value)) }
    ensures { IfOk result (λ scalar. typed_scalar scalar
        ≡ (type_of dtype.now, raw_at value.entry)) }
{
    let dtype = dtype.clone()?;
    let value = clone_value(value)?;
    Ok(Scalar::new_unchecked(dtype, value))
}
