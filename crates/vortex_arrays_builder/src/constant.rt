//! Arrays of one repeated value.
ghost use Rattle.std.specs.Prelude.{◌≡◌, true, replicate, IfOk};
ghost use Rattle.vortex_model.specs.Valid.{valid};
ghost use Rattle.vortex_dtype_core.specs.View.{type_of};
ghost use Rattle.vortex_scalar_value.specs.View.{raw_at, content_at};
ghost use Rattle.vortex_arrays_model.specs.Layout.{constant, rows_of};

use std::alloc::{AllocError, Global};
use vortex_arrays_core::array::ArrayRef;
use vortex_dtype_core::dtype::DType;
use vortex_scalar_core::scalar::Scalar;
use vortex_scalar_value::clone::clone_value;
use vortex_scalar_value::scalar_value::ScalarValue;

/// `len` rows of one value of the type, which is stored once. `None` is null.
#[tactic(auto, using(crate::proofs::ConstantLemmas::rows))]
pub fn build_constant(
    alloc: Global,
    dtype: &DType,
    value: Option<&ScalarValue>,
    len: usize,
) -> Result<ArrayRef, AllocError>
    requires { valid (type_of dtype.now) (raw_at value) ≡ true }
    ensures made { IfOk result
        (λ array. array ≡ constant (type_of dtype.now) (raw_at value.entry) len) }
    ensures rows { IfOk result (λ array. rows_of array ≡ replicate len (content_at value.entry)) }
{
    let dtype = dtype.clone()?;
    let value = clone_value(value)?;
    let array = ArrayRef::of_constant(alloc, Scalar::new_unchecked(dtype, value), len)?;
    Ok(array)
}
