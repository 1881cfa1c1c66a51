//! The rows of an array as values.
ghost use Rattle.std.specs.Prelude.{◌≡◌, ◌<◌, true, IfOk};
ghost use Rattle.vortex_model.specs.Valid.{valid};
ghost use Rattle.vortex_scalar_value.specs.View.{raw_in, content_in};
ghost use Rattle.vortex_arrays_model.specs.Layout.{len_of, array_type_of, content_at};

use std::alloc::{AllocError, Global};
use vortex_arrays_core::array::ArrayRef;
use vortex_arrays_view::error::ArrayError;
use vortex_scalar_value::scalar_value::ScalarValue;

/// The value of a row, and `None` for null.
pub fn row_value(
    alloc: Global,
    array: &ArrayRef,
    i: usize,
) -> Result<Option<ScalarValue>, AllocError>
    requires { i < len_of array.now }
    ensures content { IfOk result (λ row. content_in row ≡ content_at array.now i) }
    ensures valid { IfOk result (λ row. valid (array_type_of array.now) (raw_in row) ≡ true) }
{
    match array.execute_scalar(alloc, i) {
        Ok(scalar) => {
            let (_, row) = scalar.into_parts();
            Ok(row)
        }
        Err(ArrayError::Memory) => Err(AllocError),
        Err(_) => unreachable!(),
    }
}
