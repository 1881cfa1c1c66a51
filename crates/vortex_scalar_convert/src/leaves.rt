//! Native values of values without values inside. `ScalarError::Invalid` where the type is another,
//! and for null.
ghost use Rattle.std.specs.Prelude.{◌≡◌};
ghost use Rattle.vortex_model.specs.Content.{boolean, integer, text, byte_string};
ghost use Rattle.vortex_dtype_core.specs.View.{type_of};
ghost use Rattle.vortex_scalar_value.specs.View.{content_at};
ghost use Rattle.vortex_scalar_convert.specs.Reading.{IsFound, reads_boolean, reads_number, reads_text, reads_bytes};

use vortex_dtype_core::dtype::DType;
use vortex_dtype_core::{BufferString, ByteBuffer};
use vortex_dtype_native::native::NativePType;
use vortex_scalar_value::error::ScalarError;
use vortex_scalar_value::scalar_value::ScalarValue;

#[tactic(auto, using(crate::proofs::Reading::truths))]
pub(crate) fn boolean(dtype: &DType, value: Option<&ScalarValue>) -> Result<bool, ScalarError>
    ensures { IsFound boolean (reads_boolean (type_of dtype.now) (content_at value.entry))
        (content_at value.entry) result }
{
    if !dtype.is_boolean() {
        return Err(ScalarError::Invalid);
    }
    let Some(value) = value else {
        return Err(ScalarError::Invalid);
    };
    match value.as_bool() {
        Some(flag) => Ok(flag),
        None => Err(ScalarError::Invalid),
    }
}

/// The integer as a `T`, whatever its own type. `Invalid` also where it is out of range.
#[tactic(auto, using(crate::proofs::Reading::numbers))]
pub(crate) fn number<T: NativePType>(
    dtype: &DType,
    value: Option<&ScalarValue>,
) -> Result<T, ScalarError>
    ensures { IsFound (λ n. integer (T.integer n))
        (reads_number T.kind (type_of dtype.now) (content_at value.entry))
        (content_at value.entry) result }
{
    if !dtype.is_primitive() {
        return Err(ScalarError::Invalid);
    }
    match value {
        Some(value) => value.to_native(),
        None => Err(ScalarError::Invalid),
    }
}

#[tactic(auto, using(crate::proofs::Reading::texts))]
pub(crate) fn text<'a>(
    dtype: &DType,
    value: Option<&'a ScalarValue>,
) -> Result<&'a BufferString, ScalarError>
    ensures { IsFound (λ t. text t.now) (reads_text (type_of dtype.now) (content_at value.entry))
        (content_at value.entry) result }
{
    if !dtype.is_utf8() {
        return Err(ScalarError::Invalid);
    }
    let Some(value) = value else {
        return Err(ScalarError::Invalid);
    };
    match value.as_utf8() {
        Some(text) => Ok(text),
        None => Err(ScalarError::Invalid),
    }
}

#[tactic(auto, using(crate::proofs::Reading::byte_strings))]
pub(crate) fn bytes<'a>(
    dtype: &DType,
    value: Option<&'a ScalarValue>,
) -> Result<&'a ByteBuffer, ScalarError>
    ensures { IsFound (λ b. byte_string b.now)
        (reads_bytes (type_of dtype.now) (content_at value.entry)) (content_at value.entry) result }
{
    if !dtype.is_binary() {
        return Err(ScalarError::Invalid);
    }
    let Some(value) = value else {
        return Err(ScalarError::Invalid);
    };
    match value.as_binary() {
        Some(bytes) => Ok(bytes),
        None => Err(ScalarError::Invalid),
    }
}
