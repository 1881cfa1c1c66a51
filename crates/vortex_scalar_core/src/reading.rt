//! Native values of scalars. `ScalarError::Invalid` where the type is another, and `None` for null.
ghost use Rattle.std.specs.Prelude.{◌≡◌, option_map, option_copied};
ghost use Rattle.vortex_dtype_core.specs.Parts.{is_boolean_type, is_primitive_type, is_utf8_type, is_binary_type};
ghost use Rattle.vortex_scalar_value.specs.Parts.{boolean_in, text_in, byte_string_in, GivesPart};
ghost use Rattle.vortex_scalar_core.specs.Native.{read_of, or_null, whole_within};

use crate::scalar::Scalar;
use vortex_dtype_core::{BufferString, ByteBuffer};
use vortex_dtype_native::native::NativePType;
use vortex_scalar_value::error::ScalarError;

#[tactic(auto, using(crate::proofs::Natives::truths))]
pub(crate) fn truth(scalar: &Scalar) -> Result<Option<bool>, ScalarError>
    ensures { GivesPart (λ found. found) (read_of is_boolean_type (or_null boolean_in) scalar.now)
        result }
{
    if !scalar.dtype().is_boolean() {
        return Err(ScalarError::Invalid);
    }
    match scalar.value() {
        Some(value) => Ok(value.as_bool()),
        None => Ok(None),
    }
}

/// The integer as a `T`, whatever its own type. `Invalid` also where it is out of range.
#[tactic(auto, using(crate::proofs::Natives::numbers))]
pub(crate) fn number<T: NativePType>(scalar: &Scalar) -> Result<Option<T>, ScalarError>
    ensures { GivesPart (option_map T.integer)
        (read_of is_primitive_type (or_null (whole_within T.kind)) scalar.now) result }
{
    if !scalar.dtype().is_primitive() {
        return Err(ScalarError::Invalid);
    }
    match scalar.value() {
        Some(value) => {
            let number = value.to_native()?;
            Ok(Some(number))
        }
        None => Ok(None),
    }
}

#[tactic(auto, using(crate::proofs::Natives::texts))]
pub(crate) fn text(scalar: &Scalar) -> Result<Option<&BufferString>, ScalarError>
    ensures { GivesPart (λ found. option_copied found)
        (read_of is_utf8_type (or_null text_in) scalar.now) result }
{
    if !scalar.dtype().is_utf8() {
        return Err(ScalarError::Invalid);
    }
    match scalar.value() {
        Some(value) => Ok(value.as_utf8()),
        None => Ok(None),
    }
}

#[tactic(auto, using(crate::proofs::Natives::bytes))]
pub(crate) fn bytes(scalar: &Scalar) -> Result<Option<&ByteBuffer>, ScalarError>
    ensures { GivesPart (λ found. option_copied found)
        (read_of is_binary_type (or_null byte_string_in) scalar.now) result }
{
    if !scalar.dtype().is_binary() {
        return Err(ScalarError::Invalid);
    }
    match scalar.value() {
        Some(value) => Ok(value.as_binary()),
        None => Ok(None),
    }
}

/// The string of a scalar that is consumed.
#[tactic(auto, using(crate::proofs::Natives::texts))]
pub(crate) fn into_text(scalar: Scalar) -> Result<Option<BufferString>, ScalarError>
    ensures { GivesPart (λ found. found) (read_of is_utf8_type (or_null text_in) scalar) result }
{
    if !scalar.dtype().is_utf8() {
        return Err(ScalarError::Invalid);
    }
    match scalar.into_value() {
        Some(value) => Ok(value.into_utf8()),
        None => Ok(None),
    }
}

/// The bytes of a scalar that is consumed.
#[tactic(auto, using(crate::proofs::Natives::bytes))]
pub(crate) fn into_bytes(scalar: Scalar) -> Result<Option<ByteBuffer>, ScalarError>
    ensures { GivesPart (λ found. found) (read_of is_binary_type (or_null byte_string_in) scalar)
        result }
{
    if !scalar.dtype().is_binary() {
        return Err(ScalarError::Invalid);
    }
    match scalar.into_value() {
        Some(value) => Ok(value.into_binary()),
        None => Ok(None),
    }
}

/// The integer as a `T`, whatever its own type. `Invalid` also for null, and where it is out of
/// range.
#[tactic(auto, using(crate::proofs::Natives::present))]
pub(crate) fn number_present<T: NativePType>(scalar: &Scalar) -> Result<T, ScalarError>
    ensures { GivesPart T.integer (read_of is_primitive_type (whole_within T.kind) scalar.now)
        result }
{
    match number(scalar)? {
        Some(number) => Ok(number),
        None => Err(ScalarError::Invalid),
    }
}
