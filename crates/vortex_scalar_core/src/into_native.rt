//! Native values from scalars. `ScalarError::Invalid` where the scalar has another type, where it
//! is null and no `Option` is read, and where an integer is out of range. An integer is read
//! whatever its own type; an `Option` is `None` for null.
ghost use Rattle.std.specs.Prelude.{◌≡◌, pos, option_map};
ghost use Rattle.vortex_model.specs.LogicalType.{u8, u16, u32, u64, i8, i16, i32, i64};
ghost use Rattle.vortex_dtype_core.specs.Parts.{is_boolean_type, is_primitive_type, is_utf8_type, is_binary_type};
ghost use Rattle.vortex_scalar_value.specs.Parts.{boolean_in, text_in, byte_string_in, GivesPart};
ghost use Rattle.vortex_scalar_core.specs.Native.{read_of, or_null, whole_within, GivesCopy};

use crate::reading::{bytes, into_bytes, into_text, number, number_present, text, truth};
use crate::scalar::Scalar;
use vortex_dtype_core::{BufferString, ByteBuffer};
use vortex_scalar_value::error::ScalarError;

impl TryFrom<&Scalar> for bool {
    type Error = ScalarError;

    ghost try_from_gives = { λ scalar result.
        GivesPart (λ found. found) (read_of is_boolean_type boolean_in scalar.now) result };

    #[tactic(auto, using(crate::proofs::Natives::present))]
    fn try_from(scalar: &Scalar) -> Result<bool, ScalarError> {
        match truth(scalar)? {
            Some(found) => Ok(found),
            None => Err(ScalarError::Invalid),
        }
    }
}

impl TryFrom<&Scalar> for Option<bool> {
    type Error = ScalarError;

    ghost try_from_gives = { λ scalar result.
        GivesPart (λ found. found)
        (read_of is_boolean_type (or_null boolean_in) scalar.now) result };

    fn try_from(scalar: &Scalar) -> Result<Option<bool>, ScalarError> {
        truth(scalar)
    }
}

impl TryFrom<Scalar> for bool {
    type Error = ScalarError;

    ghost try_from_gives = { λ scalar result.
        GivesPart (λ found. found) (read_of is_boolean_type boolean_in scalar) result };

    #[tactic(auto, using(crate::proofs::Natives::present))]
    fn try_from(scalar: Scalar) -> Result<bool, ScalarError> {
        match truth(&scalar)? {
            Some(found) => Ok(found),
            None => Err(ScalarError::Invalid),
        }
    }
}

impl TryFrom<Scalar> for Option<bool> {
    type Error = ScalarError;

    ghost try_from_gives = { λ scalar result.
        GivesPart (λ found. found) (read_of is_boolean_type (or_null boolean_in) scalar) result };

    fn try_from(scalar: Scalar) -> Result<Option<bool>, ScalarError> {
        let found = truth(&scalar)?;
        Ok(found)
    }
}

impl TryFrom<&Scalar> for u8 {
    type Error = ScalarError;

    ghost try_from_gives = { λ scalar result.
        GivesPart pos (read_of is_primitive_type (whole_within u8) scalar.now) result };

    fn try_from(scalar: &Scalar) -> Result<u8, ScalarError> {
        number_present(scalar)
    }
}

impl TryFrom<&Scalar> for Option<u8> {
    type Error = ScalarError;

    ghost try_from_gives = { λ scalar result.
        GivesPart (option_map pos)
        (read_of is_primitive_type (or_null (whole_within u8)) scalar.now) result };

    fn try_from(scalar: &Scalar) -> Result<Option<u8>, ScalarError> {
        number(scalar)
    }
}

impl TryFrom<&Scalar> for u16 {
    type Error = ScalarError;

    ghost try_from_gives = { λ scalar result.
        GivesPart pos (read_of is_primitive_type (whole_within u16) scalar.now) result };

    fn try_from(scalar: &Scalar) -> Result<u16, ScalarError> {
        number_present(scalar)
    }
}

impl TryFrom<&Scalar> for Option<u16> {
    type Error = ScalarError;

    ghost try_from_gives = { λ scalar result.
        GivesPart (option_map pos)
        (read_of is_primitive_type (or_null (whole_within u16)) scalar.now) result };

    fn try_from(scalar: &Scalar) -> Result<Option<u16>, ScalarError> {
        number(scalar)
    }
}

impl TryFrom<&Scalar> for u32 {
    type Error = ScalarError;

    ghost try_from_gives = { λ scalar result.
        GivesPart pos (read_of is_primitive_type (whole_within u32) scalar.now) result };

    fn try_from(scalar: &Scalar) -> Result<u32, ScalarError> {
        number_present(scalar)
    }
}

impl TryFrom<&Scalar> for Option<u32> {
    type Error = ScalarError;

    ghost try_from_gives = { λ scalar result.
        GivesPart (option_map pos)
        (read_of is_primitive_type (or_null (whole_within u32)) scalar.now) result };

    fn try_from(scalar: &Scalar) -> Result<Option<u32>, ScalarError> {
        number(scalar)
    }
}

impl TryFrom<&Scalar> for u64 {
    type Error = ScalarError;

    ghost try_from_gives = { λ scalar result.
        GivesPart pos (read_of is_primitive_type (whole_within u64) scalar.now) result };

    fn try_from(scalar: &Scalar) -> Result<u64, ScalarError> {
        number_present(scalar)
    }
}

impl TryFrom<&Scalar> for Option<u64> {
    type Error = ScalarError;

    ghost try_from_gives = { λ scalar result.
        GivesPart (option_map pos)
        (read_of is_primitive_type (or_null (whole_within u64)) scalar.now) result };

    fn try_from(scalar: &Scalar) -> Result<Option<u64>, ScalarError> {
        number(scalar)
    }
}

impl TryFrom<&Scalar> for i8 {
    type Error = ScalarError;

    ghost try_from_gives = { λ scalar result.
        GivesPart (λ z. z) (read_of is_primitive_type (whole_within i8) scalar.now) result };

    fn try_from(scalar: &Scalar) -> Result<i8, ScalarError> {
        number_present(scalar)
    }
}

impl TryFrom<&Scalar> for Option<i8> {
    type Error = ScalarError;

    ghost try_from_gives = { λ scalar result.
        GivesPart (option_map (λ z. z))
        (read_of is_primitive_type (or_null (whole_within i8)) scalar.now) result };

    fn try_from(scalar: &Scalar) -> Result<Option<i8>, ScalarError> {
        number(scalar)
    }
}

impl TryFrom<&Scalar> for i16 {
    type Error = ScalarError;

    ghost try_from_gives = { λ scalar result.
        GivesPart (λ z. z) (read_of is_primitive_type (whole_within i16) scalar.now) result };

    fn try_from(scalar: &Scalar) -> Result<i16, ScalarError> {
        number_present(scalar)
    }
}

impl TryFrom<&Scalar> for Option<i16> {
    type Error = ScalarError;

    ghost try_from_gives = { λ scalar result.
        GivesPart (option_map (λ z. z))
        (read_of is_primitive_type (or_null (whole_within i16)) scalar.now) result };

    fn try_from(scalar: &Scalar) -> Result<Option<i16>, ScalarError> {
        number(scalar)
    }
}

impl TryFrom<&Scalar> for i32 {
    type Error = ScalarError;

    ghost try_from_gives = { λ scalar result.
        GivesPart (λ z. z) (read_of is_primitive_type (whole_within i32) scalar.now) result };

    fn try_from(scalar: &Scalar) -> Result<i32, ScalarError> {
        number_present(scalar)
    }
}

impl TryFrom<&Scalar> for Option<i32> {
    type Error = ScalarError;

    ghost try_from_gives = { λ scalar result.
        GivesPart (option_map (λ z. z))
        (read_of is_primitive_type (or_null (whole_within i32)) scalar.now) result };

    fn try_from(scalar: &Scalar) -> Result<Option<i32>, ScalarError> {
        number(scalar)
    }
}

impl TryFrom<&Scalar> for i64 {
    type Error = ScalarError;

    ghost try_from_gives = { λ scalar result.
        GivesPart (λ z. z) (read_of is_primitive_type (whole_within i64) scalar.now) result };

    fn try_from(scalar: &Scalar) -> Result<i64, ScalarError> {
        number_present(scalar)
    }
}

impl TryFrom<&Scalar> for Option<i64> {
    type Error = ScalarError;

    ghost try_from_gives = { λ scalar result.
        GivesPart (option_map (λ z. z))
        (read_of is_primitive_type (or_null (whole_within i64)) scalar.now) result };

    fn try_from(scalar: &Scalar) -> Result<Option<i64>, ScalarError> {
        number(scalar)
    }
}

impl TryFrom<&Scalar> for usize {
    type Error = ScalarError;

    ghost try_from_gives = { λ scalar result.
        GivesPart pos (read_of is_primitive_type (whole_within u64) scalar.now) result };

    fn try_from(scalar: &Scalar) -> Result<usize, ScalarError> {
        let number: u64 = number_present(scalar)?;
        Ok(number as usize)
    }
}

impl TryFrom<&Scalar> for Option<usize> {
    type Error = ScalarError;

    ghost try_from_gives = { λ scalar result.
        GivesPart (option_map pos)
        (read_of is_primitive_type (or_null (whole_within u64)) scalar.now) result };

    fn try_from(scalar: &Scalar) -> Result<Option<usize>, ScalarError> {
        let found: Option<u64> = number(scalar)?;
        match found {
            Some(number) => Ok(Some(number as usize)),
            None => Ok(None),
        }
    }
}

/// Shares the buffer.
impl TryFrom<&Scalar> for BufferString {
    type Error = ScalarError;

    ghost try_from_gives = { λ scalar result.
        GivesCopy (λ found. found) (read_of is_utf8_type text_in scalar.now) result };

    #[tactic(auto, using(crate::proofs::Natives::present))]
    fn try_from(scalar: &Scalar) -> Result<BufferString, ScalarError> {
        match text(scalar)? {
            Some(found) => Ok(found.clone()?),
            None => Err(ScalarError::Invalid),
        }
    }
}

/// Shares the buffer.
impl TryFrom<&Scalar> for Option<BufferString> {
    type Error = ScalarError;

    ghost try_from_gives = { λ scalar result.
        GivesCopy (λ found. found) (read_of is_utf8_type (or_null text_in) scalar.now) result };

    fn try_from(scalar: &Scalar) -> Result<Option<BufferString>, ScalarError> {
        match text(scalar)? {
            Some(found) => Ok(Some(found.clone()?)),
            None => Ok(None),
        }
    }
}

impl TryFrom<Scalar> for BufferString {
    type Error = ScalarError;

    ghost try_from_gives = { λ scalar result.
        GivesPart (λ found. found) (read_of is_utf8_type text_in scalar) result };

    #[tactic(auto, using(crate::proofs::Natives::present))]
    fn try_from(scalar: Scalar) -> Result<BufferString, ScalarError> {
        match into_text(scalar)? {
            Some(found) => Ok(found),
            None => Err(ScalarError::Invalid),
        }
    }
}

impl TryFrom<Scalar> for Option<BufferString> {
    type Error = ScalarError;

    ghost try_from_gives = { λ scalar result.
        GivesPart (λ found. found) (read_of is_utf8_type (or_null text_in) scalar) result };

    fn try_from(scalar: Scalar) -> Result<Option<BufferString>, ScalarError> {
        into_text(scalar)
    }
}

/// Shares the buffer.
impl TryFrom<&Scalar> for ByteBuffer {
    type Error = ScalarError;

    ghost try_from_gives = { λ scalar result.
        GivesCopy (λ found. found) (read_of is_binary_type byte_string_in scalar.now) result };

    #[tactic(auto, using(crate::proofs::Natives::present))]
    fn try_from(scalar: &Scalar) -> Result<ByteBuffer, ScalarError> {
        match bytes(scalar)? {
            Some(found) => Ok(found.clone()?),
            None => Err(ScalarError::Invalid),
        }
    }
}

/// Shares the buffer.
impl TryFrom<&Scalar> for Option<ByteBuffer> {
    type Error = ScalarError;

    ghost try_from_gives = { λ scalar result.
        GivesCopy (λ found. found) (read_of is_binary_type (or_null byte_string_in) scalar.now)
        result };

    fn try_from(scalar: &Scalar) -> Result<Option<ByteBuffer>, ScalarError> {
        match bytes(scalar)? {
            Some(found) => Ok(Some(found.clone()?)),
            None => Ok(None),
        }
    }
}

impl TryFrom<Scalar> for ByteBuffer {
    type Error = ScalarError;

    ghost try_from_gives = { λ scalar result.
        GivesPart (λ found. found) (read_of is_binary_type byte_string_in scalar) result };

    #[tactic(auto, using(crate::proofs::Natives::present))]
    fn try_from(scalar: Scalar) -> Result<ByteBuffer, ScalarError> {
        match into_bytes(scalar)? {
            Some(found) => Ok(found),
            None => Err(ScalarError::Invalid),
        }
    }
}

impl TryFrom<Scalar> for Option<ByteBuffer> {
    type Error = ScalarError;

    ghost try_from_gives = { λ scalar result.
        GivesPart (λ found. found)
        (read_of is_binary_type (or_null byte_string_in) scalar) result };

    fn try_from(scalar: Scalar) -> Result<Option<ByteBuffer>, ScalarError> {
        into_bytes(scalar)
    }
}
