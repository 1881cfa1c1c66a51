//! `PValue`s from native integers, and back.
ghost use Rattle.std.specs.Prelude.{◌≡◌, pos};
ghost use Rattle.vortex_model.specs.LogicalType.{u8, u16, u32, u64, i8, i16, i32, i64};
ghost use Rattle.vortex_scalar_value.specs.Numbers.{kind_of_number, integer_of, GivesNumber};

use crate::error::ScalarError;
use crate::pvalue::PValue;

impl From<u8> for PValue {
    ghost from_gives = { λ number value. (kind_of_number value ≡ u8)
        × (integer_of value ≡ pos number) };

    fn from(number: u8) -> PValue {
        PValue::U8(number)
    }
}

impl From<u16> for PValue {
    ghost from_gives = { λ number value. (kind_of_number value ≡ u16)
        × (integer_of value ≡ pos number) };

    fn from(number: u16) -> PValue {
        PValue::U16(number)
    }
}

impl From<u32> for PValue {
    ghost from_gives = { λ number value. (kind_of_number value ≡ u32)
        × (integer_of value ≡ pos number) };

    fn from(number: u32) -> PValue {
        PValue::U32(number)
    }
}

impl From<u64> for PValue {
    ghost from_gives = { λ number value. (kind_of_number value ≡ u64)
        × (integer_of value ≡ pos number) };

    fn from(number: u64) -> PValue {
        PValue::U64(number)
    }
}

impl From<i8> for PValue {
    ghost from_gives = { λ number value. (kind_of_number value ≡ i8)
        × (integer_of value ≡ number) };

    fn from(number: i8) -> PValue {
        PValue::I8(number)
    }
}

impl From<i16> for PValue {
    ghost from_gives = { λ number value. (kind_of_number value ≡ i16)
        × (integer_of value ≡ number) };

    fn from(number: i16) -> PValue {
        PValue::I16(number)
    }
}

impl From<i32> for PValue {
    ghost from_gives = { λ number value. (kind_of_number value ≡ i32)
        × (integer_of value ≡ number) };

    fn from(number: i32) -> PValue {
        PValue::I32(number)
    }
}

impl From<i64> for PValue {
    ghost from_gives = { λ number value. (kind_of_number value ≡ i64)
        × (integer_of value ≡ number) };

    fn from(number: i64) -> PValue {
        PValue::I64(number)
    }
}

/// As a `u64`.
impl From<usize> for PValue {
    ghost from_gives = { λ number value. (kind_of_number value ≡ u64)
        × (integer_of value ≡ pos number) };

    fn from(number: usize) -> PValue {
        PValue::U64(number as u64)
    }
}

impl TryFrom<PValue> for u8 {
    type Error = ScalarError;

    ghost try_from_gives = { GivesNumber u8 pos };

    fn try_from(value: PValue) -> Result<u8, ScalarError> {
        value.cast()
    }
}

impl TryFrom<PValue> for u16 {
    type Error = ScalarError;

    ghost try_from_gives = { GivesNumber u16 pos };

    fn try_from(value: PValue) -> Result<u16, ScalarError> {
        value.cast()
    }
}

impl TryFrom<PValue> for u32 {
    type Error = ScalarError;

    ghost try_from_gives = { GivesNumber u32 pos };

    fn try_from(value: PValue) -> Result<u32, ScalarError> {
        value.cast()
    }
}

impl TryFrom<PValue> for u64 {
    type Error = ScalarError;

    ghost try_from_gives = { GivesNumber u64 pos };

    fn try_from(value: PValue) -> Result<u64, ScalarError> {
        value.cast()
    }
}

impl TryFrom<PValue> for i8 {
    type Error = ScalarError;

    ghost try_from_gives = { GivesNumber i8 (λ z. z) };

    fn try_from(value: PValue) -> Result<i8, ScalarError> {
        value.cast()
    }
}

impl TryFrom<PValue> for i16 {
    type Error = ScalarError;

    ghost try_from_gives = { GivesNumber i16 (λ z. z) };

    fn try_from(value: PValue) -> Result<i16, ScalarError> {
        value.cast()
    }
}

impl TryFrom<PValue> for i32 {
    type Error = ScalarError;

    ghost try_from_gives = { GivesNumber i32 (λ z. z) };

    fn try_from(value: PValue) -> Result<i32, ScalarError> {
        value.cast()
    }
}

impl TryFrom<PValue> for i64 {
    type Error = ScalarError;

    ghost try_from_gives = { GivesNumber i64 (λ z. z) };

    fn try_from(value: PValue) -> Result<i64, ScalarError> {
        value.cast()
    }
}

impl TryFrom<PValue> for usize {
    type Error = ScalarError;

    ghost try_from_gives = { GivesNumber u64 pos };

    fn try_from(value: PValue) -> Result<usize, ScalarError> {
        let number: u64 = value.cast()?;
        Ok(number as usize)
    }
}
