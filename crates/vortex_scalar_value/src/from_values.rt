//! `ScalarValue`s from native values and parts, and back.
ghost use Rattle.std.specs.Prelude.{◌≡◌, pos, IfOk};
ghost use Rattle.vortex_model.specs.LogicalType.{u8, u16, u32, u64, i8, i16, i32, i64};
ghost use Rattle.vortex_model.specs.Content.{raw_boolean, raw_number, raw_text, raw_byte_string, raw_tuple};
ghost use Rattle.vortex_scalar_value.specs.Numbers.{raw_of_number};
ghost use Rattle.vortex_scalar_value.specs.Parts.{boolean_in, as_number, text_in, byte_string_in, items_in, GivesPart, GivesWhole};
ghost use Rattle.vortex_scalar_value.specs.View.{raw_of, raw_of_union, raw_of_variant, raws_in};

use crate::error::ScalarError;
use crate::pvalue::PValue;
use crate::scalar_value::ScalarValue;
use crate::union_value::UnionValue;
use crate::variant_value::VariantValue;
use std::alloc::{AllocError, Global};
use vortex_dtype_core::{BufferString, ByteBuffer};
use vortex_dtype_native::native::NativePType;

impl From<bool> for ScalarValue {
    ghost from_gives = { λ flag value. raw_of value ≡ raw_boolean flag };

    #[tactic(auto, using(crate::proofs::Views::one_level))]
    fn from(flag: bool) -> ScalarValue {
        ScalarValue::Bool(flag)
    }
}

impl From<PValue> for ScalarValue {
    ghost from_gives = { λ number value. raw_of value ≡ raw_of_number number };

    #[tactic(auto, using(crate::proofs::Views::one_level))]
    fn from(number: PValue) -> ScalarValue {
        ScalarValue::Primitive(number)
    }
}

impl From<u8> for ScalarValue {
    ghost from_gives = { λ number value. raw_of value ≡ raw_number u8 (pos number) };

    #[tactic(auto, using(crate::proofs::Views::one_level))]
    fn from(number: u8) -> ScalarValue {
        ScalarValue::Primitive(PValue::U8(number))
    }
}

impl From<u16> for ScalarValue {
    ghost from_gives = { λ number value. raw_of value ≡ raw_number u16 (pos number) };

    #[tactic(auto, using(crate::proofs::Views::one_level))]
    fn from(number: u16) -> ScalarValue {
        ScalarValue::Primitive(PValue::U16(number))
    }
}

impl From<u32> for ScalarValue {
    ghost from_gives = { λ number value. raw_of value ≡ raw_number u32 (pos number) };

    #[tactic(auto, using(crate::proofs::Views::one_level))]
    fn from(number: u32) -> ScalarValue {
        ScalarValue::Primitive(PValue::U32(number))
    }
}

impl From<u64> for ScalarValue {
    ghost from_gives = { λ number value. raw_of value ≡ raw_number u64 (pos number) };

    #[tactic(auto, using(crate::proofs::Views::one_level))]
    fn from(number: u64) -> ScalarValue {
        ScalarValue::Primitive(PValue::U64(number))
    }
}

impl From<i8> for ScalarValue {
    ghost from_gives = { λ number value. raw_of value ≡ raw_number i8 number };

    #[tactic(auto, using(crate::proofs::Views::one_level))]
    fn from(number: i8) -> ScalarValue {
        ScalarValue::Primitive(PValue::I8(number))
    }
}

impl From<i16> for ScalarValue {
    ghost from_gives = { λ number value. raw_of value ≡ raw_number i16 number };

    #[tactic(auto, using(crate::proofs::Views::one_level))]
    fn from(number: i16) -> ScalarValue {
        ScalarValue::Primitive(PValue::I16(number))
    }
}

impl From<i32> for ScalarValue {
    ghost from_gives = { λ number value. raw_of value ≡ raw_number i32 number };

    #[tactic(auto, using(crate::proofs::Views::one_level))]
    fn from(number: i32) -> ScalarValue {
        ScalarValue::Primitive(PValue::I32(number))
    }
}

impl From<i64> for ScalarValue {
    ghost from_gives = { λ number value. raw_of value ≡ raw_number i64 number };

    #[tactic(auto, using(crate::proofs::Views::one_level))]
    fn from(number: i64) -> ScalarValue {
        ScalarValue::Primitive(PValue::I64(number))
    }
}

/// As a `u64`.
impl From<usize> for ScalarValue {
    ghost from_gives = { λ number value. raw_of value ≡ raw_number u64 (pos number) };

    #[tactic(auto, using(crate::proofs::Views::one_level))]
    fn from(number: usize) -> ScalarValue {
        ScalarValue::Primitive(PValue::from(number))
    }
}

impl From<BufferString> for ScalarValue {
    ghost from_gives = { λ text value. raw_of value ≡ raw_text text };

    #[tactic(auto, using(crate::proofs::Views::one_level))]
    fn from(text: BufferString) -> ScalarValue {
        ScalarValue::Utf8(text)
    }
}

impl From<ByteBuffer> for ScalarValue {
    ghost from_gives = { λ bytes value. raw_of value ≡ raw_byte_string bytes };

    #[tactic(auto, using(crate::proofs::Views::one_level))]
    fn from(bytes: ByteBuffer) -> ScalarValue {
        ScalarValue::Binary(bytes)
    }
}

impl From<Vec<Option<ScalarValue>>> for ScalarValue {
    ghost from_gives = { λ items value. raw_of value ≡ raw_tuple (raws_in items.items) };

    #[tactic(auto, using(crate::proofs::Views::one_level))]
    fn from(items: Vec<Option<ScalarValue>>) -> ScalarValue {
        ScalarValue::Tuple(items)
    }
}

impl From<UnionValue> for ScalarValue {
    ghost from_gives = { λ union value. raw_of value ≡ raw_of_union union };

    #[tactic(auto, using(crate::proofs::Views::one_level))]
    fn from(union: UnionValue) -> ScalarValue {
        ScalarValue::Union(union)
    }
}

/// Allocates a box for a `Variant` value.
impl TryFrom<(Global, VariantValue)> for ScalarValue {
    type Error = AllocError;

    ghost try_from_gives = { λ p result. IfOk result (λ value. raw_of value ≡ raw_of_variant p.1) };

    #[tactic(auto, using(crate::proofs::Views::one_level))]
    fn try_from((alloc, variant): (Global, VariantValue)) -> Result<ScalarValue, AllocError> {
        let variant = Box::new(alloc, variant)?;
        Ok(ScalarValue::Variant(variant))
    }
}

impl ScalarValue {
    /// The integer as a `T`, whatever its own type. `ScalarError::Invalid` where the value isn't an
    /// integer, or is out of range.
    #[tactic(auto, using(crate::proofs::Views::numbers))]
    pub fn to_native<T: NativePType>(&self) -> Result<T, ScalarError>
        ensures { GivesWhole T.kind T.integer (raw_of self.now) result }
    {
        match self.as_primitive() {
            Some(number) => number.cast(),
            None => Err(ScalarError::Invalid),
        }
    }
}

impl TryFrom<&ScalarValue> for u8 {
    type Error = ScalarError;

    ghost try_from_gives = { λ value result. GivesWhole u8 pos (raw_of value.now) result };

    fn try_from(value: &ScalarValue) -> Result<u8, ScalarError> {
        value.to_native()
    }
}

impl TryFrom<&ScalarValue> for u16 {
    type Error = ScalarError;

    ghost try_from_gives = { λ value result. GivesWhole u16 pos (raw_of value.now) result };

    fn try_from(value: &ScalarValue) -> Result<u16, ScalarError> {
        value.to_native()
    }
}

impl TryFrom<&ScalarValue> for u32 {
    type Error = ScalarError;

    ghost try_from_gives = { λ value result. GivesWhole u32 pos (raw_of value.now) result };

    fn try_from(value: &ScalarValue) -> Result<u32, ScalarError> {
        value.to_native()
    }
}

impl TryFrom<&ScalarValue> for u64 {
    type Error = ScalarError;

    ghost try_from_gives = { λ value result. GivesWhole u64 pos (raw_of value.now) result };

    fn try_from(value: &ScalarValue) -> Result<u64, ScalarError> {
        value.to_native()
    }
}

impl TryFrom<&ScalarValue> for i8 {
    type Error = ScalarError;

    ghost try_from_gives = { λ value result. GivesWhole i8 (λ z. z) (raw_of value.now) result };

    fn try_from(value: &ScalarValue) -> Result<i8, ScalarError> {
        value.to_native()
    }
}

impl TryFrom<&ScalarValue> for i16 {
    type Error = ScalarError;

    ghost try_from_gives = { λ value result. GivesWhole i16 (λ z. z) (raw_of value.now) result };

    fn try_from(value: &ScalarValue) -> Result<i16, ScalarError> {
        value.to_native()
    }
}

impl TryFrom<&ScalarValue> for i32 {
    type Error = ScalarError;

    ghost try_from_gives = { λ value result. GivesWhole i32 (λ z. z) (raw_of value.now) result };

    fn try_from(value: &ScalarValue) -> Result<i32, ScalarError> {
        value.to_native()
    }
}

impl TryFrom<&ScalarValue> for i64 {
    type Error = ScalarError;

    ghost try_from_gives = { λ value result. GivesWhole i64 (λ z. z) (raw_of value.now) result };

    fn try_from(value: &ScalarValue) -> Result<i64, ScalarError> {
        value.to_native()
    }
}

impl TryFrom<&ScalarValue> for usize {
    type Error = ScalarError;

    ghost try_from_gives = { λ value result. GivesWhole u64 pos (raw_of value.now) result };

    fn try_from(value: &ScalarValue) -> Result<usize, ScalarError> {
        let number: u64 = value.to_native()?;
        Ok(number as usize)
    }
}

impl TryFrom<ScalarValue> for bool {
    type Error = ScalarError;

    ghost try_from_gives = { λ value result.
        GivesPart (λ flag. flag) (boolean_in (raw_of value)) result };

    fn try_from(value: ScalarValue) -> Result<bool, ScalarError> {
        match value.into_bool() {
            Some(part) => Ok(part),
            None => Err(ScalarError::Invalid),
        }
    }
}

impl TryFrom<ScalarValue> for PValue {
    type Error = ScalarError;

    ghost try_from_gives = { λ value result.
        GivesPart raw_of_number (as_number (raw_of value)) result };

    fn try_from(value: ScalarValue) -> Result<PValue, ScalarError> {
        match value.into_primitive() {
            Some(part) => Ok(part),
            None => Err(ScalarError::Invalid),
        }
    }
}

impl TryFrom<ScalarValue> for BufferString {
    type Error = ScalarError;

    ghost try_from_gives = { λ value result.
        GivesPart (λ text. text) (text_in (raw_of value)) result };

    fn try_from(value: ScalarValue) -> Result<BufferString, ScalarError> {
        match value.into_utf8() {
            Some(part) => Ok(part),
            None => Err(ScalarError::Invalid),
        }
    }
}

impl TryFrom<ScalarValue> for ByteBuffer {
    type Error = ScalarError;

    ghost try_from_gives = { λ value result.
        GivesPart (λ bytes. bytes) (byte_string_in (raw_of value)) result };

    fn try_from(value: ScalarValue) -> Result<ByteBuffer, ScalarError> {
        match value.into_binary() {
            Some(part) => Ok(part),
            None => Err(ScalarError::Invalid),
        }
    }
}

impl TryFrom<ScalarValue> for Vec<Option<ScalarValue>> {
    type Error = ScalarError;

    ghost try_from_gives = { λ value result. GivesPart (λ items. raws_in items.items)
        (items_in (raw_of value)) result };

    fn try_from(value: ScalarValue) -> Result<Vec<Option<ScalarValue>>, ScalarError> {
        match value.into_list() {
            Some(part) => Ok(part),
            None => Err(ScalarError::Invalid),
        }
    }
}
