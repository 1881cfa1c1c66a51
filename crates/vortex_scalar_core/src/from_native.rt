//! Scalars from native values. A value has the non-nullable type, and an `Option` the nullable one,
//! with `None` as null. A call that allocates is a `TryFrom`.
ghost use Rattle.std.specs.Prelude.{◌≡◌, pos, map, true, string_bytes, IfOk};
ghost use Rattle.vortex_model.specs.LogicalType.{boolean_type, integer_type, utf8, binary, list, nullable, non_nullable, u8, u16, u32, u64, i8, i16, i32, i64};
ghost use Rattle.vortex_model.specs.Content.{raw_boolean, raw_number, raw_text, raw_byte_string, raw_tuple};
ghost use Rattle.vortex_model.specs.Valid.{are_bytes};
ghost use Rattle.vortex_dtype_ptype.specs.View.{nullability_of_flag};
ghost use Rattle.vortex_scalar_value.specs.View.{raws_from};
ghost use Rattle.vortex_scalar_ops.specs.Native.{raw_or_null};
ghost use Rattle.vortex_scalar_core.specs.Native.{IsMadeAs};
ghost use Rattle.vortex_scalar_core.specs.Scalar.{scalar_type, scalar_raw};

use crate::scalar::Scalar;
use std::alloc::{AllocError, Global};
use vortex_dtype_core::dtype::DType;
use vortex_dtype_core::{BufferString, ByteBuffer};
use vortex_dtype_fields::native_dtype::NativeDType;
use vortex_dtype_native::native::NativePType;
use vortex_dtype_ptype::nullability::Nullability;
use vortex_scalar_ops::native_value::NativeValue;
use vortex_scalar_value::pvalue::PValue;
use vortex_scalar_value::scalar_value::ScalarValue;

impl From<bool> for Scalar {
    ghost from_gives = { λ value made. IsMadeAs (boolean_type non_nullable)
        (raw_boolean value) made };

    #[tactic(auto, using(crate::proofs::Natives::leaves))]
    fn from(value: bool) -> Scalar {
        Scalar::new_unchecked(
            DType::Bool(Nullability::NonNullable),
            Some(ScalarValue::Bool(value)),
        )
    }
}

impl From<Option<bool>> for Scalar {
    ghost from_gives = { λ value made. IsMadeAs (boolean_type nullable)
        (raw_or_null raw_boolean value) made };

    #[tactic(auto, using(crate::proofs::Natives::leaves))]
    fn from(value: Option<bool>) -> Scalar {
        let value = match value {
            Some(value) => Some(ScalarValue::Bool(value)),
            None => None,
        };
        Scalar::new_unchecked(DType::Bool(Nullability::Nullable), value)
    }
}

impl From<u8> for Scalar {
    ghost from_gives = { λ value made. IsMadeAs (integer_type u8 non_nullable)
        (raw_number u8 (pos value)) made };

    fn from(value: u8) -> Scalar {
        of_number(value)
    }
}

impl From<Option<u8>> for Scalar {
    ghost from_gives = { λ value made. IsMadeAs (integer_type u8 nullable)
        (raw_or_null (λ n. raw_number u8 (pos n)) value) made };

    fn from(value: Option<u8>) -> Scalar {
        of_number_or_null(value)
    }
}

impl From<u16> for Scalar {
    ghost from_gives = { λ value made. IsMadeAs (integer_type u16 non_nullable)
        (raw_number u16 (pos value)) made };

    fn from(value: u16) -> Scalar {
        of_number(value)
    }
}

impl From<Option<u16>> for Scalar {
    ghost from_gives = { λ value made. IsMadeAs (integer_type u16 nullable)
        (raw_or_null (λ n. raw_number u16 (pos n)) value) made };

    fn from(value: Option<u16>) -> Scalar {
        of_number_or_null(value)
    }
}

impl From<u32> for Scalar {
    ghost from_gives = { λ value made. IsMadeAs (integer_type u32 non_nullable)
        (raw_number u32 (pos value)) made };

    fn from(value: u32) -> Scalar {
        of_number(value)
    }
}

impl From<Option<u32>> for Scalar {
    ghost from_gives = { λ value made. IsMadeAs (integer_type u32 nullable)
        (raw_or_null (λ n. raw_number u32 (pos n)) value) made };

    fn from(value: Option<u32>) -> Scalar {
        of_number_or_null(value)
    }
}

impl From<u64> for Scalar {
    ghost from_gives = { λ value made. IsMadeAs (integer_type u64 non_nullable)
        (raw_number u64 (pos value)) made };

    fn from(value: u64) -> Scalar {
        of_number(value)
    }
}

impl From<Option<u64>> for Scalar {
    ghost from_gives = { λ value made. IsMadeAs (integer_type u64 nullable)
        (raw_or_null (λ n. raw_number u64 (pos n)) value) made };

    fn from(value: Option<u64>) -> Scalar {
        of_number_or_null(value)
    }
}

impl From<i8> for Scalar {
    ghost from_gives = { λ value made. IsMadeAs (integer_type i8 non_nullable)
        (raw_number i8 value) made };

    fn from(value: i8) -> Scalar {
        of_number(value)
    }
}

impl From<Option<i8>> for Scalar {
    ghost from_gives = { λ value made. IsMadeAs (integer_type i8 nullable)
        (raw_or_null (λ n. raw_number i8 n) value) made };

    fn from(value: Option<i8>) -> Scalar {
        of_number_or_null(value)
    }
}

impl From<i16> for Scalar {
    ghost from_gives = { λ value made. IsMadeAs (integer_type i16 non_nullable)
        (raw_number i16 value) made };

    fn from(value: i16) -> Scalar {
        of_number(value)
    }
}

impl From<Option<i16>> for Scalar {
    ghost from_gives = { λ value made. IsMadeAs (integer_type i16 nullable)
        (raw_or_null (λ n. raw_number i16 n) value) made };

    fn from(value: Option<i16>) -> Scalar {
        of_number_or_null(value)
    }
}

impl From<i32> for Scalar {
    ghost from_gives = { λ value made. IsMadeAs (integer_type i32 non_nullable)
        (raw_number i32 value) made };

    fn from(value: i32) -> Scalar {
        of_number(value)
    }
}

impl From<Option<i32>> for Scalar {
    ghost from_gives = { λ value made. IsMadeAs (integer_type i32 nullable)
        (raw_or_null (λ n. raw_number i32 n) value) made };

    fn from(value: Option<i32>) -> Scalar {
        of_number_or_null(value)
    }
}

impl From<i64> for Scalar {
    ghost from_gives = { λ value made. IsMadeAs (integer_type i64 non_nullable)
        (raw_number i64 value) made };

    fn from(value: i64) -> Scalar {
        of_number(value)
    }
}

impl From<Option<i64>> for Scalar {
    ghost from_gives = { λ value made. IsMadeAs (integer_type i64 nullable)
        (raw_or_null (λ n. raw_number i64 n) value) made };

    fn from(value: Option<i64>) -> Scalar {
        of_number_or_null(value)
    }
}

/// As a `u64`.
impl From<usize> for Scalar {
    ghost from_gives = { λ value made. IsMadeAs (integer_type u64 non_nullable)
        (raw_number u64 (pos value)) made };

    fn from(value: usize) -> Scalar {
        of_number(value as u64)
    }
}

/// As a `u64`.
impl From<Option<usize>> for Scalar {
    ghost from_gives = { λ value made. IsMadeAs (integer_type u64 nullable)
        (raw_or_null (λ n. raw_number u64 (pos n)) value) made };

    fn from(value: Option<usize>) -> Scalar {
        match value {
            Some(value) => of_number_or_null(Some(value as u64)),
            None => of_number_or_null::<u64>(None),
        }
    }
}

impl From<BufferString> for Scalar {
    ghost from_gives = { λ value made. IsMadeAs (utf8 non_nullable) (raw_text value) made };

    fn from(value: BufferString) -> Scalar {
        of_text(value, Nullability::NonNullable)
    }
}

impl From<Option<BufferString>> for Scalar {
    ghost from_gives = { λ value made. IsMadeAs (utf8 nullable) (raw_or_null raw_text value) made };

    fn from(value: Option<BufferString>) -> Scalar {
        match value {
            Some(value) => of_text(value, Nullability::Nullable),
            None => Scalar::null(DType::Utf8(Nullability::Nullable)),
        }
    }
}

impl From<ByteBuffer> for Scalar {
    ghost from_gives = { λ value made.
        IsMadeAs (binary non_nullable) (raw_byte_string value) made };

    fn from(value: ByteBuffer) -> Scalar {
        of_bytes(value, Nullability::NonNullable)
    }
}

impl From<Option<ByteBuffer>> for Scalar {
    ghost from_gives = { λ value made.
        IsMadeAs (binary nullable) (raw_or_null raw_byte_string value) made };

    fn from(value: Option<ByteBuffer>) -> Scalar {
        match value {
            Some(value) => of_bytes(value, Nullability::Nullable),
            None => Scalar::null(DType::Binary(Nullability::Nullable)),
        }
    }
}

/// Copies the string.
impl TryFrom<(Global, &str)> for Scalar {
    type Error = AllocError;

    ghost try_from_gives = { λ p result.
        IfOk result (λ made. IsMadeAs (utf8 non_nullable) (raw_text p.1.now) made) };

    fn try_from((alloc, text): (Global, &str)) -> Result<Scalar, AllocError> {
        let text = BufferString::copy_from_str(alloc, text)?;
        Ok(of_text(text, Nullability::NonNullable))
    }
}

/// Takes over the string, and copies no byte.
impl TryFrom<String> for Scalar {
    type Error = AllocError;

    ghost try_from_gives = { λ text result.
        IfOk result (λ made. IsMadeAs (utf8 non_nullable) (raw_text (string_bytes text)) made) };

    fn try_from(text: String) -> Result<Scalar, AllocError> {
        let text = BufferString::from_string(text)?;
        Ok(of_text(text, Nullability::NonNullable))
    }
}

/// Copies the bytes.
impl TryFrom<(Global, &[u8])> for Scalar {
    type Error = AllocError;

    ghost try_from_gives = { λ p result.
        IfOk result (λ made. IsMadeAs (binary non_nullable) (raw_byte_string p.1.now) made) };

    fn try_from((alloc, bytes): (Global, &[u8])) -> Result<Scalar, AllocError> {
        let bytes = ByteBuffer::copy_from_slice(alloc, bytes)?;
        Ok(of_bytes(bytes, Nullability::NonNullable))
    }
}

/// A list with the element type of `T`.
impl<T: NativeValue> TryFrom<(Global, Vec<T>)> for Scalar {
    type Error = AllocError;

    ghost try_from_gives = { λ p result.
        IfOk result
        (λ made. IsMadeAs (list T.values non_nullable)
        (raw_tuple (raws_from (map T.raw p.1.items))) made) };

    fn try_from((alloc, values): (Global, Vec<T>)) -> Result<Scalar, AllocError> {
        let dtype = Vec::<T>::dtype(alloc)?;
        let value = values.into_scalar_value(alloc)?;
        Ok(Scalar::new_unchecked(dtype, value))
    }
}

/// A nullable list with the element type of `T`.
impl<T: NativeValue> TryFrom<(Global, Option<Vec<T>>)> for Scalar {
    type Error = AllocError;

    ghost try_from_gives = { λ p result.
        IfOk result
        (λ made. IsMadeAs (list T.values nullable)
        (raw_or_null (λ v. raw_tuple (raws_from (map T.raw v.items))) p.1) made) };

    fn try_from((alloc, values): (Global, Option<Vec<T>>)) -> Result<Scalar, AllocError> {
        let dtype = Option::<Vec<T>>::dtype(alloc)?;
        let value = values.into_scalar_value(alloc)?;
        Ok(Scalar::new_unchecked(dtype, value))
    }
}

// An integer of its non-nullable type.
fn of_number<T: NativePType>(number: T) -> Scalar
    ensures { IsMadeAs (integer_type T.kind non_nullable)
        (raw_number T.kind (T.integer number)) result }
{
    with_nullability(number, Nullability::NonNullable)
}

// An integer or null, of the nullable type.
#[tactic(auto, using(crate::proofs::Natives::leaves))]
fn of_number_or_null<T: NativePType>(number: Option<T>) -> Scalar
    ensures { IsMadeAs (integer_type T.kind nullable)
        (raw_or_null (λ n. raw_number T.kind (T.integer n)) number) result }
{
    match number {
        Some(number) => with_nullability(number, Nullability::Nullable),
        None => Scalar::null(DType::Primitive(T::ptype(), Nullability::Nullable)),
    }
}

#[tactic(auto, using(crate::proofs::Natives::leaves))]
fn with_nullability<T: NativePType>(number: T, nullability: Nullability) -> Scalar
    ensures { IsMadeAs (integer_type T.kind (nullability_of_flag nullability))
        (raw_number T.kind (T.integer number)) result }
{
    let value = PValue::of_native(number);
    // Proves that the integer is in the range of its type.
    let _ = value.get();
    let dtype = DType::Primitive(value.ptype(), nullability);
    Scalar::new_unchecked(dtype, Some(ScalarValue::Primitive(value)))
}

#[tactic(auto, using(crate::proofs::Natives::leaves))]
fn of_text(text: BufferString, nullability: Nullability) -> Scalar
    ensures { IsMadeAs (utf8 (nullability_of_flag nullability)) (raw_text text) result }
{
    // Proves that the string is UTF-8.
    let _ = text.as_bytes();
    Scalar::new_unchecked(DType::Utf8(nullability), Some(ScalarValue::Utf8(text)))
}

#[tactic(auto, using(crate::proofs::Natives::leaves))]
fn of_bytes(bytes: ByteBuffer, nullability: Nullability) -> Scalar
    ensures { IsMadeAs (binary (nullability_of_flag nullability)) (raw_byte_string bytes) result }
{
    tell_bytes(bytes.as_slice());
    Scalar::new_unchecked(DType::Binary(nullability), Some(ScalarValue::Binary(bytes)))
}

// Proves that each item is a byte.
fn tell_bytes(bytes: &[u8])
    ensures { are_bytes bytes.now ≡ true }
{}
