//! Native values as values of a column, with lists and options of them.
ghost use Rattle.std.specs.Prelude.{◌≡◌, pos, map, true, IfOk, string_bytes};
ghost use Rattle.vortex_model.specs.LogicalType.{integer_type, utf8, binary, non_nullable, u8, u16, u32, u64, i8, i16, i32, i64};
ghost use Rattle.vortex_model.specs.Content.{Raw, raw_boolean, raw_number, raw_text, raw_byte_string, raw_tuple};
ghost use Rattle.vortex_model.specs.Valid.{valid, all_have, are_bytes};
ghost use Rattle.vortex_scalar_value.specs.View.{raw_of, raw_in, raws_in, raws_from};
ghost use Rattle.vortex_scalar_ops.specs.Native.{raw_or_null};

use std::alloc::{AllocError, Global};
use vortex_dtype_core::{BufferString, ByteBuffer};
use vortex_dtype_fields::native_dtype::NativeDType;
use vortex_dtype_native::native::NativePType;
use vortex_scalar_value::pvalue::PValue;
use vortex_scalar_value::scalar_value::ScalarValue;

/// A native value as one of its column's type.
pub trait NativeValue: NativeDType + Drop {
    // the raw value
    ghost raw: { Self → Raw };

    /// The value as one of the column's type. `None` is null.
    fn into_scalar_value(self, alloc: Global) -> Result<Option<ScalarValue>, AllocError>
        ensures value { IfOk result (λ made. raw_in made ≡ raw self) }
        ensures valid { IfOk result (λ made. valid Self.values (raw_in made) ≡ true) };
}

impl NativeValue for bool {
    ghost raw = { raw_boolean };

    #[tactic(auto, using(vortex_scalar_value::proofs::Views::one_level))]
    fn into_scalar_value(self, _alloc: Global) -> Result<Option<ScalarValue>, AllocError> {
        Ok(Some(ScalarValue::Bool(self)))
    }
}

impl NativeValue for u8 {
    ghost raw = { λ n. raw_number u8 (pos n) };

    fn into_scalar_value(self, _alloc: Global) -> Result<Option<ScalarValue>, AllocError> {
        Ok(Some(number_value(self)))
    }
}

impl NativeValue for u16 {
    ghost raw = { λ n. raw_number u16 (pos n) };

    fn into_scalar_value(self, _alloc: Global) -> Result<Option<ScalarValue>, AllocError> {
        Ok(Some(number_value(self)))
    }
}

impl NativeValue for u32 {
    ghost raw = { λ n. raw_number u32 (pos n) };

    fn into_scalar_value(self, _alloc: Global) -> Result<Option<ScalarValue>, AllocError> {
        Ok(Some(number_value(self)))
    }
}

impl NativeValue for u64 {
    ghost raw = { λ n. raw_number u64 (pos n) };

    fn into_scalar_value(self, _alloc: Global) -> Result<Option<ScalarValue>, AllocError> {
        Ok(Some(number_value(self)))
    }
}

impl NativeValue for i8 {
    ghost raw = { raw_number i8 };

    fn into_scalar_value(self, _alloc: Global) -> Result<Option<ScalarValue>, AllocError> {
        Ok(Some(number_value(self)))
    }
}

impl NativeValue for i16 {
    ghost raw = { raw_number i16 };

    fn into_scalar_value(self, _alloc: Global) -> Result<Option<ScalarValue>, AllocError> {
        Ok(Some(number_value(self)))
    }
}

impl NativeValue for i32 {
    ghost raw = { raw_number i32 };

    fn into_scalar_value(self, _alloc: Global) -> Result<Option<ScalarValue>, AllocError> {
        Ok(Some(number_value(self)))
    }
}

impl NativeValue for i64 {
    ghost raw = { raw_number i64 };

    fn into_scalar_value(self, _alloc: Global) -> Result<Option<ScalarValue>, AllocError> {
        Ok(Some(number_value(self)))
    }
}

impl NativeValue for String {
    ghost raw = { λ s. raw_text (string_bytes s) };

    fn into_scalar_value(self, _alloc: Global) -> Result<Option<ScalarValue>, AllocError> {
        let text = BufferString::from_string(self)?;
        Ok(Some(text_value(text)))
    }
}

/// Copies the string.
impl NativeValue for &str {
    ghost raw = { λ s. raw_text s.now };

    fn into_scalar_value(self, alloc: Global) -> Result<Option<ScalarValue>, AllocError> {
        let text = BufferString::copy_from_str(alloc, self)?;
        Ok(Some(text_value(text)))
    }
}

/// Copies the bytes.
impl NativeValue for &[u8] {
    ghost raw = { λ bytes. raw_byte_string bytes.now };

    fn into_scalar_value(self, alloc: Global) -> Result<Option<ScalarValue>, AllocError> {
        let bytes = ByteBuffer::copy_from_slice(alloc, self)?;
        Ok(Some(bytes_value(bytes)))
    }
}

impl NativeValue for ByteBuffer {
    ghost raw = { raw_byte_string };

    fn into_scalar_value(self, _alloc: Global) -> Result<Option<ScalarValue>, AllocError> {
        Ok(Some(bytes_value(self)))
    }
}

/// An optional value, where `None` is null.
impl<T: NativeValue> NativeValue for Option<T> {
    ghost raw = { raw_or_null T.raw };

    #[tactic(auto, using(crate::proofs::Nullable::lifted))]
    fn into_scalar_value(self, alloc: Global) -> Result<Option<ScalarValue>, AllocError> {
        match self {
            Some(value) => {
                let made = value.into_scalar_value(alloc)?;
                Ok(made)
            }
            None => Ok(None),
        }
    }
}

/// A list of values.
impl<T: NativeValue> NativeValue for Vec<T> {
    ghost raw = { λ v. raw_tuple (raws_from (map T.raw v.items)) };

    #[tactic(auto, using(vortex_scalar_value::proofs::Views::one_level))]
    fn into_scalar_value(self, alloc: Global) -> Result<Option<ScalarValue>, AllocError> {
        let items = make_items(alloc, self)?;
        Ok(Some(ScalarValue::Tuple(items)))
    }
}

// The values, in order.
fn make_items<T: NativeValue>(
    alloc: Global,
    values: Vec<T>,
) -> Result<Vec<Option<ScalarValue>>, AllocError>
    ensures values { IfOk result (λ items. map raw_in items.items ≡ map T.raw values.items) }
    ensures valid { IfOk result (λ items. all_have T.values (raws_in items.items) ≡ true) }
{
    let mut items = Vec::with_capacity(alloc, values.len())?;
    for value in values {
        let item = value.into_scalar_value(alloc)?;
        items.push(item)?;
    }
    Ok(items)
}

// An integer as a value, which its type holds.
#[tactic(auto, using(vortex_scalar_value::proofs::Views::one_level))]
fn number_value<T: NativePType>(number: T) -> ScalarValue
    ensures value { raw_of result ≡ raw_number T.kind (T.integer number) }
    ensures valid { valid (integer_type T.kind non_nullable) (raw_of result) ≡ true }
{
    let value = PValue::of_native(number);
    // Proves that the integer is in the range of its type.
    let _ = value.get();
    ScalarValue::Primitive(value)
}

#[tactic(auto, using(vortex_scalar_value::proofs::Views::one_level))]
fn text_value(text: BufferString) -> ScalarValue
    ensures value { raw_of result ≡ raw_text text }
    ensures valid { valid (utf8 non_nullable) (raw_of result) ≡ true }
{
    // Proves that the string is UTF-8.
    let _ = text.as_bytes();
    ScalarValue::Utf8(text)
}

#[tactic(auto, using(vortex_scalar_value::proofs::Views::one_level))]
fn bytes_value(bytes: ByteBuffer) -> ScalarValue
    ensures value { raw_of result ≡ raw_byte_string bytes }
    ensures valid { valid (binary non_nullable) (raw_of result) ≡ true }
{
    tell_bytes(bytes.as_slice());
    ScalarValue::Binary(bytes)
}

// Proves that each item is a byte.
fn tell_bytes(bytes: &[u8])
    ensures { are_bytes bytes.now ≡ true }
{}
