//! Native values read from scalars.
ghost use Rattle.std.specs.Prelude.{◌≡◌, ◌&&◌, ◌||◌, Bool, pos, map, string_bytes};
ghost use Rattle.std.specs.Option.{is_some};
ghost use Rattle.vortex_model.specs.LogicalType.{LogicalType, u8, u16, u32, u64, i8, i16, i32, i64};
ghost use Rattle.vortex_model.specs.Content.{Content, boolean, integer, text, byte_string, tuple, contents_from, is_null};
ghost use Rattle.vortex_dtype_core.specs.Parts.{is_boolean_type, is_primitive_type, is_utf8_type, is_binary_type, list_element};
ghost use Rattle.vortex_dtype_core.specs.View.{type_of};
ghost use Rattle.vortex_scalar_value.specs.View.{content_at};
ghost use Rattle.vortex_scalar_core.specs.Scalar.{scalar_type, scalar_content};
ghost use Rattle.vortex_scalar_convert.specs.Reading.{IsRead, reads_boolean, reads_number, reads_text, reads_bytes, reads_list, says_or_null};

use crate::leaves::{boolean, bytes, number, text};
use crate::lists::read_items;
use std::alloc::Global;
use vortex_dtype_core::dtype::DType;
use vortex_dtype_core::{BufferString, ByteBuffer};
use vortex_scalar_core::scalar::Scalar;
use vortex_scalar_value::error::ScalarError;
use vortex_scalar_value::scalar_value::ScalarValue;

/// A native type whose values are read from scalars. An integer is read whatever its own type.
pub trait FromScalar: Drop {
    // the content of a native value
    ghost says: { Self → Content };

    // the types whose values can be read
    ghost is_kind: { LogicalType → Bool };

    // a content of a type that can be read
    ghost reads: { LogicalType → Content → Bool };

    /// Whether values of the type can be read.
    fn is_read_from(dtype: &DType) -> bool
        ensures { result ≡ is_kind (type_of dtype.now) };

    /// The native value of a value of type `dtype`, of which `None` is null. `ScalarError::Invalid`
    /// where values of the type can't be read, for null unless an `Option` is read, and for an
    /// integer out of range.
    fn from_value(
        alloc: Global,
        dtype: &DType,
        value: Option<&ScalarValue>,
    ) -> Result<Self, ScalarError>
        ensures { IsRead says (reads (type_of dtype.now) (content_at value.entry))
            (content_at value.entry) result };

    /// The native value of a scalar, by `from_value`.
    final fn from_scalar(alloc: Global, scalar: &Scalar) -> Result<Self, ScalarError>
        ensures { IsRead says (reads (scalar_type scalar.now) (scalar_content scalar.now))
            (scalar_content scalar.now) result }
    {
        Self::from_value(alloc, scalar.dtype(), scalar.value())
    }
}

impl FromScalar for bool {
    ghost says = { boolean };

    ghost is_kind = { is_boolean_type };

    ghost reads = { reads_boolean };

    fn is_read_from(dtype: &DType) -> bool {
        dtype.is_boolean()
    }

    fn from_value(
        _alloc: Global,
        dtype: &DType,
        value: Option<&ScalarValue>,
    ) -> Result<bool, ScalarError> {
        boolean(dtype, value)
    }
}

impl FromScalar for u8 {
    ghost says = { λ n. integer (pos n) };

    ghost is_kind = { is_primitive_type };

    ghost reads = { reads_number u8 };

    fn is_read_from(dtype: &DType) -> bool {
        dtype.is_primitive()
    }

    fn from_value(
        _alloc: Global,
        dtype: &DType,
        value: Option<&ScalarValue>,
    ) -> Result<u8, ScalarError> {
        number(dtype, value)
    }
}

impl FromScalar for u16 {
    ghost says = { λ n. integer (pos n) };

    ghost is_kind = { is_primitive_type };

    ghost reads = { reads_number u16 };

    fn is_read_from(dtype: &DType) -> bool {
        dtype.is_primitive()
    }

    fn from_value(
        _alloc: Global,
        dtype: &DType,
        value: Option<&ScalarValue>,
    ) -> Result<u16, ScalarError> {
        number(dtype, value)
    }
}

impl FromScalar for u32 {
    ghost says = { λ n. integer (pos n) };

    ghost is_kind = { is_primitive_type };

    ghost reads = { reads_number u32 };

    fn is_read_from(dtype: &DType) -> bool {
        dtype.is_primitive()
    }

    fn from_value(
        _alloc: Global,
        dtype: &DType,
        value: Option<&ScalarValue>,
    ) -> Result<u32, ScalarError> {
        number(dtype, value)
    }
}

impl FromScalar for u64 {
    ghost says = { λ n. integer (pos n) };

    ghost is_kind = { is_primitive_type };

    ghost reads = { reads_number u64 };

    fn is_read_from(dtype: &DType) -> bool {
        dtype.is_primitive()
    }

    fn from_value(
        _alloc: Global,
        dtype: &DType,
        value: Option<&ScalarValue>,
    ) -> Result<u64, ScalarError> {
        number(dtype, value)
    }
}

impl FromScalar for i8 {
    ghost says = { integer };

    ghost is_kind = { is_primitive_type };

    ghost reads = { reads_number i8 };

    fn is_read_from(dtype: &DType) -> bool {
        dtype.is_primitive()
    }

    fn from_value(
        _alloc: Global,
        dtype: &DType,
        value: Option<&ScalarValue>,
    ) -> Result<i8, ScalarError> {
        number(dtype, value)
    }
}

impl FromScalar for i16 {
    ghost says = { integer };

    ghost is_kind = { is_primitive_type };

    ghost reads = { reads_number i16 };

    fn is_read_from(dtype: &DType) -> bool {
        dtype.is_primitive()
    }

    fn from_value(
        _alloc: Global,
        dtype: &DType,
        value: Option<&ScalarValue>,
    ) -> Result<i16, ScalarError> {
        number(dtype, value)
    }
}

impl FromScalar for i32 {
    ghost says = { integer };

    ghost is_kind = { is_primitive_type };

    ghost reads = { reads_number i32 };

    fn is_read_from(dtype: &DType) -> bool {
        dtype.is_primitive()
    }

    fn from_value(
        _alloc: Global,
        dtype: &DType,
        value: Option<&ScalarValue>,
    ) -> Result<i32, ScalarError> {
        number(dtype, value)
    }
}

impl FromScalar for i64 {
    ghost says = { integer };

    ghost is_kind = { is_primitive_type };

    ghost reads = { reads_number i64 };

    fn is_read_from(dtype: &DType) -> bool {
        dtype.is_primitive()
    }

    fn from_value(
        _alloc: Global,
        dtype: &DType,
        value: Option<&ScalarValue>,
    ) -> Result<i64, ScalarError> {
        number(dtype, value)
    }
}

impl FromScalar for usize {
    ghost says = { λ n. integer (pos n) };

    ghost is_kind = { is_primitive_type };

    ghost reads = { reads_number u64 };

    fn is_read_from(dtype: &DType) -> bool {
        dtype.is_primitive()
    }

    fn from_value(
        _alloc: Global,
        dtype: &DType,
        value: Option<&ScalarValue>,
    ) -> Result<usize, ScalarError> {
        let number: u64 = number(dtype, value)?;
        Ok(number as usize)
    }
}

/// A string, which shares the buffer.
impl FromScalar for BufferString {
    ghost says = { text };

    ghost is_kind = { is_utf8_type };

    ghost reads = { reads_text };

    fn is_read_from(dtype: &DType) -> bool {
        dtype.is_utf8()
    }

    fn from_value(
        _alloc: Global,
        dtype: &DType,
        value: Option<&ScalarValue>,
    ) -> Result<BufferString, ScalarError> {
        let text = text(dtype, value)?.clone()?;
        Ok(text)
    }
}

/// Bytes, which share the buffer.
impl FromScalar for ByteBuffer {
    ghost says = { byte_string };

    ghost is_kind = { is_binary_type };

    ghost reads = { reads_bytes };

    fn is_read_from(dtype: &DType) -> bool {
        dtype.is_binary()
    }

    fn from_value(
        _alloc: Global,
        dtype: &DType,
        value: Option<&ScalarValue>,
    ) -> Result<ByteBuffer, ScalarError> {
        let bytes = bytes(dtype, value)?.clone()?;
        Ok(bytes)
    }
}

/// A copy of a string.
impl FromScalar for String {
    ghost says = { λ s. text (string_bytes s) };

    ghost is_kind = { is_utf8_type };

    ghost reads = { reads_text };

    fn is_read_from(dtype: &DType) -> bool {
        dtype.is_utf8()
    }

    fn from_value(
        alloc: Global,
        dtype: &DType,
        value: Option<&ScalarValue>,
    ) -> Result<String, ScalarError> {
        let text = text(dtype, value)?;
        let copy = String::from_str(alloc, text.as_str())?;
        Ok(copy)
    }
}

/// An optional value, `None` for null.
impl<T: FromScalar> FromScalar for Option<T> {
    ghost says = { says_or_null T.says };

    ghost is_kind = { T.is_kind };

    ghost reads = { λ k c. T.is_kind k && (is_null c || T.reads k c) };

    fn is_read_from(dtype: &DType) -> bool {
        T::is_read_from(dtype)
    }

    #[tactic(auto, using(vortex_scalar_value::proofs::Nulls::never_null))]
    fn from_value(
        alloc: Global,
        dtype: &DType,
        value: Option<&ScalarValue>,
    ) -> Result<Option<T>, ScalarError> {
        if !T::is_read_from(dtype) {
            return Err(ScalarError::Invalid);
        }
        match value {
            Some(_) => {
                let read = T::from_value(alloc, dtype, value)?;
                Ok(Some(read))
            }
            None => Ok(None),
        }
    }
}

/// The elements of a list, of any length or of a fixed one.
impl<T: FromScalar> FromScalar for Vec<T> {
    ghost says = { λ v. tuple (contents_from (map T.says v.items)) };

    ghost is_kind = { λ k. is_some (list_element k) };

    ghost reads = { λ k c. reads_list T.reads (list_element k) c };

    fn is_read_from(dtype: &DType) -> bool {
        dtype.as_any_size_list_element_opt().is_some()
    }

    #[tactic(auto, using(crate::proofs::Reading::lists))]
    fn from_value(
        alloc: Global,
        dtype: &DType,
        value: Option<&ScalarValue>,
    ) -> Result<Vec<T>, ScalarError> {
        let Some(element) = dtype.as_any_size_list_element_opt() else {
            return Err(ScalarError::Invalid);
        };
        let Some(value) = value else {
            return Err(ScalarError::Invalid);
        };
        let Some(items) = value.as_list() else {
            return Err(ScalarError::Invalid);
        };
        let all = read_items(alloc, element, items)?;
        Ok(all)
    }
}
