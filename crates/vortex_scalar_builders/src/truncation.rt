//! Shortened bounds of scalars.
ghost use Rattle.std.specs.Prelude.{◌≡◌, ℕ, true, List, Option, is_some, option_map, nat_lt, length, IsOk, IfOk, IfErr, IfSome};
ghost use Rattle.vortex_model_table.specs.Bounds.{IsLow, IsHigh};
ghost use Rattle.vortex_model.specs.Content.{Content, Raw, text, byte_string};
ghost use Rattle.vortex_model.specs.LogicalType.{LogicalType, Nullability, utf8, binary};
ghost use Rattle.vortex_dtype_ptype.specs.View.{nullability_of_flag};
ghost use Rattle.vortex_scalar_core.specs.Scalar.{scalar_type, scalar_raw, scalar_content};
ghost use Rattle.vortex_scalar_value.specs.Parts.{text_in, byte_string_in};
ghost use Rattle.vortex_scalar_value.specs.declared.error.ScalarError.TheVariants.{Memory};

use crate::byte_bounds::{lower_bytes, upper_bytes};
use crate::constructors::ScalarConstructors;
use crate::text_bounds::{lower_text, upper_text};
use std::alloc::Global;
use vortex_dtype_core::{BufferString, ByteBuffer};
use vortex_dtype_ptype::nullability::Nullability;
use vortex_scalar_core::scalar::Scalar;
use vortex_scalar_value::error::ScalarError;

/// A string or bytes that can be shortened to bounds, as Vortex's `ScalarTruncation`. Lengths are
/// in bytes.
pub trait ScalarTruncation: Sized {
    // its bytes
    ghost bytes: { Self → List ℕ };

    // the content of a value with these bytes
    ghost said: { List ℕ → Content };

    // the bytes of a raw value of this form
    ghost part: { Raw → Option (List ℕ) };

    // the type of these values
    ghost kind: { Nullability → LogicalType };

    /// The string or the bytes of a scalar, and `None` where it is null or of another form.
    fn from_scalar(value: Scalar) -> Option<Self>
        ensures { option_map bytes result ≡ part (scalar_raw value) };

    /// The number of bytes.
    fn len(&self) -> usize
        ensures { result ≡ length (bytes self.now) };

    fn into_scalar(self, nullability: Nullability) -> Scalar
        ensures dtype { scalar_type result ≡ kind (nullability_of_flag nullability) }
        ensures content { scalar_content result ≡ said (bytes self) };

    /// The longest prefix of at most `max_length` bytes, of whole characters for a string. Shares
    /// the buffer.
    fn lower_bound(self, max_length: usize) -> Self
        ensures { IsLow (said (bytes self)) max_length (said (bytes result)) };

    /// A bound of at most `max_length` bytes that is not below the value: the value itself where it
    /// fits, for longer bytes the least, for a longer string the lower bound raised. `None` where
    /// there is none.
    fn upper_bound(self, alloc: Global, max_length: usize) -> Result<Option<Self>, ScalarError>
        ensures bound { IfOk result
            (λ high. IsHigh (said (bytes self)) max_length
            (option_map (λ h. said (bytes h)) high)) }
        ensures refused { IfErr result (λ e. e ≡ Memory) };
}

impl ScalarTruncation for BufferString {
    ghost bytes = { λ t. t };

    ghost said = { text };

    ghost part = { text_in };

    ghost kind = { utf8 };

    fn from_scalar(value: Scalar) -> Option<BufferString> {
        let (_, value) = value.into_parts();
        match value {
            Some(value) => value.into_utf8(),
            None => None,
        }
    }

    fn len(&self) -> usize {
        BufferString::len(self)
    }

    fn into_scalar(self, nullability: Nullability) -> Scalar {
        Scalar::utf8(self, nullability)
    }

    fn lower_bound(self, max_length: usize) -> BufferString {
        let (low, _) = lower_text(self, max_length);
        low
    }

    fn upper_bound(
        self,
        alloc: Global,
        max_length: usize,
    ) -> Result<Option<BufferString>, ScalarError> {
        match upper_text(alloc, self, max_length)? {
            Some((high, _)) => Ok(Some(high)),
            None => Ok(None),
        }
    }
}

impl ScalarTruncation for ByteBuffer {
    ghost bytes = { λ b. b };

    ghost said = { byte_string };

    ghost part = { byte_string_in };

    ghost kind = { binary };

    fn from_scalar(value: Scalar) -> Option<ByteBuffer> {
        let (_, value) = value.into_parts();
        match value {
            Some(value) => value.into_binary(),
            None => None,
        }
    }

    fn len(&self) -> usize {
        ByteBuffer::len(self)
    }

    fn into_scalar(self, nullability: Nullability) -> Scalar {
        Scalar::binary(self, nullability)
    }

    fn lower_bound(self, max_length: usize) -> ByteBuffer {
        let (low, _) = lower_bytes(self, max_length);
        low
    }

    fn upper_bound(
        self,
        alloc: Global,
        max_length: usize,
    ) -> Result<Option<ByteBuffer>, ScalarError> {
        match upper_bytes(alloc, self, max_length)? {
            Some((high, _)) => Ok(Some(high)),
            None => Ok(None),
        }
    }
}

/// The scalar of the longest prefix of at most `max_length` bytes, and whether the value is longer
/// than that, as Vortex's `lower_bound`. Never `None` or an error: the return type is that of
/// `upper_bound`.
pub fn lower_bound<T: ScalarTruncation>(
    value: T,
    max_length: usize,
    nullability: Nullability,
) -> Result<Option<(Scalar, bool)>, ScalarError>
    ensures made { IsOk result }
    ensures is_there { IfOk result (λ bound. is_some bound ≡ true) }
    ensures dtype { IfOk result
        (λ bound. IfSome bound (λ p. scalar_type p.0 ≡ T.kind (nullability_of_flag nullability))) }
    ensures bound { IfOk result (λ bound. IfSome bound
        (λ p. IsLow (T.said (T.bytes value)) max_length (scalar_content p.0))) }
    ensures longer { IfOk result
        (λ bound. IfSome bound (λ p. p.1 ≡ nat_lt max_length (length (T.bytes value)))) }
{
    let longer = max_length < value.len();
    let low = value.lower_bound(max_length);
    Ok(Some((low.into_scalar(nullability), longer)))
}

/// The scalar of the upper bound of at most `max_length` bytes, where there is one, and whether the
/// value is longer than that, as Vortex's `upper_bound`. Fails only where memory runs out.
pub fn upper_bound<T: ScalarTruncation>(
    alloc: Global,
    value: T,
    max_length: usize,
    nullability: Nullability,
) -> Result<Option<(Scalar, bool)>, ScalarError>
    ensures dtype { IfOk result
        (λ bound. IfSome bound (λ p. scalar_type p.0 ≡ T.kind (nullability_of_flag nullability))) }
    ensures bound { IfOk result
        (λ bound. IsHigh (T.said (T.bytes value)) max_length
        (option_map (λ p. scalar_content p.0) bound)) }
    ensures longer { IfOk result
        (λ bound. IfSome bound (λ p. p.1 ≡ nat_lt max_length (length (T.bytes value)))) }
    ensures refused { IfErr result (λ e. e ≡ Memory) }
{
    let longer = max_length < value.len();
    match value.upper_bound(alloc, max_length)? {
        None => Ok(None),
        Some(high) => {
            let high = high.into_scalar(nullability);
            Ok(Some((high, longer)))
        }
    }
}
