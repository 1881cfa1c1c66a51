//! Copies of strings and bytes, shortened to bounds.
ghost use Rattle.std.specs.Prelude.{◌≡◌, true, IfOk, IsUtf8};
ghost use Rattle.vortex_model.specs.LogicalType.{LogicalType};
ghost use Rattle.vortex_model.specs.Content.{text, byte_string};
ghost use Rattle.vortex_model_table.specs.Bounds.{low, high, is_longer};
ghost use Rattle.vortex_model.specs.Valid.{AreBytes, valid};
ghost use Rattle.vortex_model_table.specs.ZoneMap.{bound_of};
ghost use Rattle.vortex_stats_bound.specs.ValueOrder.{value_content};
ghost use Rattle.vortex_scalar_value.specs.View.{raw_of};
ghost use Rattle.vortex_stats_array.specs.Arrays.{IsTextType, IsBinaryType};
ghost use Rattle.vortex_stats_array.specs.Zones.{bound_content, high_by, IsBoundIn};

use crate::leaf_value::Bounded;
use bytes::Bytes;
use std::alloc::{AllocError, Global};
use vortex_dtype_core::BufferString;
use vortex_scalar_builders::byte_bounds::{lower_bytes, upper_bytes};
use vortex_scalar_builders::text_bounds::{lower_text, upper_text};
use vortex_scalar_value::scalar_value::ScalarValue;
use vortex_stats_bound::precision::Precision;

// Proves that bytes are below 256.
fn are_bytes(bytes: &[u8])
    ensures { AreBytes bytes.now }
{}

// Exact where it wasn't shortened.
fn bound(value: ScalarValue, shortened: bool) -> Precision<ScalarValue>
    ensures content { bound_content result ≡ bound_of shortened (value_content value) }
    ensures types { (k : LogicalType) → valid k (raw_of value) ≡ true → IsBoundIn k result }
{
    if shortened {
        Precision::Inexact(value)
    } else {
        Precision::Exact(value)
    }
}

fn text_copy(alloc: Global, value: &[u8]) -> Result<BufferString, AllocError>
    requires { IsUtf8 value.now }
    ensures { IfOk result (λ copy. copy ≡ value.now) }
{
    let copy = Bytes::copy_from_slice(alloc, value)?;
    Ok(BufferString::from_known_utf8(copy))
}

/// The longest prefix of whole characters with at most `max_length` bytes.
pub(crate) fn text_below(alloc: Global, value: &[u8], max_length: usize) -> Bounded
    requires { IsUtf8 value.now }
    ensures content { IfOk result (λ below. bound_content below
        ≡ bound_of (is_longer max_length (text value.now)) (low max_length (text value.now))) }
    ensures types { IfOk result (λ below. (k : LogicalType) → IsTextType k → IsBoundIn k below) }
{
    let copy = text_copy(alloc, value)?;
    let (low, shortened) = lower_text(copy, max_length);
    let _ = low.as_bytes();
    Ok(bound(ScalarValue::Utf8(low), shortened))
}

/// A string of at most `max_length` bytes that is at least the value, if there is one.
pub(crate) fn text_above(alloc: Global, value: &[u8], max_length: usize) -> Bounded
    requires { IsUtf8 value.now }
    ensures content { IfOk result (λ above. bound_content above
        ≡ high_by max_length (text value.now) (high max_length (text value.now))) }
    ensures types { IfOk result (λ above. (k : LogicalType) → IsTextType k → IsBoundIn k above) }
{
    let copy = text_copy(alloc, value)?;
    match upper_text(alloc, copy, max_length)? {
        Some((high, shortened)) => {
            let _ = high.as_bytes();
            Ok(bound(ScalarValue::Utf8(high), shortened))
        }
        None => Ok(Precision::Absent),
    }
}

/// The first `max_length` bytes.
pub(crate) fn bytes_below(alloc: Global, value: &[u8], max_length: usize) -> Bounded
    ensures content { IfOk result (λ below. bound_content below
        ≡ bound_of (is_longer max_length (byte_string value.now))
        (low max_length (byte_string value.now))) }
    ensures types { IfOk result (λ below. (k : LogicalType) → IsBinaryType k → IsBoundIn k below) }
{
    are_bytes(value);
    let copy = Bytes::copy_from_slice(alloc, value)?;
    let (low, shortened) = lower_bytes(copy, max_length);
    are_bytes(low.as_slice());
    Ok(bound(ScalarValue::Binary(low), shortened))
}

/// Bytes, at most `max_length` of them, that are at least the value, if there are any.
pub(crate) fn bytes_above(alloc: Global, value: &[u8], max_length: usize) -> Bounded
    ensures content { IfOk result (λ above. bound_content above
        ≡ high_by max_length (byte_string value.now) (high max_length (byte_string value.now))) }
    ensures types { IfOk result (λ above. (k : LogicalType) → IsBinaryType k → IsBoundIn k above) }
{
    are_bytes(value);
    let copy = Bytes::copy_from_slice(alloc, value)?;
    match upper_bytes(alloc, copy, max_length)? {
        Some((high, shortened)) => {
            are_bytes(high.as_slice());
            Ok(bound(ScalarValue::Binary(high), shortened))
        }
        None => Ok(Precision::Absent),
    }
}
