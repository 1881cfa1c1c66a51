//! Bounds of strings, of at most `max_length` bytes.
ghost use Rattle.std.specs.Prelude.{◌≡◌, ◌≤◌, length, take, option_map, IsCharBoundary, IsOk, IfOk, IfSome};
ghost use Rattle.vortex_model_table.specs.Bounds.{IsLow, IsHigh, IsRaisedBeginning, is_longer};
ghost use Rattle.vortex_model.specs.Content.{text};

use crate::raising::raise;
use bytes::ByteStr as BufferString;
use std::alloc::{AllocError, Global};

// The first `end` bytes, which share the buffer.
fn first_bytes(value: BufferString, end: usize) -> BufferString
    requires { IsCharBoundary value end }
    ensures { result ≡ take end value }
{
    let mut bytes = value.into_bytes();
    bytes.truncate(end);
    BufferString::from_known_utf8(bytes)
}

/// The longest prefix of whole characters of at most `max_length` bytes, which shares the buffer,
/// and whether the string is longer than that.
pub fn lower_text(value: BufferString, max_length: usize) -> (BufferString, bool)
    ensures bound { IsLow (text value) max_length (text result.0) }
    ensures longer { result.1 ≡ is_longer max_length (text value) }
{
    let longer = max_length < value.len();
    let end = value.as_str().floor_char_boundary(max_length);
    (first_bytes(value, end), longer)
}

// The lower bound, raised.
fn raised_beginning(
    alloc: Global,
    value: &str,
    max_length: usize,
) -> Result<Option<BufferString>, AllocError>
    ensures { IfOk result (λ high. IsRaisedBeginning value.now max_length high) }
{
    let low = &value[..value.floor_char_boundary(max_length)];
    match raise(alloc, low)? {
        None => Ok(None),
        Some(raised) => {
            let high = BufferString::from_string(raised)?;
            Ok(Some(high))
        }
    }
}

/// The lower bound, raised, where it can be, and whether the string is longer than `max_length`. A
/// string that isn't longer is its own bound.
pub fn upper_text(
    alloc: Global,
    value: BufferString,
    max_length: usize,
) -> Result<Option<(BufferString, bool)>, AllocError>
    ensures bound { IfOk result
        (λ bound. IsHigh (text value) max_length (option_map (λ p. text p.0) bound)) }
    ensures short { length value ≤ max_length → IsOk result }
    ensures longer { IfOk result
        (λ bound. IfSome bound (λ p. p.1 ≡ is_longer max_length (text value))) }
{
    if value.len() <= max_length {
        return Ok(Some((value, false)));
    }
    match raised_beginning(alloc, value.as_str(), max_length)? {
        None => Ok(None),
        Some(high) => Ok(Some((high, true))),
    }
}
