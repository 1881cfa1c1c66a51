//! Bounds of bytes, of at most `max_length` bytes.
ghost use Rattle.std.specs.Prelude.{◌≡◌, ◌<◌, ◌≤◌, ◌-◌, ℕ, length, slice_index, option_map, IsOk, IfOk, IfSome, MatchOption};
ghost use Rattle.vortex_model_table.specs.Bounds.{IsLow, IsHigh, IsLeastAbove, NoneAbove, is_longer};
ghost use Rattle.vortex_model.specs.Content.{byte_string};

use bytes::Bytes as ByteBuffer;
use std::alloc::{AllocError, Global};

/// The first `max_length` bytes, which share the buffer, and whether there are more.
pub fn lower_bytes(value: ByteBuffer, max_length: usize) -> (ByteBuffer, bool)
    ensures bound { IsLow (byte_string value) max_length (byte_string result.0) }
    ensures longer { result.1 ≡ is_longer max_length (byte_string value) }
{
    let longer = max_length < value.len();
    let mut low = value;
    low.truncate(max_length);
    (low, longer)
}

// The length of the first `limit` bytes without trailing 0xff bytes.
fn counted_length(bytes: &[u8], limit: usize) -> usize
    requires { limit ≤ length bytes.now }
    ensures within { result ≤ limit }
    ensures full { (k : ℕ) → result ≤ k → k < limit → slice_index bytes.now k ≡ 255 }
    ensures room { 0 < result → slice_index bytes.now (result - 1) < 255 }
{
    let mut end = limit;
    while end > 0 && bytes[end - 1] == 255 {
        end -= 1;
    }
    end
}

// The first `limit` bytes plus one, as one big-endian number, and `None` where all are 0xff.
fn counted_up(alloc: Global, bytes: &[u8], limit: usize) -> Result<Option<Vec<u8>>, AllocError>
    requires { limit < length bytes.now }
    ensures { IfOk result (λ counted. MatchOption counted (NoneAbove bytes.now limit)
        (λ high. IsLeastAbove bytes.now limit high.items)) }
{
    let end = counted_length(bytes, limit);
    if end == 0 {
        return Ok(None);
    }
    let mut high = Vec::with_capacity(alloc, limit)?;
    high.extend_from_slice(&bytes[..end - 1])?;
    high.push(bytes[end - 1] + 1)?;
    high.resize(limit, 0)?;
    Ok(Some(high))
}

/// The least byte string of exactly `max_length` bytes above `value`, where there is one, and
/// whether `value` is longer than that. A value that isn't longer is its own bound.
pub fn upper_bytes(
    alloc: Global,
    value: ByteBuffer,
    max_length: usize,
) -> Result<Option<(ByteBuffer, bool)>, AllocError>
    ensures bound { IfOk result
        (λ bound. IsHigh (byte_string value) max_length (option_map (λ p. byte_string p.0) bound)) }
    ensures short { length value ≤ max_length → IsOk result }
    ensures longer { IfOk result
        (λ bound. IfSome bound (λ p. p.1 ≡ is_longer max_length (byte_string value))) }
{
    if value.len() <= max_length {
        return Ok(Some((value, false)));
    }
    match counted_up(alloc, value.as_slice(), max_length)? {
        None => Ok(None),
        Some(high) => {
            let high = ByteBuffer::from_vec(high)?;
            Ok(Some((high, true)))
        }
    }
}
