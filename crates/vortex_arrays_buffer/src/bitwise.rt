//! Bits of two lists combined, and bits moved, byte by byte.
ghost use Rattle.std.specs.Prelude.{◌≡◌, ◌<◌, ◌≤◌, ◌+◌, ◌*◌, ◌^◌, ◌==◌, ℕ, length, map, bit_and, bit_or, IfOk};
ghost use Rattle.std.specs.Int.{bit_at};
ghost use Rattle.std.specs.List.{zip};
ghost use Rattle.vortex_arrays_buffer.specs.Bits.{bit_of, bits_of};

use std::alloc::{AllocError, Global};

/// The bitwise AND of each pair of bytes.
pub(crate) fn both(alloc: Global, xs: &[u8], ys: &[u8]) -> Result<Vec<u8>, AllocError>
    ensures { IfOk result (λ bytes. bytes.items ≡ map (λ p. bit_and p.0 p.1) (zip xs.now ys.now)) }
{
    xs.iter()
        .zip(ys.iter())
        .map(|(x, y)| *x & *y)
        .collect(alloc)
}

/// The bitwise OR of each pair of bytes.
pub(crate) fn either(alloc: Global, xs: &[u8], ys: &[u8]) -> Result<Vec<u8>, AllocError>
    ensures { IfOk result (λ bytes. bytes.items ≡ map (λ p. bit_or p.0 p.1) (zip xs.now ys.now)) }
{
    xs.iter()
        .zip(ys.iter())
        .map(|(x, y)| *x | *y)
        .collect(alloc)
}

/// Bytes that begin with the `len` bits from `start` on.
#[tactic(auto, using(crate::proofs::Collected::bytes_say))]
pub(crate) fn moved(
    alloc: Global,
    bytes: &[u8],
    start: usize,
    len: usize,
) -> Result<Vec<u8>, AllocError>
    requires within { start + len ≤ 8 * length bytes.now }
    requires small { start + len < 2 ^ 64 }
    ensures room { IfOk result (λ moved. len ≤ 8 * length moved.items) }
    ensures bits { IfOk result
        (λ moved. bits_of moved.items 0 len ≡ bits_of bytes.now start len) }
{
    let first = start / 8;
    let by = start % 8;
    let count = len.div_ceil(8);
    let mut moved = vec![in alloc; 0; count]?;
    for k in 0..count {
        moved[k] = eight_bits(bytes, first + k, by);
    }
    Ok(moved)
}

// The eight bits that begin `by` bits into the byte at k, false past the last byte.
#[inline(always)]
fn eight_bits(bytes: &[u8], k: usize, by: usize) -> u8
    requires within { k < length bytes.now }
    requires few { by < 8 }
    ensures { (j : ℕ) → j < 8 → (bit_at result j == 1) ≡ bit_of bytes.now (8 * k + by + j) }
{
    let low = bytes[k] as u16;
    let high = if k + 1 < bytes.len() {
        bytes[k + 1] as u16
    } else {
        0
    };
    (((256 * high + low) >> by) % 256) as u8
}
