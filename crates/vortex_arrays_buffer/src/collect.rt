//! Bits computed by a function, byte by byte.
ghost use Rattle.std.specs.Prelude.{◌≡◌, ◌<◌, ◌≤◌, ◌+◌, ◌*◌, ◌^◌, ◌==◌, ℕ, length, IfOk};
ghost use Rattle.std.specs.Int.{bit_at};
ghost use Rattle.vortex_arrays_buffer.specs.Bits.{bit_of};

use std::alloc::{AllocError, Global};

/// Bytes that begin with `len` bits, each of which is `f` of its index.
#[tactic(auto, using(crate::proofs::Collected::bytes_say))]
pub(crate) fn collect_bytes<F: Fn(usize) -> bool>(
    alloc: Global,
    len: usize,
    f: F,
) -> Result<Vec<u8>, AllocError>
    requires { (i : ℕ) → i < len → F.pre f i }
    ensures room { IfOk result (λ bytes. len ≤ 8 * length bytes.items) }
    ensures bits { IfOk result
        (λ bytes. (i : ℕ) → i < len → F.post f i (bit_of bytes.items i)) }
{
    let whole = len / 8;
    let mut bytes = vec![in alloc; 0; len.div_ceil(8)]?;
    for k in 0..whole {
        bytes[k] = collect_byte(&f, 8 * k, 8);
    }
    if 8 * whole == len {
        return Ok(bytes);
    }
    bytes[whole] = collect_byte(&f, 8 * whole, len - 8 * whole);
    Ok(bytes)
}

// A byte with n bits, lowest first, which are `f` of the indices from `first` on.
#[tactic(auto, using(crate::proofs::Collected::byte_says))]
#[inline(always)]
fn collect_byte<F: Fn(usize) -> bool>(f: &F, first: usize, n: usize) -> u8
    requires few { n ≤ 8 }
    requires small { first + n < 2 ^ 64 }
    requires calls { (j : ℕ) → j < n → F.pre f.now (first + j) }
    ensures { (j : ℕ) → j < n → F.post f.now (first + j) (bit_at result j == 1) }
{
    let mut byte = 0;
    for j in 0..n {
        if f(first + j) {
            byte |= 1 << j;
        }
    }
    byte
}
