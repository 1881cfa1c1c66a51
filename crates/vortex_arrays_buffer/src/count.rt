//! Counts of true bits. A byte that is within the range as a whole is counted at once.
ghost use Rattle.std.specs.Prelude.{◌≡◌, ◌<◌, ◌≤◌, ◌-◌, ◌*◌, ◌^◌, length, count_by};
ghost use Rattle.vortex_arrays_buffer.specs.Bits.{bits_of};

use crate::bit::bit;

/// The number of true bits from one index to another, read bit by bit.
#[tactic(auto, using(crate::proofs::Counts::counted_bits))]
pub(crate) fn count_bits(bytes: &[u8], start: usize, end: usize) -> usize
    requires order { start ≤ end }
    requires within { end ≤ 8 * length bytes.now }
    ensures count { result ≡ count_by (λ b. b) (bits_of bytes.now start (end - start)) }
    ensures few { result ≤ end - start }
{
    let mut count = 0;
    for i in start..end {
        if bit(bytes, i) {
            count += 1;
        }
    }
    count
}

/// The number of true bits of the bytes from one to another.
pub(crate) fn count_bytes(bytes: &[u8], first: usize, last: usize) -> usize
    requires order { first ≤ last }
    requires within { last ≤ length bytes.now }
    requires small { 8 * last < 2 ^ 64 }
    ensures count { result
        ≡ count_by (λ b. b) (bits_of bytes.now (8 * first) (8 * (last - first))) }
    ensures few { result ≤ 8 * (last - first) }
{
    let mut count = 0;
    for k in first..last {
        count += bytes[k].count_ones() as usize;
    }
    count
}
