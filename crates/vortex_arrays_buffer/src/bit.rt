//! Single bits of bytes, and the sixteen bits of two bytes.
ghost use Rattle.std.specs.Prelude.{◌≡◌, ◌≢◌, ◌<◌, ◌+◌, ◌*◌, ℕ, true, length};
ghost use Rattle.vortex_arrays_buffer.specs.Bits.{bit_of, bits_of};

/// The bit at an index. Index 0 is the lowest bit of the first byte.
#[tactic(auto, using(crate::proofs::BitLemmas::bit_read))]
pub(crate) fn bit(bytes: &[u8], i: usize) -> bool
    requires { i < 8 * length bytes.now }
    ensures { result ≡ bit_of bytes.now i }
{
    (bytes[i / 8] >> (i % 8)) & 1 == 1
}

/// Sets the bit at an index.
#[tactic(auto, using(crate::proofs::BitLemmas::bit_set))]
pub(crate) fn set_bit(bytes: &mut [u8], i: usize)
    requires { i < 8 * length bytes.old }
    ensures set { bit_of bytes.new i ≡ true }
    ensures others { (j : ℕ) → j ≢ i → bit_of bytes.new j ≡ bit_of bytes.old j }
    ensures length { length bytes.new ≡ length bytes.old }
{
    bytes[i / 8] |= 1 << (i % 8);
}

/// The sixteen bits of two bytes, from the lowest of the first byte on. A few instructions unpack
/// all of them.
pub(crate) fn sixteen_bits(bytes: &[u8], k: usize) -> [bool; 16]
    requires { k + 1 < length bytes.now }
    ensures { result ≡ bits_of bytes.now (8 * k) 16 }
{
    let low = bytes[k];
    let high = bytes[k + 1];
    [
        low & 1 == 1,
        (low >> 1) & 1 == 1,
        (low >> 2) & 1 == 1,
        (low >> 3) & 1 == 1,
        (low >> 4) & 1 == 1,
        (low >> 5) & 1 == 1,
        (low >> 6) & 1 == 1,
        (low >> 7) & 1 == 1,
        high & 1 == 1,
        (high >> 1) & 1 == 1,
        (high >> 2) & 1 == 1,
        (high >> 3) & 1 == 1,
        (high >> 4) & 1 == 1,
        (high >> 5) & 1 == 1,
        (high >> 6) & 1 == 1,
        (high >> 7) & 1 == 1,
    ]
}
