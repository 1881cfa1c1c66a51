//! Shared lists of bits, sliced without a copy.
ghost use Rattle.std.specs.Prelude.{◌≡◌, ◌<◌, ◌≤◌, ◌↔◌, ◌+◌, ◌*◌, ◌^◌, pos, ◌&&◌, ◌||◌, ℕ, [], true, false, not, length, map, count_by, replicate, slice_index_or, slice_range, IsTrue, IfOk, All};
ghost use Rattle.std.specs.List.{zip};
ghost use Rattle.vortex_arrays_buffer.specs.Bits.{bits_of, bits_at, positions_of};
ghost use Rattle.vortex_arrays_buffer.specs.Places.{bit_at_number};

use crate::bit::{bit, set_bit};
use crate::bitwise::{both, either, moved};
use crate::buffer::Buffer;
use crate::collect::collect_bytes;
use crate::count::{count_bits, count_bytes};
use crate::places::place_all;
use crate::unpack::unpack;
use crate::within::is_within;
use std::alloc::{AllocError, Global};
use std::marker::Model;
use std::ops::Range;
use vortex_dtype_native::native::NativePType;

/// Part of a shared list of bits, packed eight to a byte, as Vortex's `BitBuffer`. A clone and a
/// slice share the bits.
#[derive(Drop)]
pub struct BitBuffer {
    bytes: Buffer<u8>,
    start: usize,
    len: usize,
}

impl Model for BitBuffer {
    ghost use Rattle.std.specs.Prelude.{List, Bool, ◌+◌, ◌*◌, ◌≤◌, ◌<◌, ◌^◌, length};
    ghost use Rattle.vortex_arrays_buffer.specs.Bits.{bits_of};

    ghost Value = { List Bool };

    ghost view = { λ b. bits_of b.bytes b.start b.len };

    ghost invariant = { λ b. (b.start + b.len ≤ 8 * length b.bytes) × (b.start + b.len < 2 ^ 64) };
}

impl BitBuffer {
    // The first `len` bits of the bytes, the lowest of a byte first.
    fn of_bytes(bytes: Vec<u8>, len: usize) -> Result<BitBuffer, AllocError>
        requires { len ≤ 8 * length bytes.items }
        ensures { IfOk result (λ b. b ≡ bits_of bytes.items 0 len) }
    {
        let bytes = Buffer::from_vec(bytes)?;
        Ok(BitBuffer {
            bytes,
            start: 0,
            len,
        })
    }

    /// `len` bits that are all true.
    #[tactic(auto, using(crate::proofs::Built::all_set))]
    pub fn new_set(alloc: Global, len: usize) -> Result<BitBuffer, AllocError>
        ensures { IfOk result (λ b. b ≡ replicate len true) }
    {
        let bytes = vec![in alloc; 255; len.div_ceil(8)]?;
        BitBuffer::of_bytes(bytes, len)
    }

    /// `len` bits that are all false.
    #[tactic(auto, using(crate::proofs::Built::all_unset))]
    pub fn new_unset(alloc: Global, len: usize) -> Result<BitBuffer, AllocError>
        ensures { IfOk result (λ b. b ≡ replicate len false) }
    {
        let bytes = vec![in alloc; 0; len.div_ceil(8)]?;
        BitBuffer::of_bytes(bytes, len)
    }

    /// `len` bits, each of which is `f` of its index, as Vortex's `BitBuffer::collect_bool`.
    pub fn collect_bool<F: Fn(usize) -> bool>(
        alloc: Global,
        len: usize,
        f: F,
    ) -> Result<BitBuffer, AllocError>
        requires { (i : ℕ) → i < len → F.pre f i }
        ensures count { IfOk result (λ b. length b ≡ len) }
        ensures bits { IfOk result
            (λ b. (i : ℕ) → i < len → F.post f i (slice_index_or b i false)) }
    {
        let bytes = collect_bytes(alloc, len, f)?;
        BitBuffer::of_bytes(bytes, len)
    }

    pub fn from_bools(alloc: Global, bits: &[bool]) -> Result<BitBuffer, AllocError>
        ensures { IfOk result (λ b. b ≡ bits.now) }
    {
        BitBuffer::collect_bool(alloc, bits.len(), |i| bits[i])
    }

    /// `len` bits, of which those at the indices are true, as Vortex's `BitBuffer::from_indices`.
    #[tactic(auto, using(crate::proofs::Built::places_set))]
    pub fn from_indices(
        alloc: Global,
        len: usize,
        indices: &[usize],
    ) -> Result<BitBuffer, AllocError>
        requires { All (λ i. i < len) indices.now }
        ensures { IfOk result (λ b. b ≡ bits_at len indices.now) }
    {
        let mut bytes = vec![in alloc; 0; len.div_ceil(8)]?;
        for i in 0..indices.len() {
            set_bit(&mut bytes, indices[i]);
        }
        BitBuffer::of_bytes(bytes, len)
    }

    #[tactic(auto, using(crate::proofs::BitLemmas::bits))]
    pub fn len(&self) -> usize
        ensures { result ≡ length self.now }
    {
        self.len
    }

    #[tactic(auto, using(crate::proofs::BitLemmas::bits))]
    pub fn is_empty(&self) -> bool
        ensures { IsTrue result ↔ (self.now ≡ []) }
    {
        self.len == 0
    }

    /// The bit at an index.
    #[tactic(auto, using(crate::proofs::BitLemmas::bits))]
    pub fn value(&self, i: usize) -> bool
        requires { i < length self.now }
        ensures { result ≡ slice_index_or self.now i false }
    {
        bit(self.bytes.as_slice(), self.start + i)
    }

    /// The bits unpacked, a byte for each.
    #[tactic(auto, using(crate::proofs::BitLemmas::bits))]
    pub fn to_bools(&self, alloc: Global) -> Result<Vec<bool>, AllocError>
        ensures { IfOk result (λ items. items.items ≡ self.now) }
    {
        let bytes = self.bytes.as_slice();
        unpack(alloc, bytes, self.start, self.start + self.len)
    }

    /// The number of true bits.
    #[tactic(auto, using(crate::proofs::BitLemmas::bits))]
    pub fn true_count(&self) -> usize
        ensures { result ≡ count_by (λ b. b) self.now }
    {
        let bytes = self.bytes.as_slice();
        let end = self.start + self.len;
        let first = self.start.div_ceil(8);
        let last = end / 8;
        if last < first {
            return count_bits(bytes, self.start, end);
        }
        let before = count_bits(bytes, self.start, 8 * first);
        let inside = count_bytes(bytes, first, last);
        let behind = count_bits(bytes, 8 * last, end);
        before + inside + behind
    }

    /// The indices of the true bits, ascending, as Vortex's `BitBuffer::set_indices`.
    #[tactic(auto, using(crate::proofs::BitLemmas::bits, crate::proofs::Placed::all_lent))]
    pub fn set_indices(&self, alloc: Global) -> Result<Vec<usize>, AllocError>
        ensures { IfOk result (λ places. places.items ≡ positions_of self.now) }
    {
        let bytes = self.bytes.as_slice();
        let mut places = vec![in alloc; 0; self.true_count()]?;
        place_all(&mut places, bytes, self.start, self.start + self.len);
        Ok(places)
    }

    // Bytes that begin with the bits. They share the buffer where the bits begin at a byte.
    fn packed(&self, alloc: Global) -> Result<Buffer<u8>, AllocError>
        ensures room { IfOk result (λ bytes. length self.now ≤ 8 * length bytes) }
        ensures bits { IfOk result (λ bytes. bits_of bytes 0 (length self.now) ≡ self.now) }
    {
        if self.start % 8 != 0 {
            let bytes = moved(alloc, self.bytes.as_slice(), self.start, self.len)?;
            return Buffer::from_vec(bytes);
        }
        let first = self.start / 8;
        self.bytes.slice(first..first + self.len.div_ceil(8))
    }

    /// Each bit negated.
    pub fn not(&self, alloc: Global) -> Result<BitBuffer, AllocError>
        ensures { IfOk result (λ b. b ≡ map not self.now) }
    {
        let mine = self.packed(alloc)?;
        let bytes = mine.as_slice().iter().map(|x| *x ^ 255).collect(alloc)?;
        BitBuffer::of_bytes(bytes, self.len())
    }

    /// The bits at the indices, in their order.
    pub fn gather(&self, alloc: Global, places: &[usize]) -> Result<BitBuffer, AllocError>
        requires { All (λ i. i < length self.now) places.now }
        ensures { IfOk result (λ b. b ≡ map (λ i. slice_index_or self.now i false) places.now) }
    {
        BitBuffer::collect_bool(alloc, places.len(), |i| self.value(places[i]))
    }

    /// The bit at each of the numbers, and false where a number is no index.
    pub(crate) fn at_numbers<T: NativePType>(
        &self,
        alloc: Global,
        numbers: &[T],
    ) -> Result<BitBuffer, AllocError>
        ensures { IfOk result
            (λ b. b ≡ map (bit_at_number self.now) (map T.integer numbers.now)) }
    {
        let bytes = self.bytes.as_slice();
        let start = self.start;
        let len = self.len;
        BitBuffer::collect_bool(
            alloc,
            numbers.len(),
            |i| -> bool
                requires number { i < length numbers.now }
                requires within { start + len ≤ 8 * length bytes.now }
                requires small { start + len < 2 ^ 64 }
                ensures { result ≡ bit_at_number (bits_of bytes.entry.now start len)
                    (slice_index_or (map T.integer numbers.entry.now) i (pos 0)) }
            {
                let number = numbers[i].get();
                is_within(number, len) && bit(bytes, start + number as usize)
            },
        )
    }

    /// Whether both bits are true, for each index.
    pub fn and(&self, alloc: Global, other: &BitBuffer) -> Result<BitBuffer, AllocError>
        requires { length self.now ≡ length other.now }
        ensures { IfOk result (λ b. b ≡ map (λ p. p.0 && p.1) (zip self.now other.now)) }
    {
        let mine = self.packed(alloc)?;
        let theirs = other.packed(alloc)?;
        let bytes = both(alloc, mine.as_slice(), theirs.as_slice())?;
        BitBuffer::of_bytes(bytes, self.len())
    }

    /// Whether at least one bit is true, for each index.
    pub fn or(&self, alloc: Global, other: &BitBuffer) -> Result<BitBuffer, AllocError>
        requires { length self.now ≡ length other.now }
        ensures { IfOk result (λ b. b ≡ map (λ p. p.0 || p.1) (zip self.now other.now)) }
    {
        let mine = self.packed(alloc)?;
        let theirs = other.packed(alloc)?;
        let bytes = either(alloc, mine.as_slice(), theirs.as_slice())?;
        BitBuffer::of_bytes(bytes, self.len())
    }

    /// The bits of the range, shared and not copied.
    #[tactic(auto, using(crate::proofs::BitLemmas::bits))]
    pub fn slice(&self, range: Range<usize>) -> Result<BitBuffer, AllocError>
        requires order { range.start ≤ range.end }
        requires within { range.end ≤ length self.now }
        ensures { IfOk result (λ b. b ≡ slice_range self.now range.start range.end) }
    {
        let bytes = self.bytes.clone()?;
        Ok(BitBuffer {
            bytes,
            start: self.start + range.start,
            len: range.end - range.start,
        })
    }
}

impl Clone for BitBuffer {
    ghost is_clone = { λ old new. new ≡ old };

    fn clone(&self) -> Result<BitBuffer, AllocError> {
        let bytes = self.bytes.clone()?;
        Ok(BitBuffer {
            bytes,
            start: self.start,
            len: self.len,
        })
    }
}
