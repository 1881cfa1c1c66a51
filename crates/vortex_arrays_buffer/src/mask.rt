//! Which rows are kept.
ghost use Rattle.std.specs.Prelude.{◌≡◌, ◌<◌, ◌≤◌, ◌↔◌, [], true, false, not, length, map, count_by, replicate, slice_index_or, slice_range, IsTrue, IfOk, All};
ghost use Rattle.vortex_arrays_buffer.specs.Bits.{bits_at, positions_of};

use crate::bit_buffer::BitBuffer;
use std::alloc::{AllocError, Global};
use std::marker::Model;
use std::ops::Range;

/// Which rows are kept, as Vortex's `Mask`: a bit for each row, and the number of true bits. A
/// clone shares the bits.
#[derive(Drop)]
pub struct Mask {
    bits: BitBuffer,
    true_count: usize,
}

impl Model for Mask {
    ghost use Rattle.std.specs.Prelude.{◌≡◌, List, Bool, count_by};

    ghost Value = { List Bool };

    ghost view = { λ m. m.bits };

    ghost invariant = { λ m. m.true_count ≡ count_by (λ b. b) m.bits };
}

#[tactic(auto, using(crate::proofs::Positions::kept))]
impl Mask {
    /// A mask that keeps all of `len` rows.
    pub fn new_true(alloc: Global, len: usize) -> Result<Mask, AllocError>
        ensures { IfOk result (λ mask. mask ≡ replicate len true) }
    {
        let bits = BitBuffer::new_set(alloc, len)?;
        Ok(Mask {
            bits,
            true_count: len,
        })
    }

    /// A mask that keeps none of `len` rows.
    pub fn new_false(alloc: Global, len: usize) -> Result<Mask, AllocError>
        ensures { IfOk result (λ mask. mask ≡ replicate len false) }
    {
        let bits = BitBuffer::new_unset(alloc, len)?;
        Ok(Mask {
            bits,
            true_count: 0,
        })
    }

    /// A mask that keeps the rows whose bit is true.
    pub fn from_buffer(bits: BitBuffer) -> Mask
        ensures { result ≡ bits }
    {
        let true_count = bits.true_count();
        Mask { bits, true_count }
    }

    /// A mask that keeps the rows at the indices.
    pub fn from_indices(alloc: Global, len: usize, indices: &[usize]) -> Result<Mask, AllocError>
        requires { All (λ i. i < len) indices.now }
        ensures { IfOk result (λ mask. mask ≡ bits_at len indices.now) }
    {
        let bits = BitBuffer::from_indices(alloc, len, indices)?;
        Ok(Mask::from_buffer(bits))
    }

    /// The number of rows, kept or not.
    pub fn len(&self) -> usize
        ensures { result ≡ length self.now }
    {
        self.bits.len()
    }

    /// Whether there is no row.
    pub fn is_empty(&self) -> bool
        ensures { IsTrue result ↔ (self.now ≡ []) }
    {
        self.bits.is_empty()
    }

    /// The number of kept rows.
    pub fn true_count(&self) -> usize
        ensures { result ≡ count_by (λ b. b) self.now }
    {
        self.true_count
    }

    /// Whether a row is kept.
    pub fn value(&self, i: usize) -> bool
        requires { i < length self.now }
        ensures { result ≡ slice_index_or self.now i false }
    {
        self.bits.value(i)
    }

    /// Whether all rows are kept.
    pub fn all_true(&self) -> bool
        ensures { IsTrue result ↔ All (λ b. b ≡ true) self.now }
    {
        self.true_count == self.len()
    }

    /// Whether no row is kept.
    pub fn all_false(&self) -> bool
        ensures { IsTrue result ↔ All (λ b. b ≡ false) self.now }
    {
        self.true_count == 0
    }

    /// A bit for each row, true where it is kept.
    pub fn bit_buffer(&self) -> &BitBuffer
        ensures { result.now ≡ self.now }
    {
        &self.bits
    }

    /// The mask of the other rows.
    pub fn not(&self, alloc: Global) -> Result<Mask, AllocError>
        ensures { IfOk result (λ mask. mask ≡ map not self.now) }
    {
        let bits = self.bits.not(alloc)?;
        Ok(Mask::from_buffer(bits))
    }

    /// The mask of the rows of the range.
    pub fn slice(&self, range: Range<usize>) -> Result<Mask, AllocError>
        requires order { range.start ≤ range.end }
        requires within { range.end ≤ length self.now }
        ensures { IfOk result (λ mask. mask ≡ slice_range self.now range.start range.end) }
    {
        let bits = self.bits.slice(range)?;
        Ok(Mask::from_buffer(bits))
    }

    /// The indices of the kept rows, ascending.
    pub fn indices(&self, alloc: Global) -> Result<Vec<usize>, AllocError>
        ensures { IfOk result (λ positions. positions.items ≡ positions_of self.now) }
    {
        self.bits.set_indices(alloc)
    }
}

impl Clone for Mask {
    ghost is_clone = { λ old new. new ≡ old };

    fn clone(&self) -> Result<Mask, AllocError> {
        let bits = self.bits.clone()?;
        Ok(Mask {
            bits,
            true_count: self.true_count,
        })
    }
}
