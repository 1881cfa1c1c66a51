//! Shared lists of integers of one of the eight types.
ghost use Rattle.std.specs.Prelude.{◌≡◌, ◌≢◌, ◌<◌, ◌≤◌, ◌↔◌, [], length, map, pos, slice_index_or, slice_range, IsTrue, IfOk, MatchOption, All};
ghost use Rattle.vortex_model.specs.Valid.{InRange};
ghost use Rattle.vortex_dtype_ptype.specs.Numbers.{integral};
ghost use Rattle.vortex_dtype_ptype.specs.View.{number_kind_of};
ghost use Rattle.vortex_scalar_value.specs.Numbers.{kind_of_number, integer_of};
ghost use Rattle.vortex_arrays_buffer.specs.Places.{IsPlace, ArePlacesWhere, bit_at_number};
ghost use Rattle.vortex_arrays_buffer.specs.PrimitiveBuffers.{kind_of_numbers, integers_of};

use crate::bit_buffer::BitBuffer;
use crate::buffer::Buffer;
use crate::element::Element;
use crate::in_range::{all_i8, all_i16, all_i32, all_i64, all_u8, all_u16, all_u32, all_u64};
use crate::within::{are_within, are_within_where};
use std::alloc::{AllocError, Global};
use std::ops::Range;
use vortex_dtype_ptype::ptype::PType;
use vortex_scalar_value::pvalue::PValue;

/// A shared list of integers of one type. A clone and a slice share the items.
pub enum PrimitiveBuffer {
    U8(Buffer<u8>),
    U16(Buffer<u16>),
    U32(Buffer<u32>),
    U64(Buffer<u64>),
    I8(Buffer<i8>),
    I16(Buffer<i16>),
    I32(Buffer<i32>),
    I64(Buffer<i64>),
}

impl Drop for PrimitiveBuffer {
    fn drop(self) {
        match self {
            PrimitiveBuffer::U8(_items) => {}
            PrimitiveBuffer::U16(_items) => {}
            PrimitiveBuffer::U32(_items) => {}
            PrimitiveBuffer::U64(_items) => {}
            PrimitiveBuffer::I8(_items) => {}
            PrimitiveBuffer::I16(_items) => {}
            PrimitiveBuffer::I32(_items) => {}
            PrimitiveBuffer::I64(_items) => {}
        }
    }
}

impl PrimitiveBuffer {
    /// The list as one of integers of type `T`.
    pub fn from_buffer<T: Element>(items: Buffer<T>) -> PrimitiveBuffer
        ensures kind { kind_of_numbers result ≡ T.kind }
        ensures numbers { integers_of result ≡ map T.integer items }
        ensures held { All (InRange (kind_of_numbers result)) (integers_of result) }
    {
        let numbers = T::into_numbers(items);
        numbers.is_in_range();
        numbers
    }

    /// The type of the integers, within which each of them is.
    pub fn ptype(&self) -> PType
        ensures kind { number_kind_of result ≡ integral (kind_of_numbers self.now) }
        ensures held { All (InRange (kind_of_numbers self.now)) (integers_of self.now) }
    {
        self.is_in_range();
        match self {
            PrimitiveBuffer::U8(_) => PType::U8,
            PrimitiveBuffer::U16(_) => PType::U16,
            PrimitiveBuffer::U32(_) => PType::U32,
            PrimitiveBuffer::U64(_) => PType::U64,
            PrimitiveBuffer::I8(_) => PType::I8,
            PrimitiveBuffer::I16(_) => PType::I16,
            PrimitiveBuffer::I32(_) => PType::I32,
            PrimitiveBuffer::I64(_) => PType::I64,
        }
    }

    /// The number of integers, each of which is within the type.
    pub fn len(&self) -> usize
        ensures count { result ≡ length (integers_of self.now) }
        ensures held { All (InRange (kind_of_numbers self.now)) (integers_of self.now) }
    {
        self.is_in_range();
        match self {
            PrimitiveBuffer::U8(items) => items.len(),
            PrimitiveBuffer::U16(items) => items.len(),
            PrimitiveBuffer::U32(items) => items.len(),
            PrimitiveBuffer::U64(items) => items.len(),
            PrimitiveBuffer::I8(items) => items.len(),
            PrimitiveBuffer::I16(items) => items.len(),
            PrimitiveBuffer::I32(items) => items.len(),
            PrimitiveBuffer::I64(items) => items.len(),
        }
    }

    pub fn is_empty(&self) -> bool
        ensures { IsTrue result ↔ (integers_of self.now ≡ []) }
    {
        self.len() == 0
    }

    /// The integer at an index.
    pub fn get(&self, i: usize) -> i128
        requires { i < length (integers_of self.now) }
        ensures { result ≡ slice_index_or (integers_of self.now) i (pos 0) }
    {
        match self {
            PrimitiveBuffer::U8(items) => i128::from(items.get(i)),
            PrimitiveBuffer::U16(items) => i128::from(items.get(i)),
            PrimitiveBuffer::U32(items) => i128::from(items.get(i)),
            PrimitiveBuffer::U64(items) => i128::from(items.get(i)),
            PrimitiveBuffer::I8(items) => i128::from(items.get(i)),
            PrimitiveBuffer::I16(items) => i128::from(items.get(i)),
            PrimitiveBuffer::I32(items) => i128::from(items.get(i)),
            PrimitiveBuffer::I64(items) => i128::from(items.get(i)),
        }
    }

    /// The integer at an index, with its type.
    pub fn value(&self, i: usize) -> PValue
        requires { i < length (integers_of self.now) }
        ensures kind { kind_of_number result ≡ kind_of_numbers self.now }
        ensures number { integer_of result ≡ slice_index_or (integers_of self.now) i (pos 0) }
    {
        match self {
            PrimitiveBuffer::U8(items) => PValue::U8(items.get(i)),
            PrimitiveBuffer::U16(items) => PValue::U16(items.get(i)),
            PrimitiveBuffer::U32(items) => PValue::U32(items.get(i)),
            PrimitiveBuffer::U64(items) => PValue::U64(items.get(i)),
            PrimitiveBuffer::I8(items) => PValue::I8(items.get(i)),
            PrimitiveBuffer::I16(items) => PValue::I16(items.get(i)),
            PrimitiveBuffer::I32(items) => PValue::I32(items.get(i)),
            PrimitiveBuffer::I64(items) => PValue::I64(items.get(i)),
        }
    }

    /// Whether each integer is an index below `count`.
    pub fn are_within(&self, count: usize) -> bool
        ensures { IsTrue result ↔ All (IsPlace count) (integers_of self.now) }
    {
        match self {
            PrimitiveBuffer::U8(items) => are_within(items.as_slice(), count),
            PrimitiveBuffer::U16(items) => are_within(items.as_slice(), count),
            PrimitiveBuffer::U32(items) => are_within(items.as_slice(), count),
            PrimitiveBuffer::U64(items) => are_within(items.as_slice(), count),
            PrimitiveBuffer::I8(items) => are_within(items.as_slice(), count),
            PrimitiveBuffer::I16(items) => are_within(items.as_slice(), count),
            PrimitiveBuffer::I32(items) => are_within(items.as_slice(), count),
            PrimitiveBuffer::I64(items) => are_within(items.as_slice(), count),
        }
    }

    /// Whether each integer whose bit is true is an index below `count`.
    pub fn are_within_where(&self, bits: &BitBuffer, count: usize) -> bool
        requires { length bits.now ≡ length (integers_of self.now) }
        ensures { IsTrue result ↔ ArePlacesWhere bits.now count (integers_of self.now) }
    {
        match self {
            PrimitiveBuffer::U8(items) => are_within_where(items.as_slice(), bits, count),
            PrimitiveBuffer::U16(items) => are_within_where(items.as_slice(), bits, count),
            PrimitiveBuffer::U32(items) => are_within_where(items.as_slice(), bits, count),
            PrimitiveBuffer::U64(items) => are_within_where(items.as_slice(), bits, count),
            PrimitiveBuffer::I8(items) => are_within_where(items.as_slice(), bits, count),
            PrimitiveBuffer::I16(items) => are_within_where(items.as_slice(), bits, count),
            PrimitiveBuffer::I32(items) => are_within_where(items.as_slice(), bits, count),
            PrimitiveBuffer::I64(items) => are_within_where(items.as_slice(), bits, count),
        }
    }

    /// The bit at each of the integers, and false where an integer is no index of the bits.
    pub fn bits_at(&self, alloc: Global, bits: &BitBuffer) -> Result<BitBuffer, AllocError>
        ensures { IfOk result (λ b. b ≡ map (bit_at_number bits.now) (integers_of self.now)) }
    {
        match self {
            PrimitiveBuffer::U8(items) => bits.at_numbers(alloc, items.as_slice()),
            PrimitiveBuffer::U16(items) => bits.at_numbers(alloc, items.as_slice()),
            PrimitiveBuffer::U32(items) => bits.at_numbers(alloc, items.as_slice()),
            PrimitiveBuffer::U64(items) => bits.at_numbers(alloc, items.as_slice()),
            PrimitiveBuffer::I8(items) => bits.at_numbers(alloc, items.as_slice()),
            PrimitiveBuffer::I16(items) => bits.at_numbers(alloc, items.as_slice()),
            PrimitiveBuffer::I32(items) => bits.at_numbers(alloc, items.as_slice()),
            PrimitiveBuffer::I64(items) => bits.at_numbers(alloc, items.as_slice()),
        }
    }

    /// The items, and `None` where they are not of type `T`.
    pub fn as_slice<T: Element>(&self) -> Option<&[T]>
        ensures { MatchOption result
            (kind_of_numbers self.now ≢ T.kind)
            (λ items. (kind_of_numbers self.now ≡ T.kind)
            × (integers_of self.now ≡ map T.integer items.now)) }
    {
        T::items_of(self)
    }

    // Each integer is within the type. It reads none: it only proves this to a caller.
    fn is_in_range(&self)
        ensures { All (InRange (kind_of_numbers self.now)) (integers_of self.now) }
    {
        match self {
            PrimitiveBuffer::U8(items) => all_u8(items.as_slice()),
            PrimitiveBuffer::U16(items) => all_u16(items.as_slice()),
            PrimitiveBuffer::U32(items) => all_u32(items.as_slice()),
            PrimitiveBuffer::U64(items) => all_u64(items.as_slice()),
            PrimitiveBuffer::I8(items) => all_i8(items.as_slice()),
            PrimitiveBuffer::I16(items) => all_i16(items.as_slice()),
            PrimitiveBuffer::I32(items) => all_i32(items.as_slice()),
            PrimitiveBuffer::I64(items) => all_i64(items.as_slice()),
        }
    }

    /// The integers of the range, shared and not copied.
    #[tactic(auto, using(crate::proofs::NumberLemmas::part_of_naturals))]
    pub fn slice(&self, range: Range<usize>) -> Result<PrimitiveBuffer, AllocError>
        requires order { range.start ≤ range.end }
        requires within { range.end ≤ length (integers_of self.now) }
        ensures kind { IfOk result (λ n. kind_of_numbers n ≡ kind_of_numbers self.now) }
        ensures numbers { IfOk result
            (λ n. integers_of n ≡ slice_range (integers_of self.now) range.start range.end) }
    {
        match self {
            PrimitiveBuffer::U8(items) => Ok(PrimitiveBuffer::U8(items.slice(range)?)),
            PrimitiveBuffer::U16(items) => Ok(PrimitiveBuffer::U16(items.slice(range)?)),
            PrimitiveBuffer::U32(items) => Ok(PrimitiveBuffer::U32(items.slice(range)?)),
            PrimitiveBuffer::U64(items) => Ok(PrimitiveBuffer::U64(items.slice(range)?)),
            PrimitiveBuffer::I8(items) => Ok(PrimitiveBuffer::I8(items.slice(range)?)),
            PrimitiveBuffer::I16(items) => Ok(PrimitiveBuffer::I16(items.slice(range)?)),
            PrimitiveBuffer::I32(items) => Ok(PrimitiveBuffer::I32(items.slice(range)?)),
            PrimitiveBuffer::I64(items) => Ok(PrimitiveBuffer::I64(items.slice(range)?)),
        }
    }

    /// The integers at the indices, in their order.
    pub fn gather(&self, alloc: Global, places: &[usize]) -> Result<PrimitiveBuffer, AllocError>
        requires { All (λ i. i < length (integers_of self.now)) places.now }
        ensures kind { IfOk result (λ n. kind_of_numbers n ≡ kind_of_numbers self.now) }
        ensures numbers { IfOk result
            (λ n. integers_of n
            ≡ map (λ i. slice_index_or (integers_of self.now) i (pos 0)) places.now) }
    {
        match self {
            PrimitiveBuffer::U8(items) => Ok(PrimitiveBuffer::U8(items.gather(alloc, places)?)),
            PrimitiveBuffer::U16(items) => Ok(PrimitiveBuffer::U16(items.gather(alloc, places)?)),
            PrimitiveBuffer::U32(items) => Ok(PrimitiveBuffer::U32(items.gather(alloc, places)?)),
            PrimitiveBuffer::U64(items) => Ok(PrimitiveBuffer::U64(items.gather(alloc, places)?)),
            PrimitiveBuffer::I8(items) => Ok(PrimitiveBuffer::I8(items.gather(alloc, places)?)),
            PrimitiveBuffer::I16(items) => Ok(PrimitiveBuffer::I16(items.gather(alloc, places)?)),
            PrimitiveBuffer::I32(items) => Ok(PrimitiveBuffer::I32(items.gather(alloc, places)?)),
            PrimitiveBuffer::I64(items) => Ok(PrimitiveBuffer::I64(items.gather(alloc, places)?)),
        }
    }
}

impl Clone for PrimitiveBuffer {
    ghost is_clone = { λ old new. new ≡ old };

    fn clone(&self) -> Result<PrimitiveBuffer, AllocError> {
        match self {
            PrimitiveBuffer::U8(items) => Ok(PrimitiveBuffer::U8(items.clone()?)),
            PrimitiveBuffer::U16(items) => Ok(PrimitiveBuffer::U16(items.clone()?)),
            PrimitiveBuffer::U32(items) => Ok(PrimitiveBuffer::U32(items.clone()?)),
            PrimitiveBuffer::U64(items) => Ok(PrimitiveBuffer::U64(items.clone()?)),
            PrimitiveBuffer::I8(items) => Ok(PrimitiveBuffer::I8(items.clone()?)),
            PrimitiveBuffer::I16(items) => Ok(PrimitiveBuffer::I16(items.clone()?)),
            PrimitiveBuffer::I32(items) => Ok(PrimitiveBuffer::I32(items.clone()?)),
            PrimitiveBuffer::I64(items) => Ok(PrimitiveBuffer::I64(items.clone()?)),
        }
    }
}
