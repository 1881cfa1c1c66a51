//! The integer types that a `PrimitiveBuffer` can have.
ghost use Rattle.std.specs.Prelude.{◌≡◌, ◌≢◌, map, pos, MatchOption};
ghost use Rattle.vortex_model.specs.LogicalType.{u8, u16, u32, u64, i8, i16, i32, i64};
ghost use Rattle.vortex_arrays_buffer.specs.PrimitiveBuffers.{kind_of_numbers, integers_of};

use crate::buffer::Buffer;
use crate::primitive_buffer::PrimitiveBuffer;
use vortex_dtype_native::native::NativePType;

/// A native integer type of which a list is a `PrimitiveBuffer`.
pub trait Element: NativePType {
    /// The list as one of integers of the type.
    fn into_numbers(items: Buffer<Self>) -> PrimitiveBuffer
        ensures kind { kind_of_numbers result ≡ Self.kind }
        ensures numbers { integers_of result ≡ map Self.integer items };

    /// The items, and `None` where they have another type.
    fn items_of(numbers: &PrimitiveBuffer) -> Option<&[Self]>
        ensures { MatchOption result
            (kind_of_numbers numbers.now ≢ Self.kind)
            (λ items. (kind_of_numbers numbers.now ≡ Self.kind)
            × (integers_of numbers.now ≡ map Self.integer items.now)) };
}

impl Element for u8 {
    #[tactic(auto, using(crate::proofs::NumberLemmas::eq_numbers))]
    fn into_numbers(items: Buffer<u8>) -> PrimitiveBuffer
        ensures kind { kind_of_numbers result ≡ u8 }
        ensures numbers { integers_of result ≡ map pos items }
    {
        PrimitiveBuffer::U8(items)
    }

    #[tactic(auto, using(crate::proofs::NumberLemmas::eq_numbers))]
    fn items_of(numbers: &PrimitiveBuffer) -> Option<&[u8]> {
        match numbers {
            PrimitiveBuffer::U8(items) => Some(items.as_slice()),
            _ => None,
        }
    }
}

impl Element for u16 {
    #[tactic(auto, using(crate::proofs::NumberLemmas::eq_numbers))]
    fn into_numbers(items: Buffer<u16>) -> PrimitiveBuffer
        ensures kind { kind_of_numbers result ≡ u16 }
        ensures numbers { integers_of result ≡ map pos items }
    {
        PrimitiveBuffer::U16(items)
    }

    #[tactic(auto, using(crate::proofs::NumberLemmas::eq_numbers))]
    fn items_of(numbers: &PrimitiveBuffer) -> Option<&[u16]> {
        match numbers {
            PrimitiveBuffer::U16(items) => Some(items.as_slice()),
            _ => None,
        }
    }
}

impl Element for u32 {
    #[tactic(auto, using(crate::proofs::NumberLemmas::eq_numbers))]
    fn into_numbers(items: Buffer<u32>) -> PrimitiveBuffer
        ensures kind { kind_of_numbers result ≡ u32 }
        ensures numbers { integers_of result ≡ map pos items }
    {
        PrimitiveBuffer::U32(items)
    }

    #[tactic(auto, using(crate::proofs::NumberLemmas::eq_numbers))]
    fn items_of(numbers: &PrimitiveBuffer) -> Option<&[u32]> {
        match numbers {
            PrimitiveBuffer::U32(items) => Some(items.as_slice()),
            _ => None,
        }
    }
}

impl Element for u64 {
    #[tactic(auto, using(crate::proofs::NumberLemmas::eq_numbers))]
    fn into_numbers(items: Buffer<u64>) -> PrimitiveBuffer
        ensures kind { kind_of_numbers result ≡ u64 }
        ensures numbers { integers_of result ≡ map pos items }
    {
        PrimitiveBuffer::U64(items)
    }

    #[tactic(auto, using(crate::proofs::NumberLemmas::eq_numbers))]
    fn items_of(numbers: &PrimitiveBuffer) -> Option<&[u64]> {
        match numbers {
            PrimitiveBuffer::U64(items) => Some(items.as_slice()),
            _ => None,
        }
    }
}

impl Element for i8 {
    #[tactic(auto, using(crate::proofs::NumberLemmas::eq_numbers))]
    fn into_numbers(items: Buffer<i8>) -> PrimitiveBuffer
        ensures kind { kind_of_numbers result ≡ i8 }
        ensures numbers { integers_of result ≡ items }
    {
        PrimitiveBuffer::I8(items)
    }

    #[tactic(auto, using(crate::proofs::NumberLemmas::eq_numbers))]
    fn items_of(numbers: &PrimitiveBuffer) -> Option<&[i8]> {
        match numbers {
            PrimitiveBuffer::I8(items) => Some(items.as_slice()),
            _ => None,
        }
    }
}

impl Element for i16 {
    #[tactic(auto, using(crate::proofs::NumberLemmas::eq_numbers))]
    fn into_numbers(items: Buffer<i16>) -> PrimitiveBuffer
        ensures kind { kind_of_numbers result ≡ i16 }
        ensures numbers { integers_of result ≡ items }
    {
        PrimitiveBuffer::I16(items)
    }

    #[tactic(auto, using(crate::proofs::NumberLemmas::eq_numbers))]
    fn items_of(numbers: &PrimitiveBuffer) -> Option<&[i16]> {
        match numbers {
            PrimitiveBuffer::I16(items) => Some(items.as_slice()),
            _ => None,
        }
    }
}

impl Element for i32 {
    #[tactic(auto, using(crate::proofs::NumberLemmas::eq_numbers))]
    fn into_numbers(items: Buffer<i32>) -> PrimitiveBuffer
        ensures kind { kind_of_numbers result ≡ i32 }
        ensures numbers { integers_of result ≡ items }
    {
        PrimitiveBuffer::I32(items)
    }

    #[tactic(auto, using(crate::proofs::NumberLemmas::eq_numbers))]
    fn items_of(numbers: &PrimitiveBuffer) -> Option<&[i32]> {
        match numbers {
            PrimitiveBuffer::I32(items) => Some(items.as_slice()),
            _ => None,
        }
    }
}

impl Element for i64 {
    #[tactic(auto, using(crate::proofs::NumberLemmas::eq_numbers))]
    fn into_numbers(items: Buffer<i64>) -> PrimitiveBuffer
        ensures kind { kind_of_numbers result ≡ i64 }
        ensures numbers { integers_of result ≡ items }
    {
        PrimitiveBuffer::I64(items)
    }

    #[tactic(auto, using(crate::proofs::NumberLemmas::eq_numbers))]
    fn items_of(numbers: &PrimitiveBuffer) -> Option<&[i64]> {
        match numbers {
            PrimitiveBuffer::I64(items) => Some(items.as_slice()),
            _ => None,
        }
    }
}
