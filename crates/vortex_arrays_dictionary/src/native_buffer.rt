//! Integers of one type as a shared list of their native type.
ghost use Rattle.std.specs.Prelude.{◌≡◌, ◌≢◌, map, MatchOption};
ghost use Rattle.vortex_arrays_buffer.specs.PrimitiveBuffers.{kind_of_numbers, integers_of};

use vortex_arrays_buffer::buffer::Buffer;
use vortex_arrays_buffer::element::Element;
use vortex_arrays_buffer::primitive_buffer::PrimitiveBuffer;

/// A native integer type whose shared list can be borrowed from a `PrimitiveBuffer`.
pub trait NativeBuffer: Element {
    /// The list, and `None` where it has another integer type.
    fn buffer_of(numbers: &PrimitiveBuffer) -> Option<&Buffer<Self>>
        ensures { MatchOption result
            (kind_of_numbers numbers.now ≢ Self.kind)
            (λ items. (kind_of_numbers numbers.now ≡ Self.kind)
            × (integers_of numbers.now ≡ map Self.integer items.now)) };
}

impl NativeBuffer for u8 {
    #[tactic(auto, using(vortex_arrays_buffer::proofs::NumberLemmas::eq_numbers))]
    fn buffer_of(numbers: &PrimitiveBuffer) -> Option<&Buffer<u8>> {
        match numbers {
            PrimitiveBuffer::U8(items) => Some(items),
            _ => None,
        }
    }
}

impl NativeBuffer for u16 {
    #[tactic(auto, using(vortex_arrays_buffer::proofs::NumberLemmas::eq_numbers))]
    fn buffer_of(numbers: &PrimitiveBuffer) -> Option<&Buffer<u16>> {
        match numbers {
            PrimitiveBuffer::U16(items) => Some(items),
            _ => None,
        }
    }
}

impl NativeBuffer for u32 {
    #[tactic(auto, using(vortex_arrays_buffer::proofs::NumberLemmas::eq_numbers))]
    fn buffer_of(numbers: &PrimitiveBuffer) -> Option<&Buffer<u32>> {
        match numbers {
            PrimitiveBuffer::U32(items) => Some(items),
            _ => None,
        }
    }
}

impl NativeBuffer for u64 {
    #[tactic(auto, using(vortex_arrays_buffer::proofs::NumberLemmas::eq_numbers))]
    fn buffer_of(numbers: &PrimitiveBuffer) -> Option<&Buffer<u64>> {
        match numbers {
            PrimitiveBuffer::U64(items) => Some(items),
            _ => None,
        }
    }
}

impl NativeBuffer for i8 {
    #[tactic(auto, using(vortex_arrays_buffer::proofs::NumberLemmas::eq_numbers))]
    fn buffer_of(numbers: &PrimitiveBuffer) -> Option<&Buffer<i8>> {
        match numbers {
            PrimitiveBuffer::I8(items) => Some(items),
            _ => None,
        }
    }
}

impl NativeBuffer for i16 {
    #[tactic(auto, using(vortex_arrays_buffer::proofs::NumberLemmas::eq_numbers))]
    fn buffer_of(numbers: &PrimitiveBuffer) -> Option<&Buffer<i16>> {
        match numbers {
            PrimitiveBuffer::I16(items) => Some(items),
            _ => None,
        }
    }
}

impl NativeBuffer for i32 {
    #[tactic(auto, using(vortex_arrays_buffer::proofs::NumberLemmas::eq_numbers))]
    fn buffer_of(numbers: &PrimitiveBuffer) -> Option<&Buffer<i32>> {
        match numbers {
            PrimitiveBuffer::I32(items) => Some(items),
            _ => None,
        }
    }
}

impl NativeBuffer for i64 {
    #[tactic(auto, using(vortex_arrays_buffer::proofs::NumberLemmas::eq_numbers))]
    fn buffer_of(numbers: &PrimitiveBuffer) -> Option<&Buffer<i64>> {
        match numbers {
            PrimitiveBuffer::I64(items) => Some(items),
            _ => None,
        }
    }
}
