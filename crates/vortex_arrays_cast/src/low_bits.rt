//! Integers by the low bits of others.
ghost use Rattle.std.specs.Prelude.{◌≡◌};
ghost use Rattle.vortex_arrays_cast.specs.Cast.{low_bits};

use num_traits::AsPrimitive;
use vortex_arrays_buffer::element::Element;

/// A native integer type that takes the low bits of any integer.
pub(crate) trait LowBits: Element {
    /// The result of Rust's `as` on the integer.
    fn of_low_bits(number: i128) -> Self
        ensures { Self.integer result ≡ low_bits Self.kind number };
}

impl LowBits for u8 {
    fn of_low_bits(number: i128) -> u8 {
        number.as_()
    }
}

impl LowBits for u16 {
    fn of_low_bits(number: i128) -> u16 {
        number.as_()
    }
}

impl LowBits for u32 {
    fn of_low_bits(number: i128) -> u32 {
        number.as_()
    }
}

impl LowBits for u64 {
    fn of_low_bits(number: i128) -> u64 {
        number.as_()
    }
}

impl LowBits for i8 {
    fn of_low_bits(number: i128) -> i8 {
        number.as_()
    }
}

impl LowBits for i16 {
    fn of_low_bits(number: i128) -> i16 {
        number.as_()
    }
}

impl LowBits for i32 {
    fn of_low_bits(number: i128) -> i32 {
        number.as_()
    }
}

impl LowBits for i64 {
    fn of_low_bits(number: i128) -> i64 {
        number.as_()
    }
}
