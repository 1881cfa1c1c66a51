//! Seals `NativePType`, and gives contracts its integer type and its integers.
ghost use Rattle.std.specs.Prelude.{ℤ, pos};
ghost use Rattle.vortex_model.specs.LogicalType.{IntKind, u8, u16, u32, u64, i8, i16, i32, i64};

/// A native integer. No other crate implements it.
pub trait Sealed: Sized {
    // its integer type
    ghost kind: { IntKind };

    // its integer
    ghost integer: { Self → ℤ };
}

impl Sealed for u8 {
    ghost kind = { u8 };

    ghost integer = { pos };
}

impl Sealed for u16 {
    ghost kind = { u16 };

    ghost integer = { pos };
}

impl Sealed for u32 {
    ghost kind = { u32 };

    ghost integer = { pos };
}

impl Sealed for u64 {
    ghost kind = { u64 };

    ghost integer = { pos };
}

impl Sealed for i8 {
    ghost kind = { i8 };

    ghost integer = { λ z. z };
}

impl Sealed for i16 {
    ghost kind = { i16 };

    ghost integer = { λ z. z };
}

impl Sealed for i32 {
    ghost kind = { i32 };

    ghost integer = { λ z. z };
}

impl Sealed for i64 {
    ghost kind = { i64 };

    ghost integer = { λ z. z };
}
