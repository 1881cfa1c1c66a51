//! Native integers that store decimals.
ghost use Rattle.std.specs.Prelude.{◌≡◌, ◌≤◌, ℤ};
ghost use Rattle.std.proofs.Common.{lit≤};
ghost use Rattle.vortex_dtype_decimal.specs.declared.decimal_type.DecimalType.{DecimalType};
ghost use Rattle.vortex_dtype_decimal.specs.declared.decimal_type.DecimalType.TheVariants.{I8, I16, I32, I64, I128};
ghost use Rattle.vortex_dtype_decimal.specs.DecimalValues.{bits_of};

use crate::decimal_type::DecimalType;

/// A native integer type that stores decimals, as Vortex's `NativeDecimalType`.
pub trait NativeDecimalType: Copy + Drop {
    // The type as a `DecimalType`.
    ghost stored: { DecimalType };

    // The unscaled integer.
    ghost integer: { Self → ℤ };

    fn decimal_type() -> DecimalType
        ensures { result ≡ stored };

    /// The unscaled integer.
    fn to_i128(self) -> i128
        ensures { result ≡ integer self };

    /// Downcasts a value to this native type.
    fn downcast<V: DecimalTypeDowncast>(visitor: V) -> V::Output
        requires { V.can_downcast stored visitor }
        ensures { V.downcast_gives stored visitor result };

    /// Upcasts a value of this native type.
    fn upcast<V: DecimalTypeUpcast>(input: V::Input) -> V
        requires { V.can_upcast stored input }
        ensures { V.upcast_gives stored input result };

    // Integers of 128 bits hold each value, so `to_i128` is total.
    ghost narrow: { bits_of stored ≤ 128 };
}

/// A value of some native integer type that can be downcast to that type, as Vortex's
/// `DecimalTypeDowncast`.
pub trait DecimalTypeDowncast: Sized {
    /// The downcast value, of one Rust type for all native types.
    type Output;

    // the value is of this native type
    ghost can_downcast: { DecimalType → Self → Type 0 };

    // the downcast value
    ghost downcast_gives: { DecimalType → Self → Self.Output → Type 0 };

    fn into_i8(self) -> Self::Output
        requires { can_downcast I8 self }
        ensures { downcast_gives I8 self result };

    fn into_i16(self) -> Self::Output
        requires { can_downcast I16 self }
        ensures { downcast_gives I16 self result };

    fn into_i32(self) -> Self::Output
        requires { can_downcast I32 self }
        ensures { downcast_gives I32 self result };

    fn into_i64(self) -> Self::Output
        requires { can_downcast I64 self }
        ensures { downcast_gives I64 self result };

    fn into_i128(self) -> Self::Output
        requires { can_downcast I128 self }
        ensures { downcast_gives I128 self result };
}

/// A value that can be upcast from one of a native integer type, as Vortex's `DecimalTypeUpcast`.
pub trait DecimalTypeUpcast: Sized {
    /// The value before the upcast, of one Rust type for all native types.
    type Input;

    // the input is of this native type
    ghost can_upcast: { DecimalType → Self.Input → Type 0 };

    // the upcast value
    ghost upcast_gives: { DecimalType → Self.Input → Self → Type 0 };

    fn from_i8(input: Self::Input) -> Self
        requires { can_upcast I8 input }
        ensures { upcast_gives I8 input result };

    fn from_i16(input: Self::Input) -> Self
        requires { can_upcast I16 input }
        ensures { upcast_gives I16 input result };

    fn from_i32(input: Self::Input) -> Self
        requires { can_upcast I32 input }
        ensures { upcast_gives I32 input result };

    fn from_i64(input: Self::Input) -> Self
        requires { can_upcast I64 input }
        ensures { upcast_gives I64 input result };

    fn from_i128(input: Self::Input) -> Self
        requires { can_upcast I128 input }
        ensures { upcast_gives I128 input result };
}

impl NativeDecimalType for i8 {
    ghost stored = { I8 };

    ghost integer = { λ number. number };

    ghost narrow = { lit≤ tt };

    fn decimal_type() -> DecimalType {
        DecimalType::I8
    }

    fn to_i128(self) -> i128 {
        i128::from(self)
    }

    fn downcast<V: DecimalTypeDowncast>(visitor: V) -> V::Output {
        visitor.into_i8()
    }

    fn upcast<V: DecimalTypeUpcast>(input: V::Input) -> V {
        V::from_i8(input)
    }
}

impl NativeDecimalType for i16 {
    ghost stored = { I16 };

    ghost integer = { λ number. number };

    ghost narrow = { lit≤ tt };

    fn decimal_type() -> DecimalType {
        DecimalType::I16
    }

    fn to_i128(self) -> i128 {
        i128::from(self)
    }

    fn downcast<V: DecimalTypeDowncast>(visitor: V) -> V::Output {
        visitor.into_i16()
    }

    fn upcast<V: DecimalTypeUpcast>(input: V::Input) -> V {
        V::from_i16(input)
    }
}

impl NativeDecimalType for i32 {
    ghost stored = { I32 };

    ghost integer = { λ number. number };

    ghost narrow = { lit≤ tt };

    fn decimal_type() -> DecimalType {
        DecimalType::I32
    }

    fn to_i128(self) -> i128 {
        i128::from(self)
    }

    fn downcast<V: DecimalTypeDowncast>(visitor: V) -> V::Output {
        visitor.into_i32()
    }

    fn upcast<V: DecimalTypeUpcast>(input: V::Input) -> V {
        V::from_i32(input)
    }
}

impl NativeDecimalType for i64 {
    ghost stored = { I64 };

    ghost integer = { λ number. number };

    ghost narrow = { lit≤ tt };

    fn decimal_type() -> DecimalType {
        DecimalType::I64
    }

    fn to_i128(self) -> i128 {
        i128::from(self)
    }

    fn downcast<V: DecimalTypeDowncast>(visitor: V) -> V::Output {
        visitor.into_i64()
    }

    fn upcast<V: DecimalTypeUpcast>(input: V::Input) -> V {
        V::from_i64(input)
    }
}

impl NativeDecimalType for i128 {
    ghost stored = { I128 };

    ghost integer = { λ number. number };

    ghost narrow = { lit≤ tt };

    fn decimal_type() -> DecimalType {
        DecimalType::I128
    }

    fn to_i128(self) -> i128 {
        self
    }

    fn downcast<V: DecimalTypeDowncast>(visitor: V) -> V::Output {
        visitor.into_i128()
    }

    fn upcast<V: DecimalTypeUpcast>(input: V::Input) -> V {
        V::from_i128(input)
    }
}
