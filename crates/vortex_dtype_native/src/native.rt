//! Native integers: one trait for all of them, and one for each use.
ghost use Rattle.std.specs.Prelude.{◌≡◌, ◌↔◌, true, refl, unsigned_abs, is_some, IfSome, IsTrue};
ghost use Rattle.std.specs.Ordering.{int_cmp};
ghost use Rattle.std.proofs.Common.{ap};
ghost use Rattle.vortex_model.specs.Valid.{in_range};
ghost use Rattle.vortex_dtype_ptype.specs.Numbers.{integral, is_natural, IsGreatest};
ghost use Rattle.vortex_dtype_ptype.specs.View.{number_kind_of};

use crate::downcast::{PTypeDowncast, PTypeUpcast};
use crate::little_endian::{ToBytes, TryFromBytes};
use crate::private::Sealed;
use num_traits::{PrimInt, Unsigned};
use std::cmp::Ordering;
use vortex_dtype_ptype::ptype::PType;

/// A native integer, as Vortex's `NativePType`. Floats are not native types here.
pub trait NativePType: Copy + Drop + ToBytes + TryFromBytes {
    fn ptype() -> PType
        ensures { number_kind_of result ≡ integral Self.kind };

    fn get(self) -> i128
        ensures number { result ≡ Self.integer self }
        ensures held { in_range Self.kind result ≡ true };

    /// The integer as a value of the type, and `None` where it is out of range.
    fn of(number: i128) -> Option<Self>
        ensures when { is_some result ≡ in_range Self.kind number }
        ensures number { IfSome result (λ native. Self.integer native ≡ number) };

    /// Downcasts a value to this native type.
    fn downcast<V: PTypeDowncast>(visitor: V) -> V::Output
        requires { V.can_downcast Self.kind visitor }
        ensures { V.downcast_gives Self.kind visitor result };

    /// Upcasts a value of this native type.
    fn upcast<V: PTypeUpcast>(input: V::Input) -> V
        requires { V.can_upcast Self.kind input }
        ensures { V.upcast_gives Self.kind input result };

    final fn total_compare(self, other: Self) -> Ordering
        ensures { result ≡ int_cmp (Self.integer self) (Self.integer other) }
    {
        self.get().cmp(&other.get())
    }

    final fn is_eq(self, other: Self) -> bool
        ensures { IsTrue result ↔ (Self.integer self ≡ Self.integer other) }
    {
        self.get() == other.get()
    }

    // values with equal integers are equal
    ghost told_apart: { (a b : Self) → Self.integer a ≡ Self.integer b → a ≡ b };
}

/// An integer with the operations of its type, as Vortex's `IntegerPType`.
pub trait IntegerPType: NativePType + PrimInt {
    final fn max_value_as_u64() -> u64
        ensures { IsGreatest (integral Self.kind) result }
    {
        Self::ptype().max_value_as_u64()
    }

    // The operations of `PrimInt` are on the same integer.
    ghost eq_number: { (x : Self) → Self.value x ≡ Self.integer x };
}

/// An unsigned integer, as Vortex's `UnsignedPType`.
pub trait UnsignedPType: IntegerPType + Unsigned {
    ghost natural: { IsTrue (is_natural Self.kind) };
}

/// Seals `OffsetBuilderPType`.
pub mod offsets {
    /// Implemented for the types of `OffsetBuilderPType` alone.
    pub trait Sealed {}

    impl Sealed for u8 {}

    impl Sealed for u16 {}

    impl Sealed for u32 {}

    impl Sealed for u64 {}

    impl Sealed for i8 {}

    impl Sealed for i16 {}

    impl Sealed for i32 {}

    impl Sealed for i64 {}
}

/// An integer that offsets may have while an array is built, as Vortex's `OffsetBuilderPType`.
pub trait OffsetBuilderPType: IntegerPType + offsets::Sealed {}

/// An integer and the type that stores it, as Vortex's `PhysicalPType`.
pub trait PhysicalPType: NativePType {
    /// The storing type, which is the type itself.
    type Physical: NativePType;

    // It has the same primitive type.
    ghost itself: { Self.Physical.kind ≡ Self.kind };
}

impl NativePType for u8 {
    ghost told_apart = { λ a b e. ap unsigned_abs e };

    fn ptype() -> PType {
        PType::U8
    }

    fn get(self) -> i128 {
        i128::from(self)
    }

    fn of(number: i128) -> Option<u8> {
        u8::try_from(number).ok()
    }

    fn downcast<V: PTypeDowncast>(visitor: V) -> V::Output {
        visitor.into_u8()
    }

    fn upcast<V: PTypeUpcast>(input: V::Input) -> V {
        V::from_u8(input)
    }
}

impl IntegerPType for u8 {
    ghost eq_number = { λ _. refl };
}

impl PhysicalPType for u8 {
    type Physical = u8;

    ghost itself = { refl };
}

impl NativePType for u16 {
    ghost told_apart = { λ a b e. ap unsigned_abs e };

    fn ptype() -> PType {
        PType::U16
    }

    fn get(self) -> i128 {
        i128::from(self)
    }

    fn of(number: i128) -> Option<u16> {
        u16::try_from(number).ok()
    }

    fn downcast<V: PTypeDowncast>(visitor: V) -> V::Output {
        visitor.into_u16()
    }

    fn upcast<V: PTypeUpcast>(input: V::Input) -> V {
        V::from_u16(input)
    }
}

impl IntegerPType for u16 {
    ghost eq_number = { λ _. refl };
}

impl PhysicalPType for u16 {
    type Physical = u16;

    ghost itself = { refl };
}

impl NativePType for u32 {
    ghost told_apart = { λ a b e. ap unsigned_abs e };

    fn ptype() -> PType {
        PType::U32
    }

    fn get(self) -> i128 {
        i128::from(self)
    }

    fn of(number: i128) -> Option<u32> {
        u32::try_from(number).ok()
    }

    fn downcast<V: PTypeDowncast>(visitor: V) -> V::Output {
        visitor.into_u32()
    }

    fn upcast<V: PTypeUpcast>(input: V::Input) -> V {
        V::from_u32(input)
    }
}

impl IntegerPType for u32 {
    ghost eq_number = { λ _. refl };
}

impl PhysicalPType for u32 {
    type Physical = u32;

    ghost itself = { refl };
}

impl NativePType for u64 {
    ghost told_apart = { λ a b e. ap unsigned_abs e };

    fn ptype() -> PType {
        PType::U64
    }

    fn get(self) -> i128 {
        i128::from(self)
    }

    fn of(number: i128) -> Option<u64> {
        u64::try_from(number).ok()
    }

    fn downcast<V: PTypeDowncast>(visitor: V) -> V::Output {
        visitor.into_u64()
    }

    fn upcast<V: PTypeUpcast>(input: V::Input) -> V {
        V::from_u64(input)
    }
}

impl IntegerPType for u64 {
    ghost eq_number = { λ _. refl };
}

impl PhysicalPType for u64 {
    type Physical = u64;

    ghost itself = { refl };
}

impl NativePType for i8 {
    ghost told_apart = { λ a b e. e };

    fn ptype() -> PType {
        PType::I8
    }

    fn get(self) -> i128 {
        i128::from(self)
    }

    fn of(number: i128) -> Option<i8> {
        i8::try_from(number).ok()
    }

    fn downcast<V: PTypeDowncast>(visitor: V) -> V::Output {
        visitor.into_i8()
    }

    fn upcast<V: PTypeUpcast>(input: V::Input) -> V {
        V::from_i8(input)
    }
}

impl IntegerPType for i8 {
    ghost eq_number = { λ _. refl };
}

impl PhysicalPType for i8 {
    type Physical = i8;

    ghost itself = { refl };
}

impl NativePType for i16 {
    ghost told_apart = { λ a b e. e };

    fn ptype() -> PType {
        PType::I16
    }

    fn get(self) -> i128 {
        i128::from(self)
    }

    fn of(number: i128) -> Option<i16> {
        i16::try_from(number).ok()
    }

    fn downcast<V: PTypeDowncast>(visitor: V) -> V::Output {
        visitor.into_i16()
    }

    fn upcast<V: PTypeUpcast>(input: V::Input) -> V {
        V::from_i16(input)
    }
}

impl IntegerPType for i16 {
    ghost eq_number = { λ _. refl };
}

impl PhysicalPType for i16 {
    type Physical = i16;

    ghost itself = { refl };
}

impl NativePType for i32 {
    ghost told_apart = { λ a b e. e };

    fn ptype() -> PType {
        PType::I32
    }

    fn get(self) -> i128 {
        i128::from(self)
    }

    fn of(number: i128) -> Option<i32> {
        i32::try_from(number).ok()
    }

    fn downcast<V: PTypeDowncast>(visitor: V) -> V::Output {
        visitor.into_i32()
    }

    fn upcast<V: PTypeUpcast>(input: V::Input) -> V {
        V::from_i32(input)
    }
}

impl IntegerPType for i32 {
    ghost eq_number = { λ _. refl };
}

impl PhysicalPType for i32 {
    type Physical = i32;

    ghost itself = { refl };
}

impl NativePType for i64 {
    ghost told_apart = { λ a b e. e };

    fn ptype() -> PType {
        PType::I64
    }

    fn get(self) -> i128 {
        i128::from(self)
    }

    fn of(number: i128) -> Option<i64> {
        i64::try_from(number).ok()
    }

    fn downcast<V: PTypeDowncast>(visitor: V) -> V::Output {
        visitor.into_i64()
    }

    fn upcast<V: PTypeUpcast>(input: V::Input) -> V {
        V::from_i64(input)
    }
}

impl IntegerPType for i64 {
    ghost eq_number = { λ _. refl };
}

impl PhysicalPType for i64 {
    type Physical = i64;

    ghost itself = { refl };
}

impl UnsignedPType for u8 {
    ghost natural = { refl };
}

impl UnsignedPType for u16 {
    ghost natural = { refl };
}

impl UnsignedPType for u32 {
    ghost natural = { refl };
}

impl UnsignedPType for u64 {
    ghost natural = { refl };
}

impl OffsetBuilderPType for u8 {}

impl OffsetBuilderPType for u16 {}

impl OffsetBuilderPType for u32 {}

impl OffsetBuilderPType for u64 {}

impl OffsetBuilderPType for i8 {}

impl OffsetBuilderPType for i16 {}

impl OffsetBuilderPType for i32 {}

impl OffsetBuilderPType for i64 {}
