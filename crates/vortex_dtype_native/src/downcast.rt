//! Downcasts of values of some native integer type to those of one, and upcasts from one.
ghost use Rattle.vortex_model.specs.LogicalType.{IntKind, u8, u16, u32, u64, i8, i16, i32, i64};

use crate::native::NativePType;

/// A value of some native integer type that can be downcast to that type, as Vortex's
/// `PTypeDowncast`.
pub trait PTypeDowncast: Sized {
    /// The downcast value, of one Rust type for all native types.
    type Output;

    // the value is of this native type
    ghost can_downcast: { IntKind → Self → Type 0 };

    // the downcast value
    ghost downcast_gives: { IntKind → Self → Self.Output → Type 0 };

    fn into_u8(self) -> Self::Output
        requires { can_downcast u8 self }
        ensures { downcast_gives u8 self result };

    fn into_u16(self) -> Self::Output
        requires { can_downcast u16 self }
        ensures { downcast_gives u16 self result };

    fn into_u32(self) -> Self::Output
        requires { can_downcast u32 self }
        ensures { downcast_gives u32 self result };

    fn into_u64(self) -> Self::Output
        requires { can_downcast u64 self }
        ensures { downcast_gives u64 self result };

    fn into_i8(self) -> Self::Output
        requires { can_downcast i8 self }
        ensures { downcast_gives i8 self result };

    fn into_i16(self) -> Self::Output
        requires { can_downcast i16 self }
        ensures { downcast_gives i16 self result };

    fn into_i32(self) -> Self::Output
        requires { can_downcast i32 self }
        ensures { downcast_gives i32 self result };

    fn into_i64(self) -> Self::Output
        requires { can_downcast i64 self }
        ensures { downcast_gives i64 self result };
}

/// `PTypeDowncast` by a type argument, as Vortex's `PTypeDowncastExt`.
pub trait PTypeDowncastExt: PTypeDowncast {
    final fn downcast<T: NativePType>(self) -> Self::Output
        requires { Self.can_downcast T.kind self }
        ensures { Self.downcast_gives T.kind self result }
    {
        T::downcast(self)
    }
}

impl<V: PTypeDowncast> PTypeDowncastExt for V {}

/// A value that can be upcast from one of a native integer type, as Vortex's `PTypeUpcast`.
pub trait PTypeUpcast: Sized {
    /// The value before the upcast, of one Rust type for all native types.
    type Input;

    // the input is of this native type
    ghost can_upcast: { IntKind → Self.Input → Type 0 };

    // the upcast value
    ghost upcast_gives: { IntKind → Self.Input → Self → Type 0 };

    fn from_u8(input: Self::Input) -> Self
        requires { can_upcast u8 input }
        ensures { upcast_gives u8 input result };

    fn from_u16(input: Self::Input) -> Self
        requires { can_upcast u16 input }
        ensures { upcast_gives u16 input result };

    fn from_u32(input: Self::Input) -> Self
        requires { can_upcast u32 input }
        ensures { upcast_gives u32 input result };

    fn from_u64(input: Self::Input) -> Self
        requires { can_upcast u64 input }
        ensures { upcast_gives u64 input result };

    fn from_i8(input: Self::Input) -> Self
        requires { can_upcast i8 input }
        ensures { upcast_gives i8 input result };

    fn from_i16(input: Self::Input) -> Self
        requires { can_upcast i16 input }
        ensures { upcast_gives i16 input result };

    fn from_i32(input: Self::Input) -> Self
        requires { can_upcast i32 input }
        ensures { upcast_gives i32 input result };

    fn from_i64(input: Self::Input) -> Self
        requires { can_upcast i64 input }
        ensures { upcast_gives i64 input result };
}
