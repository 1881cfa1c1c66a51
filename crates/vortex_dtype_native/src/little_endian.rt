//! Native integers as little-endian bytes.
ghost use Rattle.std.specs.Prelude.{◌≡◌, take, drop, length, IfOk, IfErr};
ghost use Rattle.vortex_dtype_ptype.specs.declared.error.DTypeError.TheVariants.{Length};
ghost use Rattle.vortex_dtype_ptype.specs.Numbers.{integral, HasByteWidth};
ghost use Rattle.vortex_dtype_native.specs.NativeBytes.{number_of_bytes, AreBytesOf};

use crate::private::Sealed;
use vortex_dtype_ptype::error::DTypeError;

/// A value that is written as little-endian bytes, as Vortex's `ToBytes`.
pub trait ToBytes: Sealed {
    /// The bytes, least significant first, and their number. The rest of the eight are zero.
    fn to_le_bytes(&self) -> ([u8; 8], usize)
        ensures width { HasByteWidth (integral Self.kind) result.1 }
        ensures bytes { AreBytesOf Self.kind (Self.integer self.now) (take result.1 result.0) }
        ensures rest { number_of_bytes (drop result.1 result.0) ≡ 0 };
}

/// A value that is read from little-endian bytes, as Vortex's `TryFromBytes`.
pub trait TryFromBytes: Sealed {
    /// The integer of these bytes, or `DTypeError::Length` where their number isn't the width of
    /// the type.
    fn try_from_le_bytes(bytes: &[u8]) -> Result<Self, DTypeError>
        ensures read { IfOk result
            (λ number. AreBytesOf Self.kind (Self.integer number) bytes.now) }
        ensures refused { IfErr result (λ e. (e ≡ Length)
            × ¬ HasByteWidth (integral Self.kind) (length bytes.now)) };
}

impl ToBytes for u8 {
    #[tactic(auto, using(crate::proofs::Encoded::encoded_u8))]
    fn to_le_bytes(&self) -> ([u8; 8], usize) {
        (u64::from(*self).to_le_bytes(), 1)
    }
}

impl ToBytes for u16 {
    #[tactic(auto, using(crate::proofs::Encoded::encoded_u16))]
    fn to_le_bytes(&self) -> ([u8; 8], usize) {
        (u64::from(*self).to_le_bytes(), 2)
    }
}

impl ToBytes for u32 {
    #[tactic(auto, using(crate::proofs::Encoded::encoded_u32))]
    fn to_le_bytes(&self) -> ([u8; 8], usize) {
        (u64::from(*self).to_le_bytes(), 4)
    }
}

impl ToBytes for u64 {
    #[tactic(auto, using(crate::proofs::Encoded::encoded_u64))]
    fn to_le_bytes(&self) -> ([u8; 8], usize) {
        ((*self).to_le_bytes(), 8)
    }
}

impl ToBytes for i8 {
    #[tactic(auto, using(crate::proofs::Encoded::encoded_i8))]
    fn to_le_bytes(&self) -> ([u8; 8], usize) {
        (u64::from(self.cast_unsigned()).to_le_bytes(), 1)
    }
}

impl ToBytes for i16 {
    #[tactic(auto, using(crate::proofs::Encoded::encoded_i16))]
    fn to_le_bytes(&self) -> ([u8; 8], usize) {
        (u64::from(self.cast_unsigned()).to_le_bytes(), 2)
    }
}

impl ToBytes for i32 {
    #[tactic(auto, using(crate::proofs::Encoded::encoded_i32))]
    fn to_le_bytes(&self) -> ([u8; 8], usize) {
        (u64::from(self.cast_unsigned()).to_le_bytes(), 4)
    }
}

impl ToBytes for i64 {
    #[tactic(auto, using(crate::proofs::Encoded::encoded_i64))]
    fn to_le_bytes(&self) -> ([u8; 8], usize) {
        (self.cast_unsigned().to_le_bytes(), 8)
    }
}

impl TryFromBytes for u8 {
    #[tactic(auto, using(crate::proofs::Encoded::read_u8))]
    fn try_from_le_bytes(bytes: &[u8]) -> Result<u8, DTypeError> {
        let Ok(bytes) = <[u8; 1]>::try_from(bytes) else {
            return Err(DTypeError::Length);
        };
        Ok(u8::from_le_bytes(bytes))
    }
}

impl TryFromBytes for u16 {
    #[tactic(auto, using(crate::proofs::Encoded::read_u16))]
    fn try_from_le_bytes(bytes: &[u8]) -> Result<u16, DTypeError> {
        let Ok(bytes) = <[u8; 2]>::try_from(bytes) else {
            return Err(DTypeError::Length);
        };
        Ok(u16::from_le_bytes(bytes))
    }
}

impl TryFromBytes for u32 {
    #[tactic(auto, using(crate::proofs::Encoded::read_u32))]
    fn try_from_le_bytes(bytes: &[u8]) -> Result<u32, DTypeError> {
        let Ok(bytes) = <[u8; 4]>::try_from(bytes) else {
            return Err(DTypeError::Length);
        };
        Ok(u32::from_le_bytes(bytes))
    }
}

impl TryFromBytes for u64 {
    #[tactic(auto, using(crate::proofs::Encoded::read_u64))]
    fn try_from_le_bytes(bytes: &[u8]) -> Result<u64, DTypeError> {
        let Ok(bytes) = <[u8; 8]>::try_from(bytes) else {
            return Err(DTypeError::Length);
        };
        Ok(u64::from_le_bytes(bytes))
    }
}

impl TryFromBytes for i8 {
    #[tactic(auto, using(crate::proofs::Encoded::read_i8))]
    fn try_from_le_bytes(bytes: &[u8]) -> Result<i8, DTypeError> {
        let Ok(bytes) = <[u8; 1]>::try_from(bytes) else {
            return Err(DTypeError::Length);
        };
        let number = u8::from_le_bytes(bytes);
        Ok(number.cast_signed())
    }
}

impl TryFromBytes for i16 {
    #[tactic(auto, using(crate::proofs::Encoded::read_i16))]
    fn try_from_le_bytes(bytes: &[u8]) -> Result<i16, DTypeError> {
        let Ok(bytes) = <[u8; 2]>::try_from(bytes) else {
            return Err(DTypeError::Length);
        };
        let number = u16::from_le_bytes(bytes);
        Ok(number.cast_signed())
    }
}

impl TryFromBytes for i32 {
    #[tactic(auto, using(crate::proofs::Encoded::read_i32))]
    fn try_from_le_bytes(bytes: &[u8]) -> Result<i32, DTypeError> {
        let Ok(bytes) = <[u8; 4]>::try_from(bytes) else {
            return Err(DTypeError::Length);
        };
        let number = u32::from_le_bytes(bytes);
        Ok(number.cast_signed())
    }
}

impl TryFromBytes for i64 {
    #[tactic(auto, using(crate::proofs::Encoded::read_i64))]
    fn try_from_le_bytes(bytes: &[u8]) -> Result<i64, DTypeError> {
        let Ok(bytes) = <[u8; 8]>::try_from(bytes) else {
            return Err(DTypeError::Length);
        };
        let number = u64::from_le_bytes(bytes);
        Ok(number.cast_signed())
    }
}
