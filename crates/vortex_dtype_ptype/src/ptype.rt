//! Primitive types: integers and floats by width.
ghost use Rattle.std.specs.Prelude.{◌≡◌, Some, IsTrue, true, false, pos};
ghost use Rattle.vortex_dtype_ptype.specs.View.{number_kind_of, name_of_ptype};
ghost use Rattle.vortex_dtype_ptype.specs.Numbers.{HasByteWidth, HasBitWidth, HasSign, IsGreatest, IsNarrowest, IsWiderOf, is_unsigned, is_signed, is_integral, is_real};

use std::fmt;

/// A primitive type, as Vortex's `PType`. Float types are supported as types only: no call takes or
/// returns a float.
#[derive(Clone, Copy, Debug, PartialEq, Eq)]
pub enum PType {
    U8,
    U16,
    U32,
    U64,
    I8,
    I16,
    I32,
    I64,
    F16,
    F32,
    F64,
}

impl PType {
    pub fn is_unsigned_int(self) -> bool
        ensures { result ≡ is_unsigned (number_kind_of self) }
    {
        match self {
            PType::U8 | PType::U16 | PType::U32 | PType::U64 => true,
            PType::I8 | PType::I16 | PType::I32 | PType::I64 => false,
            PType::F16 | PType::F32 | PType::F64 => false,
        }
    }

    pub fn is_signed_int(self) -> bool
        ensures { result ≡ is_signed (number_kind_of self) }
    {
        match self {
            PType::U8 | PType::U16 | PType::U32 | PType::U64 => false,
            PType::I8 | PType::I16 | PType::I32 | PType::I64 => true,
            PType::F16 | PType::F32 | PType::F64 => false,
        }
    }

    pub fn is_int(self) -> bool
        ensures { result ≡ is_integral (number_kind_of self) }
    {
        !self.is_float()
    }

    pub fn is_float(self) -> bool
        ensures { result ≡ is_real (number_kind_of self) }
    {
        match self {
            PType::U8 | PType::U16 | PType::U32 | PType::U64 => false,
            PType::I8 | PType::I16 | PType::I32 | PType::I64 => false,
            PType::F16 | PType::F32 | PType::F64 => true,
        }
    }

    /// The width in bytes.
    pub fn byte_width(self) -> usize
        ensures { HasByteWidth (number_kind_of self) result }
    {
        match self {
            PType::U8 | PType::I8 => 1,
            PType::U16 | PType::I16 | PType::F16 => 2,
            PType::U32 | PType::I32 | PType::F32 => 4,
            PType::U64 | PType::I64 | PType::F64 => 8,
        }
    }

    /// The width in bits.
    pub fn bit_width(self) -> usize
        ensures { HasBitWidth (number_kind_of self) result }
    {
        match self {
            PType::U8 | PType::I8 => 8,
            PType::U16 | PType::I16 | PType::F16 => 16,
            PType::U32 | PType::I32 | PType::F32 => 32,
            PType::U64 | PType::I64 | PType::F64 => 64,
        }
    }

    /// The greatest integer of the type.
    pub fn max_value_as_u64(self) -> u64
        requires { IsTrue (is_integral (number_kind_of self)) }
        ensures { IsGreatest (number_kind_of self) result }
    {
        match self {
            PType::U8 => u64::from(u8::MAX),
            PType::U16 => u64::from(u16::MAX),
            PType::U32 => u64::from(u32::MAX),
            PType::U64 => u64::MAX,
            PType::I8 => 0x7f,
            PType::I16 => 0x7fff,
            PType::I32 => 0x7fff_ffff,
            PType::I64 => 0x7fff_ffff_ffff_ffff,
            PType::F16 | PType::F32 | PType::F64 => unreachable!(),
        }
    }

    /// The signed integer type of the same width. A float type stays the same.
    pub fn to_signed(self) -> PType
        ensures { HasSign false (number_kind_of self) (number_kind_of result) }
    {
        match self {
            PType::U8 => PType::I8,
            PType::U16 => PType::I16,
            PType::U32 => PType::I32,
            PType::U64 => PType::I64,
            other => other,
        }
    }

    /// The unsigned integer type of the same width. A float type stays the same.
    pub fn to_unsigned(self) -> PType
        ensures { HasSign true (number_kind_of self) (number_kind_of result) }
    {
        match self {
            PType::I8 => PType::U8,
            PType::I16 => PType::U16,
            PType::I32 => PType::U32,
            PType::I64 => PType::U64,
            other => other,
        }
    }

    /// The narrowest unsigned integer type that holds the value.
    #[tactic(auto, using(crate::proofs::Widths::narrow_unsigned))]
    pub fn min_unsigned_ptype_for_value(value: u64) -> PType
        ensures { IsNarrowest true (pos value) (number_kind_of result) }
    {
        if value <= u64::from(u8::MAX) {
            PType::U8
        } else if value <= u64::from(u16::MAX) {
            PType::U16
        } else if value <= u64::from(u32::MAX) {
            PType::U32
        } else {
            PType::U64
        }
    }

    /// The narrowest signed integer type that holds the value.
    #[tactic(auto, using(crate::proofs::Widths::narrow_signed))]
    pub fn min_signed_ptype_for_value(value: i64) -> PType
        ensures { IsNarrowest false value (number_kind_of result) }
    {
        if i64::from(i8::MIN) <= value && value <= i64::from(i8::MAX) {
            PType::I8
        } else if i64::from(i16::MIN) <= value && value <= i64::from(i16::MAX) {
            PType::I16
        } else if i64::from(i32::MIN) <= value && value <= i64::from(i32::MAX) {
            PType::I32
        } else {
            PType::I64
        }
    }

    /// The unsigned integer type as wide as the wider of two integer types.
    #[tactic(auto, using(crate::proofs::Widths::wider))]
    pub fn max_unsigned_ptype(self, other: PType) -> PType
        requires self_whole { IsTrue (is_integral (number_kind_of self)) }
        requires other_whole { IsTrue (is_integral (number_kind_of other)) }
        ensures { IsWiderOf true (number_kind_of self) (number_kind_of other)
            (number_kind_of result) }
    {
        if other.byte_width() <= self.byte_width() {
            self.to_unsigned()
        } else {
            other.to_unsigned()
        }
    }

    /// The signed integer type as wide as the wider of two integer types.
    #[tactic(auto, using(crate::proofs::Widths::wider))]
    pub fn max_signed_ptype(self, other: PType) -> PType
        requires self_whole { IsTrue (is_integral (number_kind_of self)) }
        requires other_whole { IsTrue (is_integral (number_kind_of other)) }
        ensures { IsWiderOf false (number_kind_of self) (number_kind_of other)
            (number_kind_of result) }
    {
        if other.byte_width() <= self.byte_width() {
            self.to_signed()
        } else {
            other.to_signed()
        }
    }

    /// The lowercase name, as `"u8"`.
    pub fn as_str(self) -> &'static str
        ensures { result.now ≡ name_of_ptype self }
    {
        match self {
            PType::U8 => "u8",
            PType::U16 => "u16",
            PType::U32 => "u32",
            PType::U64 => "u64",
            PType::I8 => "i8",
            PType::I16 => "i16",
            PType::I32 => "i32",
            PType::I64 => "i64",
            PType::F16 => "f16",
            PType::F32 => "f32",
            PType::F64 => "f64",
        }
    }
}

/// The lowercase name.
impl fmt::Display for PType {
    ghost output = { λ p. Some (name_of_ptype p) };

    fn fmt<W: fmt::Write>(&self, f: &mut fmt::Formatter<W>) -> fmt::Result {
        f.write_str(self.as_str())
    }
}
