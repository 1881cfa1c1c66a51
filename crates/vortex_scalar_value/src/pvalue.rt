//! Integers of the eight types.
ghost use Rattle.std.specs.Prelude.{◌≡◌, ◌↔◌, pos, true, is_some, IfSome, IsTrue};
ghost use Rattle.std.specs.Ordering.{int_cmp};
ghost use Rattle.vortex_model.specs.Valid.{in_range};
ghost use Rattle.vortex_dtype_ptype.specs.Numbers.{integral, is_integral};
ghost use Rattle.vortex_dtype_ptype.specs.View.{number_kind_of};
ghost use Rattle.vortex_scalar_value.specs.Numbers.{kind_of_number, integer_of, holds_number, is_number_of, is_kind, IsLeastOf, IsGreatestOf};

use std::cmp::Ordering;
use vortex_dtype_ptype::ptype::PType;

/// An integer with its type, as Vortex's `PValue`. Two are equal where their numeric values are,
/// whatever their types.
#[derive(Clone, Copy, Debug)]
pub enum PValue {
    U8(u8),
    U16(u16),
    U32(u32),
    U64(u64),
    I8(i8),
    I16(i16),
    I32(i32),
    I64(i64),
}

impl PValue {
    pub fn ptype(self) -> PType
        ensures { number_kind_of result ≡ integral (kind_of_number self) }
    {
        match self {
            PValue::U8(_) => PType::U8,
            PValue::U16(_) => PType::U16,
            PValue::U32(_) => PType::U32,
            PValue::U64(_) => PType::U64,
            PValue::I8(_) => PType::I8,
            PValue::I16(_) => PType::I16,
            PValue::I32(_) => PType::I32,
            PValue::I64(_) => PType::I64,
        }
    }

    /// The numeric value.
    pub fn get(self) -> i128
        ensures number { result ≡ integer_of self }
        ensures in_range { in_range (kind_of_number self) (integer_of self) ≡ true }
    {
        match self {
            PValue::U8(number) => i128::from(number),
            PValue::U16(number) => i128::from(number),
            PValue::U32(number) => i128::from(number),
            PValue::U64(number) => i128::from(number),
            PValue::I8(number) => i128::from(number),
            PValue::I16(number) => i128::from(number),
            PValue::I32(number) => i128::from(number),
            PValue::I64(number) => i128::from(number),
        }
    }

    /// The integer as one of `ptype`, and `None` where it is out of range, or `ptype` is a float
    /// type.
    pub fn of(ptype: PType, number: i128) -> Option<PValue>
        ensures when { is_some result ≡ holds_number (number_kind_of ptype) number }
        ensures kind { IfSome result (λ value. integral (kind_of_number value)
            ≡ number_kind_of ptype) }
        ensures number { IfSome result (λ value. integer_of value ≡ number) }
    {
        match ptype {
            PType::U8 => match u8::try_from(number) {
                Ok(number) => Some(PValue::U8(number)),
                Err(_) => None,
            },
            PType::U16 => match u16::try_from(number) {
                Ok(number) => Some(PValue::U16(number)),
                Err(_) => None,
            },
            PType::U32 => match u32::try_from(number) {
                Ok(number) => Some(PValue::U32(number)),
                Err(_) => None,
            },
            PType::U64 => match u64::try_from(number) {
                Ok(number) => Some(PValue::U64(number)),
                Err(_) => None,
            },
            PType::I8 => match i8::try_from(number) {
                Ok(number) => Some(PValue::I8(number)),
                Err(_) => None,
            },
            PType::I16 => match i16::try_from(number) {
                Ok(number) => Some(PValue::I16(number)),
                Err(_) => None,
            },
            PType::I32 => match i32::try_from(number) {
                Ok(number) => Some(PValue::I32(number)),
                Err(_) => None,
            },
            PType::I64 => match i64::try_from(number) {
                Ok(number) => Some(PValue::I64(number)),
                Err(_) => None,
            },
            PType::F16 | PType::F32 | PType::F64 => None,
        }
    }

    /// The integer as one of `ptype`, and `None` where it is out of range, or `ptype` is a float
    /// type.
    pub fn cast_to(self, ptype: PType) -> Option<PValue>
        ensures when { is_some result ≡ holds_number (number_kind_of ptype) (integer_of self) }
        ensures kind { IfSome result (λ value. integral (kind_of_number value)
            ≡ number_kind_of ptype) }
        ensures number { IfSome result (λ value. integer_of value ≡ integer_of self) }
    {
        PValue::of(ptype, self.get())
    }

    /// The least integer of an integer type.
    pub fn min_value(ptype: PType) -> PValue
        requires { IsTrue (is_integral (number_kind_of ptype)) }
        ensures kind { integral (kind_of_number result) ≡ number_kind_of ptype }
        ensures least { IsLeastOf (number_kind_of ptype) (integer_of result) }
    {
        match ptype {
            PType::U8 => PValue::U8(u8::MIN),
            PType::U16 => PValue::U16(u16::MIN),
            PType::U32 => PValue::U32(u32::MIN),
            PType::U64 => PValue::U64(u64::MIN),
            PType::I8 => PValue::I8(i8::MIN),
            PType::I16 => PValue::I16(i16::MIN),
            PType::I32 => PValue::I32(i32::MIN),
            PType::I64 => PValue::I64(i64::MIN),
            PType::F16 | PType::F32 | PType::F64 => unreachable!(),
        }
    }

    /// The greatest integer of an integer type.
    pub fn max_value(ptype: PType) -> PValue
        requires { IsTrue (is_integral (number_kind_of ptype)) }
        ensures kind { integral (kind_of_number result) ≡ number_kind_of ptype }
        ensures greatest { IsGreatestOf (number_kind_of ptype) (integer_of result) }
    {
        match ptype {
            PType::U8 => PValue::U8(u8::MAX),
            PType::U16 => PValue::U16(u16::MAX),
            PType::U32 => PValue::U32(u32::MAX),
            PType::U64 => PValue::U64(u64::MAX),
            PType::I8 => PValue::I8(i8::MAX),
            PType::I16 => PValue::I16(i16::MAX),
            PType::I32 => PValue::I32(i32::MAX),
            PType::I64 => PValue::I64(i64::MAX),
            PType::F16 | PType::F32 | PType::F64 => unreachable!(),
        }
    }

    /// Zero of an integer type.
    pub fn zero(ptype: PType) -> PValue
        requires { IsTrue (is_integral (number_kind_of ptype)) }
        ensures kind { integral (kind_of_number result) ≡ number_kind_of ptype }
        ensures number { integer_of result ≡ pos 0 }
    {
        match ptype {
            PType::U8 => PValue::U8(0),
            PType::U16 => PValue::U16(0),
            PType::U32 => PValue::U32(0),
            PType::U64 => PValue::U64(0),
            PType::I8 => PValue::I8(0),
            PType::I16 => PValue::I16(0),
            PType::I32 => PValue::I32(0),
            PType::I64 => PValue::I64(0),
            PType::F16 | PType::F32 | PType::F64 => unreachable!(),
        }
    }

    pub fn is_zero(self) -> bool
        ensures { IsTrue result ↔ (integer_of self ≡ pos 0) }
    {
        self.get() == 0
    }

    /// Whether the integer's type is `ptype`.
    pub fn is_instance_of(self, ptype: &PType) -> bool
        ensures { result ≡ is_kind (number_kind_of ptype.now) (kind_of_number self) }
    {
        self.ptype() == *ptype
    }

    /// Whether the integer's type is `ptype`, which then holds it.
    pub fn is_of(self, ptype: PType) -> bool
        ensures { result ≡ is_number_of (number_kind_of ptype) (kind_of_number self)
            (integer_of self) }
    {
        // Proves that the number is in the range of its type.
        let _ = self.get();
        self.ptype() == ptype
    }

    /// The order of the numeric values, whatever the types.
    pub fn compare(self, other: PValue) -> Ordering
        ensures { result ≡ int_cmp (integer_of self) (integer_of other) }
    {
        self.get().cmp(&other.get())
    }
}
