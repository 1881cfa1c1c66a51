//! The integer types that store decimals.
ghost use Rattle.std.specs.Prelude.{◌≡◌, ◌*◌, ◌↔◌, IsTrue, IfOk, IfErr, false};
ghost use Rattle.vortex_dtype_ptype.specs.declared.error.DTypeError.TheVariants.{DecimalShape};
ghost use Rattle.vortex_dtype_ptype.specs.Numbers.{HasBitWidth, is_signed};
ghost use Rattle.vortex_dtype_ptype.specs.View.{number_kind_of};
ghost use Rattle.vortex_dtype_decimal.specs.DecimalValues.{HoldsDigits, IsSmallest, bits_of};

use vortex_dtype_ptype::decimal::DecimalDType;
use vortex_dtype_ptype::error::DTypeError;
use vortex_dtype_ptype::ptype::PType;

/// An integer type that stores decimals, as Vortex's `DecimalType`. `I256` is supported as a type
/// only: no call takes or returns a value of it.
#[derive(Clone, Copy, Debug, PartialEq, Eq)]
pub enum DecimalType {
    I8,
    I16,
    I32,
    I64,
    I128,
    I256,
}

impl DecimalType {
    /// The narrowest integer type that holds each decimal of `dtype`.
    #[tactic(auto, using(crate::proofs::Smallest::smallest))]
    pub fn smallest_decimal_value_type(dtype: &DecimalDType) -> DecimalType
        ensures { IsSmallest dtype.now.precision result }
    {
        match dtype.precision() {
            0..=2 => DecimalType::I8,
            3..=4 => DecimalType::I16,
            5..=9 => DecimalType::I32,
            10..=18 => DecimalType::I64,
            19..=38 => DecimalType::I128,
            _ => DecimalType::I256,
        }
    }

    /// The width in bytes.
    pub fn byte_width(self) -> usize
        ensures { 8 * result ≡ bits_of self }
    {
        match self {
            DecimalType::I8 => 1,
            DecimalType::I16 => 2,
            DecimalType::I32 => 4,
            DecimalType::I64 => 8,
            DecimalType::I128 => 16,
            DecimalType::I256 => 32,
        }
    }

    /// Whether the integer type holds each decimal of `dtype`.
    #[tactic(auto, using(crate::proofs::Smallest::compatible))]
    pub fn is_compatible_decimal_value_type(self, dtype: DecimalDType) -> bool
        ensures { IsTrue result ↔ HoldsDigits dtype.precision self }
    {
        DecimalType::smallest_decimal_value_type(&dtype).byte_width() <= self.byte_width()
    }
}

/// A signed integer type is the one of its width. `DTypeError::DecimalShape` for any other
/// primitive type.
impl TryFrom<PType> for DecimalType {
    type Error = DTypeError;

    ghost try_from_gives = { λ p result. IfOk result (λ t. IsTrue (is_signed (number_kind_of p))
        × HasBitWidth (number_kind_of p) (bits_of t))
        × IfErr result (λ e. (e ≡ DecimalShape) × (is_signed (number_kind_of p) ≡ false)) };

    fn try_from(ptype: PType) -> Result<DecimalType, DTypeError> {
        match ptype {
            PType::I8 => Ok(DecimalType::I8),
            PType::I16 => Ok(DecimalType::I16),
            PType::I32 => Ok(DecimalType::I32),
            PType::I64 => Ok(DecimalType::I64),
            PType::U8 | PType::U16 | PType::U32 | PType::U64 => Err(DTypeError::DecimalShape),
            PType::F16 | PType::F32 | PType::F64 => Err(DTypeError::DecimalShape),
        }
    }
}
