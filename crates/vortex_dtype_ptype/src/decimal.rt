//! Decimal types: a precision, which is the number of digits, and a scale, the number of digits
//! after the decimal point. With a negative scale, decimals are multiples of a power of ten.
ghost use Rattle.std.specs.Prelude.{◌≡◌, IfOk, OnOk, IfErr, IsTrue, false, pos};
ghost use Rattle.vortex_dtype_ptype.specs.declared.error.DTypeError.TheVariants.{DecimalShape};
ghost use Rattle.vortex_dtype_ptype.specs.Numbers.{IsBitsOfDigits, is_decimal_shape};

use crate::error::DTypeError;

/// The greatest precision.
pub const MAX_PRECISION: u8 = 76;

/// The greatest scale; the least is its negative.
pub const MAX_SCALE: i8 = 76;

/// A decimal type, as Vortex's `DecimalDType`. Decimal values are not supported, only their type.
#[derive(Clone, Copy, Debug)]
pub struct DecimalDType {
    precision: u8,
    scale: i8,
    pub ghost formed: { IsTrue (is_decimal_shape precision scale) },
}

impl DecimalDType {
    /// A decimal type, or `DTypeError::DecimalShape` where the precision isn't from 1 to 76, or the
    /// scale isn't from -76 to 76.
    pub fn try_new(precision: u8, scale: i8) -> Result<DecimalDType, DTypeError>
        ensures made { IfOk result (λ d. (d.precision ≡ precision) × (d.scale ≡ scale)) }
        ensures accepted { OnOk result (IsTrue (is_decimal_shape precision scale)) }
        ensures refused { IfErr result (λ e. (e ≡ DecimalShape)
            × (is_decimal_shape precision scale ≡ false)) }
        ensures limits { (MAX_PRECISION ≡ 76) × (MAX_SCALE ≡ pos 76) }
    {
        if precision < 1 || precision > MAX_PRECISION {
            return Err(DTypeError::DecimalShape);
        }
        if scale < -MAX_SCALE || scale > MAX_SCALE {
            return Err(DTypeError::DecimalShape);
        }
        Ok(DecimalDType { precision, scale })
    }

    /// A decimal type, by a precision and a scale in range.
    pub fn new(precision: u8, scale: i8) -> DecimalDType
        requires { IsTrue (is_decimal_shape precision scale) }
        ensures made { (result.precision ≡ precision) × (result.scale ≡ scale) }
    {
        DecimalDType { precision, scale }
    }

    /// The number of digits, from 1 to 76.
    pub fn precision(&self) -> u8
        ensures { result ≡ self.now.precision }
    {
        self.precision
    }

    /// The number of digits after the decimal point.
    pub fn scale(&self) -> i8
        ensures { result ≡ self.now.scale }
    {
        self.scale
    }

    /// The bits that hold the greatest decimal of this precision, without its sign.
    #[tactic(auto, using(crate::proofs::Digits::bits_of_digits))]
    pub fn required_bit_width(&self) -> usize
        ensures { IsBitsOfDigits self.now.precision result }
    {
        // A digit takes log2(10) bits, which is slightly more than 485/146. Up to 76 digits no
        // integer is between the digits times either, so rounding up gives the exact width.
        (usize::from(self.precision) * 485).div_ceil(146)
    }
}
