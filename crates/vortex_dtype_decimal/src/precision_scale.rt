//! Precisions and scales of decimals that a native integer stores.
ghost use Rattle.std.specs.Prelude.{⊤, ◌≡◌, ◌<◌, ◌^◌, ◌↔◌, IsTrue, IfOk, OnOk, IfErr, false, unsigned_abs};
ghost use Rattle.vortex_dtype_ptype.specs.declared.error.DTypeError.TheVariants.{DecimalShape};
ghost use Rattle.vortex_dtype_decimal.specs.DecimalValues.{is_held_shape};

use crate::native::NativeDecimalType;
use std::alloc::AllocError;
use std::marker::PhantomData;
use vortex_dtype_ptype::decimal::DecimalDType;
use vortex_dtype_ptype::error::DTypeError;

/// A precision and a scale, as Vortex's `PrecisionScale`: `D` holds each number of `precision`
/// digits.
pub struct PrecisionScale<D: NativeDecimalType> {
    precision: u8,
    scale: i8,
    values: PhantomData<D>,
    pub ghost formed: { IsTrue (is_held_shape D.stored precision scale) },
}

impl<D: NativeDecimalType> Clone for PrecisionScale<D> {
    ghost is_clone = { λ old new. new ≡ old };

    ghost is_infallible = { λ _. ⊤ };

    fn clone(&self) -> Result<PrecisionScale<D>, AllocError> {
        Ok(*self)
    }
}

impl<D: NativeDecimalType> Copy for PrecisionScale<D> {}

impl<D: NativeDecimalType> PrecisionScale<D> {
    /// A precision and a scale, or `DTypeError::DecimalShape` where no decimal type has them, or
    /// where `D` doesn't hold each number of `precision` digits.
    pub fn try_new(precision: u8, scale: i8) -> Result<PrecisionScale<D>, DTypeError>
        ensures made { IfOk result (λ p. (p.precision ≡ precision) × (p.scale ≡ scale)) }
        ensures accepted { OnOk result (IsTrue (is_held_shape D.stored precision scale)) }
        ensures refused { IfErr result (λ e. (e ≡ DecimalShape)
            × (is_held_shape D.stored precision scale ≡ false)) }
    {
        let dtype = DecimalDType::try_new(precision, scale)?;
        if !D::decimal_type().is_compatible_decimal_value_type(dtype) {
            return Err(DTypeError::DecimalShape);
        }
        Ok(PrecisionScale {
            precision,
            scale,
            values: PhantomData,
        })
    }

    /// A precision and a scale that fit `D`.
    pub fn new(precision: u8, scale: i8) -> PrecisionScale<D>
        requires { IsTrue (is_held_shape D.stored precision scale) }
        ensures made { (result.precision ≡ precision) × (result.scale ≡ scale) }
    {
        PrecisionScale {
            precision,
            scale,
            values: PhantomData,
        }
    }

    /// `new` by its second name: the caller proves that they fit, and nothing is tested when it
    /// runs.
    pub fn new_unchecked(precision: u8, scale: i8) -> PrecisionScale<D>
        requires { IsTrue (is_held_shape D.stored precision scale) }
        ensures made { (result.precision ≡ precision) × (result.scale ≡ scale) }
    {
        PrecisionScale::new(precision, scale)
    }

    /// The number of digits.
    pub fn precision(&self) -> u8
        ensures { result ≡ self.now.precision }
    {
        self.precision
    }

    /// The number of digits after the decimal point.
    pub fn scale(&self) -> i8
        ensures { result ≡ self.now.scale }
    {
        self.scale
    }

    /// Whether the unscaled integer has at most `precision` digits.
    #[tactic(auto, using(crate::proofs::Held::powers_fit))]
    pub fn is_valid(&self, value: D) -> bool
        ensures { IsTrue result ↔ (unsigned_abs (D.integer value) < 10 ^ self.now.precision) }
    {
        value.to_i128().unsigned_abs() < 10u128.pow(u32::from(self.precision))
    }
}

/// The decimal type, whatever stores its values.
impl<D: NativeDecimalType> From<PrecisionScale<D>> for DecimalDType {
    ghost from_gives = { λ p d. (d.precision ≡ p.precision) × (d.scale ≡ p.scale) };

    #[tactic(auto, using(crate::proofs::Held::shapes_held))]
    fn from(shape: PrecisionScale<D>) -> DecimalDType {
        DecimalDType::new(shape.precision, shape.scale)
    }
}

/// The precision and scale, or `DTypeError::DecimalShape` where `D` doesn't hold each decimal of
/// the type.
impl<D: NativeDecimalType> TryFrom<&DecimalDType> for PrecisionScale<D> {
    type Error = DTypeError;

    ghost try_from_gives = { λ d result.
        IfOk result (λ p. (p.precision ≡ d.now.precision) × (p.scale ≡ d.now.scale))
        × IfErr result (λ e. (e ≡ DecimalShape)
        × (is_held_shape D.stored d.now.precision d.now.scale ≡ false)) };

    fn try_from(dtype: &DecimalDType) -> Result<PrecisionScale<D>, DTypeError> {
        PrecisionScale::try_new(dtype.precision(), dtype.scale())
    }
}
