//! Views of integers.
ghost use Rattle.std.specs.Prelude.{◌≡◌, ◌≢◌, ◌||◌, pos, IsTrue, true, Some, None, is_some, IfSome, IfNone, IfOk, IfErr, option_map, option_and_then};
ghost use Rattle.std.specs.Ordering.{int_eq};
ghost use Rattle.vortex_model.specs.Content.{content_of, is_null};
ghost use Rattle.vortex_model.specs.LogicalType.{IntKind};
ghost use Rattle.vortex_model.specs.Valid.{valid, in_range};
ghost use Rattle.vortex_dtype_ptype.specs.Numbers.{integral};
ghost use Rattle.vortex_dtype_ptype.specs.View.{number_kind_of};
ghost use Rattle.vortex_dtype_core.specs.Parts.{is_primitive_type, numbers_in_type};
ghost use Rattle.vortex_dtype_core.specs.View.{type_of};
ghost use Rattle.vortex_scalar_value.specs.Numbers.{raw_of_number, kind_of_number, integer_of};
ghost use Rattle.vortex_scalar_value.specs.Parts.{as_number, has_whole, whole_number_in};
ghost use Rattle.vortex_scalar_value.specs.View.{raw_at};
ghost use Rattle.vortex_scalar_value.specs.declared.error.ScalarError.TheVariants.{Invalid};
ghost use Rattle.vortex_scalar_views.specs.declared.numeric_operator.NumericOperator.TheVariants.{Add, Sub, Div};
ghost use Rattle.vortex_scalar_views.specs.Numeric.{whole_by, number_within, raw_by, kind_by, HaveSameNumbers};
ghost use Rattle.vortex_scalar_views.specs.Forms.{raw_of_integer, GivesView};

use crate::numeric_operator::NumericOperator;
use std::alloc::AllocError;
use vortex_dtype_core::dtype::DType;
use vortex_dtype_native::native::NativePType;
use vortex_dtype_ptype::ptype::PType;
use vortex_scalar_core::scalar::Scalar;
use vortex_scalar_ops::validate::validate;
use vortex_scalar_value::error::ScalarError;
use vortex_scalar_value::pvalue::PValue;
use vortex_scalar_value::scalar_value::ScalarValue;

/// An integer or null with its type, as Vortex's `PrimitiveScalar`. Of a float type it is null.
#[derive(Drop)]
pub struct PrimitiveScalar<'a> {
    dtype: &'a DType,
    pvalue: Option<PValue>,
    ghost is_primitive: { IsTrue (is_primitive_type (type_of dtype.now)) },
    ghost is_valid: { IsTrue (valid (type_of dtype.now) (raw_of_integer pvalue)) },
}

impl<'a> PrimitiveScalar<'a> {
    ghost use Rattle.vortex_scalar_views.specs.Views.{typed_primitive, typed_scalar};

    /// The view, or `ScalarError::Invalid` where `dtype` isn't a primitive type, or doesn't have
    /// the value.
    pub fn try_new(
        dtype: &'a DType,
        value: Option<&ScalarValue>,
    ) -> Result<PrimitiveScalar<'a>, ScalarError>
        ensures { GivesView typed_primitive is_primitive_type (type_of dtype.now)
            (raw_at value.entry) result }
    {
        if !dtype.is_primitive() || !validate(dtype, value) {
            return Err(ScalarError::Invalid);
        }
        Ok(PrimitiveScalar::new(dtype, value))
    }

    /// The view of a value that the type has.
    #[tactic(auto, using(crate::proofs::Numbers::held))]
    pub(crate) fn new(dtype: &'a DType, value: Option<&ScalarValue>) -> PrimitiveScalar<'a>
        requires kind { IsTrue (is_primitive_type (type_of dtype.now)) }
        requires valid { IsTrue (valid (type_of dtype.now) (raw_at value)) }
        ensures { typed_primitive result ≡ (type_of dtype.now, raw_at value.entry) }
    {
        let pvalue = match value {
            Some(value) => value.as_primitive(),
            None => None,
        };
        PrimitiveScalar { dtype, pvalue }
    }

    pub fn dtype(&self) -> &'a DType
        ensures { type_of result.now ≡ (typed_primitive self.now).0 }
    {
        self.dtype
    }

    pub fn ptype(&self) -> PType
        ensures { Some (number_kind_of result) ≡ numbers_in_type (typed_primitive self.now).0 }
    {
        self.dtype.as_ptype()
    }

    /// The integer, and `None` for null.
    #[tactic(auto, using(crate::proofs::Numbers::held))]
    pub fn pvalue(&self) -> Option<PValue>
        ensures { option_map raw_of_number result ≡ as_number (typed_primitive self.now).1 }
    {
        self.pvalue
    }

    /// The integer, as `pvalue` returns it.
    #[tactic(auto, using(crate::proofs::Numbers::held))]
    pub fn value(&self) -> Option<PValue>
        ensures { option_map raw_of_number result ≡ as_number (typed_primitive self.now).1 }
    {
        self.pvalue
    }

    #[tactic(auto, using(crate::proofs::Numbers::held))]
    pub fn is_null(&self) -> bool
        ensures { result ≡ is_null (content_of (typed_primitive self.now).1) }
    {
        self.pvalue.is_none()
    }

    /// Whether the integer is zero, and `None` for null.
    #[tactic(auto, using(crate::proofs::Numbers::held))]
    pub fn is_zero(&self) -> Option<bool>
        ensures { result ≡ option_map (λ number. int_eq number (pos 0))
            (whole_number_in (typed_primitive self.now).1) }
    {
        match self.pvalue {
            Some(value) => Some(value.is_zero()),
            None => None,
        }
    }

    /// The integer as a `T`, which has the primitive type of `dtype`. `None` for null.
    #[tactic(auto, using(crate::proofs::Numbers::held))]
    pub fn typed_value<T: NativePType>(&self) -> Option<T>
        requires { numbers_in_type (typed_primitive self.now).0 ≡ Some (integral T.kind) }
        ensures { option_map T.integer result ≡ whole_number_in (typed_primitive self.now).1 }
    {
        match self.pvalue {
            Some(value) => match value.cast() {
                Ok(number) => Some(number),
                Err(_) => unreachable!(),
            },
            None => None,
        }
    }

    /// The integer as a `T`, and `None` for null. `ScalarError::Invalid` where `T` has another
    /// primitive type than `dtype`.
    pub fn try_typed_value<T: NativePType>(&self) -> Result<Option<T>, ScalarError>
        ensures same { IfOk result (λ number. numbers_in_type (typed_primitive self.now).0
            ≡ Some (integral T.kind)) }
        ensures number { IfOk result (λ number. option_map T.integer number
            ≡ whole_number_in (typed_primitive self.now).1) }
        ensures refused { IfErr result
            (λ e. (e ≡ Invalid)
            × (numbers_in_type (typed_primitive self.now).0 ≢ Some (integral T.kind))) }
    {
        if self.ptype() != T::ptype() {
            return Err(ScalarError::Invalid);
        }
        Ok(self.typed_value())
    }

    /// The integer as a `T`, and `None` where it is out of range. Null is `Some(None)`.
    #[tactic(auto, using(crate::proofs::Numbers::held))]
    pub fn as_opt<T: NativePType>(&self) -> Option<Option<T>>
        ensures when { is_some result
            ≡ (is_null (content_of (typed_primitive self.now).1)
            || has_whole T.kind (typed_primitive self.now).1) }
        ensures number { IfSome result (λ number. option_map T.integer number
            ≡ whole_number_in (typed_primitive self.now).1) }
    {
        match self.pvalue {
            Some(value) => match value.cast() {
                Ok(number) => Some(Some(number)),
                Err(_) => None,
            },
            None => Some(None),
        }
    }

    /// The integer as a `T`, which is in range. `None` for null.
    pub fn as_<T: NativePType>(&self) -> Option<T>
        requires { IsTrue (is_null (content_of (typed_primitive self.now).1)
            || has_whole T.kind (typed_primitive self.now).1) }
        ensures { option_map T.integer result ≡ whole_number_in (typed_primitive self.now).1 }
    {
        self.as_opt().unwrap()
    }

    /// The scalar, with a clone of the type.
    #[tactic(auto, using(crate::proofs::Numbers::held))]
    pub fn into_scalar(self) -> Result<Scalar, AllocError>
        ensures { IfOk result (λ scalar. typed_scalar scalar ≡ typed_primitive self.entry) }
    {
        let dtype = self.dtype.clone()?;
        let value = match self.pvalue {
            Some(value) => Some(ScalarValue::Primitive(value)),
            None => None,
        };
        Ok(Scalar::new_unchecked(dtype, value))
    }

    /// The operator's result for integers of one primitive type. `None` where the type doesn't hold
    /// it, or the divisor is zero. Null where a side is null, of a nullable type where a side's is.
    #[tactic(auto, using(crate::proofs::Numbers::combined))]
    pub fn checked_binary_numeric(
        self,
        other: &PrimitiveScalar<'a>,
        operator: NumericOperator,
    ) -> Option<PrimitiveScalar<'a>>
        requires { HaveSameNumbers (typed_primitive self).0 (typed_primitive other.now).0 }
        ensures value { option_map (λ made. (typed_primitive made).1) result
            ≡ raw_by operator (typed_primitive self.entry).1 (typed_primitive other.now).1 }
        ensures dtype { IfSome result (λ made. (typed_primitive made).0
            ≡ kind_by (typed_primitive self.entry).0 (typed_primitive other.now).0) }
    {
        let dtype = either_nullable(self.dtype, other.dtype);
        match (self.pvalue, other.pvalue) {
            (Some(first), Some(second)) => {
                let made = combine(operator, first, second)?;
                Some(PrimitiveScalar {
                    dtype,
                    pvalue: Some(made),
                })
            }
            (Some(_), None) | (None, Some(_)) | (None, None) => Some(PrimitiveScalar {
                dtype,
                pvalue: None,
            }),
        }
    }

    /// The sum of integers of one primitive type. `None` where the type doesn't hold it. Null where
    /// a side is null, of a nullable type where a side's is.
    pub fn checked_add(self, other: &PrimitiveScalar<'a>) -> Option<PrimitiveScalar<'a>>
        requires { HaveSameNumbers (typed_primitive self).0 (typed_primitive other.now).0 }
        ensures value { option_map (λ made. (typed_primitive made).1) result
            ≡ raw_by Add (typed_primitive self.entry).1 (typed_primitive other.now).1 }
        ensures dtype { IfSome result (λ made. (typed_primitive made).0
            ≡ kind_by (typed_primitive self.entry).0 (typed_primitive other.now).0) }
    {
        self.checked_binary_numeric(other, NumericOperator::Add)
    }

    /// The difference of integers of one primitive type. `None` where the type doesn't hold it.
    /// Null where a side is null, of a nullable type where a side's is.
    pub fn checked_sub(self, other: &PrimitiveScalar<'a>) -> Option<PrimitiveScalar<'a>>
        requires { HaveSameNumbers (typed_primitive self).0 (typed_primitive other.now).0 }
        ensures value { option_map (λ made. (typed_primitive made).1) result
            ≡ raw_by Sub (typed_primitive self.entry).1 (typed_primitive other.now).1 }
        ensures dtype { IfSome result (λ made. (typed_primitive made).0
            ≡ kind_by (typed_primitive self.entry).0 (typed_primitive other.now).0) }
    {
        self.checked_binary_numeric(other, NumericOperator::Sub)
    }
}

// The nullable one of two types of one primitive type, if one is.
#[tactic(auto, using(crate::proofs::Numbers::typed))]
fn either_nullable<'a>(first: &'a DType, second: &'a DType) -> &'a DType
    requires numbers { IsTrue (is_primitive_type (type_of first.now)) }
    requires same { HaveSameNumbers (type_of first.now) (type_of second.now) }
    ensures { type_of result.now ≡ kind_by (type_of first.now) (type_of second.now) }
{
    if first.is_nullable() { first } else { second }
}

// The operator's result as an integer of the type of `first`.
fn combine(operator: NumericOperator, first: PValue, second: PValue) -> Option<PValue>
    ensures made { option_map raw_of_number result ≡ raw_by operator (raw_of_number first)
        (raw_of_number second) }
    ensures kind { IfSome result (λ made. kind_of_number made ≡ kind_of_number first) }
    ensures fits { IfSome result (λ made. in_range (kind_of_number made) (integer_of made) ≡ true) }
{
    let number = integral(operator, first.get(), second.get())?;
    PValue::of(first.ptype(), number)
}

// The operator's result, and `None` only where no integer type holds it.
fn integral(operator: NumericOperator, first: i128, second: i128) -> Option<i128>
    ensures made { IfSome result (λ z. whole_by operator first second ≡ Some z) }
    ensures none { IfNone result ((i : IntKind) → option_and_then (λ z. number_within i z)
        (whole_by operator first second) ≡ None) }
{
    match operator {
        NumericOperator::Add => first.checked_add(second),
        NumericOperator::Sub => first.checked_sub(second),
        NumericOperator::Mul => first.checked_mul(second),
        NumericOperator::Div => quotient(first, second),
    }
}

fn quotient(first: i128, second: i128) -> Option<i128>
    ensures made { IfSome result (λ z. whole_by Div first second ≡ Some z) }
    ensures none { IfNone result ((i : IntKind) → option_and_then (λ z. number_within i z)
        (whole_by Div first second) ≡ None) }
{
    if second == 0 {
        return None;
    }
    first.checked_div(second)
}
