//! Integers reinterpreted as those of another type.
ghost use Rattle.std.specs.Prelude.{◌≡◌, true, is_ok, IfOk, IfErr, IsTrue};
ghost use Rattle.vortex_model.specs.LogicalType.{nullability_of};
ghost use Rattle.vortex_model.specs.Valid.{valid};
ghost use Rattle.vortex_dtype_ptype.specs.Numbers.{type_of_numbers};
ghost use Rattle.vortex_dtype_ptype.specs.View.{number_kind_of};
ghost use Rattle.vortex_dtype_core.specs.View.{type_of};
ghost use Rattle.vortex_scalar_value.specs.View.{raw_in, raw_at};
ghost use Rattle.vortex_scalar_value.specs.declared.error.ScalarError.TheVariants.{Invalid};
ghost use Rattle.vortex_scalar_core.specs.Reinterpreted.{are_as_wide, is_as_wide, HaveTheSameBytes};

use crate::scalar::Scalar;
use vortex_dtype_core::dtype::DType;
use vortex_dtype_ptype::ptype::PType;
use vortex_scalar_value::error::ScalarError;
use vortex_scalar_value::scalar_value::ScalarValue;

impl Scalar {
    ghost use Rattle.vortex_scalar_core.specs.Scalar.{scalar_type, scalar_raw};

    /// The integer of `ptype` with the same bytes, and null for null. Negative integers are in
    /// two's complement. `ScalarError::Invalid` unless both are integer types of one width.
    #[tactic(auto, using(crate::proofs::Reinterpreted::types))]
    pub fn primitive_reinterpret_cast(self, ptype: PType) -> Result<Scalar, ScalarError>
        ensures when { is_ok result ≡ is_as_wide (scalar_type self) (number_kind_of ptype) }
        ensures dtype { IfOk result (λ new. scalar_type new ≡ type_of_numbers (number_kind_of ptype)
            (nullability_of (scalar_type self))) }
        ensures value { IfOk result (λ new. HaveTheSameBytes (scalar_raw self) (scalar_raw new)) }
        ensures refused { IfErr result (λ e. e ≡ Invalid) }
    {
        if !is_as_wide(self.dtype(), ptype) {
            return Err(ScalarError::Invalid);
        }
        let dtype = DType::Primitive(ptype, self.dtype().nullability());
        let value = reinterpret_value(self.dtype(), self.value(), ptype);
        Ok(Scalar::new_unchecked(dtype, value))
    }
}

// Whether the type is an integer type of the width of `ptype`.
fn is_as_wide(dtype: &DType, ptype: PType) -> bool
    ensures { result ≡ is_as_wide (type_of dtype.now) (number_kind_of ptype) }
{
    match dtype.as_ptype_opt() {
        Some(own) => are_as_wide(own, ptype),
        None => false,
    }
}

// Whether both are integer types of one width.
fn are_as_wide(left: PType, right: PType) -> bool
    ensures { result ≡ are_as_wide (number_kind_of left) (number_kind_of right) }
{
    match left {
        PType::U8 | PType::I8 => matches!(right, PType::U8 | PType::I8),
        PType::U16 | PType::I16 => matches!(right, PType::U16 | PType::I16),
        PType::U32 | PType::I32 => matches!(right, PType::U32 | PType::I32),
        PType::U64 | PType::I64 => matches!(right, PType::U64 | PType::I64),
        PType::F16 | PType::F32 | PType::F64 => false,
    }
}

// The value as one of `ptype`, which has the same width.
#[tactic(auto, using(crate::proofs::Reinterpreted::values))]
fn reinterpret_value(
    dtype: &DType,
    value: Option<&ScalarValue>,
    ptype: PType,
) -> Option<ScalarValue>
    requires width { IsTrue (is_as_wide (type_of dtype.now) (number_kind_of ptype)) }
    requires valid { IsTrue (valid (type_of dtype.now) (raw_at value)) }
    ensures bytes { HaveTheSameBytes (raw_at value.entry) (raw_in result) }
    ensures valid { valid
        (type_of_numbers (number_kind_of ptype) (nullability_of (type_of dtype.now)))
        (raw_in result) ≡ true }
{
    match value {
        Some(value) => match value.as_primitive() {
            Some(number) => {
                let number = number.reinterpret_cast(ptype);
                // Proves that the integer is in the range of its type.
                let _ = number.get();
                Some(ScalarValue::Primitive(number))
            }
            None => unreachable!(),
        },
        None => None,
    }
}
