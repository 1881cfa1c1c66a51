//! Precisions of values without their type, given a type.
ghost use Rattle.std.specs.Prelude.{◌≡◌, ◌≢◌, is_ok, IfOk, IfErr, true, false};
ghost use Rattle.vortex_model.specs.Valid.{valid};
ghost use Rattle.vortex_dtype_core.specs.View.{type_of};
ghost use Rattle.vortex_scalar_value.specs.View.{raw_of};
ghost use Rattle.vortex_scalar_core.specs.Scalar.{scalar_type, scalar_raw};
ghost use Rattle.vortex_stats_expr.specs.declared.error.StatsError.TheVariants.{Memory, InvalidStat};
ghost use Rattle.vortex_stats_bound.specs.Precision.{precision_of, precision_map};
ghost use Rattle.vortex_stats_bound.specs.Typed.{is_precision_of, AreOfType};

use crate::precision::Precision;
use vortex_dtype_core::dtype::DType;
use vortex_scalar_core::scalar::Scalar;
use vortex_scalar_value::scalar_value::ScalarValue;
use vortex_stats_expr::error::StatsError;

fn typed(dtype: DType, value: ScalarValue) -> Result<Scalar, StatsError>
    ensures when { is_ok result ≡ valid (type_of dtype) (raw_of value) }
    ensures dtype { IfOk result (λ scalar. scalar_type scalar ≡ type_of dtype) }
    ensures value { IfOk result (λ scalar. scalar_raw scalar ≡ raw_of value) }
    ensures refused { IfErr result (λ e. e ≡ InvalidStat) }
{
    match Scalar::try_new(dtype, Some(value)) {
        Ok(scalar) => Ok(scalar),
        Err(_) => Err(StatsError::InvalidStat),
    }
}

// The value is copied only if the type has it.
fn typed_copy(dtype: DType, value: &ScalarValue) -> Result<Scalar, StatsError>
    ensures when { IfOk result (λ _. valid (type_of dtype) (raw_of value.now) ≡ true) }
    ensures dtype { IfOk result (λ scalar. scalar_type scalar ≡ type_of dtype) }
    ensures value { IfOk result (λ scalar. scalar_raw scalar ≡ raw_of value.now) }
    ensures refused { IfErr result (λ e. e ≢ Memory → (e ≡ InvalidStat)
        × (valid (type_of dtype) (raw_of value.now) ≡ false)) }
{
    if !Scalar::is_compatible(&dtype, Some(value)) {
        return Err(StatsError::InvalidStat);
    }
    let copy = value.clone()?;
    Ok(Scalar::new_unchecked(dtype, Some(copy)))
}

impl Precision<ScalarValue> {
    /// The value with this type, with the same precision. `InvalidStat` where the type does not
    /// have it, which is the only error.
    pub fn into_scalar(self, dtype: DType) -> Result<Precision<Scalar>, StatsError>
        ensures when { is_ok result ≡ is_precision_of (type_of dtype)
            (precision_map raw_of (precision_of self)) }
        ensures dtype { IfOk result (λ scalar. AreOfType (type_of dtype) (precision_of scalar)) }
        ensures value { IfOk result (λ scalar. precision_map scalar_raw (precision_of scalar)
            ≡ precision_map raw_of (precision_of self)) }
        ensures refused { IfErr result (λ e. e ≡ InvalidStat) }
    {
        match self {
            Precision::Exact(value) => Ok(Precision::Exact(typed(dtype, value)?)),
            Precision::Inexact(value) => Ok(Precision::Inexact(typed(dtype, value)?)),
            Precision::Absent => Ok(Precision::Absent),
        }
    }
}

impl Precision<&ScalarValue> {
    /// A copy of the value with this type, with the same precision. `InvalidStat` where the type
    /// does not have it, or `Memory`.
    pub fn into_scalar(self, dtype: DType) -> Result<Precision<Scalar>, StatsError>
        ensures when { IfOk result (λ _. is_precision_of (type_of dtype)
            (precision_map (λ v. raw_of v.now) (precision_of self.entry)) ≡ true) }
        ensures dtype { IfOk result (λ scalar. AreOfType (type_of dtype) (precision_of scalar)) }
        ensures value { IfOk result (λ scalar. precision_map scalar_raw (precision_of scalar)
            ≡ precision_map (λ v. raw_of v.now) (precision_of self.entry)) }
        ensures refused { IfErr result (λ e. e ≢ Memory → (e ≡ InvalidStat)
            × (is_precision_of (type_of dtype)
            (precision_map (λ v. raw_of v.now) (precision_of self.entry)) ≡ false)) }
    {
        match self {
            Precision::Exact(value) => Ok(Precision::Exact(typed_copy(dtype, value)?)),
            Precision::Inexact(value) => Ok(Precision::Inexact(typed_copy(dtype, value)?)),
            Precision::Absent => Ok(Precision::Absent),
        }
    }
}
