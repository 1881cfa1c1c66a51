//! Values with their types read as native ones, as precise.
ghost use Rattle.std.specs.Prelude.{◌≡◌, ◌≢◌, true, false, IfOk, IfErr};
ghost use Rattle.vortex_scalar_core.specs.declared.scalar.Scalar.{Scalar};
ghost use Rattle.vortex_scalar_core.specs.Scalar.{scalar_type, scalar_content};
ghost use Rattle.vortex_stats_bound.specs.Precision.{precision_of, precision_map};
ghost use Rattle.vortex_stats_expr.specs.declared.error.StatsError.TheVariants.{Memory, InvalidStat};
ghost use Rattle.vortex_stats_evaluate.specs.Reading.{is_value_read};

use std::alloc::Global;
use vortex_scalar_convert::from_scalar::FromScalar;
use vortex_scalar_core::scalar::Scalar;
use vortex_scalar_value::error::ScalarError;
use vortex_stats_bound::precision::Precision;
use vortex_stats_expr::error::StatsError;

fn read_value<T: FromScalar>(alloc: Global, scalar: &Scalar) -> Result<T, StatsError>
    ensures value { IfOk result (λ a. T.says a ≡ scalar_content scalar.now) }
    ensures read { IfOk result (λ _.
        T.reads (scalar_type scalar.now) (scalar_content scalar.now) ≡ true) }
    ensures refused { IfErr result (λ e. e ≢ Memory → (e ≡ InvalidStat)
        × (T.reads (scalar_type scalar.now) (scalar_content scalar.now) ≡ false)) }
{
    match T::from_scalar(alloc, scalar) {
        Ok(value) => Ok(value),
        Err(ScalarError::Memory) => Err(StatsError::Memory),
        Err(ScalarError::Invalid) | Err(ScalarError::NotConvertible) => {
            Err(StatsError::InvalidStat)
        }
    }
}

/// The value as a native one, as precise. `InvalidStat` where it doesn't read as one, and `Memory`.
pub(crate) fn read_as<T: FromScalar>(
    alloc: Global,
    known: &Precision<Scalar>,
) -> Result<Precision<T>, StatsError>
    ensures value { IfOk result (λ p. precision_map T.says (precision_of p)
        ≡ precision_map scalar_content (precision_of known.now)) }
    ensures read { IfOk result (λ _. is_value_read T.reads (precision_of known.now) ≡ true) }
    ensures refused { IfErr result (λ e. e ≢ Memory → (e ≡ InvalidStat)
        × (is_value_read T.reads (precision_of known.now) ≡ false)) }
{
    match known {
        Precision::Exact(scalar) => Ok(Precision::Exact(read_value(alloc, scalar)?)),
        Precision::Inexact(scalar) => Ok(Precision::Inexact(read_value(alloc, scalar)?)),
        Precision::Absent => Ok(Precision::Absent),
    }
}
