//! Casts of maps, unions, `Variant` values and extensions, which convert to their own type alone,
//! up to outer nullability.
ghost use Rattle.std.specs.Prelude.{◌≡◌, true, false, IfOk, IsErrOf};
ghost use Rattle.vortex_model.specs.Content.{content_of};
ghost use Rattle.vortex_model.specs.Valid.{valid};
ghost use Rattle.vortex_model.specs.Convert.{converts, eq_outside};
ghost use Rattle.vortex_dtype_core.specs.View.{type_of};
ghost use Rattle.vortex_scalar_ops.specs.Converting.{is_identity_cast};
ghost use Rattle.vortex_scalar_value.specs.View.{raw_of};

use crate::validate::validate;
use std::alloc::AllocError;
use vortex_dtype_core::dtype::DType;
use vortex_scalar_value::error::ScalarError;
use vortex_scalar_value::scalar_value::ScalarValue;

/// Whether values of the type convert to their own type alone, up to outer nullability.
#[tactic(auto, using(crate::proofs::KeptValues::kept_kinds))]
pub(crate) fn is_identity_cast(source: &DType) -> bool
    ensures { result ≡ is_identity_cast (type_of source.now) }
{
    source.is_map() || source.is_union() || source.is_variant() || source.is_extension()
}

/// A clone, where `target` is `source` up to outer nullability, and `source` has the value.
#[tactic(auto, using(crate::proofs::KeptValues::kept))]
pub(crate) fn cast_identity(
    source: &DType,
    target: &DType,
    value: &ScalarValue,
) -> Result<ScalarValue, ScalarError>
    requires { is_identity_cast (type_of source.now) ≡ true }
    ensures converts { IfOk result (λ _.
        converts (type_of source.now) (type_of target.now) (content_of (raw_of value.now)) ≡ true) }
    ensures same { IfOk result (λ new. raw_of new ≡ raw_of value.now) }
    ensures valid { IfOk result (λ new. valid (type_of target.now) (raw_of new) ≡ true) }
    ensures refused { IsErrOf result ScalarError.NotConvertible
        → converts (type_of source.now) (type_of target.now) (content_of (raw_of value.now))
        ≡ false }
    ensures invalid { IsErrOf result ScalarError.Invalid
        → valid (type_of source.now) (raw_of value.now) ≡ false }
{
    if !eq_outside(source, target)? {
        return Err(ScalarError::NotConvertible);
    }
    if !validate(source, Some(value)) {
        return Err(ScalarError::Invalid);
    }
    let copy = value.clone()?;
    Ok(copy)
}

// Whether the types are equal up to outer nullability.
fn eq_outside(source: &DType, target: &DType) -> Result<bool, AllocError>
    ensures { IfOk result (λ same. same ≡ eq_outside (type_of source.now) (type_of target.now)) }
{
    let source = source.as_nullable()?;
    let target = target.as_nullable()?;
    Ok(source == target)
}
