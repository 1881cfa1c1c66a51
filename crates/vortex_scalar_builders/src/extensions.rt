//! Scalars of extensions and of type `Variant`.
ghost use Rattle.std.specs.Prelude.{◌≡◌, is_ok, IfOk, IfErr};
ghost use Rattle.vortex_model.specs.LogicalType.{variant, non_nullable, eq_type};
ghost use Rattle.vortex_model.specs.Content.{raw_scalar};
ghost use Rattle.vortex_dtype_core.specs.Parts.{storage_of};
ghost use Rattle.vortex_dtype_core.specs.View.{extension_type};
ghost use Rattle.vortex_scalar_value.specs.declared.error.ScalarError.TheVariants.{Invalid};
ghost use Rattle.vortex_scalar_core.specs.Scalar.{scalar_type, scalar_raw};

use std::alloc::{AllocError, Global};
use vortex_dtype_core::dtype::DType;
use vortex_dtype_core::extension::ExtDTypeRef;
use vortex_dtype_ptype::nullability::Nullability;
use vortex_scalar_core::scalar::Scalar;
use vortex_scalar_value::error::ScalarError;
use vortex_scalar_value::scalar_value::ScalarValue;
use vortex_scalar_value::variant_value::VariantValue;

/// The value of the storage as one of the extension. `ScalarError::Invalid` where its type isn't
/// the storage type.
#[tactic(auto, using(crate::proofs::Made::extensions))]
pub(crate) fn extension_value(
    extension: ExtDTypeRef,
    storage: Scalar,
) -> Result<Scalar, ScalarError>
    ensures when { is_ok result
        ≡ eq_type (scalar_type storage) (storage_of (extension_type extension)) }
    ensures dtype { IfOk result (λ made. scalar_type made ≡ extension_type extension) }
    ensures value { IfOk result (λ made. scalar_raw made ≡ scalar_raw storage) }
    ensures refused { IfErr result (λ e. e ≡ Invalid) }
{
    let (dtype, value) = storage.into_parts();
    let fits = dtype == *extension.storage_dtype();
    if !fits {
        return Err(ScalarError::Invalid);
    }
    Ok(Scalar::new_unchecked(DType::Extension(extension), value))
}

/// The value with its type, as a `Variant` value.
#[tactic(auto, using(crate::proofs::Made::variants))]
pub(crate) fn variant_value(alloc: Global, value: Scalar) -> Result<Scalar, AllocError>
    ensures dtype { IfOk result (λ made. scalar_type made ≡ variant non_nullable) }
    ensures value { IfOk result (λ made. scalar_raw made ≡ raw_scalar (scalar_type value)
        (scalar_raw value)) }
{
    let (dtype, value) = value.into_parts();
    let variant = Box::new(alloc, VariantValue::new(dtype, value))?;
    let dtype = DType::Variant(Nullability::NonNullable);
    Ok(Scalar::new_unchecked(dtype, Some(ScalarValue::Variant(variant))))
}
