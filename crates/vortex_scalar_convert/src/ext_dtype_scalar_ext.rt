//! Scalars of extension types with a vtable.
ghost use Rattle.std.specs.Prelude.{◌≡◌, is_ok, IfErr};
ghost use Rattle.vortex_model.specs.LogicalType.{LogicalType};
ghost use Rattle.vortex_model.specs.Valid.{valid};
ghost use Rattle.vortex_dtype_core.specs.View.{type_of};
ghost use Rattle.vortex_scalar_value.specs.View.{raw_at};
ghost use Rattle.vortex_scalar_value.specs.declared.error.ScalarError.TheVariants.{Invalid};

use vortex_dtype_proto::ext_dtype::ExtDType;
use vortex_dtype_proto::vtable::ExtVTable;
use vortex_scalar_core::scalar::Scalar;
use vortex_scalar_value::error::ScalarError;
use vortex_scalar_value::scalar_value::ScalarValue;

/// Calls on an `ExtDType` about values.
pub trait ExtDTypeScalarExt {
    // the storage type
    ghost storage: { Self → LogicalType };

    /// Tests that the storage type has the value: `ScalarError::Invalid` where it doesn't. `None`
    /// is null.
    fn validate_scalar_value(&self, value: Option<&ScalarValue>) -> Result<(), ScalarError>
        ensures when { is_ok result ≡ valid (storage self.now) (raw_at value.entry) }
        ensures refused { IfErr result (λ e. e ≡ Invalid) };
}

impl<V: ExtVTable> ExtDTypeScalarExt for ExtDType<V> {
    ghost storage = { λ dtype. type_of dtype.storage };

    fn validate_scalar_value(&self, value: Option<&ScalarValue>) -> Result<(), ScalarError> {
        Scalar::validate(self.storage_dtype(), value)
    }
}
