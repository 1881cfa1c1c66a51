//! Values of type `Variant`.
ghost use Rattle.std.specs.Prelude.{◌≡◌};
ghost use Rattle.vortex_model.specs.Content.{raw_scalar};
ghost use Rattle.vortex_dtype_core.specs.View.{type_of};
ghost use Rattle.vortex_scalar_value.specs.Parts.{type_in, child_in};
ghost use Rattle.vortex_scalar_value.specs.View.{raw_in, raw_at, raw_of_variant};

use crate::scalar_value::ScalarValue;
use vortex_dtype_core::dtype::DType;

/// A value of type `Variant`: a type, and a value meant for it. Nothing here tests that the value
/// is valid for the type.
#[derive(Drop)]
#[cycle(value)]
pub struct VariantValue {
    pub(crate) dtype: DType,
    pub(crate) value: Option<ScalarValue>,
}

impl VariantValue {
    /// A value with its type. `None` is null.
    #[tactic(auto, using(crate::proofs::Views::one_level))]
    pub fn new(dtype: DType, value: Option<ScalarValue>) -> VariantValue
        ensures { raw_of_variant result ≡ raw_scalar (type_of dtype) (raw_in value) }
    {
        VariantValue { dtype, value }
    }

    #[tactic(auto, using(crate::proofs::Views::one_level))]
    pub fn dtype(&self) -> &DType
        ensures { type_of result.now ≡ type_in (raw_of_variant self.now) }
    {
        &self.dtype
    }

    /// The value inside. `None` is null.
    #[tactic(auto, using(crate::proofs::Views::one_level))]
    pub fn value(&self) -> Option<&ScalarValue>
        ensures { raw_at result ≡ child_in (raw_of_variant self.now) }
    {
        self.value.as_ref()
    }

    #[tactic(auto, using(crate::proofs::Views::one_level))]
    pub fn into_parts(self) -> (DType, Option<ScalarValue>)
        ensures { raw_of_variant self ≡ raw_scalar (type_of result.0) (raw_in result.1) }
    {
        (self.dtype, self.value)
    }
}
