//! Structs cast, projected, and by their fields in order.
ghost use Rattle.std.specs.Prelude.{◌≡◌, ◌≢◌, true, false, IsTrue, IfOk, IfErr, option_map};
ghost use Rattle.vortex_model.specs.Content.{content_of};
ghost use Rattle.vortex_model.specs.Convert.{converts};
ghost use Rattle.vortex_model.specs.Valid.{valid};
ghost use Rattle.vortex_dtype_core.specs.View.{type_of};
ghost use Rattle.vortex_scalar_value.specs.declared.error.ScalarError.TheVariants.{Memory, NotConvertible};
ghost use Rattle.vortex_scalar_views.specs.Forms.{Typed};
ghost use Rattle.vortex_scalar_views.specs.Views.{typed_scalar};
ghost use Rattle.vortex_scalar_nested.specs.Held.{raw_of_items};
ghost use Rattle.vortex_scalar_nested.specs.Nested.{typed_struct};
ghost use Rattle.vortex_scalar_iter.specs.Iterators.{fields_left};
ghost use Rattle.vortex_scalar_iter.specs.Records.{fields_of_record, GivesProjection};

use crate::projection::{projected_dtype, projected_value};
use crate::struct_fields_iter::StructFieldsIter;
use std::alloc::Global;
use vortex_dtype_core::dtype::DType;
use vortex_dtype_ptype::field_names::FieldName;
use vortex_scalar_core::scalar::Scalar;
use vortex_scalar_nested::struct_scalar::StructScalar;
use vortex_scalar_ops::cast::convert_value;
use vortex_scalar_value::error::ScalarError;
use vortex_scalar_value::scalar_value::ScalarValue;

/// More calls on a `StructScalar`, which are methods of Vortex's.
pub trait StructScalarExt {
    ghost typed: { Self → Typed };

    /// The struct as one of `dtype`, with the same content. `ScalarError::NotConvertible` exactly
    /// where `dtype` can't hold the content.
    fn cast(&self, alloc: Global, dtype: &DType) -> Result<Scalar, ScalarError>
        ensures dtype { IfOk result (λ scalar. (typed_scalar scalar).0 ≡ type_of dtype.now) }
        ensures content { IfOk result (λ scalar. content_of (typed_scalar scalar).1
            ≡ content_of (typed self.now).1) }
        ensures converts { IfOk result (λ scalar. converts (typed self.now).0 (type_of dtype.now)
            (content_of (typed self.now).1) ≡ true) }
        ensures refused { IfErr result (λ e. e ≢ Memory → (e ≡ NotConvertible)
            × (converts (typed self.now).0 (type_of dtype.now) (content_of (typed self.now).1)
            ≡ false)) };

    /// The struct of the first field with each of these names, in the order of the names, and null
    /// for null. `ScalarError::Invalid` exactly where a name has no field.
    fn project(&self, alloc: Global, names: &[FieldName]) -> Result<Scalar, ScalarError>
        ensures { GivesProjection (typed self.now) names.now result };

    /// Clones of the fields in order, and `None` for null.
    fn fields_iter(&self) -> Option<StructFieldsIter<'_>>
        ensures { option_map fields_left result ≡ fields_of_record (typed self.now) };
}

impl StructScalarExt for StructScalar<'_> {
    ghost typed = { typed_struct };

    fn cast(&self, alloc: Global, dtype: &DType) -> Result<Scalar, ScalarError> {
        let value = convert_value(alloc, self.dtype(), dtype, self.value())?;
        let dtype = dtype.clone()?;
        Ok(Scalar::new_unchecked(dtype, value))
    }

    #[tactic(auto, using(crate::proofs::Records::projections))]
    fn project(&self, alloc: Global, names: &[FieldName]) -> Result<Scalar, ScalarError> {
        let fields = self.struct_fields();
        let dtype = projected_dtype(alloc, self.dtype(), fields, names)?;
        let value = projected_value(alloc, fields, stored_values(self), names)?;
        Ok(Scalar::new_unchecked(dtype, value))
    }

    #[tactic(auto, using(crate::proofs::Records::listed))]
    fn fields_iter(&self) -> Option<StructFieldsIter<'_>> {
        let values = stored_values(self)?;
        let fields = self.struct_fields().as_slice();
        Some(StructFieldsIter::new(fields, values))
    }
}

// The values of the fields, and `None` for null.
#[tactic(auto, using(vortex_scalar_nested::proofs::Records::held))]
fn stored_values<'a>(view: &StructScalar<'a>) -> Option<&'a [Option<ScalarValue>]>
    ensures value { raw_of_items result ≡ (typed_struct view.now).1 }
    ensures is_valid { IsTrue (valid (typed_struct view.now).0 (raw_of_items result)) }
{
    match view.value() {
        Some(value) => value.as_list(),
        None => None,
    }
}
