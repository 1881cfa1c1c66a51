//! Views of extensions.
ghost use Rattle.std.specs.Prelude.{◌≡◌, IsTrue, Some, IfOk};
ghost use Rattle.vortex_model.specs.Content.{content_of, is_null};
ghost use Rattle.vortex_model.specs.Valid.{valid};
ghost use Rattle.vortex_dtype_core.specs.Parts.{is_extension_type, extension_in_type, storage_of};
ghost use Rattle.vortex_dtype_core.specs.View.{type_of, extension_type};
ghost use Rattle.vortex_scalar_value.specs.View.{raw_at};

use std::alloc::AllocError;
use vortex_dtype_core::dtype::DType;
use vortex_dtype_core::extension::ExtDTypeRef;
use vortex_scalar_core::scalar::Scalar;
use vortex_scalar_value::scalar_value::ScalarValue;
use vortex_scalar_views::copies::scalar_of;

/// An extension's value or null with its type, as Vortex's `ExtScalar`.
#[derive(Drop)]
pub struct ExtScalar<'a> {
    dtype: &'a DType,
    value: Option<&'a ScalarValue>,
    ghost is_extension: { IsTrue (is_extension_type (type_of dtype.now)) },
    ghost is_valid: { IsTrue (valid (type_of dtype.now) (raw_at value)) },
}

impl<'a> ExtScalar<'a> {
    ghost use Rattle.vortex_scalar_views.specs.Views.{typed_scalar};
    ghost use Rattle.vortex_scalar_nested.specs.Nested.{typed_extension};

    /// The view of a value that the type has, which is an extension.
    pub(crate) fn new(dtype: &'a DType, value: Option<&'a ScalarValue>) -> ExtScalar<'a>
        requires kind { IsTrue (is_extension_type (type_of dtype.now)) }
        requires valid { IsTrue (valid (type_of dtype.now) (raw_at value)) }
        ensures { typed_extension result ≡ (type_of dtype.now, raw_at value.entry) }
    {
        ExtScalar { dtype, value }
    }

    pub fn dtype(&self) -> &'a DType
        ensures { type_of result.now ≡ (typed_extension self.now).0 }
    {
        self.dtype
    }

    pub fn ext_dtype(&self) -> &'a ExtDTypeRef
        ensures { extension_in_type (typed_extension self.now).0
            ≡ Some (extension_type result.now) }
    {
        self.dtype.as_extension()
    }

    /// The value, which is one of the storage type. `None` is null.
    pub fn value(&self) -> Option<&'a ScalarValue>
        ensures { raw_at result ≡ (typed_extension self.now).1 }
    {
        self.value
    }

    #[tactic(auto, using(vortex_scalar_value::proofs::Nulls::never_null))]
    pub fn is_null(&self) -> bool
        ensures { result ≡ is_null (content_of (typed_extension self.now).1) }
    {
        self.value.is_none()
    }

    /// A clone of the value, with the storage type.
    #[tactic(auto, using(crate::proofs::Storage::stored))]
    pub fn to_storage_scalar(&self) -> Result<Scalar, AllocError>
        ensures { IfOk result (λ scalar. typed_scalar scalar
            ≡ (storage_of (typed_extension self.now).0, (typed_extension self.now).1)) }
    {
        let scalar = scalar_of(self.ext_dtype().storage_dtype(), self.value)?;
        Ok(scalar)
    }
}
