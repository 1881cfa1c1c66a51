//! Views of bytes.
ghost use Rattle.std.specs.Prelude.{◌≡◌, ◌==◌, IsTrue, length, option_map, option_copied};
ghost use Rattle.vortex_model.specs.Content.{content_of, is_null};
ghost use Rattle.vortex_model.specs.Valid.{valid};
ghost use Rattle.vortex_dtype_core.specs.Parts.{is_binary_type};
ghost use Rattle.vortex_dtype_core.specs.View.{type_of};
ghost use Rattle.vortex_scalar_value.specs.Parts.{byte_string_in};
ghost use Rattle.vortex_scalar_value.specs.View.{raw_at};
ghost use Rattle.vortex_scalar_views.specs.Forms.{raw_of_bytes, GivesView};

use vortex_dtype_core::ByteBuffer;
use vortex_dtype_core::dtype::DType;
use vortex_scalar_ops::validate::validate;
use vortex_scalar_value::error::ScalarError;
use vortex_scalar_value::scalar_value::ScalarValue;

/// Bytes or null with their type, as Vortex's `BinaryScalar`.
#[derive(Drop)]
pub struct BinaryScalar<'a> {
    dtype: &'a DType,
    value: Option<&'a ByteBuffer>,
    ghost is_binary: { IsTrue (is_binary_type (type_of dtype.now)) },
    ghost is_valid: { IsTrue (valid (type_of dtype.now) (raw_of_bytes (option_copied value))) },
}

impl<'a> BinaryScalar<'a> {
    ghost use Rattle.vortex_scalar_views.specs.Views.{typed_binary};

    /// The view, or `ScalarError::Invalid` where `dtype` isn't a binary type, or doesn't have the
    /// value.
    pub fn try_new(
        dtype: &'a DType,
        value: Option<&'a ScalarValue>,
    ) -> Result<BinaryScalar<'a>, ScalarError>
        ensures { GivesView typed_binary is_binary_type (type_of dtype.now)
            (raw_at value.entry) result }
    {
        if !dtype.is_binary() || !validate(dtype, value) {
            return Err(ScalarError::Invalid);
        }
        Ok(BinaryScalar::new(dtype, value))
    }

    /// The view of a value that the type has.
    #[tactic(auto, using(crate::proofs::Leaves::bytes))]
    pub(crate) fn new(dtype: &'a DType, value: Option<&'a ScalarValue>) -> BinaryScalar<'a>
        requires kind { IsTrue (is_binary_type (type_of dtype.now)) }
        requires valid { IsTrue (valid (type_of dtype.now) (raw_at value)) }
        ensures { typed_binary result ≡ (type_of dtype.now, raw_at value.entry) }
    {
        let value = match value {
            Some(value) => value.as_binary(),
            None => None,
        };
        BinaryScalar { dtype, value }
    }

    pub fn dtype(&self) -> &'a DType
        ensures { type_of result.now ≡ (typed_binary self.now).0 }
    {
        self.dtype
    }

    /// The bytes, and `None` for null.
    #[tactic(auto, using(crate::proofs::Leaves::bytes))]
    pub fn value(&self) -> Option<&'a ByteBuffer>
        ensures { option_copied result ≡ byte_string_in (typed_binary self.now).1 }
    {
        self.value
    }

    #[tactic(auto, using(crate::proofs::Leaves::bytes))]
    pub fn is_null(&self) -> bool
        ensures { result ≡ is_null (content_of (typed_binary self.now).1) }
    {
        self.value.is_none()
    }

    /// The number of bytes, and `None` for null.
    #[tactic(auto, using(crate::proofs::Leaves::bytes))]
    pub fn len(&self) -> Option<usize>
        ensures { result ≡ option_map (λ bytes. length bytes)
            (byte_string_in (typed_binary self.now).1) }
    {
        match self.value {
            Some(bytes) => Some(bytes.len()),
            None => None,
        }
    }

    /// Whether there are no bytes, and `None` for null.
    #[tactic(auto, using(crate::proofs::Leaves::bytes))]
    pub fn is_empty(&self) -> Option<bool>
        ensures { result ≡ option_map (λ bytes. length bytes == 0)
            (byte_string_in (typed_binary self.now).1) }
    {
        match self.value {
            Some(bytes) => Some(bytes.is_empty()),
            None => None,
        }
    }
}
