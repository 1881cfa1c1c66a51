//! Views of strings.
ghost use Rattle.std.specs.Prelude.{◌≡◌, ◌==◌, IsTrue, length, option_map, option_copied};
ghost use Rattle.vortex_model.specs.Content.{content_of, is_null};
ghost use Rattle.vortex_model.specs.Valid.{valid};
ghost use Rattle.vortex_dtype_core.specs.Parts.{is_utf8_type};
ghost use Rattle.vortex_dtype_core.specs.View.{type_of};
ghost use Rattle.vortex_scalar_value.specs.Parts.{text_in};
ghost use Rattle.vortex_scalar_value.specs.View.{raw_at};
ghost use Rattle.vortex_scalar_views.specs.Forms.{raw_of_text, GivesView};

use vortex_dtype_core::BufferString;
use vortex_dtype_core::dtype::DType;
use vortex_scalar_ops::validate::validate;
use vortex_scalar_value::error::ScalarError;
use vortex_scalar_value::scalar_value::ScalarValue;

/// A string or null with its type, as Vortex's `Utf8Scalar`.
#[derive(Drop)]
pub struct Utf8Scalar<'a> {
    dtype: &'a DType,
    value: Option<&'a BufferString>,
    ghost is_utf8: { IsTrue (is_utf8_type (type_of dtype.now)) },
    ghost is_valid: { IsTrue (valid (type_of dtype.now) (raw_of_text (option_copied value))) },
}

impl<'a> Utf8Scalar<'a> {
    ghost use Rattle.vortex_scalar_views.specs.Views.{typed_utf8};

    /// The view, or `ScalarError::Invalid` where `dtype` isn't a UTF-8 type, or doesn't have the
    /// value.
    pub fn try_new(
        dtype: &'a DType,
        value: Option<&'a ScalarValue>,
    ) -> Result<Utf8Scalar<'a>, ScalarError>
        ensures { GivesView typed_utf8 is_utf8_type (type_of dtype.now)
            (raw_at value.entry) result }
    {
        if !dtype.is_utf8() || !validate(dtype, value) {
            return Err(ScalarError::Invalid);
        }
        Ok(Utf8Scalar::new(dtype, value))
    }

    /// The view of a value that the type has.
    #[tactic(auto, using(crate::proofs::Leaves::texts))]
    pub(crate) fn new(dtype: &'a DType, value: Option<&'a ScalarValue>) -> Utf8Scalar<'a>
        requires kind { IsTrue (is_utf8_type (type_of dtype.now)) }
        requires valid { IsTrue (valid (type_of dtype.now) (raw_at value)) }
        ensures { typed_utf8 result ≡ (type_of dtype.now, raw_at value.entry) }
    {
        let value = match value {
            Some(value) => value.as_utf8(),
            None => None,
        };
        Utf8Scalar { dtype, value }
    }

    pub fn dtype(&self) -> &'a DType
        ensures { type_of result.now ≡ (typed_utf8 self.now).0 }
    {
        self.dtype
    }

    /// The string, and `None` for null.
    #[tactic(auto, using(crate::proofs::Leaves::texts))]
    pub fn value(&self) -> Option<&'a BufferString>
        ensures { option_copied result ≡ text_in (typed_utf8 self.now).1 }
    {
        self.value
    }

    #[tactic(auto, using(crate::proofs::Leaves::texts))]
    pub fn is_null(&self) -> bool
        ensures { result ≡ is_null (content_of (typed_utf8 self.now).1) }
    {
        self.value.is_none()
    }

    /// The number of bytes, and `None` for null.
    #[tactic(auto, using(crate::proofs::Leaves::texts))]
    pub fn len(&self) -> Option<usize>
        ensures { result ≡ option_map (λ text. length text) (text_in (typed_utf8 self.now).1) }
    {
        match self.value {
            Some(text) => Some(text.len()),
            None => None,
        }
    }

    /// Whether the string is empty, and `None` for null.
    #[tactic(auto, using(crate::proofs::Leaves::texts))]
    pub fn is_empty(&self) -> Option<bool>
        ensures { result ≡ option_map (λ text. length text == 0) (text_in (typed_utf8 self.now).1) }
    {
        match self.value {
            Some(text) => Some(text.is_empty()),
            None => None,
        }
    }
}
