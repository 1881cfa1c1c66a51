//! Views of lists.
ghost use Rattle.std.specs.Prelude.{◌≡◌, ◌==◌, IsTrue, Some, IfOk, option_map};
ghost use Rattle.vortex_model.specs.Content.{content_of, is_null};
ghost use Rattle.vortex_model.specs.Valid.{valid};
ghost use Rattle.vortex_dtype_core.specs.Parts.{list_element};
ghost use Rattle.vortex_dtype_core.specs.View.{type_of};
ghost use Rattle.vortex_scalar_value.specs.View.{raw_at};
ghost use Rattle.vortex_scalar_views.specs.Forms.{GivesView};
ghost use Rattle.vortex_scalar_nested.specs.Held.{raw_of_items};
ghost use Rattle.vortex_scalar_nested.specs.Places.{is_listing, part_count, element_at};

use crate::copies::value_at;
use std::alloc::AllocError;
use vortex_dtype_core::dtype::DType;
use vortex_scalar_core::scalar::Scalar;
use vortex_scalar_ops::validate::validate;
use vortex_scalar_value::error::ScalarError;
use vortex_scalar_value::scalar_value::ScalarValue;
use vortex_scalar_views::copies::scalar_of;

/// A list or null with its type, as Vortex's `ListScalar`. The type is a list of any length or of a
/// fixed one.
#[derive(Drop)]
pub struct ListScalar<'a> {
    dtype: &'a DType,
    value: Option<&'a ScalarValue>,
    ghost is_list: { IsTrue (is_listing (type_of dtype.now)) },
    ghost is_valid: { IsTrue (valid (type_of dtype.now) (raw_at value)) },
}

impl<'a> ListScalar<'a> {
    ghost use Rattle.vortex_scalar_views.specs.Views.{typed_scalar};
    ghost use Rattle.vortex_scalar_nested.specs.Nested.{typed_list};

    /// The view, or `ScalarError::Invalid` where `dtype` isn't a list type, or doesn't have the
    /// value.
    pub fn try_new(
        dtype: &'a DType,
        value: Option<&'a ScalarValue>,
    ) -> Result<ListScalar<'a>, ScalarError>
        ensures { GivesView typed_list is_listing (type_of dtype.now) (raw_at value.entry) result }
    {
        if !is_any_list(dtype) || !validate(dtype, value) {
            return Err(ScalarError::Invalid);
        }
        Ok(ListScalar::new(dtype, value))
    }

    /// The view of a value that the type has.
    pub(crate) fn new(dtype: &'a DType, value: Option<&'a ScalarValue>) -> ListScalar<'a>
        requires kind { IsTrue (is_listing (type_of dtype.now)) }
        requires valid { IsTrue (valid (type_of dtype.now) (raw_at value)) }
        ensures { typed_list result ≡ (type_of dtype.now, raw_at value.entry) }
    {
        ListScalar { dtype, value }
    }

    pub fn dtype(&self) -> &'a DType
        ensures { type_of result.now ≡ (typed_list self.now).0 }
    {
        self.dtype
    }

    /// The list. `None` is null.
    pub fn value(&self) -> Option<&'a ScalarValue>
        ensures value { raw_at result ≡ (typed_list self.now).1 }
        ensures is_valid { IsTrue (valid (typed_list self.now).0 (raw_at result)) }
    {
        self.value
    }

    // The elements, and `None` for null.
    #[tactic(auto, using(crate::proofs::Elements::held))]
    fn items(&self) -> Option<&'a [Option<ScalarValue>]>
        ensures value { raw_of_items result ≡ (typed_list self.now).1 }
        ensures is_valid { IsTrue (valid (typed_list self.now).0 (raw_of_items result)) }
    {
        match self.value {
            Some(value) => value.as_list(),
            None => None,
        }
    }

    pub fn element_dtype(&self) -> &'a DType
        ensures { list_element (typed_list self.now).0 ≡ Some (type_of result.now) }
    {
        match self.dtype.as_any_size_list_element_opt() {
            Some(element) => element,
            None => unreachable!(),
        }
    }

    #[tactic(auto, using(vortex_scalar_value::proofs::Nulls::never_null))]
    pub fn is_null(&self) -> bool
        ensures { result ≡ is_null (content_of (typed_list self.now).1) }
    {
        self.value.is_none()
    }

    /// The number of elements, and 0 for null.
    #[tactic(auto, using(crate::proofs::Elements::counted))]
    pub fn len(&self) -> usize
        ensures { result ≡ part_count (typed_list self.now).1 }
    {
        match self.items() {
            Some(elements) => elements.len(),
            None => 0,
        }
    }

    /// Whether there are no elements. Null has none.
    pub fn is_empty(&self) -> bool
        ensures { result ≡ (part_count (typed_list self.now).1 == 0) }
    {
        self.len() == 0
    }

    /// A clone of the element at an index, and `None` past the end, and for null.
    #[tactic(auto, using(crate::proofs::Elements::placed))]
    pub fn element(&self, index: usize) -> Result<Option<Scalar>, AllocError>
        ensures { IfOk result (λ element. option_map typed_scalar element
            ≡ element_at (typed_list self.now) index) }
    {
        let Some(elements) = self.items() else {
            return Ok(None);
        };
        let Some(element) = value_at(elements, index) else {
            return Ok(None);
        };
        let element = scalar_of(self.element_dtype(), element)?;
        Ok(Some(element))
    }
}

/// Whether the type is a list, of any length or of a fixed one.
pub(crate) fn is_any_list(dtype: &DType) -> bool
    ensures { result ≡ is_listing (type_of dtype.now) }
{
    dtype.as_any_size_list_element_opt().is_some()
}
