//! Views of unions.
ghost use Rattle.std.specs.Prelude.{◌≡◌, IsTrue, Some, IfOk, option_map};
ghost use Rattle.vortex_model.specs.Content.{content_of, is_null};
ghost use Rattle.vortex_model.specs.LogicalType.{nullability_of};
ghost use Rattle.vortex_model.specs.Valid.{valid};
ghost use Rattle.vortex_dtype_ptype.specs.View.{nullability_of_flag};
ghost use Rattle.vortex_dtype_core.specs.Parts.{is_union_type, variants_in_type};
ghost use Rattle.vortex_dtype_core.specs.View.{type_of, variants_in};
ghost use Rattle.vortex_scalar_value.specs.View.{raw_at};
ghost use Rattle.vortex_scalar_views.specs.Forms.{GivesView};
ghost use Rattle.vortex_scalar_views.specs.Choices.{tag_of, index_of_choice, child_of};
ghost use Rattle.vortex_scalar_views.specs.Held.{raw_of_choice};

use crate::copies::scalar_of;
use std::alloc::AllocError;
use vortex_dtype_core::dtype::DType;
use vortex_dtype_core::union_variants::UnionVariants;
use vortex_dtype_fields::union_variants_ext::UnionVariantsExt;
use vortex_dtype_ptype::nullability::Nullability;
use vortex_scalar_core::scalar::Scalar;
use vortex_scalar_ops::validate::validate;
use vortex_scalar_value::error::ScalarError;
use vortex_scalar_value::scalar_value::ScalarValue;
use vortex_scalar_value::union_value::UnionValue;

/// A union's value or null with its type, as Vortex's `UnionScalar`.
#[derive(Drop)]
pub struct UnionScalar<'a> {
    dtype: &'a DType,
    value: Option<&'a ScalarValue>,
    ghost is_union: { IsTrue (is_union_type (type_of dtype.now)) },
    ghost is_valid: { IsTrue (valid (type_of dtype.now) (raw_at value)) },
}

impl<'a> UnionScalar<'a> {
    ghost use Rattle.vortex_scalar_views.specs.Views.{typed_scalar};
    ghost use Rattle.vortex_scalar_views.specs.UnionViews.{typed_union};

    /// The view, or `ScalarError::Invalid` where `dtype` isn't a union type, or doesn't have the
    /// value.
    pub fn try_new(
        dtype: &'a DType,
        value: Option<&'a ScalarValue>,
    ) -> Result<UnionScalar<'a>, ScalarError>
        ensures { GivesView typed_union is_union_type (type_of dtype.now)
            (raw_at value.entry) result }
    {
        if !dtype.is_union() || !validate(dtype, value) {
            return Err(ScalarError::Invalid);
        }
        Ok(UnionScalar::new(dtype, value))
    }

    /// The view, for a caller that knows that the type is a union, and has the value.
    pub fn new(dtype: &'a DType, value: Option<&'a ScalarValue>) -> UnionScalar<'a>
        requires kind { IsTrue (is_union_type (type_of dtype.now)) }
        requires valid { IsTrue (valid (type_of dtype.now) (raw_at value)) }
        ensures { typed_union result ≡ (type_of dtype.now, raw_at value.entry) }
    {
        UnionScalar { dtype, value }
    }

    pub fn dtype(&self) -> &'a DType
        ensures { type_of result.now ≡ (typed_union self.now).0 }
    {
        self.dtype
    }

    /// The union's value. `None` is null.
    pub fn value(&self) -> Option<&'a ScalarValue>
        ensures value { raw_at result ≡ (typed_union self.now).1 }
        ensures is_valid { IsTrue (valid (typed_union self.now).0 (raw_at result)) }
    {
        self.value
    }

    // The tag with its value, and `None` for null.
    #[tactic(auto, using(crate::proofs::Choices::held))]
    fn choice(&self) -> Option<&'a UnionValue>
        ensures value { raw_of_choice result ≡ (typed_union self.now).1 }
        ensures is_valid { IsTrue (valid (typed_union self.now).0 (raw_of_choice result)) }
    {
        match self.value {
            Some(value) => value.as_union(),
            None => None,
        }
    }

    /// The outer nullability of the union.
    pub fn nullability(&self) -> Nullability
        ensures { nullability_of_flag result ≡ nullability_of (typed_union self.now).0 }
    {
        self.dtype.nullability()
    }

    /// The names, types and tags of the variants.
    pub fn variants(&self) -> &'a UnionVariants
        ensures { variants_in_type (typed_union self.now).0 ≡ Some (variants_in result.now) }
    {
        match self.dtype.as_union_variants_opt() {
            Some(variants) => variants,
            None => unreachable!(),
        }
    }

    /// Whether the union itself is null.
    #[tactic(auto, using(vortex_scalar_value::proofs::Nulls::never_null))]
    pub fn is_null(&self) -> bool
        ensures { result ≡ is_null (content_of (typed_union self.now).1) }
    {
        self.value.is_none()
    }

    /// The tag, and `None` for null.
    #[tactic(auto, using(crate::proofs::Choices::tagged))]
    pub fn type_id(&self) -> Option<i8>
        ensures { result ≡ tag_of (typed_union self.now).1 }
    {
        match self.choice() {
            Some(union) => Some(union.type_id()),
            None => None,
        }
    }

    /// The index of the tag's variant, and `None` for null.
    #[tactic(auto, using(crate::proofs::Choices::tagged))]
    pub fn child_index(&self) -> Option<usize>
        ensures { result ≡ index_of_choice (typed_union self.now) }
    {
        let tag = self.type_id()?;
        self.variants().tag_to_child_index(tag)
    }

    /// The type of the tag's variant, and `None` for null.
    #[tactic(auto, using(crate::proofs::Choices::found))]
    pub fn variant_dtype(&self) -> Option<&'a DType>
        ensures { option_map (λ dtype. type_of dtype.now) result
            ≡ option_map (λ child. child.0) (child_of (typed_union self.now)) }
    {
        let variants = self.variants();
        let index = self.child_index()?;
        variants.variant_by_index(index)
    }

    /// A clone of the value under the tag, and `None` for null.
    #[tactic(auto, using(crate::proofs::Choices::within))]
    pub fn child(&self) -> Result<Option<Scalar>, AllocError>
        ensures { IfOk result (λ child. option_map typed_scalar child
            ≡ child_of (typed_union self.now)) }
    {
        match (self.variant_dtype(), self.choice()) {
            (Some(dtype), Some(union)) => {
                let child = scalar_of(dtype, union.child_value())?;
                Ok(Some(child))
            }
            (Some(_), None) | (None, Some(_)) | (None, None) => Ok(None),
        }
    }
}
