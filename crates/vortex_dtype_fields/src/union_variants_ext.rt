//! Variants of unions by name, index and tag.
ghost use Rattle.std.specs.Prelude.{◌≡◌, ◌≤◌, length, map, option_map, IfOk, IfErr};
ghost use Rattle.std.specs.List.{zip};
ghost use Rattle.vortex_model.specs.LogicalType.{Variants};
ghost use Rattle.vortex_dtype_ptype.specs.declared.error.DTypeError.TheVariants.{Memory};
ghost use Rattle.vortex_dtype_core.specs.View.{type_of, variants_in, variants_of, variants_from};
ghost use Rattle.vortex_dtype_fields.specs.Iterators.{variants_left};
ghost use Rattle.vortex_dtype_fields.specs.Records.{variant_names, tags_of, variant_types, numbers_from, count_from, variant_position, variant_named, variant_at, tag_position, tag_at};

use crate::variants_iter::VariantsIter;
use std::alloc::{AllocError, Global};
use vortex_dtype_core::dtype::DType;
use vortex_dtype_core::union_variants::{UnionVariant, UnionVariants};
use vortex_dtype_ptype::error::DTypeError;
use vortex_dtype_ptype::field_names::{FieldName, FieldNames};

/// Calls on a union's variants, which are methods of Vortex's `UnionVariants`. A name refers to the
/// first variant that has it.
pub trait UnionVariantsExt {
    ghost variants: { Self → Variants };

    /// The variants of these names, each with the type at the same index, with tags 0, 1, and so
    /// on.
    fn new(names: FieldNames, dtypes: Vec<DType>) -> Result<Self, DTypeError>
        requires equal { length names ≡ length dtypes.items }
        requires tagged { length dtypes.items ≤ 128 }
        ensures made { IfOk result
            (λ all. variants all
            ≡ variants_from
            (zip names (zip (numbers_from 0 (length dtypes.items)) (map type_of dtypes.items)))) }
        ensures refused { IfErr result (λ e. e ≡ Memory) };

    fn names(&self, alloc: Global) -> Result<FieldNames, AllocError>
        ensures { IfOk result (λ names. names ≡ variant_names (variants self.now)) };

    fn type_ids(&self, alloc: Global) -> Result<Vec<i8>, AllocError>
        ensures { IfOk result (λ tags. tags.items ≡ tags_of (variants self.now)) };

    /// Whether the tags are 0, 1, and so on, in order.
    fn is_consecutive(&self) -> bool
        ensures { result ≡ count_from 0 (variants self.now) };

    /// The index of the variant.
    fn find(&self, name: &FieldName) -> Option<usize>
        ensures { result ≡ variant_position (variants self.now) name.now };

    /// The type of the variant.
    fn variant(&self, name: &FieldName) -> Option<&DType>
        ensures { option_map (λ dtype. type_of dtype.now) result
            ≡ variant_named (variants self.now) name.now };

    /// The type at an index, and `None` past the end.
    fn variant_by_index(&self, index: usize) -> Option<&DType>
        ensures { option_map (λ dtype. type_of dtype.now) result
            ≡ variant_at (variants self.now) index };

    fn variants(&self) -> VariantsIter<'_>
        ensures { map type_of (variants_left result) ≡ variant_types (variants self.now) };

    /// The index of the variant with this tag.
    fn tag_to_child_index(&self, tag: i8) -> Option<usize>
        ensures { result ≡ tag_position (variants self.now) tag };

    /// The tag at an index, and `None` past the end.
    fn child_index_to_tag(&self, index: usize) -> Option<i8>
        ensures { result ≡ tag_at (variants self.now) index };
}

impl UnionVariantsExt for UnionVariants {
    ghost variants = { variants_in };

    #[tactic(auto, using(crate::proofs::Choices::numbered))]
    fn new(names: FieldNames, dtypes: Vec<DType>) -> Result<UnionVariants, DTypeError> {
        let tags = numbers(*dtypes.allocator(), dtypes.len())?;
        let all = UnionVariants::try_new(names, dtypes, tags)?;
        Ok(all)
    }

    fn names(&self, alloc: Global) -> Result<FieldNames, AllocError> {
        let names = names_in(alloc, self.as_slice())?;
        Ok(FieldNames::new(names))
    }

    fn type_ids(&self, alloc: Global) -> Result<Vec<i8>, AllocError> {
        let tags = tags_in(alloc, self.as_slice())?;
        Ok(tags)
    }

    fn is_consecutive(&self) -> bool {
        are_counted(self.as_slice())
    }

    fn find(&self, name: &FieldName) -> Option<usize> {
        index_of_name(self.as_slice(), name)
    }

    fn variant(&self, name: &FieldName) -> Option<&DType> {
        let place = self.find(name)?;
        self.variant_by_index(place)
    }

    #[tactic(auto, using(crate::proofs::Choices::at_places))]
    fn variant_by_index(&self, index: usize) -> Option<&DType> {
        let variants = self.as_slice();
        if index >= variants.len() {
            return None;
        }
        Some(&variants[index].dtype)
    }

    fn variants(&self) -> VariantsIter<'_> {
        VariantsIter::new(self.as_slice())
    }

    fn tag_to_child_index(&self, tag: i8) -> Option<usize> {
        index_of_tag(self.as_slice(), tag)
    }

    #[tactic(auto, using(crate::proofs::Choices::at_places))]
    fn child_index_to_tag(&self, index: usize) -> Option<i8> {
        let variants = self.as_slice();
        if index >= variants.len() {
            return None;
        }
        Some(variants[index].tag)
    }
}

#[tactic(auto, using(crate::proofs::Choices::numbered))]
fn numbers(alloc: Global, many: usize) -> Result<Vec<i8>, AllocError>
    requires { many ≤ 128 }
    ensures { IfOk result (λ tags. tags.items ≡ numbers_from 0 many) }
{
    let mut tags = Vec::with_capacity(alloc, many)?;
    for n in 0..many {
        tags.push(n as i8)?;
    }
    Ok(tags)
}

#[tactic(auto, using(crate::proofs::Choices::in_order))]
fn names_in(alloc: Global, variants: &[UnionVariant]) -> Result<Vec<FieldName>, AllocError>
    ensures { IfOk result (λ names. names.items ≡ variant_names (variants_of variants.now)) }
{
    let mut names = Vec::with_capacity(alloc, variants.len())?;
    for variant in variants {
        names.push(variant.name.clone()?)?;
    }
    Ok(names)
}

#[tactic(auto, using(crate::proofs::Choices::in_order))]
fn tags_in(alloc: Global, variants: &[UnionVariant]) -> Result<Vec<i8>, AllocError>
    ensures { IfOk result (λ tags. tags.items ≡ tags_of (variants_of variants.now)) }
{
    let mut tags = Vec::with_capacity(alloc, variants.len())?;
    for variant in variants {
        tags.push(variant.tag)?;
    }
    Ok(tags)
}

#[tactic(auto, using(crate::proofs::Choices::in_order))]
fn are_counted(variants: &[UnionVariant]) -> bool
    ensures { result ≡ count_from 0 (variants_of variants.now) }
{
    for (place, variant) in variants.iter().enumerate() {
        if usize::try_from(variant.tag) != Ok(place) {
            return false;
        }
    }
    true
}

#[tactic(auto, using(crate::proofs::Choices::at_places))]
fn index_of_name(variants: &[UnionVariant], name: &FieldName) -> Option<usize>
    ensures { result ≡ variant_position (variants_of variants.now) name.now }
{
    for (place, variant) in variants.iter().enumerate() {
        if variant.name == *name {
            return Some(place);
        }
    }
    None
}

#[tactic(auto, using(crate::proofs::Choices::at_places))]
fn index_of_tag(variants: &[UnionVariant], tag: i8) -> Option<usize>
    ensures { result ≡ tag_position (variants_of variants.now) tag }
{
    for (place, variant) in variants.iter().enumerate() {
        if variant.tag == tag {
            return Some(place);
        }
    }
    None
}
