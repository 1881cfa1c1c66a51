//! An iterator over the types of a union's variants.
ghost use Rattle.std.specs.Prelude.{◌≡◌, map, length, Some, IfSome};
ghost use Rattle.std.specs.Iterator.{YieldsFirstRef, UpTo, item_count};
ghost use Rattle.std.specs.Iterator.SizeHint.{IsWithinCount};
ghost use Rattle.vortex_dtype_core.specs.View.{type_of, variants_of};
ghost use Rattle.vortex_dtype_fields.specs.Records.{variant_types};

use std::iter::ExactSizeIterator;
use vortex_dtype_core::dtype::DType;
use vortex_dtype_core::union_variants::UnionVariant;

/// Yields the types of a union's variants in order.
#[derive(Drop)]
pub struct VariantsIter<'a> {
    variants: &'a [UnionVariant],
}

impl<'a> VariantsIter<'a> {
    ghost use Rattle.vortex_dtype_fields.specs.Iterators.{variants_left};

    #[tactic(auto, using(crate::proofs::Choices::in_order))]
    pub(crate) fn new(variants: &'a [UnionVariant]) -> VariantsIter<'a>
        ensures { map type_of (variants_left result) ≡ variant_types (variants_of variants.now) }
    {
        VariantsIter { variants }
    }
}

impl<'a> Iterator for VariantsIter<'a> {
    ghost use Rattle.vortex_dtype_fields.specs.Iterators.{variants_left};

    type Item = &'a DType;

    ghost next_gives = { YieldsFirstRef variants_left };

    ghost remaining = { item_count variants_left };

    fn next(&mut self) -> Option<&'a DType> {
        let (first, others) = self.variants.split_first()?;
        self.variants = others;
        Some(&first.dtype)
    }

    fn size_hint(&self) -> (usize, Option<usize>)
        ensures lower { IsWithinCount result.0 (item_count variants_left self.now) }
        ensures upper { IfSome result.1 (UpTo (item_count variants_left self.now)) }
        ensures exact { (result.0 ≡ length (variants_left self.now)) × (result.1 ≡ Some result.0) }
    {
        let len = self.variants.len();
        (len, Some(len))
    }
}

impl<'a> ExactSizeIterator for VariantsIter<'a> {
    fn len(&self) -> usize {
        self.variants.len()
    }
}
