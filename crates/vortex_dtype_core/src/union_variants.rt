//! The variants of a union.
ghost use Rattle.std.specs.List.{zip};
ghost use Rattle.std.specs.Prelude.{◌≡◌, ◌≢◌, ◌==◌, length, map, not, IfOk, OnOk, IfErr, IsTrue, false};
ghost use Rattle.vortex_dtype_ptype.specs.declared.error.DTypeError.TheVariants.{Memory, UnionShape};
ghost use Rattle.vortex_dtype_core.specs.View.{type_of, variant_of, variants_in, variants_of, variants_from, variant_items_of};
ghost use Rattle.vortex_dtype_core.specs.Parts.{variant_count, is_union_shape, is_distinct};

use crate::dtype::DType;
use std::alloc::AllocError;
use std::rc::Rc;
use vortex_dtype_ptype::error::DTypeError;
use vortex_dtype_ptype::field_names::{FieldName, FieldNames};

/// The variants of a union in order, as Vortex's `UnionVariants`. A clone shares them.
#[derive(Drop)]
#[cycle(dtype)]
pub struct UnionVariants {
    variants: Rc<Vec<UnionVariant>>,
}

/// A variant of a union.
#[derive(Drop)]
#[cycle(dtype)]
pub struct UnionVariant {
    /// The name. Several variants may have the same.
    pub name: FieldName,
    /// The tag of its values, Arrow's type id, which no other variant of the union has.
    pub tag: i8,
    /// The type of its values.
    pub dtype: DType,
}

impl UnionVariants {
    /// The variants of these names, types and tags by index. `DTypeError::UnionShape` where the
    /// lists differ in length, or a tag is repeated.
    #[tactic(auto, using(crate::proofs::Views::one_level))]
    pub fn try_new(
        names: FieldNames,
        dtypes: Vec<DType>,
        tags: Vec<i8>,
    ) -> Result<UnionVariants, DTypeError>
        ensures made { IfOk result (λ all. variants_in all
            ≡ variants_from (zip names (zip tags.items (map type_of dtypes.items)))) }
        ensures accepted { OnOk result
            (IsTrue (is_union_shape (length names) (length dtypes.items) tags.items)) }
        ensures refused { IfErr result (λ e. e ≢ Memory
            → (e ≡ UnionShape)
            × (is_union_shape (length names) (length dtypes.items) tags.items ≡ false)) }
    {
        if names.len() != dtypes.len() || tags.len() != dtypes.len() || has_repeated(&tags) {
            return Err(DTypeError::UnionShape);
        }
        let all = UnionVariants::by_index(names, dtypes, &tags)?;
        Ok(all)
    }

    #[tactic(auto, using(crate::proofs::Views::built))]
    fn by_index(
        names: FieldNames,
        dtypes: Vec<DType>,
        tags: &[i8],
    ) -> Result<UnionVariants, AllocError>
        requires names { length names ≡ length dtypes.items }
        requires tags { length tags.now ≡ length dtypes.items }
        ensures { IfOk result (λ all. variants_in all
            ≡ variants_from (zip names (zip tags.now (map type_of dtypes.items)))) }
    {
        let alloc = *dtypes.allocator();
        let mut variants = Vec::with_capacity(alloc, dtypes.len())?;
        for dtype in dtypes {
            let i = variants.len();
            let name = names.as_slice()[i].clone()?;
            let tag = tags[i];
            variants.push(UnionVariant { name, tag, dtype })?;
        }
        let variants = Rc::new(alloc, variants)?;
        Ok(UnionVariants { variants })
    }

    #[tactic(auto, using(crate::proofs::Views::one_level))]
    pub fn as_slice(&self) -> &[UnionVariant]
        ensures variants { variants_of result.now ≡ variants_in self.now }
        ensures items { result.now ≡ variant_items_of self.now }
    {
        self.variants.as_slice()
    }

    #[tactic(auto, using(crate::proofs::Views::one_level))]
    pub fn len(&self) -> usize
        ensures { result ≡ variant_count (variants_in self.now) }
    {
        self.as_slice().len()
    }

    #[tactic(auto, using(crate::proofs::Views::one_level))]
    pub fn is_empty(&self) -> bool
        ensures { result ≡ (variant_count (variants_in self.now) == 0) }
    {
        self.as_slice().is_empty()
    }
}

impl Clone for UnionVariants {
    ghost is_clone = { λ old new. variants_in new ≡ variants_in old };

    #[tactic(auto, using(crate::proofs::Views::one_level))]
    fn clone(&self) -> Result<UnionVariants, AllocError> {
        let variants = self.variants.clone()?;
        Ok(UnionVariants { variants })
    }
}

impl Clone for UnionVariant {
    ghost is_clone = { λ old new. variant_of new ≡ variant_of old };

    #[tactic(auto, using(crate::proofs::Views::built))]
    fn clone(&self) -> Result<UnionVariant, AllocError> {
        let name = self.name.clone()?;
        let dtype = self.dtype.clone()?;
        Ok(UnionVariant {
            name,
            tag: self.tag,
            dtype,
        })
    }
}

// Whether a tag occurs twice.
fn has_repeated(tags: &[i8]) -> bool
    ensures { result ≡ not (is_distinct tags.now) }
{
    for (i, tag) in tags.iter().enumerate() {
        if tags[i + 1..].contains(tag) {
            return true;
        }
    }
    false
}
