//! Unions by the names of their variants.
ghost use Rattle.std.specs.Prelude.{◌≡◌, option_copied};
ghost use Rattle.vortex_scalar_views.specs.Forms.{Typed};
ghost use Rattle.vortex_scalar_views.specs.UnionViews.{typed_union};
ghost use Rattle.vortex_scalar_iter.specs.Choices.{name_of_choice};

use vortex_dtype_ptype::field_names::FieldName;
use vortex_scalar_views::union_scalar::UnionScalar;

/// More calls on a `UnionScalar`, which are methods of Vortex's.
pub trait UnionScalarExt {
    ghost typed: { Self → Typed };

    /// The name of the tag's variant, and `None` for null.
    fn variant_name(&self) -> Option<&FieldName>
        ensures { option_copied result ≡ name_of_choice (typed self.now) };
}

impl UnionScalarExt for UnionScalar<'_> {
    ghost typed = { typed_union };

    #[tactic(auto, using(crate::proofs::Choices::named))]
    fn variant_name(&self) -> Option<&FieldName> {
        let variants = self.variants().as_slice();
        let index = self.child_index()?;
        if index >= variants.len() {
            return None;
        }
        Some(&variants[index].name)
    }
}
