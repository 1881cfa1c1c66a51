//! Equality and hashes of views of unions and of `Variant` values, up to nullability of their
//! types.
ghost use Rattle.std.specs.Cmp.{on_equiv, partial_equiv_from_equiv};
ghost use Rattle.std.specs.Hash.{on_Alike};
ghost use Rattle.std.specs.Ordering.{on};
ghost use Rattle.vortex_scalar_views.specs.Compared.{eq_views, typed_writes, eq_views_equiv, eq_views_alike};
ghost use Rattle.vortex_scalar_views.specs.UnionViews.{typed_union, typed_variant};

use crate::union_scalar::UnionScalar;
use crate::variant_scalar::VariantScalar;
use std::hash::{Hash, Hasher};
use vortex_scalar_ops::eq::eq_values;
use vortex_scalar_ops::hash::hash_value;

impl PartialEq for UnionScalar<'_> {
    ghost eq = { on typed_union eq_views };

    ghost laws = { partial_equiv_from_equiv (on_equiv typed_union eq_views_equiv) };

    fn eq(&self, other: &UnionScalar<'_>) -> bool {
        self.dtype().eq_ignore_nullability(other.dtype()) && eq_values(self.value(), other.value())
    }
}

impl Eq for UnionScalar<'_> {
    ghost laws = { on_equiv typed_union eq_views_equiv };
}

impl Hash for UnionScalar<'_> {
    ghost hash_input = { λ view. typed_writes (typed_union view) };

    ghost respects_eq = { (on_Alike typed_union eq_views_alike).fed };

    fn hash<H: Hasher>(&self, state: &mut H) {
        hash_value(self.value(), state);
    }
}

impl PartialEq for VariantScalar<'_> {
    ghost eq = { on typed_variant eq_views };

    ghost laws = { partial_equiv_from_equiv (on_equiv typed_variant eq_views_equiv) };

    fn eq(&self, other: &VariantScalar<'_>) -> bool {
        self.dtype().eq_ignore_nullability(other.dtype())
            && eq_values(self.stored(), other.stored())
    }
}

impl Eq for VariantScalar<'_> {
    ghost laws = { on_equiv typed_variant eq_views_equiv };
}

impl Hash for VariantScalar<'_> {
    ghost hash_input = { λ view. typed_writes (typed_variant view) };

    ghost respects_eq = { (on_Alike typed_variant eq_views_alike).fed };

    fn hash<H: Hasher>(&self, state: &mut H) {
        hash_value(self.stored(), state);
    }
}
