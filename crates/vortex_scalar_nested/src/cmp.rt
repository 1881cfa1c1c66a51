//! Equality and hashes of views of values with parts, up to nullability of their types.
ghost use Rattle.std.specs.Cmp.{on_equiv, partial_equiv_from_equiv};
ghost use Rattle.std.specs.Hash.{on_Alike};
ghost use Rattle.std.specs.Ordering.{on};
ghost use Rattle.vortex_scalar_views.specs.Compared.{eq_views, typed_writes, eq_views_equiv, eq_views_alike};
ghost use Rattle.vortex_scalar_nested.specs.Nested.{typed_list, typed_struct, typed_map, typed_extension};

use crate::ext_scalar::ExtScalar;
use crate::list_scalar::ListScalar;
use crate::map_scalar::MapScalar;
use crate::struct_scalar::StructScalar;
use std::hash::{Hash, Hasher};
use vortex_scalar_ops::eq::eq_values;
use vortex_scalar_ops::hash::hash_value;

impl PartialEq for ListScalar<'_> {
    ghost eq = { on typed_list eq_views };

    ghost laws = { partial_equiv_from_equiv (on_equiv typed_list eq_views_equiv) };

    fn eq(&self, other: &ListScalar<'_>) -> bool {
        self.dtype().eq_ignore_nullability(other.dtype()) && eq_values(self.value(), other.value())
    }
}

impl Eq for ListScalar<'_> {
    ghost laws = { on_equiv typed_list eq_views_equiv };
}

impl Hash for ListScalar<'_> {
    ghost hash_input = { λ view. typed_writes (typed_list view) };

    ghost respects_eq = { (on_Alike typed_list eq_views_alike).fed };

    fn hash<H: Hasher>(&self, state: &mut H) {
        hash_value(self.value(), state);
    }
}

impl PartialEq for StructScalar<'_> {
    ghost eq = { on typed_struct eq_views };

    ghost laws = { partial_equiv_from_equiv (on_equiv typed_struct eq_views_equiv) };

    fn eq(&self, other: &StructScalar<'_>) -> bool {
        self.dtype().eq_ignore_nullability(other.dtype()) && eq_values(self.value(), other.value())
    }
}

impl Eq for StructScalar<'_> {
    ghost laws = { on_equiv typed_struct eq_views_equiv };
}

impl Hash for StructScalar<'_> {
    ghost hash_input = { λ view. typed_writes (typed_struct view) };

    ghost respects_eq = { (on_Alike typed_struct eq_views_alike).fed };

    fn hash<H: Hasher>(&self, state: &mut H) {
        hash_value(self.value(), state);
    }
}

impl PartialEq for MapScalar<'_> {
    ghost eq = { on typed_map eq_views };

    ghost laws = { partial_equiv_from_equiv (on_equiv typed_map eq_views_equiv) };

    fn eq(&self, other: &MapScalar<'_>) -> bool {
        self.dtype().eq_ignore_nullability(other.dtype()) && eq_values(self.value(), other.value())
    }
}

impl Eq for MapScalar<'_> {
    ghost laws = { on_equiv typed_map eq_views_equiv };
}

impl Hash for MapScalar<'_> {
    ghost hash_input = { λ view. typed_writes (typed_map view) };

    ghost respects_eq = { (on_Alike typed_map eq_views_alike).fed };

    fn hash<H: Hasher>(&self, state: &mut H) {
        hash_value(self.value(), state);
    }
}

impl PartialEq for ExtScalar<'_> {
    ghost eq = { on typed_extension eq_views };

    ghost laws = { partial_equiv_from_equiv (on_equiv typed_extension eq_views_equiv) };

    fn eq(&self, other: &ExtScalar<'_>) -> bool {
        self.dtype().eq_ignore_nullability(other.dtype()) && eq_values(self.value(), other.value())
    }
}

impl Eq for ExtScalar<'_> {
    ghost laws = { on_equiv typed_extension eq_views_equiv };
}

impl Hash for ExtScalar<'_> {
    ghost hash_input = { λ view. typed_writes (typed_extension view) };

    ghost respects_eq = { (on_Alike typed_extension eq_views_alike).fed };

    fn hash<H: Hasher>(&self, state: &mut H) {
        hash_value(self.value(), state);
    }
}
