//! Equality of views, up to nullability of their types.
ghost use Rattle.std.specs.Cmp.{bool_eq_equiv, on_equiv, partial_equiv_from_equiv};
ghost use Rattle.std.specs.Cmp.Lexicographic.{options_equiv, nat_list_eq_equiv};
ghost use Rattle.vortex_scalar_views.specs.Equal.{bool_of_view, text_of_view, bytes_of_view, eq_booleans, eq_numbers, eq_texts, eq_bytes};
ghost use Rattle.vortex_scalar_views.specs.Laws.{numbers_equiv};

use crate::binary_scalar::BinaryScalar;
use crate::bool_scalar::BoolScalar;
use crate::primitive_scalar::PrimitiveScalar;
use crate::utf8_scalar::Utf8Scalar;

impl PartialEq for BoolScalar<'_> {
    ghost eq = { eq_booleans };

    ghost laws = { partial_equiv_from_equiv (on_equiv bool_of_view (options_equiv bool_eq_equiv)) };

    fn eq(&self, other: &BoolScalar<'_>) -> bool {
        self.value() == other.value()
    }
}

impl Eq for BoolScalar<'_> {
    ghost laws = { on_equiv bool_of_view (options_equiv bool_eq_equiv) };
}

/// Integers are equal where their types are, up to nullability, and their numeric values are.
impl PartialEq for PrimitiveScalar<'_> {
    ghost eq = { eq_numbers };

    ghost laws = { partial_equiv_from_equiv numbers_equiv };

    #[tactic(auto, using(crate::proofs::Numbers::seen))]
    fn eq(&self, other: &PrimitiveScalar<'_>) -> bool {
        self.dtype().eq_ignore_nullability(other.dtype()) && self.pvalue() == other.pvalue()
    }
}

impl Eq for PrimitiveScalar<'_> {
    ghost laws = { numbers_equiv };
}

impl PartialEq for Utf8Scalar<'_> {
    ghost eq = { eq_texts };

    ghost laws = { partial_equiv_from_equiv
        (on_equiv text_of_view (options_equiv nat_list_eq_equiv)) };

    fn eq(&self, other: &Utf8Scalar<'_>) -> bool {
        self.value() == other.value()
    }
}

impl Eq for Utf8Scalar<'_> {
    ghost laws = { on_equiv text_of_view (options_equiv nat_list_eq_equiv) };
}

impl PartialEq for BinaryScalar<'_> {
    ghost eq = { eq_bytes };

    ghost laws = { partial_equiv_from_equiv
        (on_equiv bytes_of_view (options_equiv nat_list_eq_equiv)) };

    fn eq(&self, other: &BinaryScalar<'_>) -> bool {
        self.value() == other.value()
    }
}

impl Eq for BinaryScalar<'_> {
    ghost laws = { on_equiv bytes_of_view (options_equiv nat_list_eq_equiv) };
}
