//! The order of views. Null is least.
ghost use Rattle.std.specs.Prelude.{◌≡◌, refl};
ghost use Rattle.std.specs.Ordering.{as_partial_cmp};
ghost use Rattle.vortex_scalar_views.specs.Laws.{booleans_total, booleans_ties, booleans_po, numbers_po, texts_total, texts_of_views_ties, texts_of_views_po, bytes_total, bytes_ties, bytes_po};
ghost use Rattle.vortex_scalar_views.specs.Ordered.{booleans_cmp, numbers_cmp, texts_cmp, bytes_cmp};

use crate::binary_scalar::BinaryScalar;
use crate::bool_scalar::BoolScalar;
use crate::primitive_scalar::PrimitiveScalar;
use crate::utf8_scalar::Utf8Scalar;
use std::cmp::Ordering;

/// False is below true.
impl Ord for BoolScalar<'_> {
    ghost cmp = { booleans_cmp };

    ghost total = { booleans_total };

    ghost matches_partial_cmp = { λ x y. refl };

    ghost matches_eq = { booleans_ties };

    fn cmp(&self, other: &BoolScalar<'_>) -> Ordering {
        self.value().cmp(&other.value())
    }
}

impl PartialOrd for BoolScalar<'_> {
    ghost partial_cmp = { as_partial_cmp booleans_cmp };

    ghost laws = { booleans_po };

    fn partial_cmp(&self, other: &BoolScalar<'_>) -> Option<Ordering> {
        Some(self.cmp(other))
    }
}

/// Strings are in lexicographic order of bytes.
impl Ord for Utf8Scalar<'_> {
    ghost cmp = { texts_cmp };

    ghost total = { texts_total };

    ghost matches_partial_cmp = { λ x y. refl };

    ghost matches_eq = { texts_of_views_ties };

    fn cmp(&self, other: &Utf8Scalar<'_>) -> Ordering {
        self.value().cmp(&other.value())
    }
}

impl PartialOrd for Utf8Scalar<'_> {
    ghost partial_cmp = { as_partial_cmp texts_cmp };

    ghost laws = { texts_of_views_po };

    fn partial_cmp(&self, other: &Utf8Scalar<'_>) -> Option<Ordering> {
        Some(self.cmp(other))
    }
}

/// Bytes are in lexicographic order.
impl Ord for BinaryScalar<'_> {
    ghost cmp = { bytes_cmp };

    ghost total = { bytes_total };

    ghost matches_partial_cmp = { λ x y. refl };

    ghost matches_eq = { bytes_ties };

    fn cmp(&self, other: &BinaryScalar<'_>) -> Ordering {
        self.value().cmp(&other.value())
    }
}

impl PartialOrd for BinaryScalar<'_> {
    ghost partial_cmp = { as_partial_cmp bytes_cmp };

    ghost laws = { bytes_po };

    fn partial_cmp(&self, other: &BinaryScalar<'_>) -> Option<Ordering> {
        Some(self.cmp(other))
    }
}

/// Integers are in numeric order. Those whose types differ in more than nullability don't compare.
impl PartialOrd for PrimitiveScalar<'_> {
    ghost partial_cmp = { numbers_cmp };

    ghost laws = { numbers_po };

    #[tactic(auto, using(crate::proofs::Numbers::seen))]
    fn partial_cmp(&self, other: &PrimitiveScalar<'_>) -> Option<Ordering> {
        if !self.dtype().eq_ignore_nullability(other.dtype()) {
            return None;
        }
        Some(self.pvalue().cmp(&other.pvalue()))
    }
}
