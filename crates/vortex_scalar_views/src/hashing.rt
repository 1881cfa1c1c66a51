//! Hashes of views, which don't depend on the nullability of their types.
ghost use Rattle.vortex_scalar_views.specs.Laws.{booleans_alike, numbers_alike, texts_alike, bytes_alike};
ghost use Rattle.vortex_scalar_views.specs.Ordered.{boolean_writes, number_writes, text_writes, bytes_writes};

use crate::binary_scalar::BinaryScalar;
use crate::bool_scalar::BoolScalar;
use crate::primitive_scalar::PrimitiveScalar;
use crate::utf8_scalar::Utf8Scalar;
use std::hash::{Hash, Hasher};

impl Hash for BoolScalar<'_> {
    ghost hash_input = { boolean_writes };

    ghost respects_eq = { booleans_alike };

    fn hash<H: Hasher>(&self, state: &mut H) {
        self.value().hash(state);
    }
}

impl Hash for PrimitiveScalar<'_> {
    ghost hash_input = { number_writes };

    ghost respects_eq = { numbers_alike };

    #[tactic(auto, using(crate::proofs::Numbers::seen))]
    fn hash<H: Hasher>(&self, state: &mut H) {
        self.pvalue().hash(state);
    }
}

impl Hash for Utf8Scalar<'_> {
    ghost hash_input = { text_writes };

    ghost respects_eq = { texts_alike };

    fn hash<H: Hasher>(&self, state: &mut H) {
        self.value().hash(state);
    }
}

impl Hash for BinaryScalar<'_> {
    ghost hash_input = { bytes_writes };

    ghost respects_eq = { bytes_alike };

    fn hash<H: Hasher>(&self, state: &mut H) {
        self.value().hash(state);
    }
}
