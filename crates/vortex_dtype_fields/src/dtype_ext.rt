//! Comparison, element size and hash of types.
ghost use Rattle.std.specs.Prelude.{◌≡◌, ◌↔◌, IsTrue, true, false, IfOk, OnOk, IfErr};
ghost use Rattle.std.specs.List.{fold};
ghost use Rattle.vortex_model.specs.LogicalType.{LogicalType};
ghost use Rattle.vortex_dtype_ptype.specs.declared.error.DTypeError.TheVariants.{Width};
ghost use Rattle.vortex_dtype_core.specs.View.{type_of};
ghost use Rattle.vortex_dtype_fields.specs.Hashing.{type_writes};
ghost use Rattle.vortex_dtype_fields.specs.Widths.{FitsInto, is_fixed, width_of, is_countable};

use crate::hash::hash_type;
use crate::widths::{counted_bytes, has_fixed_width};
use std::hash::Hasher;
use vortex_dtype_core::dtype::DType;
use vortex_dtype_ptype::error::DTypeError;

/// Calls on a type, which are methods of Vortex's `DType`.
pub trait DTypeExt {
    ghost kind: { Self → LogicalType };

    /// Whether the types are equal up to nullability at every level, and `other` is nullable if
    /// this one is.
    fn eq_with_nullability_subset(&self, other: &Self) -> bool
        ensures { IsTrue result ↔ FitsInto (kind self.now) (kind other.now) };

    /// Whether the types are equal up to nullability at every level, and this one is nullable if
    /// `other` is.
    fn eq_with_nullability_superset(&self, other: &Self) -> bool
        ensures { IsTrue result ↔ FitsInto (kind other.now) (kind self.now) };

    /// The size of a value in bytes, and `None` where values differ in size. `DTypeError::Width`
    /// where this size, or that of a part it is summed from, is 2^64 or more.
    fn element_size(&self) -> Result<Option<usize>, DTypeError>
        ensures size { IfOk result (λ size. size ≡ width_of (kind self.now)) }
        ensures counted { OnOk result (is_fixed (kind self.now) ≡ true
            → is_countable (kind self.now) ≡ true) }
        ensures refused { IfErr result (λ e. (e ≡ Width) × (is_fixed (kind self.now) ≡ true)
            × (is_countable (kind self.now) ≡ false)) };

    /// Hashes the type without its nullability, so that types equal up to nullability have equal
    /// hashes.
    fn hash_ignore_nullability<H: Hasher>(&self, state: &mut H)
        ensures { state.new ≡ fold H.write state.old (type_writes (kind self.now)) };
}

impl DTypeExt for DType {
    ghost kind = { type_of };

    #[tactic(auto, using(crate::proofs::Fits::fits))]
    fn eq_with_nullability_subset(&self, other: &DType) -> bool {
        if !self.eq_ignore_nullability(other) {
            return false;
        }
        !self.is_nullable() || other.is_nullable()
    }

    #[tactic(auto, using(crate::proofs::Fits::fits))]
    fn eq_with_nullability_superset(&self, other: &DType) -> bool {
        other.eq_with_nullability_subset(self)
    }

    fn element_size(&self) -> Result<Option<usize>, DTypeError> {
        if !has_fixed_width(self) {
            return Ok(None);
        }
        match counted_bytes(self) {
            Some(bytes) => Ok(Some(bytes)),
            None => Err(DTypeError::Width),
        }
    }

    fn hash_ignore_nullability<H: Hasher>(&self, state: &mut H) {
        hash_type(self, state);
    }
}
