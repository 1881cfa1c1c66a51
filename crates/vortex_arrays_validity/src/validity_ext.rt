//! The calls of `Validity` that arrays themselves don't make.
ghost use Rattle.std.specs.Prelude.{◌≡◌, ◌<◌, ◌↔◌, ℕ, Option, option_map, not, length, map, IsTrue, IfOk, OnOk, IfErr, IfSome, IfNone, All, true, false};
ghost use Rattle.vortex_model.specs.LogicalType.{either_nullable, nullable, non_nullable};
ghost use Rattle.vortex_dtype_ptype.specs.View.{nullability_of_flag};
ghost use Rattle.vortex_arrays_model.specs.Layout.{Valid, len_of, nullability_by, is_valid, HasLength};
ghost use Rattle.vortex_arrays_core.specs.LayoutOf.{valid_of};
ghost use Rattle.vortex_arrays_validity.specs.Validities.{
  array_in,
  shows_all_null,
  shows_no_null,
  valid_rows,
  IsByBits,
  IsCastFault,
  IsInverse,
  CanPatch,
  IsMaskArray,
  IsPatched,
  IsPatchFault,
  IsRecast,
  NoneNull,
};

use crate::bits::{are_true, array_of_rows, bits_of, inverse, of_bits, of_rows, same_rows};
use crate::patch::{check_patches, patched};
use std::alloc::{AllocError, Global};
use vortex_arrays_buffer::{BitBuffer, Mask};
use vortex_arrays_core::array::{ArrayRef, Validity};
use vortex_arrays_view::error::ArrayError;
use vortex_dtype_ptype::nullability::Nullability;

/// The calls of Vortex's `Validity` besides those that arrays are made with. `len` is the number of
/// rows of the array that the validity belongs to.
pub trait ValidityExt {
    // Which rows are null.
    ghost valid: { Self → Valid };

    /// Whether no row is null, as far as is known without reading an array.
    fn definitely_no_nulls(&self) -> bool
        ensures { result ≡ shows_no_null (valid self.now) };

    /// Whether each row is null, as far as is known without reading an array.
    fn definitely_all_null(&self) -> bool
        ensures { result ≡ shows_all_null (valid self.now) };

    /// The array that is true where a row is not null, if the validity has one.
    fn as_array(&self) -> Option<&ArrayRef>
        ensures { option_map (λ a. a.now) result ≡ array_in (valid self.now) };

    /// The array that is true where a row is not null, if the validity has one.
    fn into_array(self) -> Result<Option<ArrayRef>, AllocError>
        ensures { IfOk result (λ found. found ≡ array_in (valid self)) };

    /// The number of rows, if the validity has an array.
    fn maybe_len(&self) -> Option<usize>
        ensures { result ≡ option_map len_of (array_in (valid self.now)) };

    /// An array of `len` booleans, true where a row is not null. It is shared if the validity has
    /// one.
    fn to_array(&self, alloc: Global, len: usize) -> Result<ArrayRef, AllocError>
        requires { HasLength (valid self.now) len }
        ensures { IfOk result (λ a. IsMaskArray (valid self.now) len a) };

    /// The same rows as null, with the array, if there is one, as packed bits.
    fn execute(&self, alloc: Global, len: usize) -> Result<Self, AllocError>
        requires { HasLength (valid self.now) len }
        ensures same { IfOk result (λ v. IsRecast (valid self.now) (valid v)
            (nullability_by (valid self.now)) len) }
        ensures bits { IfOk result (λ v. IsByBits (valid v)) };

    /// Whether no row is null.
    fn execute_no_nulls(&self, len: usize) -> bool
        requires { HasLength (valid self.now) len }
        ensures { IsTrue result ↔ NoneNull (valid self.now) len };

    /// As `Validity::is_valid`.
    fn execute_is_valid(&self, i: usize, len: usize) -> bool
        requires within { i < len }
        requires fits { HasLength (valid self.now) len }
        ensures { result ≡ is_valid (valid self.now) i };

    /// As `Validity::is_null`.
    fn execute_is_null(&self, i: usize, len: usize) -> bool
        requires within { i < len }
        requires fits { HasLength (valid self.now) len }
        ensures { result ≡ not (is_valid (valid self.now) i) };

    /// The rows that are not null. Packed bits are shared.
    fn to_mask(&self, alloc: Global, len: usize) -> Result<Mask, AllocError>
        requires { HasLength (valid self.now) len }
        ensures { IfOk result (λ mask. mask ≡ valid_rows (valid self.now) len) };

    /// As `to_mask`.
    fn execute_mask(&self, alloc: Global, len: usize) -> Result<Mask, AllocError>
        requires { HasLength (valid self.now) len }
        ensures { IfOk result (λ mask. mask ≡ valid_rows (valid self.now) len) };

    /// Whether two validities of `len` rows have the same rows null. It allocates nothing.
    fn mask_eq(&self, other: &Self, len: usize) -> bool
        requires mine { HasLength (valid self.now) len }
        requires theirs { HasLength (valid other.now) len }
        ensures { IsTrue result
            ↔ ((i : ℕ) → i < len → is_valid (valid self.now) i ≡ is_valid (valid other.now) i) };

    /// The inverse, which has null rows where this has none. A validity without nulls stays one.
    fn not(&self, alloc: Global, len: usize) -> Result<Self, AllocError>
        requires { HasLength (valid self.now) len }
        ensures { IfOk result (λ v. IsInverse (valid self.now) (valid v) len) };

    /// The same null rows, nullable also where `nullability` is.
    fn union_nullability(self, nullability: Nullability) -> Self
        ensures { (n : ℕ) → HasLength (valid self) n → IsRecast (valid self) (valid result)
            (either_nullable (nullability_by (valid self)) (nullability_of_flag nullability)) n };

    /// The same null rows, nullable.
    fn into_nullable(self) -> Self
        ensures { (n : ℕ) → HasLength (valid self) n
            → IsRecast (valid self) (valid result) nullable n };

    /// `NonNullable` where no row is null, as far as is known without reading an array, and else
    /// `None`.
    fn trivial_into_non_nullable(self) -> Option<Self>
        ensures made { IfSome result (λ v. nullability_by (valid v) ≡ non_nullable) }
        ensures known { IfSome result (λ v. shows_no_null (valid self) ≡ true) }
        ensures none { IfNone result (shows_no_null (valid self) ≡ false) };

    /// `NonNullable` where no row is null, and else `None`.
    fn into_non_nullable(self, len: usize) -> Option<Self>
        requires { HasLength (valid self) len }
        ensures made { IfSome result (λ v. nullability_by (valid v) ≡ non_nullable) }
        ensures some { IfSome result (λ v. NoneNull (valid self) len) }
        ensures none { IfNone result (NoneNull (valid self) len → ⊥) };

    /// The same null rows with this nullability. `None` for `NonNullable`, unless no row is null as
    /// far as is known without reading an array.
    fn trivially_cast_nullability(self, nullability: Nullability) -> Option<Self>
        ensures made { IfSome result (λ v. (n : ℕ) → HasLength (valid self) n
            → IsRecast (valid self) (valid v) (nullability_of_flag nullability) n) }
        ensures none { IfNone result ((nullability_of_flag nullability ≡ non_nullable)
            × (shows_no_null (valid self) ≡ false)) };

    /// The same null rows with this nullability. `NullInNonNullable` for `NonNullable` where a row
    /// is null.
    fn cast_nullability(self, nullability: Nullability, len: usize) -> Result<Self, ArrayError>
        requires { HasLength (valid self) len }
        ensures made { IfOk result (λ v. IsRecast (valid self) (valid v)
            (nullability_of_flag nullability) len) }
        ensures refused { IfErr result
            (λ e. IsCastFault e (valid self) (nullability_of_flag nullability) len) };

    /// The validity whose rows are null where a bit is false. For `NonNullable` each bit has to be
    /// true.
    fn from_bit_buffer(
        alloc: Global,
        bits: BitBuffer,
        nullability: Nullability,
    ) -> Result<Self, AllocError>
        requires { nullability_of_flag nullability ≡ non_nullable → All (λ b. b ≡ true) bits }
        ensures { IfOk result (λ v. (HasLength (valid v) (length bits))
            × (nullability_by (valid v) ≡ nullability_of_flag nullability)
            × (valid_rows (valid v) (length bits) ≡ bits)) };

    /// The validity whose rows are null where the mask doesn't keep them. For `NonNullable` it has
    /// to keep all.
    fn from_mask(alloc: Global, mask: &Mask, nullability: Nullability) -> Result<Self, AllocError>
        requires { nullability_of_flag nullability ≡ non_nullable → All (λ b. b ≡ true) mask.now }
        ensures { IfOk result (λ v. (HasLength (valid v) (length mask.now))
            × (nullability_by (valid v) ≡ nullability_of_flag nullability)
            × (valid_rows (valid v) (length mask.now) ≡ mask.now)) };

    /// The validity with the rows at the indices overwritten by those of `patches`, one after
    /// another; a null index is skipped.
    ///
    /// `WrongType` unless the indices are unsigned integers and the array of `patches`, if it has
    /// one, is of booleans without null; else `OutOfRange` where an index is no row; else
    /// `LengthMismatch` where that array and the indices differ in length.
    fn patch(
        &self,
        alloc: Global,
        len: usize,
        indices: &ArrayRef,
        patches: &Self,
    ) -> Result<Self, ArrayError>
        requires { HasLength (valid self.now) len }
        ensures made { IfOk result
            (λ v. IsPatched (valid self.now) (valid patches.now) indices.now (valid v) len) }
        ensures accepted { OnOk result (CanPatch len indices.now (valid patches.now)) }
        ensures refused { IfErr result
            (λ e. IsPatchFault e len indices.now (valid patches.now)) };
}

impl ValidityExt for Validity {
    ghost valid = { valid_of };

    fn definitely_no_nulls(&self) -> bool {
        match self {
            Validity::NonNullable => true,
            Validity::AllValid => true,
            Validity::AllInvalid => false,
            Validity::Array(_) => false,
        }
    }

    fn definitely_all_null(&self) -> bool {
        match self {
            Validity::NonNullable => false,
            Validity::AllValid => false,
            Validity::AllInvalid => true,
            Validity::Array(_) => false,
        }
    }

    fn as_array(&self) -> Option<&ArrayRef> {
        match self {
            Validity::NonNullable => None,
            Validity::AllValid => None,
            Validity::AllInvalid => None,
            Validity::Array(rows) => Some(rows),
        }
    }

    fn into_array(self) -> Result<Option<ArrayRef>, AllocError> {
        match &self {
            Validity::NonNullable => Ok(None),
            Validity::AllValid => Ok(None),
            Validity::AllInvalid => Ok(None),
            Validity::Array(rows) => Ok(Some(rows.clone()?)),
        }
    }

    fn maybe_len(&self) -> Option<usize> {
        match self {
            Validity::NonNullable => None,
            Validity::AllValid => None,
            Validity::AllInvalid => None,
            Validity::Array(rows) => Some(rows.len()),
        }
    }

    #[tactic(auto, using(crate::proofs::Rows::mask_array))]
    fn to_array(&self, alloc: Global, len: usize) -> Result<ArrayRef, AllocError> {
        match self {
            Validity::NonNullable => array_of_rows(alloc, BitBuffer::new_set(alloc, len)?),
            Validity::AllValid => array_of_rows(alloc, BitBuffer::new_set(alloc, len)?),
            Validity::AllInvalid => array_of_rows(alloc, BitBuffer::new_unset(alloc, len)?),
            Validity::Array(rows) => rows.clone(),
        }
    }

    #[tactic(auto, using(crate::proofs::Rows::executed))]
    fn execute(&self, alloc: Global, len: usize) -> Result<Validity, AllocError> {
        match self {
            Validity::NonNullable => Ok(Validity::NonNullable),
            Validity::AllValid => Ok(Validity::AllValid),
            Validity::AllInvalid => Ok(Validity::AllInvalid),
            Validity::Array(rows) => of_bits(alloc, bits_of(alloc, rows)?),
        }
    }

    #[tactic(auto, using(crate::proofs::Rows::counted))]
    fn execute_no_nulls(&self, len: usize) -> bool {
        match self {
            Validity::NonNullable => true,
            Validity::AllValid => true,
            Validity::AllInvalid => len == 0,
            Validity::Array(rows) => are_true(rows),
        }
    }

    fn execute_is_valid(&self, i: usize, len: usize) -> bool {
        self.is_valid(i, len)
    }

    fn execute_is_null(&self, i: usize, len: usize) -> bool {
        self.is_null(i, len)
    }

    #[tactic(auto, using(crate::proofs::Rows::masks))]
    fn to_mask(&self, alloc: Global, len: usize) -> Result<Mask, AllocError> {
        match self {
            Validity::NonNullable => Mask::new_true(alloc, len),
            Validity::AllValid => Mask::new_true(alloc, len),
            Validity::AllInvalid => Mask::new_false(alloc, len),
            Validity::Array(rows) => Ok(Mask::from_buffer(bits_of(alloc, rows)?)),
        }
    }

    fn execute_mask(&self, alloc: Global, len: usize) -> Result<Mask, AllocError> {
        self.to_mask(alloc, len)
    }

    fn mask_eq(&self, other: &Validity, len: usize) -> bool {
        same_rows(self, other, len)
    }

    fn not(&self, alloc: Global, len: usize) -> Result<Validity, AllocError> {
        match self {
            Validity::NonNullable => Ok(Validity::NonNullable),
            Validity::AllValid => Ok(Validity::AllInvalid),
            Validity::AllInvalid => Ok(Validity::AllValid),
            Validity::Array(rows) => inverse(alloc, rows),
        }
    }

    fn union_nullability(self, nullability: Nullability) -> Validity {
        match nullability {
            Nullability::NonNullable => self,
            Nullability::Nullable => self.into_nullable(),
        }
    }

    fn into_nullable(self) -> Validity {
        if self.nullability().is_nullable() {
            self
        } else {
            Validity::AllValid
        }
    }

    fn trivial_into_non_nullable(self) -> Option<Validity> {
        if self.definitely_no_nulls() {
            Some(Validity::NonNullable)
        } else {
            None
        }
    }

    fn into_non_nullable(self, len: usize) -> Option<Validity> {
        if self.execute_no_nulls(len) {
            Some(Validity::NonNullable)
        } else {
            None
        }
    }

    fn trivially_cast_nullability(self, nullability: Nullability) -> Option<Validity> {
        match nullability {
            Nullability::NonNullable => self.trivial_into_non_nullable(),
            Nullability::Nullable => Some(self.into_nullable()),
        }
    }

    fn cast_nullability(
        self,
        nullability: Nullability,
        len: usize,
    ) -> Result<Validity, ArrayError> {
        match nullability {
            Nullability::NonNullable => {
                let cast = self.into_non_nullable(len);
                cast.ok_or(ArrayError::NullInNonNullable)
            }
            Nullability::Nullable => Ok(self.into_nullable()),
        }
    }

    #[tactic(auto, using(crate::proofs::Rows::rows))]
    fn from_bit_buffer(
        alloc: Global,
        bits: BitBuffer,
        nullability: Nullability,
    ) -> Result<Validity, AllocError> {
        match nullability {
            Nullability::NonNullable => Ok(Validity::NonNullable),
            Nullability::Nullable => of_rows(alloc, Mask::from_buffer(bits)),
        }
    }

    fn from_mask(
        alloc: Global,
        mask: &Mask,
        nullability: Nullability,
    ) -> Result<Validity, AllocError> {
        let bits = mask.bit_buffer().clone()?;
        Validity::from_bit_buffer(alloc, bits, nullability)
    }

    fn patch(
        &self,
        alloc: Global,
        len: usize,
        indices: &ArrayRef,
        patches: &Validity,
    ) -> Result<Validity, ArrayError> {
        check_patches(len, indices, patches)?;
        let rows = patched(alloc, self, len, indices, patches)?;
        Ok(rows)
    }
}
