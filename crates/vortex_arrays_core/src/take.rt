//! The rows at indices.
ghost use Rattle.std.specs.Prelude.{◌≡◌, ◌↔◌, IsTrue, IfOk, IfErr};
ghost use Rattle.vortex_model.specs.LogicalType.{nullable, nullability_of, either_nullable};
ghost use Rattle.vortex_arrays_model.specs.Layout.{len_of, array_type_of, nullability_by, content_at, IsInteger, HasLength};
ghost use Rattle.vortex_arrays_model.specs.Picks.{PicksSome, PicksSomeValid, position_of};
ghost use Rattle.vortex_arrays_core.specs.LayoutOf.{valid_of};
ghost use Rattle.vortex_arrays_core.specs.Picking.{IsUnsigned, IsTakeFault};
ghost use Rattle.vortex_arrays_model.specs.Parts.{AreWithin};

use crate::array::{ArrayLayout, ArrayRef, Validity};
use std::alloc::{AllocError, Global};
use vortex_arrays_buffer::BitBuffer;
use vortex_arrays_view::error::ArrayError;

impl ArrayRef {
    /// Whether the array has an unsigned integer type.
    pub fn is_unsigned(&self) -> bool
        ensures { IsTrue result ↔ IsUnsigned (array_type_of self.now) }
    {
        match self.dtype().as_ptype_opt() {
            Some(ptype) => ptype.is_unsigned_int(),
            None => false,
        }
    }

    /// Whether each integer that is not null is an index below `count`.
    #[tactic(auto, using(crate::proofs::Picked::numbers_within))]
    pub fn are_within(&self, count: usize) -> bool
        requires { IsInteger (array_type_of self.now) }
        ensures { IsTrue result ↔ AreWithin self.now count }
    {
        if let ArrayLayout::Primitive(items, validity) = &self.data.layout {
            if items.are_within(count) {
                return true;
            }
            if let Some(bits) = validity.packed() {
                return items.are_within_where(bits, count);
            }
        }
        for i in 0..self.len() {
            if let Some(place) = self.integer(i) {
                if place < 0 || place >= count as i128 {
                    return false;
                }
            }
        }
        true
    }

    /// The rows at the indices, and null where an index is null, as Vortex's `ArrayRef::take`: a
    /// dictionary whose codes are the indices. `WrongType` unless the indices are unsigned
    /// integers, `OutOfRange` where one that is not null is no row.
    #[tactic(auto, using(crate::proofs::Picked::taken))]
    pub fn take(&self, alloc: Global, indices: &ArrayRef) -> Result<ArrayRef, ArrayError>
        ensures made { IfOk result (λ taken. IsUnsigned (array_type_of indices.now)
            × AreWithin indices.now (len_of self.now)
            × PicksSome self.now taken (nullability_of (array_type_of indices.now))
            (len_of indices.now) (λ i. position_of (content_at indices.now i))) }
        ensures refused { IfErr result (λ e. IsTakeFault e (len_of self.now) indices.now) }
    {
        if !indices.is_unsigned() {
            return Err(ArrayError::WrongType);
        }
        if !indices.are_within(self.len()) {
            return Err(ArrayError::OutOfRange);
        }
        indices.is_sound();
        self.is_sound();
        let taken = ArrayRef::of_dict(alloc, indices.clone()?, self.clone()?, false)?;
        Ok(taken)
    }
}

impl Validity {
    /// Which of the rows at the indices are null, in an array of `len` rows, as Vortex's
    /// `Validity::take`: also those whose index is null. The errors are those of `ArrayRef::take`.
    pub fn take(
        &self,
        alloc: Global,
        indices: &ArrayRef,
        len: usize,
    ) -> Result<Validity, ArrayError>
        requires { HasLength (valid_of self.now) len }
        ensures made { IfOk result (λ taken. IsUnsigned (array_type_of indices.now)
            × AreWithin indices.now len
            × PicksSomeValid (valid_of self.now) (valid_of taken)
            (nullability_of (array_type_of indices.now)) (len_of indices.now)
            (λ i. position_of (content_at indices.now i))) }
        ensures refused { IfErr result (λ e. IsTakeFault e len indices.now) }
    {
        if !indices.is_unsigned() {
            return Err(ArrayError::WrongType);
        }
        if !indices.are_within(len) {
            return Err(ArrayError::OutOfRange);
        }
        Ok(self.rows_at(alloc, indices, len)?)
    }

    // Which of the rows at the indices are null, in an array of `len` rows.
    #[tactic(auto, using(crate::proofs::Picked::rows_taken))]
    fn rows_at(&self, alloc: Global, indices: &ArrayRef, len: usize) -> Result<Validity, AllocError>
        requires kind { IsInteger (array_type_of indices.now) }
        requires within { AreWithin indices.now len }
        requires fits { HasLength (valid_of self.now) len }
        ensures { IfOk result (λ taken. PicksSomeValid (valid_of self.now) (valid_of taken)
            (nullability_of (array_type_of indices.now)) (len_of indices.now)
            (λ i. position_of (content_at indices.now i))) }
    {
        indices.is_sound();
        if indices.dtype().is_nullable() {
            return match (self, &indices.data.layout) {
                (Validity::AllInvalid, _) => Ok(Validity::AllInvalid),
                (Validity::NonNullable, ArrayLayout::Primitive(_, nulls)) => Ok(nulls.clone()?),
                (Validity::AllValid, ArrayLayout::Primitive(_, nulls)) => Ok(nulls.clone()?),
                _ => self.array_at(alloc, indices, len),
            };
        }
        match self {
            Validity::NonNullable => Ok(Validity::NonNullable),
            Validity::AllValid => Ok(Validity::AllValid),
            Validity::AllInvalid => Ok(Validity::AllInvalid),
            Validity::Array(_) => self.array_at(alloc, indices, len),
        }
    }

    // The null rows as an array of booleans, where a row or an index can be null.
    fn array_at(
        &self,
        alloc: Global,
        indices: &ArrayRef,
        len: usize,
    ) -> Result<Validity, AllocError>
        requires kind { IsInteger (array_type_of indices.now) }
        requires within { AreWithin indices.now len }
        requires fits { HasLength (valid_of self.now) len }
        requires nullable { either_nullable (nullability_of (array_type_of indices.now))
            (nullability_by (valid_of self.now)) ≡ nullable }
        ensures { IfOk result (λ taken. PicksSomeValid (valid_of self.now) (valid_of taken)
            (nullability_of (array_type_of indices.now)) (len_of indices.now)
            (λ i. position_of (content_at indices.now i))) }
    {
        if let (Some(rows), ArrayLayout::Primitive(places, nulls)) = (
            self.packed(),
            &indices.data.layout,
        ) {
            let rows = places.bits_at(alloc, rows)?;
            let rows = ArrayRef::of_bools(alloc, rows, Validity::NonNullable)?;
            return Validity::Array(rows).and(alloc, nulls, places.len());
        }
        let bits = BitBuffer::collect_bool(alloc, indices.len(), |i| match indices.integer(i) {
            Some(place) => self.is_valid(place as usize, len),
            None => false,
        })?;
        let rows = ArrayRef::of_bools(alloc, bits, Validity::NonNullable)?;
        Ok(Validity::Array(rows))
    }
}
