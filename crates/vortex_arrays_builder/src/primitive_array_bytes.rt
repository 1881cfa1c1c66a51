//! Arrays of integers from their bytes.
ghost use Rattle.std.specs.Prelude.{◌≡◌, IfOk, IfErr};
ghost use Rattle.vortex_dtype_ptype.specs.View.{number_kind_of};
ghost use Rattle.vortex_arrays_model.specs.Layout.{Layout, required, len_of};
ghost use Rattle.vortex_arrays_core.specs.LayoutOf.{valid_of};
ghost use Rattle.vortex_arrays_builder.specs.Integers.{IsOfBytes, IsBytesFault, IsValueBytesFault};

use crate::integers::{count_valid, read_numbers};
use std::alloc::Global;
use vortex_arrays_core::array::Validity;
use vortex_arrays_leaf::primitive_array::PrimitiveArray;
use vortex_arrays_view::error::ArrayError;
use vortex_dtype_core::ByteBuffer;
use vortex_dtype_ptype::ptype::PType;

/// The calls of Vortex's `PrimitiveArray` that read integers from little-endian bytes.
pub trait PrimitiveArrayBytes: Sized {
    // The layout of the array.
    ghost layout: { Self → Layout };

    /// An array of the integers of this type that have these bytes, with these nulls, as Vortex's
    /// `PrimitiveArray::from_byte_buffer`. A null row has bytes too.
    ///
    /// `WrongType` for a float type, or where the validity's array does not have the type of
    /// booleans without null. Else `LengthMismatch` where the length of the bytes is no multiple of
    /// the type's width, or the validity has another number of rows.
    fn from_byte_buffer(
        alloc: Global,
        buffer: ByteBuffer,
        ptype: PType,
        validity: Validity,
    ) -> Result<Self, ArrayError>
        ensures made { IfOk result (λ a. IsOfBytes (number_kind_of ptype) buffer required
            (valid_of validity) (len_of (layout a)) (layout a)) }
        ensures refused { IfErr result
            (λ e. IsBytesFault e (number_kind_of ptype) buffer (valid_of validity)) };

    /// An array of `rows` rows, of which those that are not null have, in order, the integers of
    /// this type that have these bytes, as Vortex's `PrimitiveArray::from_values_byte_buffer`. The
    /// integer of a null row is 0.
    ///
    /// `WrongType` as for `from_byte_buffer`. Else `LengthMismatch` where the bytes aren't those of
    /// one integer for each row that is not null, or the validity does not have `rows` rows.
    fn from_values_byte_buffer(
        alloc: Global,
        values: ByteBuffer,
        ptype: PType,
        validity: Validity,
        rows: usize,
    ) -> Result<Self, ArrayError>
        ensures made { IfOk result (λ a. IsOfBytes (number_kind_of ptype) values
            (valid_of validity) (valid_of validity) rows (layout a)) }
        ensures refused { IfErr result
            (λ e. IsValueBytesFault e (number_kind_of ptype) values (valid_of validity) rows) };
}

impl PrimitiveArrayBytes for PrimitiveArray {
    ghost layout = { λ a. a };

    #[tactic(auto, using(crate::proofs::IntegerLemmas::whole_buffers))]
    fn from_byte_buffer(
        alloc: Global,
        buffer: ByteBuffer,
        ptype: PType,
        validity: Validity,
    ) -> Result<PrimitiveArray, ArrayError> {
        if !ptype.is_int() {
            return Err(ArrayError::WrongType);
        }
        let width = ptype.byte_width();
        let rows = buffer.len() / width;
        validity.check_len(rows)?;
        if rows * width != buffer.len() {
            return Err(ArrayError::LengthMismatch);
        }
        let each = Validity::NonNullable;
        let numbers = read_numbers(alloc, ptype, buffer.as_slice(), &each, rows)?;
        let array = PrimitiveArray::new_unchecked(alloc, numbers, validity)?;
        Ok(array)
    }

    #[tactic(auto, using(crate::proofs::IntegerLemmas::value_buffers))]
    fn from_values_byte_buffer(
        alloc: Global,
        values: ByteBuffer,
        ptype: PType,
        validity: Validity,
        rows: usize,
    ) -> Result<PrimitiveArray, ArrayError> {
        if !ptype.is_int() {
            return Err(ArrayError::WrongType);
        }
        validity.check_len(rows)?;
        let width = ptype.byte_width();
        let count = values.len() / width;
        if count * width != values.len() || count != count_valid(&validity, rows) {
            return Err(ArrayError::LengthMismatch);
        }
        let numbers = read_numbers(alloc, ptype, values.as_slice(), &validity, rows)?;
        let array = PrimitiveArray::new_unchecked(alloc, numbers, validity)?;
        Ok(array)
    }
}
