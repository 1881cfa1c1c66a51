//! Integers as buffers of a native type, in the narrowest type, and reinterpreted.
ghost use Rattle.std.specs.Prelude.{◌≡◌, map, IfOk};
ghost use Rattle.vortex_dtype_ptype.specs.View.{number_kind_of};
ghost use Rattle.vortex_scalar_value.specs.Numbers.{IsAsWide};
ghost use Rattle.vortex_arrays_model.specs.Layout.{Layout};
ghost use Rattle.vortex_arrays_leaf.specs.Shapes.{type_in, integers_in};
ghost use Rattle.vortex_arrays_dictionary.specs.Narrowed.{IsNarrowed};
ghost use Rattle.vortex_arrays_dictionary.specs.Reinterpreted.{IsReinterpreted};

use crate::narrow::narrow;
use crate::native_buffer::NativeBuffer;
use crate::reinterpret::reinterpret;
use std::alloc::{AllocError, Global};
use vortex_arrays_buffer::buffer::Buffer;
use vortex_arrays_leaf::primitive_array::PrimitiveArray;
use vortex_dtype_ptype::ptype::PType;

/// The calls of Vortex's `PrimitiveArray` besides those that arrays are made with.
pub trait PrimitiveArrayExt: Sized {
    // The layout of the array.
    ghost layout: { Self → Layout };

    /// An integer for each row, shared with the array, meaningless where the row is null. `T` has
    /// to be the array's type, as `ptype` returns it.
    fn to_buffer<T: NativeBuffer>(&self) -> Result<Buffer<T>, AllocError>
        requires { type_in (layout self.now) ≡ T.kind }
        ensures { IfOk result (λ items. map T.integer items ≡ integers_in (layout self.now)) };

    /// As `to_buffer`.
    fn into_buffer<T: NativeBuffer>(self) -> Result<Buffer<T>, AllocError>
        requires { type_in (layout self) ≡ T.kind }
        ensures { IfOk result (λ items. map T.integer items ≡ integers_in (layout self)) };

    /// The same rows in the narrowest type of the same signedness that has the integer of each row
    /// that is not null: a type of one byte where all rows are null. An array of that type is
    /// shared.
    fn narrow(&self, alloc: Global) -> Result<Self, AllocError>
        ensures { IfOk result (λ r. IsNarrowed (layout self.now) (layout r)) };

    /// The integers with the same bytes in another type of the same width, also those of null rows:
    /// a negative one is its two's complement. The same rows are null.
    fn reinterpret_cast(&self, alloc: Global, ptype: PType) -> Result<Self, AllocError>
        requires { IsAsWide (type_in (layout self.now)) (number_kind_of ptype) }
        ensures { IfOk result
            (λ r. IsReinterpreted (layout self.now) (number_kind_of ptype) (layout r)) };
}

impl PrimitiveArrayExt for PrimitiveArray {
    ghost layout = { λ a. a };

    fn to_buffer<T: NativeBuffer>(&self) -> Result<Buffer<T>, AllocError> {
        let numbers = self.to_numbers()?;
        match T::buffer_of(&numbers) {
            Some(items) => items.clone(),
            None => unreachable!(),
        }
    }

    fn into_buffer<T: NativeBuffer>(self) -> Result<Buffer<T>, AllocError> {
        self.to_buffer()
    }

    fn narrow(&self, alloc: Global) -> Result<PrimitiveArray, AllocError> {
        narrow(alloc, self)
    }

    fn reinterpret_cast(&self, alloc: Global, ptype: PType) -> Result<PrimitiveArray, AllocError> {
        reinterpret(alloc, self, ptype)
    }
}
