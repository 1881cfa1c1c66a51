//! Integers with the same bytes in another type.
ghost use Rattle.std.specs.Prelude.{◌≡◌, map, IfOk};
ghost use Rattle.vortex_dtype_ptype.specs.Numbers.{integral, reach_of};
ghost use Rattle.vortex_dtype_ptype.specs.View.{number_kind_of};
ghost use Rattle.vortex_scalar_value.specs.Numbers.{IsAsWide, HaveSameBytes};
ghost use Rattle.vortex_arrays_buffer.specs.PrimitiveBuffers.{kind_of_numbers, integers_of};
ghost use Rattle.vortex_arrays_leaf.specs.Shapes.{type_in};
ghost use Rattle.vortex_arrays_dictionary.specs.Reinterpreted.{AreReinterpreted, IsReinterpreted};

use std::alloc::{AllocError, Global};
use vortex_arrays_buffer::buffer::Buffer;
use vortex_arrays_buffer::element::Element;
use vortex_arrays_buffer::primitive_buffer::PrimitiveBuffer;
use vortex_arrays_leaf::primitive_array::PrimitiveArray;
use vortex_dtype_native::match_each_integer_ptype;
use vortex_dtype_native::native::NativePType;
use vortex_dtype_ptype::ptype::PType;

/// The integers of the array reinterpreted in another type of the same width.
#[tactic(auto, using(crate::proofs::ReinterpretLemmas::made))]
pub(crate) fn reinterpret(
    alloc: Global,
    array: &PrimitiveArray,
    ptype: PType,
) -> Result<PrimitiveArray, AllocError>
    requires { IsAsWide (type_in array.now) (number_kind_of ptype) }
    ensures { IfOk result (λ r. IsReinterpreted array.now (number_kind_of ptype) r) }
{
    let _rows = array.as_array().len();
    let numbers = array.to_numbers()?;
    let validity = array.validity()?;
    let cast = reinterpret_numbers(alloc, ptype, &numbers)?;
    let reinterpreted = PrimitiveArray::new_unchecked(alloc, cast, validity)?;
    Ok(reinterpreted)
}

// The integers reinterpreted in another type of the same width.
fn reinterpret_numbers(
    alloc: Global,
    ptype: PType,
    numbers: &PrimitiveBuffer,
) -> Result<PrimitiveBuffer, AllocError>
    requires { IsAsWide (kind_of_numbers numbers.now) (number_kind_of ptype) }
    ensures kind { IfOk result (λ r. integral (kind_of_numbers r) ≡ number_kind_of ptype) }
    ensures bytes { IfOk result (λ r. AreReinterpreted (kind_of_numbers numbers.now)
        (integers_of numbers.now) (kind_of_numbers r) (integers_of r)) }
{
    match_each_integer_ptype!(ptype, reinterpret_to(alloc, numbers))
}

// The integers reinterpreted in a native type.
#[tactic(auto, using(vortex_arrays_buffer::proofs::NumberLemmas::eq_numbers))]
fn reinterpret_to<U: Element>(
    alloc: Global,
    numbers: &PrimitiveBuffer,
) -> Result<PrimitiveBuffer, AllocError>
    requires { reach_of (kind_of_numbers numbers.now) ≡ reach_of U.kind }
    ensures kind { IfOk result (λ r. kind_of_numbers r ≡ U.kind) }
    ensures bytes { IfOk result (λ r. AreReinterpreted (kind_of_numbers numbers.now)
        (integers_of numbers.now) U.kind (integers_of r)) }
{
    match numbers {
        PrimitiveBuffer::U8(items) => reinterpret_slice::<u8, U>(alloc, items.as_slice()),
        PrimitiveBuffer::U16(items) => reinterpret_slice::<u16, U>(alloc, items.as_slice()),
        PrimitiveBuffer::U32(items) => reinterpret_slice::<u32, U>(alloc, items.as_slice()),
        PrimitiveBuffer::U64(items) => reinterpret_slice::<u64, U>(alloc, items.as_slice()),
        PrimitiveBuffer::I8(items) => reinterpret_slice::<i8, U>(alloc, items.as_slice()),
        PrimitiveBuffer::I16(items) => reinterpret_slice::<i16, U>(alloc, items.as_slice()),
        PrimitiveBuffer::I32(items) => reinterpret_slice::<i32, U>(alloc, items.as_slice()),
        PrimitiveBuffer::I64(items) => reinterpret_slice::<i64, U>(alloc, items.as_slice()),
    }
}

// The items reinterpreted as a list of another native type.
fn reinterpret_slice<T: NativePType, U: Element>(
    alloc: Global,
    items: &[T],
) -> Result<PrimitiveBuffer, AllocError>
    requires { reach_of T.kind ≡ reach_of U.kind }
    ensures kind { IfOk result (λ r. kind_of_numbers r ≡ U.kind) }
    ensures bytes { IfOk result (λ r. AreReinterpreted T.kind (map T.integer items.now) U.kind
        (integers_of r)) }
{
    let cast: Vec<U> = reinterpret_items(alloc, items)?;
    let cast = Buffer::from_vec(cast)?;
    Ok(PrimitiveBuffer::from_buffer(cast))
}

// The items reinterpreted in another native type.
fn reinterpret_items<T: NativePType, U: NativePType>(
    alloc: Global,
    items: &[T],
) -> Result<Vec<U>, AllocError>
    requires { reach_of T.kind ≡ reach_of U.kind }
    ensures { IfOk result (λ cast. AreReinterpreted T.kind (map T.integer items.now) U.kind
        (map U.integer cast.items)) }
{
    items
        .iter()
        .map(|item| reinterpret_item(*item))
        .collect(alloc)
}

// The item reinterpreted in another native type.
#[tactic(auto, using(crate::proofs::ReinterpretLemmas::item))]
fn reinterpret_item<T: NativePType, U: NativePType>(item: T) -> U
    requires { reach_of T.kind ≡ reach_of U.kind }
    ensures { HaveSameBytes T.kind (T.integer item) U.kind (U.integer result) }
{
    let (bytes, width) = item.to_le_bytes();
    match U::try_from_le_bytes(&bytes[..width]) {
        Ok(number) => number,
        Err(_) => unreachable!(),
    }
}
