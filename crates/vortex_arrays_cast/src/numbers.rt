//! Integers as those of another type.
ghost use Rattle.std.specs.Prelude.{◌≡◌, map, IfOk, IfSome};
ghost use Rattle.std.specs.List.{list_all};
ghost use Rattle.vortex_model.specs.Valid.{in_range};
ghost use Rattle.vortex_dtype_ptype.specs.Numbers.{integral};
ghost use Rattle.vortex_dtype_ptype.specs.View.{number_kind_of};
ghost use Rattle.vortex_arrays_buffer.specs.PrimitiveBuffers.{kind_of_numbers, integers_of};
ghost use Rattle.vortex_arrays_cast.specs.Cast.{low_bits};
ghost use Rattle.vortex_arrays_cast.specs.Ranges.{holds_range, Keeps};

use crate::low_bits::LowBits;
use std::alloc::{AllocError, Global};
use vortex_arrays_buffer::buffer::Buffer;
use vortex_arrays_buffer::primitive_buffer::PrimitiveBuffer;
use vortex_dtype_native::match_each_integer_ptype;
use vortex_dtype_native::native::NativePType;
use vortex_dtype_ptype::ptype::PType;

/// The integers in another type, and `None` where that does not have each of them. Where the type
/// is their own, they are shared.
///
/// Where the type has all of the range, no integer is tested, and the result for one outside of the
/// range is arbitrary.
pub(crate) fn numbers_as(
    alloc: Global,
    ptype: PType,
    numbers: &PrimitiveBuffer,
    range: Option<(i128, i128)>,
) -> Result<Option<PrimitiveBuffer>, AllocError>
    ensures kind { IfOk result
        (λ cast. IfSome cast (λ c. integral (kind_of_numbers c) ≡ number_kind_of ptype)) }
    ensures integers { IfOk result
        (λ cast. IfSome cast (λ c. Keeps range (integers_of numbers.now) (integers_of c))) }
{
    if numbers.ptype() == ptype {
        let same = numbers.clone()?;
        return Ok(Some(same));
    }
    if !ptype.is_int() {
        return Ok(None);
    }
    match_each_integer_ptype!(ptype, cast_to(alloc, numbers, range))
}

// The integers in a native type.
#[tactic(auto, using(vortex_arrays_buffer::proofs::NumberLemmas::eq_numbers))]
fn cast_to<U: LowBits>(
    alloc: Global,
    numbers: &PrimitiveBuffer,
    range: Option<(i128, i128)>,
) -> Result<Option<PrimitiveBuffer>, AllocError>
    ensures kind { IfOk result (λ cast. IfSome cast (λ c. kind_of_numbers c ≡ U.kind)) }
    ensures integers { IfOk result
        (λ cast. IfSome cast (λ c. Keeps range (integers_of numbers.now) (integers_of c))) }
{
    match numbers {
        PrimitiveBuffer::U8(items) => cast_items::<u8, U>(alloc, items.as_slice(), range),
        PrimitiveBuffer::U16(items) => cast_items::<u16, U>(alloc, items.as_slice(), range),
        PrimitiveBuffer::U32(items) => cast_items::<u32, U>(alloc, items.as_slice(), range),
        PrimitiveBuffer::U64(items) => cast_items::<u64, U>(alloc, items.as_slice(), range),
        PrimitiveBuffer::I8(items) => cast_items::<i8, U>(alloc, items.as_slice(), range),
        PrimitiveBuffer::I16(items) => cast_items::<i16, U>(alloc, items.as_slice(), range),
        PrimitiveBuffer::I32(items) => cast_items::<i32, U>(alloc, items.as_slice(), range),
        PrimitiveBuffer::I64(items) => cast_items::<i64, U>(alloc, items.as_slice(), range),
    }
}

// All items that have to be tested are tested before any is cast, so that neither loop exits early.
#[tactic(auto, using(crate::proofs::NumberLemmas::kept))]
fn cast_items<T: NativePType, U: LowBits>(
    alloc: Global,
    items: &[T],
    range: Option<(i128, i128)>,
) -> Result<Option<PrimitiveBuffer>, AllocError>
    ensures kind { IfOk result (λ cast. IfSome cast (λ c. kind_of_numbers c ≡ U.kind)) }
    ensures integers { IfOk result
        (λ cast. IfSome cast (λ c. Keeps range (map T.integer items.now) (integers_of c))) }
{
    let all_held = holds_range::<U>(range) || holds_all::<T, U>(items);
    if !all_held {
        return Ok(None);
    }
    let cast: Vec<U> = items_as(alloc, items)?;
    let cast = Buffer::from_vec(cast)?;
    Ok(Some(PrimitiveBuffer::from_buffer(cast)))
}

// Whether there is a range, and the type has all of it.
fn holds_range<U: LowBits>(range: Option<(i128, i128)>) -> bool
    ensures { result ≡ holds_range U.kind range }
{
    match range {
        Some((low, high)) => holds::<U>(low) && holds::<U>(high),
        None => false,
    }
}

// Whether the type has each of the items.
fn holds_all<T: NativePType, U: LowBits>(items: &[T]) -> bool
    ensures { result ≡ list_all (in_range U.kind) (map T.integer items.now) }
{
    items
        .iter()
        .fold(true, |all, item| all & holds::<U>(item.get()))
}

// Whether the type has the integer. Only low bits are compared, so that many integers can be at
// once.
#[tactic(auto, using(crate::proofs::LowBitsLemmas::held_where_same))]
fn holds<U: LowBits>(number: i128) -> bool
    ensures { result ≡ in_range U.kind number }
{
    U::of_low_bits(number).get() == number
}

// The items in the other type, as by Rust's `as`.
fn items_as<T: NativePType, U: LowBits>(alloc: Global, items: &[T]) -> Result<Vec<U>, AllocError>
    ensures { IfOk result (λ cast. map U.integer cast.items
        ≡ map (low_bits U.kind) (map T.integer items.now)) }
{
    items
        .iter()
        .map(|item| U::of_low_bits(item.get()))
        .collect(alloc)
}
