//! Integers in another type.
ghost use Rattle.std.specs.Prelude.{◌≡◌, map, IfOk, IsTrue};
ghost use Rattle.vortex_dtype_ptype.specs.Numbers.{integral, is_integral};
ghost use Rattle.vortex_dtype_ptype.specs.View.{number_kind_of};
ghost use Rattle.vortex_arrays_buffer.specs.PrimitiveBuffers.{kind_of_numbers, integers_of};
ghost use Rattle.vortex_arrays_dictionary.specs.Narrowed.{held_or_zero};

use std::alloc::{AllocError, Global};
use vortex_arrays_buffer::buffer::Buffer;
use vortex_arrays_buffer::element::Element;
use vortex_arrays_buffer::primitive_buffer::PrimitiveBuffer;
use vortex_dtype_native::match_each_integer_ptype;
use vortex_dtype_native::native::NativePType;
use vortex_dtype_ptype::ptype::PType;

/// The integers in an integer type, with 0 in place of each that the type doesn't have.
pub(crate) fn cast_numbers(
    alloc: Global,
    ptype: PType,
    numbers: &PrimitiveBuffer,
) -> Result<PrimitiveBuffer, AllocError>
    requires { IsTrue (is_integral (number_kind_of ptype)) }
    ensures kind { IfOk result (λ r. integral (kind_of_numbers r) ≡ number_kind_of ptype) }
    ensures integers { IfOk result (λ r. integers_of r
        ≡ map (held_or_zero (kind_of_numbers r)) (integers_of numbers.now)) }
{
    match_each_integer_ptype!(ptype, cast_to(alloc, numbers))
}

// The integers in a native type.
#[tactic(auto, using(vortex_arrays_buffer::proofs::NumberLemmas::eq_numbers))]
fn cast_to<U: Element>(
    alloc: Global,
    numbers: &PrimitiveBuffer,
) -> Result<PrimitiveBuffer, AllocError>
    ensures kind { IfOk result (λ r. kind_of_numbers r ≡ U.kind) }
    ensures integers { IfOk result (λ r. integers_of r
        ≡ map (held_or_zero U.kind) (integers_of numbers.now)) }
{
    let cast: Vec<U> = match numbers {
        PrimitiveBuffer::U8(items) => cast_items(alloc, items.as_slice())?,
        PrimitiveBuffer::U16(items) => cast_items(alloc, items.as_slice())?,
        PrimitiveBuffer::U32(items) => cast_items(alloc, items.as_slice())?,
        PrimitiveBuffer::U64(items) => cast_items(alloc, items.as_slice())?,
        PrimitiveBuffer::I8(items) => cast_items(alloc, items.as_slice())?,
        PrimitiveBuffer::I16(items) => cast_items(alloc, items.as_slice())?,
        PrimitiveBuffer::I32(items) => cast_items(alloc, items.as_slice())?,
        PrimitiveBuffer::I64(items) => cast_items(alloc, items.as_slice())?,
    };
    let cast = Buffer::from_vec(cast)?;
    Ok(PrimitiveBuffer::from_buffer(cast))
}

// The items in another native type, with 0 in place of each that it doesn't have.
fn cast_items<T: NativePType, U: NativePType>(
    alloc: Global,
    items: &[T],
) -> Result<Vec<U>, AllocError>
    ensures { IfOk result (λ cast. map U.integer cast.items
        ≡ map (held_or_zero U.kind) (map T.integer items.now)) }
{
    items
        .iter()
        .map(|item| cast_or_zero(item.get()))
        .collect(alloc)
}

// The integer in a native type, and 0 where the type doesn't have it.
#[tactic(auto, using(vortex_model::proofs::Ranges::zero_within))]
fn cast_or_zero<U: NativePType>(number: i128) -> U
    ensures { U.integer result ≡ held_or_zero U.kind number }
{
    match U::of(number) {
        Some(cast) => cast,
        None => match U::of(0) {
            Some(zero) => zero,
            None => unreachable!(),
        },
    }
}
