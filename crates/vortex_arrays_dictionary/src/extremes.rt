//! The least and the greatest integer of rows that are not null.
ghost use Rattle.std.specs.Prelude.{◌≡◌, true, false, length, map, slice_index_or, IfOk};
ghost use Rattle.vortex_arrays_model.specs.Layout.{is_valid, HasLength};
ghost use Rattle.vortex_arrays_core.specs.LayoutOf.{valid_of};
ghost use Rattle.vortex_arrays_buffer.specs.PrimitiveBuffers.{integers_of};
ghost use Rattle.vortex_arrays_dictionary.specs.Narrowed.{AreExtremes};

use std::alloc::{AllocError, Global};
use vortex_arrays_buffer::bit_buffer::BitBuffer;
use vortex_arrays_buffer::primitive_buffer::PrimitiveBuffer;
use vortex_arrays_core::array::Validity;
use vortex_arrays_validity::validity_ext::ValidityExt;
use vortex_dtype_native::native::NativePType;

/// The least and the greatest of 0 and the integers of rows that are not null. An integer type has
/// these two exactly if it has all, since each type has 0.
#[tactic(auto, using(crate::proofs::ExtremeLemmas::by_validity))]
pub(crate) fn extremes(
    alloc: Global,
    numbers: &PrimitiveBuffer,
    validity: &Validity,
) -> Result<(i128, i128), AllocError>
    requires { HasLength (valid_of validity.now) (length (integers_of numbers.now)) }
    ensures { IfOk result (λ e. AreExtremes (is_valid (valid_of validity.now))
        (integers_of numbers.now) (length (integers_of numbers.now)) e.0 e.1) }
{
    match validity {
        Validity::NonNullable => Ok(extremes_of_all(numbers)),
        Validity::AllValid => Ok(extremes_of_all(numbers)),
        Validity::AllInvalid => Ok((0, 0)),
        Validity::Array(_) => {
            let mask = validity.to_mask(alloc, numbers.len())?;
            Ok(extremes_where(numbers, mask.bit_buffer()))
        }
    }
}

// The extremes of all integers.
#[tactic(auto, using(vortex_arrays_buffer::proofs::NumberLemmas::eq_numbers))]
fn extremes_of_all(numbers: &PrimitiveBuffer) -> (i128, i128)
    ensures { AreExtremes (λ _. true) (integers_of numbers.now) (length (integers_of numbers.now))
        result.0 result.1 }
{
    match numbers {
        PrimitiveBuffer::U8(items) => all_extremes(items.as_slice()),
        PrimitiveBuffer::U16(items) => all_extremes(items.as_slice()),
        PrimitiveBuffer::U32(items) => all_extremes(items.as_slice()),
        PrimitiveBuffer::U64(items) => all_extremes(items.as_slice()),
        PrimitiveBuffer::I8(items) => all_extremes(items.as_slice()),
        PrimitiveBuffer::I16(items) => all_extremes(items.as_slice()),
        PrimitiveBuffer::I32(items) => all_extremes(items.as_slice()),
        PrimitiveBuffer::I64(items) => all_extremes(items.as_slice()),
    }
}

// The extremes of the integers whose bit is true.
#[tactic(auto, using(vortex_arrays_buffer::proofs::NumberLemmas::eq_numbers))]
fn extremes_where(numbers: &PrimitiveBuffer, bits: &BitBuffer) -> (i128, i128)
    requires { length bits.now ≡ length (integers_of numbers.now) }
    ensures { AreExtremes (λ i. slice_index_or bits.now i false) (integers_of numbers.now)
        (length (integers_of numbers.now)) result.0 result.1 }
{
    match numbers {
        PrimitiveBuffer::U8(items) => chosen_extremes(items.as_slice(), bits),
        PrimitiveBuffer::U16(items) => chosen_extremes(items.as_slice(), bits),
        PrimitiveBuffer::U32(items) => chosen_extremes(items.as_slice(), bits),
        PrimitiveBuffer::U64(items) => chosen_extremes(items.as_slice(), bits),
        PrimitiveBuffer::I8(items) => chosen_extremes(items.as_slice(), bits),
        PrimitiveBuffer::I16(items) => chosen_extremes(items.as_slice(), bits),
        PrimitiveBuffer::I32(items) => chosen_extremes(items.as_slice(), bits),
        PrimitiveBuffer::I64(items) => chosen_extremes(items.as_slice(), bits),
    }
}

// The extremes of all items.
#[tactic(auto, using(crate::proofs::ExtremeLemmas::steps))]
fn all_extremes<T: NativePType>(items: &[T]) -> (i128, i128)
    ensures { AreExtremes (λ _. true) (map T.integer items.now) (length items.now)
        result.0 result.1 }
{
    let mut least = 0;
    let mut greatest = 0;
    for i in 0..items.len() {
        let number = items[i].get();
        least = number.min(least);
        greatest = number.max(greatest);
    }
    (least, greatest)
}

// The extremes of the items whose bit is true.
#[tactic(auto, using(crate::proofs::ExtremeLemmas::steps))]
fn chosen_extremes<T: NativePType>(items: &[T], bits: &BitBuffer) -> (i128, i128)
    requires { length bits.now ≡ length items.now }
    ensures { AreExtremes (λ i. slice_index_or bits.now i false) (map T.integer items.now)
        (length items.now) result.0 result.1 }
{
    let mut least = 0;
    let mut greatest = 0;
    for i in 0..items.len() {
        if bits.value(i) {
            let number = items[i].get();
            least = number.min(least);
            greatest = number.max(greatest);
        }
    }
    (least, greatest)
}
