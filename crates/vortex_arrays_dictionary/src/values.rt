//! The distinct values of a column, by their first occurrences.
ghost use Rattle.std.specs.Prelude.{◌≡◌, ◌<◌, ℕ, length, slice_index_or, true, false, IfOk, All};
ghost use Rattle.vortex_model.specs.Content.{null, is_null};
ghost use Rattle.vortex_arrays_model.specs.Layout.{bools, numbers, strings, is_valid, nullability_by, rows_of, IsSound, HasLength};
ghost use Rattle.vortex_arrays_model.specs.Picks.{Picks};
ghost use Rattle.vortex_arrays_buffer.specs.PrimitiveBuffers.{kind_of_numbers, integers_of};
ghost use Rattle.vortex_arrays_core.specs.LayoutOf.{valid_of, strings_of};
ghost use Rattle.vortex_arrays_builder.specs.Types.{IsPlainLayout};
ghost use Rattle.vortex_arrays_dictionary.specs.Columns.{is_plain_leaf};

use bytes::Bytes;
use std::alloc::{AllocError, Global};
use std::rc::Rc;
use vortex_arrays_buffer::bit_buffer::BitBuffer;
use vortex_arrays_buffer::buffer::Buffer;
use vortex_arrays_buffer::primitive_buffer::PrimitiveBuffer;
use vortex_arrays_core::array::{ArrayLayout, ArrayRef, StringKind, Validity};
use vortex_arrays_view::view::BinaryView;

/// The rows of a plain column at indices, none of which is null.
pub(crate) fn rows_at(
    alloc: Global,
    array: &ArrayRef,
    places: &[usize],
) -> Result<ArrayRef, AllocError>
    requires leaf { is_plain_leaf array.now ≡ true }
    requires within { All (λ p. p < length (rows_of array.now)) places.now }
    requires there { All (λ p. is_null (slice_index_or (rows_of array.now) p null) ≡ false)
        places.now }
    ensures rows { IfOk result
        (λ r. Picks array.now r (length places.now) (λ i. slice_index_or places.now i 0)) }
    ensures plain { IfOk result IsPlainLayout }
{
    match array.layout() {
        ArrayLayout::Bool(bits, validity) => bools_at(alloc, bits, validity, places),
        ArrayLayout::Primitive(items, validity) => numbers_at(alloc, items, validity, places),
        ArrayLayout::VarBinView(kind, views, buffers, validity) => {
            strings_at(alloc, *kind, views, buffers, validity, places)
        }
        _ => unreachable!(),
    }
}

#[tactic(auto, using(crate::proofs::ValueLemmas::leaves))]
fn bools_at(
    alloc: Global,
    bits: &BitBuffer,
    validity: &Validity,
    places: &[usize],
) -> Result<ArrayRef, AllocError>
    requires within { All (λ p. p < length bits.now) places.now }
    requires there { All (λ p. is_valid (valid_of validity.now) p ≡ true) places.now }
    ensures rows { IfOk result (λ r. Picks (bools bits.now (valid_of validity.now)) r
        (length places.now) (λ i. slice_index_or places.now i 0)) }
    ensures plain { IfOk result IsPlainLayout }
{
    let chosen = bits.gather(alloc, places)?;
    ArrayRef::of_bools(alloc, chosen, without_nulls(validity))
}

#[tactic(auto, using(crate::proofs::ValueLemmas::leaves))]
fn numbers_at(
    alloc: Global,
    items: &PrimitiveBuffer,
    validity: &Validity,
    places: &[usize],
) -> Result<ArrayRef, AllocError>
    requires sound { IsSound (numbers (kind_of_numbers items.now) (integers_of items.now)
        (valid_of validity.now)) }
    requires within { All (λ p. p < length (integers_of items.now)) places.now }
    requires there { All (λ p. is_valid (valid_of validity.now) p ≡ true) places.now }
    ensures rows { IfOk result (λ r. Picks (numbers (kind_of_numbers items.now)
        (integers_of items.now) (valid_of validity.now)) r
        (length places.now) (λ i. slice_index_or places.now i 0)) }
    ensures plain { IfOk result IsPlainLayout }
{
    let chosen = items.gather(alloc, places)?;
    ArrayRef::of_numbers(alloc, chosen, without_nulls(validity))
}

// The strings or bytes at these positions, which share the buffers.
#[tactic(auto, using(crate::proofs::ValueLemmas::leaves))]
fn strings_at(
    alloc: Global,
    kind: StringKind,
    views: &Buffer<BinaryView>,
    buffers: &Rc<Vec<Bytes>>,
    validity: &Validity,
    places: &[usize],
) -> Result<ArrayRef, AllocError>
    requires sound { IsSound (strings (strings_of kind) views.now buffers.now.value.items
        (valid_of validity.now)) }
    requires within { All (λ p. p < length views.now) places.now }
    requires there { All (λ p. is_valid (valid_of validity.now) p ≡ true) places.now }
    ensures rows { IfOk result (λ r. Picks (strings (strings_of kind) views.now
        buffers.now.value.items (valid_of validity.now)) r
        (length places.now) (λ i. slice_index_or places.now i 0)) }
    ensures plain { IfOk result IsPlainLayout }
{
    let buffers = buffers.clone()?;
    let chosen = views.gather(alloc, places)?;
    ArrayRef::of_strings(alloc, kind, chosen, buffers, without_nulls(validity))
}

// The validity of the same nullability in which no row is null.
fn without_nulls(validity: &Validity) -> Validity
    ensures fits { (n : ℕ) → HasLength (valid_of result) n }
    ensures nullability { nullability_by (valid_of result)
        ≡ nullability_by (valid_of validity.now) }
    ensures valid { (i : ℕ) → is_valid (valid_of result) i ≡ true }
{
    match validity {
        Validity::NonNullable => Validity::NonNullable,
        Validity::AllValid | Validity::AllInvalid | Validity::Array(_) => Validity::AllValid,
    }
}
