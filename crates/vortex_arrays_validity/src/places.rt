//! The integers of an array of any layout as indices. The layout and the integer type are matched
//! once for all rows.
ghost use Rattle.std.specs.Prelude.{◌≡◌, ◌<◌, length, map, replicate, false, cond, slice_index_or, IfOk};
ghost use Rattle.vortex_model.specs.Content.{integer};
ghost use Rattle.vortex_arrays_model.specs.Layout.{numbers, len_of, array_type_of, content_at, IsInteger, HasLength};
ghost use Rattle.vortex_arrays_buffer.specs.PrimitiveBuffers.{kind_of_numbers, integers_of};
ghost use Rattle.vortex_arrays_core.specs.LayoutOf.{valid_of};
ghost use Rattle.vortex_arrays_validity.specs.Places.{number_or, place_or, places_or, place_at, places_at, numbers_where};

use crate::bits::bits_of;
use std::alloc::{AllocError, Global};
use vortex_arrays_buffer::element::Element;
use vortex_arrays_buffer::{BitBuffer, PrimitiveBuffer};
use vortex_arrays_core::array::{ArrayLayout, ArrayRef, Validity};

/// Each row as an index, and `none` where it is null or negative.
#[tactic(auto, using(crate::proofs::PlaceLemmas::held))]
pub fn places_or(alloc: Global, array: &ArrayRef, none: usize) -> Result<Vec<usize>, AllocError>
    requires { IsInteger (array_type_of array.now) }
    ensures { IfOk result (λ places. places.items ≡ places_or none array.now) }
{
    match array.layout() {
        ArrayLayout::Primitive(items, validity) => rows_or(alloc, items, validity, none),
        ArrayLayout::Constant(_, len) => vec![in alloc; first_place(array, none); *len],
        ArrayLayout::Dict(codes, values, _) => {
            let indices = places_or(alloc, codes, values.len())?;
            places_at(alloc, values, &indices, none)
        }
        ArrayLayout::Bool(_, _) => unreachable!(),
        ArrayLayout::VarBinView(_, _, _, _) => unreachable!(),
        ArrayLayout::FixedSizeList(_, _, _, _) => unreachable!(),
        ArrayLayout::ListView(_, _, _, _, _) => unreachable!(),
        ArrayLayout::Struct(_, _, _, _) => unreachable!(),
    }
}

// The rows at the indices as indices, with `none` also where there is no row. It reads only values
// at the indices.
#[tactic(auto, using(crate::proofs::PlaceLemmas::held))]
fn places_at(
    alloc: Global,
    array: &ArrayRef,
    indices: &[usize],
    none: usize,
) -> Result<Vec<usize>, AllocError>
    requires { IsInteger (array_type_of array.now) }
    ensures { IfOk result (λ places. places.items ≡ places_at none array.now indices.now) }
{
    match array.layout() {
        ArrayLayout::Primitive(items, validity) => rows_at(alloc, items, validity, indices, none),
        ArrayLayout::Constant(_, len) => {
            repeated_at(alloc, first_place(array, none), *len, indices, none)
        }
        ArrayLayout::Dict(codes, values, _) => {
            let named = places_at(alloc, codes, indices, values.len())?;
            places_at(alloc, values, &named, none)
        }
        ArrayLayout::Bool(_, _) => unreachable!(),
        ArrayLayout::VarBinView(_, _, _, _) => unreachable!(),
        ArrayLayout::FixedSizeList(_, _, _, _) => unreachable!(),
        ArrayLayout::ListView(_, _, _, _, _) => unreachable!(),
        ArrayLayout::Struct(_, _, _, _) => unreachable!(),
    }
}

// The first row as an index, which is that of each row of a constant.
#[tactic(auto, using(crate::proofs::PlaceLemmas::first))]
fn first_place(array: &ArrayRef, none: usize) -> usize
    requires { IsInteger (array_type_of array.now) }
    ensures { 0 < len_of array.now → result ≡ place_or none (content_at array.now 0) }
{
    if array.len() == 0 {
        return none;
    }
    match array.integer(0) {
        Some(number) if number >= 0 => number as usize,
        _ => none,
    }
}

// `place` at each of `indices` below `len`, and `none` at the others.
fn repeated_at(
    alloc: Global,
    place: usize,
    len: usize,
    indices: &[usize],
    none: usize,
) -> Result<Vec<usize>, AllocError>
    ensures { IfOk result (λ places. places.items
        ≡ map (λ i. slice_index_or (replicate len place) i none) indices.now) }
{
    indices
        .iter()
        .map(|i| place_within(*i, len, place, none))
        .collect(alloc)
}

#[tactic(auto, using(crate::proofs::PlaceLemmas::repeated))]
fn place_within(i: usize, len: usize, place: usize, none: usize) -> usize
    ensures { result ≡ slice_index_or (replicate len place) i none }
{
    if i < len { place } else { none }
}

// ---- integers, some of them null

// The integers as indices.
fn rows_or(
    alloc: Global,
    items: &PrimitiveBuffer,
    validity: &Validity,
    none: usize,
) -> Result<Vec<usize>, AllocError>
    requires { HasLength (valid_of validity.now) (length (integers_of items.now)) }
    ensures { IfOk result (λ places. places.items ≡ places_or none (numbers
        (kind_of_numbers items.now) (integers_of items.now) (valid_of validity.now))) }
{
    match validity {
        Validity::NonNullable => numbers_or(alloc, items, none),
        Validity::AllValid => numbers_or(alloc, items, none),
        Validity::AllInvalid => vec![in alloc; none; items.len()],
        Validity::Array(rows) => {
            let bits = bits_of(alloc, rows)?;
            let valid = bits.to_bools(alloc)?;
            numbers_where(alloc, items, &valid, none)
        }
    }
}

// The integers at the indices as indices.
fn rows_at(
    alloc: Global,
    items: &PrimitiveBuffer,
    validity: &Validity,
    indices: &[usize],
    none: usize,
) -> Result<Vec<usize>, AllocError>
    requires { HasLength (valid_of validity.now) (length (integers_of items.now)) }
    ensures { IfOk result (λ places. places.items ≡ places_at none (numbers
        (kind_of_numbers items.now) (integers_of items.now) (valid_of validity.now)) indices.now) }
{
    match validity {
        Validity::NonNullable => numbers_at(alloc, items, indices, none),
        Validity::AllValid => numbers_at(alloc, items, indices, none),
        Validity::AllInvalid => vec![in alloc; none; indices.len()],
        Validity::Array(rows) => {
            let bits = bits_of(alloc, rows)?;
            let valid = true_indices(alloc, &bits, indices)?;
            numbers_at(alloc, items, &valid, none)
        }
    }
}

// The indices whose bit is true, with the number of bits in place of each other index.
fn true_indices(
    alloc: Global,
    bits: &BitBuffer,
    indices: &[usize],
) -> Result<Vec<usize>, AllocError>
    ensures { IfOk result (λ all. all.items
        ≡ map (λ i. cond (slice_index_or bits.now i false) i (length bits.now)) indices.now) }
{
    indices.iter().map(|i| true_index(bits, *i)).collect(alloc)
}

#[tactic(auto, using(crate::proofs::PlaceLemmas::unset))]
fn true_index(bits: &BitBuffer, i: usize) -> usize
    ensures { result ≡ cond (slice_index_or bits.now i false) i (length bits.now) }
{
    let len = bits.len();
    if i < len && bits.value(i) { i } else { len }
}

// ---- integers, whose type is matched once

#[tactic(auto, using(vortex_arrays_buffer::proofs::NumberLemmas::eq_numbers))]
fn numbers_or(
    alloc: Global,
    numbers: &PrimitiveBuffer,
    none: usize,
) -> Result<Vec<usize>, AllocError>
    ensures { IfOk result
        (λ places. places.items ≡ map (number_or none) (integers_of numbers.now)) }
{
    match numbers {
        PrimitiveBuffer::U8(items) => items_or(alloc, items.as_slice(), none),
        PrimitiveBuffer::U16(items) => items_or(alloc, items.as_slice(), none),
        PrimitiveBuffer::U32(items) => items_or(alloc, items.as_slice(), none),
        PrimitiveBuffer::U64(items) => items_or(alloc, items.as_slice(), none),
        PrimitiveBuffer::I8(items) => items_or(alloc, items.as_slice(), none),
        PrimitiveBuffer::I16(items) => items_or(alloc, items.as_slice(), none),
        PrimitiveBuffer::I32(items) => items_or(alloc, items.as_slice(), none),
        PrimitiveBuffer::I64(items) => items_or(alloc, items.as_slice(), none),
    }
}

fn items_or<T: Element>(alloc: Global, items: &[T], none: usize) -> Result<Vec<usize>, AllocError>
    ensures { IfOk result
        (λ places. places.items ≡ map (number_or none) (map T.integer items.now)) }
{
    items
        .iter()
        .map(|item| number_or(*item, none))
        .collect(alloc)
}

// The integer as an index, and `none` for a negative one.
#[tactic(auto, using(crate::proofs::PlaceLemmas::held))]
fn number_or<T: Element>(item: T, none: usize) -> usize
    ensures { result ≡ number_or none (T.integer item) }
{
    let number = item.get();
    if number < 0 { none } else { number as usize }
}

#[tactic(auto, using(vortex_arrays_buffer::proofs::NumberLemmas::eq_numbers))]
fn numbers_where(
    alloc: Global,
    numbers: &PrimitiveBuffer,
    rows: &[bool],
    none: usize,
) -> Result<Vec<usize>, AllocError>
    ensures { IfOk result
        (λ places. places.items ≡ numbers_where none (integers_of numbers.now) rows.now) }
{
    match numbers {
        PrimitiveBuffer::U8(items) => items_where(alloc, items.as_slice(), rows, none),
        PrimitiveBuffer::U16(items) => items_where(alloc, items.as_slice(), rows, none),
        PrimitiveBuffer::U32(items) => items_where(alloc, items.as_slice(), rows, none),
        PrimitiveBuffer::U64(items) => items_where(alloc, items.as_slice(), rows, none),
        PrimitiveBuffer::I8(items) => items_where(alloc, items.as_slice(), rows, none),
        PrimitiveBuffer::I16(items) => items_where(alloc, items.as_slice(), rows, none),
        PrimitiveBuffer::I32(items) => items_where(alloc, items.as_slice(), rows, none),
        PrimitiveBuffer::I64(items) => items_where(alloc, items.as_slice(), rows, none),
    }
}

fn items_where<T: Element>(
    alloc: Global,
    items: &[T],
    rows: &[bool],
    none: usize,
) -> Result<Vec<usize>, AllocError>
    ensures { IfOk result
        (λ places. places.items ≡ numbers_where none (map T.integer items.now) rows.now) }
{
    items
        .iter()
        .zip(rows.iter())
        .map(|(item, is_valid)| number_where(*item, *is_valid, none))
        .collect(alloc)
}

fn number_where<T: Element>(item: T, is_valid: bool, none: usize) -> usize
    ensures { result ≡ cond is_valid (number_or none (T.integer item)) none }
{
    if is_valid {
        number_or(item, none)
    } else {
        none
    }
}

#[tactic(auto, using(vortex_arrays_buffer::proofs::NumberLemmas::eq_numbers))]
fn numbers_at(
    alloc: Global,
    numbers: &PrimitiveBuffer,
    indices: &[usize],
    none: usize,
) -> Result<Vec<usize>, AllocError>
    ensures { IfOk result (λ places. places.items
        ≡ map (place_at none (map integer (integers_of numbers.now))) indices.now) }
{
    match numbers {
        PrimitiveBuffer::U8(items) => items_at(alloc, items.as_slice(), indices, none),
        PrimitiveBuffer::U16(items) => items_at(alloc, items.as_slice(), indices, none),
        PrimitiveBuffer::U32(items) => items_at(alloc, items.as_slice(), indices, none),
        PrimitiveBuffer::U64(items) => items_at(alloc, items.as_slice(), indices, none),
        PrimitiveBuffer::I8(items) => items_at(alloc, items.as_slice(), indices, none),
        PrimitiveBuffer::I16(items) => items_at(alloc, items.as_slice(), indices, none),
        PrimitiveBuffer::I32(items) => items_at(alloc, items.as_slice(), indices, none),
        PrimitiveBuffer::I64(items) => items_at(alloc, items.as_slice(), indices, none),
    }
}

fn items_at<T: Element>(
    alloc: Global,
    items: &[T],
    indices: &[usize],
    none: usize,
) -> Result<Vec<usize>, AllocError>
    ensures { IfOk result (λ places. places.items
        ≡ map (place_at none (map integer (map T.integer items.now))) indices.now) }
{
    indices
        .iter()
        .map(|i| item_at(items, *i, none))
        .collect(alloc)
}

fn item_at<T: Element>(items: &[T], i: usize, none: usize) -> usize
    ensures { result ≡ place_at none (map integer (map T.integer items.now)) i }
{
    if i < items.len() {
        number_or(items[i], none)
    } else {
        none
    }
}
