//! Codes of dictionaries, counted in one pass.
ghost use Rattle.std.specs.Prelude.{◌≡◌, ◌<◌, ℕ, pos, Some, length, map, replicate, IfOk, IfSome};
ghost use Rattle.vortex_model.specs.Content.{Content, integer};
ghost use Rattle.vortex_arrays_model.specs.Layout.{numbers, len_of, array_type_of, content_at, IsCode, IsInteger, IsSound};
ghost use Rattle.vortex_arrays_model.specs.Parts.{AreWithin};
ghost use Rattle.vortex_arrays_buffer.specs.PrimitiveBuffers.{kind_of_numbers, integers_of};
ghost use Rattle.vortex_arrays_core.specs.LayoutOf.{valid_of};
ghost use Rattle.vortex_stats_array.specs.Counted.{code_or_null, ReadsCodes, IsCountOf};

use crate::counts::Counts;
use crate::nulls::is_valid_at;
use std::alloc::{AllocError, Global};
use vortex_arrays_buffer::PrimitiveBuffer;
use vortex_arrays_core::array::{ArrayLayout, ArrayRef, Validity};
use vortex_dtype_native::native::NativePType;

fn no_counts(alloc: Global, value_count: usize) -> Result<Vec<usize>, AllocError>
    ensures { IfOk result (λ counts. counts.items ≡ replicate value_count 0) }
{
    Ok(vec![in alloc; 0; value_count]?)
}

// Counts the codes of `row_count` rows, each read once by `code`, where `None` is null.
fn count<F: Fn(usize) -> Option<usize>>(
    alloc: Global,
    row_count: usize,
    value_count: usize,
    code: F,
) -> Result<Counts, AllocError>
    requires callable { (i : ℕ) → i < row_count → F.pre code i }
    requires within { (i j : ℕ) → i < row_count → F.post code i (Some j) → j < value_count }
    ensures values { IfOk result (λ counts. length counts.of_values.items ≡ value_count) }
    ensures rows { IfOk result (λ counts. (codes : ℕ → Content)
        → ReadsCodes row_count (λ i v. F.post code i v) codes
        → IsCountOf codes row_count counts) }
{
    let mut of_values = no_counts(alloc, value_count)?;
    let mut nulls = 0;
    for i in 0..row_count {
        match code(i) {
            Some(j) => of_values[j] += 1,
            None => nulls += 1,
        }
    }
    Ok(Counts { nulls, of_values })
}

// The integer as a code.
#[tactic(auto, using(crate::proofs::Codes::codes))]
fn code_of(number: i128, value_count: usize) -> usize
    requires { IsCode value_count (integer number) }
    ensures number { pos result ≡ number }
    ensures within { result < value_count }
{
    number as usize
}

// The code at a row of items of one type.
fn code_at<T: NativePType>(
    items: &[T],
    validity: &Validity,
    value_count: usize,
    i: usize,
) -> Option<usize>
    requires within { i < length items.now }
    requires sound { IsSound (numbers T.kind (map T.integer items.now) (valid_of validity.now)) }
    requires code { IsCode value_count
        (content_at (numbers T.kind (map T.integer items.now) (valid_of validity.now)) i) }
    ensures code { code_or_null result
        ≡ content_at (numbers T.kind (map T.integer items.now) (valid_of validity.now)) i }
    ensures within { IfSome result (λ j. j < value_count) }
{
    if is_valid_at(validity, i, items.len()) {
        Some(code_of(items[i].get(), value_count))
    } else {
        None
    }
}

fn count_kind<T: NativePType>(
    alloc: Global,
    items: &[T],
    validity: &Validity,
    value_count: usize,
) -> Result<Counts, AllocError>
    requires sound { IsSound (numbers T.kind (map T.integer items.now) (valid_of validity.now)) }
    requires within { AreWithin
        (numbers T.kind (map T.integer items.now) (valid_of validity.now)) value_count }
    ensures values { IfOk result (λ counts. length counts.of_values.items ≡ value_count) }
    ensures rows { IfOk result (λ counts. IsCountOf
        (content_at (numbers T.kind (map T.integer items.now) (valid_of validity.now)))
        (length items.now) counts) }
{
    count(
        alloc,
        items.len(),
        value_count,
        |i| code_at(items, validity, value_count, i),
    )
}

// Counts codes of integer arrays, whose type is matched once.
#[tactic(auto, using(vortex_arrays_buffer::proofs::NumberLemmas::eq_numbers))]
fn count_numbers(
    alloc: Global,
    items: &PrimitiveBuffer,
    validity: &Validity,
    value_count: usize,
) -> Result<Counts, AllocError>
    requires sound { IsSound (numbers (kind_of_numbers items.now) (integers_of items.now)
        (valid_of validity.now)) }
    requires within { AreWithin (numbers (kind_of_numbers items.now) (integers_of items.now)
        (valid_of validity.now)) value_count }
    ensures values { IfOk result (λ counts. length counts.of_values.items ≡ value_count) }
    ensures rows { IfOk result (λ counts. IsCountOf (content_at (numbers
        (kind_of_numbers items.now) (integers_of items.now) (valid_of validity.now)))
        (length (integers_of items.now)) counts) }
{
    match items {
        PrimitiveBuffer::U8(items) => count_kind(alloc, items.as_slice(), validity, value_count),
        PrimitiveBuffer::U16(items) => count_kind(alloc, items.as_slice(), validity, value_count),
        PrimitiveBuffer::U32(items) => count_kind(alloc, items.as_slice(), validity, value_count),
        PrimitiveBuffer::U64(items) => count_kind(alloc, items.as_slice(), validity, value_count),
        PrimitiveBuffer::I8(items) => count_kind(alloc, items.as_slice(), validity, value_count),
        PrimitiveBuffer::I16(items) => count_kind(alloc, items.as_slice(), validity, value_count),
        PrimitiveBuffer::I32(items) => count_kind(alloc, items.as_slice(), validity, value_count),
        PrimitiveBuffer::I64(items) => count_kind(alloc, items.as_slice(), validity, value_count),
    }
}

// The code at a row of an array of any layout.
fn code_in(codes: &ArrayRef, value_count: usize, i: usize) -> Option<usize>
    requires within { i < len_of codes.now }
    requires kind { IsInteger (array_type_of codes.now) }
    requires code { IsCode value_count (content_at codes.now i) }
    ensures code { code_or_null result ≡ content_at codes.now i }
    ensures within { IfSome result (λ j. j < value_count) }
{
    match codes.integer(i) {
        Some(code) => Some(code_of(code, value_count)),
        None => None,
    }
}

/// How often codes refer to each of `value_count` values.
pub(crate) fn count_codes(
    alloc: Global,
    codes: &ArrayRef,
    value_count: usize,
) -> Result<Counts, AllocError>
    requires kind { IsInteger (array_type_of codes.now) }
    requires within { AreWithin codes.now value_count }
    ensures values { IfOk result (λ counts. length counts.of_values.items ≡ value_count) }
    ensures rows { IfOk result
        (λ counts. IsCountOf (content_at codes.now) (len_of codes.now) counts) }
{
    match codes.layout() {
        ArrayLayout::Primitive(items, validity) => {
            count_numbers(alloc, items, validity, value_count)
        }
        _ => count(
            alloc,
            codes.len(),
            value_count,
            |i| code_in(codes, value_count, i),
        ),
    }
}
