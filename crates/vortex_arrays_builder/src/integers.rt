//! Integers read from bytes that are end to end.
ghost use Rattle.std.specs.Prelude.{◌≡◌, ◌+◌, ◌*◌, ◌≤◌, ◌<◌, ℕ, pos, true, false, cond, length, map, take, drop, IfOk, IsTrue};
ghost use Rattle.vortex_dtype_ptype.specs.Numbers.{integral, is_integral, HasByteWidth};
ghost use Rattle.vortex_dtype_ptype.specs.View.{number_kind_of};
ghost use Rattle.vortex_dtype_native.specs.NativeBytes.{AreBytesOf};
ghost use Rattle.vortex_arrays_model.specs.Layout.{Valid, bools, required, by_array, len_of, is_valid, HasLength};
ghost use Rattle.vortex_arrays_core.specs.LayoutOf.{valid_of};
ghost use Rattle.vortex_arrays_buffer.specs.PrimitiveBuffers.{kind_of_numbers, integers_of};
ghost use Rattle.vortex_arrays_builder.specs.Integers.{valid_before, HoldIntegers, StandInBytes};

use std::alloc::{AllocError, Global};
use vortex_arrays_buffer::bit_buffer::BitBuffer;
use vortex_arrays_buffer::buffer::Buffer;
use vortex_arrays_buffer::element::Element;
use vortex_arrays_buffer::primitive_buffer::PrimitiveBuffer;
use vortex_arrays_core::array::{ArrayLayout, ArrayRef, Validity};
use vortex_dtype_native::match_each_integer_ptype;
use vortex_dtype_ptype::ptype::PType;

/// The number of rows that are not null, of `rows` rows.
#[tactic(auto, using(crate::proofs::IntegerLemmas::all_counted))]
pub(crate) fn count_valid(validity: &Validity, rows: usize) -> usize
    requires { HasLength (valid_of validity.now) rows }
    ensures { result ≡ valid_before (valid_of validity.now) rows }
{
    match validity {
        Validity::NonNullable => rows,
        Validity::AllValid => rows,
        Validity::AllInvalid => 0,
        Validity::Array(valid) => count_true(valid),
    }
}

// The number of rows that are true. Packed bits are counted.
fn count_true(rows: &ArrayRef) -> usize
    ensures { result ≡ valid_before (by_array rows.now) (len_of rows.now) }
{
    if let ArrayLayout::Bool(bits, validity) = rows.layout() {
        if let Validity::NonNullable = validity {
            return bits.true_count();
        }
    }
    count_by_row(rows)
}

#[tactic(auto, using(crate::proofs::IntegerLemmas::counted))]
fn count_by_row(rows: &ArrayRef) -> usize
    ensures { result ≡ valid_before (by_array rows.now) (len_of rows.now) }
{
    let mut count = 0;
    for i in 0..rows.len() {
        if rows.truth(i) {
            count += 1;
        }
    }
    count
}

/// An integer for each of `rows` rows: the next one of the bytes where the row is not null, and
/// else 0.
pub(crate) fn read_numbers(
    alloc: Global,
    ptype: PType,
    bytes: &[u8],
    validity: &Validity,
    rows: usize,
) -> Result<PrimitiveBuffer, AllocError>
    requires kind { IsTrue (is_integral (number_kind_of ptype)) }
    requires fits { HasLength (valid_of validity.now) rows }
    requires whole { HoldIntegers (number_kind_of ptype) bytes.now
        (valid_before (valid_of validity.now) rows) }
    ensures kind { IfOk result (λ r. integral (kind_of_numbers r) ≡ number_kind_of ptype) }
    ensures many { IfOk result (λ r. length (integers_of r) ≡ rows) }
    ensures values { IfOk result (λ r. (w : ℕ) → HasByteWidth (number_kind_of ptype) w
        → StandInBytes (kind_of_numbers r) w (valid_of validity.now) bytes.now (integers_of r)) }
{
    match_each_integer_ptype!(ptype, read_as(alloc, bytes, validity, rows))
}

// The integers of a native type.
#[tactic(auto, using(crate::proofs::IntegerLemmas::one_width))]
fn read_as<T: Element>(
    alloc: Global,
    bytes: &[u8],
    validity: &Validity,
    rows: usize,
) -> Result<PrimitiveBuffer, AllocError>
    requires fits { HasLength (valid_of validity.now) rows }
    requires whole { HoldIntegers (integral T.kind) bytes.now
        (valid_before (valid_of validity.now) rows) }
    ensures kind { IfOk result (λ r. kind_of_numbers r ≡ T.kind) }
    ensures many { IfOk result (λ r. length (integers_of r) ≡ rows) }
    ensures values { IfOk result (λ r. (w : ℕ) → HasByteWidth (integral T.kind) w
        → StandInBytes T.kind w (valid_of validity.now) bytes.now (integers_of r)) }
{
    let width = T::ptype().byte_width();
    let items: Vec<T> = read_items(alloc, bytes, width, validity, rows)?;
    let items = Buffer::from_vec(items)?;
    Ok(PrimitiveBuffer::from_buffer(items))
}

fn read_items<T: Element>(
    alloc: Global,
    bytes: &[u8],
    width: usize,
    validity: &Validity,
    rows: usize,
) -> Result<Vec<T>, AllocError>
    requires width { HasByteWidth (integral T.kind) width }
    requires fits { HasLength (valid_of validity.now) rows }
    requires whole { length bytes.now ≡ valid_before (valid_of validity.now) rows * width }
    ensures many { IfOk result (λ items. length items.items ≡ rows) }
    ensures values { IfOk result
        (λ items. StandInBytes T.kind width (valid_of validity.now) bytes.now
        (map T.integer items.items)) }
{
    if let Some(bits) = validity.packed() {
        return read_where(alloc, bytes, width, bits);
    }
    match validity {
        Validity::NonNullable => read_each(alloc, bytes, width, rows),
        Validity::AllValid => read_each(alloc, bytes, width, rows),
        Validity::AllInvalid => read_by_row(alloc, bytes, width, validity, rows),
        Validity::Array(_) => read_by_row(alloc, bytes, width, validity, rows),
    }
}

// The integers of rows without null.
fn read_each<T: Element>(
    alloc: Global,
    bytes: &[u8],
    width: usize,
    rows: usize,
) -> Result<Vec<T>, AllocError>
    requires width { HasByteWidth (integral T.kind) width }
    requires whole { length bytes.now ≡ rows * width }
    ensures many { IfOk result (λ items. length items.items ≡ rows) }
    ensures values { IfOk result (λ items. (v : Valid) → ((i : ℕ) → IsTrue (is_valid v i))
        → StandInBytes T.kind width v bytes.now (map T.integer items.items)) }
{
    let mut items = vec![in alloc; zero(); rows]?;
    let mut start = 0;
    for i in 0..rows {
        let (item, next) = item_at(bytes, start, width, true);
        items[i] = item;
        start = next;
    }
    Ok(items)
}

// The integers of the rows whose bit is true, and 0 for the others.
fn read_where<T: Element>(
    alloc: Global,
    bytes: &[u8],
    width: usize,
    bits: &BitBuffer,
) -> Result<Vec<T>, AllocError>
    requires width { HasByteWidth (integral T.kind) width }
    requires whole { length bytes.now
        ≡ valid_before (by_array (bools bits.now required)) (length bits.now) * width }
    ensures many { IfOk result (λ items. length items.items ≡ length bits.now) }
    ensures values { IfOk result
        (λ items. StandInBytes T.kind width (by_array (bools bits.now required)) bytes.now
        (map T.integer items.items)) }
{
    let rows = bits.len();
    let mut items = vec![in alloc; zero(); rows]?;
    let mut start = 0;
    for i in 0..rows {
        let (item, next) = item_at(bytes, start, width, bits.value(i));
        items[i] = item;
        start = next;
    }
    Ok(items)
}

// The integers row by row, for a validity of any layout.
fn read_by_row<T: Element>(
    alloc: Global,
    bytes: &[u8],
    width: usize,
    validity: &Validity,
    rows: usize,
) -> Result<Vec<T>, AllocError>
    requires width { HasByteWidth (integral T.kind) width }
    requires fits { HasLength (valid_of validity.now) rows }
    requires whole { length bytes.now ≡ valid_before (valid_of validity.now) rows * width }
    ensures many { IfOk result (λ items. length items.items ≡ rows) }
    ensures values { IfOk result
        (λ items. StandInBytes T.kind width (valid_of validity.now) bytes.now
        (map T.integer items.items)) }
{
    let mut items = vec![in alloc; zero(); rows]?;
    let mut start = 0;
    for i in 0..rows {
        let (item, next) = item_at(bytes, start, width, validity.is_valid(i, rows));
        items[i] = item;
        start = next;
    }
    Ok(items)
}

// The integer whose bytes begin at `start` and the start of the next; 0 and `start` for a null row.
#[tactic(auto, using(vortex_model::proofs::Ranges::zero_within))]
fn item_at<T: Element>(bytes: &[u8], start: usize, width: usize, is_valid: bool) -> (T, usize)
    requires width { HasByteWidth (integral T.kind) width }
    requires within { is_valid ≡ true → start + width ≤ length bytes.now }
    ensures item { is_valid ≡ true
        → AreBytesOf T.kind (T.integer result.0) (take width (drop start bytes.now)) }
    ensures null { is_valid ≡ false → T.integer result.0 ≡ pos 0 }
    ensures next { result.1 ≡ cond is_valid (start + width) start }
{
    if !is_valid {
        return (zero(), start);
    }
    let end = start + width;
    (read_item(&bytes[start..end]), end)
}

#[tactic(auto, using(vortex_model::proofs::Ranges::zero_within))]
fn zero<T: Element>() -> T
    ensures { T.integer result ≡ pos 0 }
{
    match T::of(0) {
        Some(zero) => zero,
        None => unreachable!(),
    }
}

fn read_item<T: Element>(bytes: &[u8]) -> T
    requires { HasByteWidth (integral T.kind) (length bytes.now) }
    ensures { AreBytesOf T.kind (T.integer result) bytes.now }
{
    match T::try_from_le_bytes(bytes) {
        Ok(number) => number,
        Err(_) => unreachable!(),
    }
}
