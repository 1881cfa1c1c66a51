//! Tests of views and of their values.
ghost use Rattle.std.specs.Prelude.{◌≡◌, ◌<◌, ℕ, true, false, [], length, slice_index_or, IsTrue, OnOk, IfErr};
ghost use Rattle.vortex_arrays_view.specs.Views.{value_of, HasValue};
ghost use Rattle.vortex_arrays_model.specs.Layout.{bools, texts, Valid, required, by_array, is_valid, HasLength, IsString};
ghost use Rattle.vortex_arrays_core.specs.LayoutOf.{valid_of, strings_of};
ghost use Rattle.vortex_arrays_leaf.specs.Strings.{HasValueAt, HoldsAt, HaveValues, HoldStrings};
ghost use Rattle.vortex_arrays_view.specs.declared.error.ArrayError.TheVariants.{Total};
ghost use Rattle.vortex_arrays_leaf.specs.ViewFaults.{IsLongAt, HasLongValue, IsViewsFault, IsTextsFault};

use bytes::Bytes;
use vortex_arrays_buffer::bit_buffer::BitBuffer;
use vortex_arrays_core::array::{StringKind, Validity};
use vortex_arrays_view::build::MAX_BUFFER_LEN;
use vortex_arrays_view::error::ArrayError;
use vortex_arrays_view::view::BinaryView;

/// Tests that the value of each row that is not null fits into a buffer, and else returns `Total`.
pub(crate) fn check_lengths(
    views: &[BinaryView],
    buffers: &[Bytes],
    validity: &Validity,
) -> Result<(), ArrayError>
    requires { HasLength (valid_of validity.now) (length views.now) }
    ensures short { OnOk result (HasLongValue views.now buffers.now (valid_of validity.now) → ⊥) }
    ensures refused { IfErr result
        (λ e. (e ≡ Total) × HasLongValue views.now buffers.now (valid_of validity.now)) }
{
    for i in 0..views.len() {
        if is_long_at(views, buffers, validity, i) {
            return Err(ArrayError::Total);
        }
    }
    Ok(())
}

// Whether the row is not null and its value is too long for a buffer.
#[tactic(auto, using(crate::proofs::Checked::reads))]
fn is_long_at(views: &[BinaryView], buffers: &[Bytes], validity: &Validity, i: usize) -> bool
    requires within { i < length views.now }
    requires fits { HasLength (valid_of validity.now) (length views.now) }
    ensures long { result ≡ true → IsLongAt views.now buffers.now (valid_of validity.now) i }
    ensures short { result ≡ false → IsLongAt views.now buffers.now (valid_of validity.now) i → ⊥ }
{
    if views[i].len() as usize <= MAX_BUFFER_LEN {
        return false;
    }
    if validity.is_null(i, views.len()) {
        return false;
    }
    views[i].has_value(buffers)
}

/// Tests that the view of each row that is not null has a value, and else returns `BadView`.
pub(crate) fn check_views(
    views: &[BinaryView],
    buffers: &[Bytes],
    validity: &Validity,
) -> Result<(), ArrayError>
    requires { HasLength (valid_of validity.now) (length views.now) }
    ensures values { OnOk result (HaveValues views.now buffers.now (valid_of validity.now)) }
    ensures refused { IfErr result
        (λ e. IsViewsFault e views.now buffers.now (valid_of validity.now)) }
{
    if let Some(bits) = validity.packed() {
        return check_views_where(views, buffers, bits);
    }
    match validity {
        Validity::NonNullable => check_each_view(views, buffers),
        Validity::AllValid => check_each_view(views, buffers),
        Validity::AllInvalid => Ok(()),
        Validity::Array(_) => check_views_by_row(views, buffers, validity),
    }
}

// Tests the views of all rows, where none is null.
#[tactic(auto, using(crate::proofs::Checked::views))]
fn check_each_view(views: &[BinaryView], buffers: &[Bytes]) -> Result<(), ArrayError>
    ensures values { OnOk result ((v : Valid) → HaveValues views.now buffers.now v) }
    ensures refused { IfErr result (λ e. (v : Valid) → ((i : ℕ) → IsTrue (is_valid v i))
        → IsViewsFault e views.now buffers.now v) }
{
    for i in 0..views.len() {
        if !views[i].has_value(buffers) {
            return Err(ArrayError::BadView);
        }
    }
    Ok(())
}

// Tests the views of the rows whose bit is true.
#[tactic(auto, using(crate::proofs::Checked::views))]
fn check_views_where(
    views: &[BinaryView],
    buffers: &[Bytes],
    bits: &BitBuffer,
) -> Result<(), ArrayError>
    requires { length bits.now ≡ length views.now }
    ensures values { OnOk result
        (HaveValues views.now buffers.now (by_array (bools bits.now required))) }
    ensures refused { IfErr result
        (λ e. IsViewsFault e views.now buffers.now (by_array (bools bits.now required))) }
{
    for i in 0..views.len() {
        if !has_value_where(views, buffers, bits, i) {
            return Err(ArrayError::BadView);
        }
    }
    Ok(())
}

// Tests the views row by row, for a validity of any layout.
#[tactic(auto, using(crate::proofs::Checked::views))]
fn check_views_by_row(
    views: &[BinaryView],
    buffers: &[Bytes],
    validity: &Validity,
) -> Result<(), ArrayError>
    requires { HasLength (valid_of validity.now) (length views.now) }
    ensures values { OnOk result (HaveValues views.now buffers.now (valid_of validity.now)) }
    ensures refused { IfErr result
        (λ e. IsViewsFault e views.now buffers.now (valid_of validity.now)) }
{
    for i in 0..views.len() {
        if !has_value_at(views, buffers, validity, i) {
            return Err(ArrayError::BadView);
        }
    }
    Ok(())
}

/// Tests that the value of each row that is not null is UTF-8 where the kind is `Utf8`, and else
/// returns `NotUtf8`.
pub(crate) fn check_values(
    kind: StringKind,
    views: &[BinaryView],
    buffers: &[Bytes],
    validity: &Validity,
) -> Result<(), ArrayError>
    requires fits { HasLength (valid_of validity.now) (length views.now) }
    requires values { HaveValues views.now buffers.now (valid_of validity.now) }
    ensures strings { OnOk result
        (HoldStrings (strings_of kind) views.now buffers.now (valid_of validity.now)) }
    ensures refused { IfErr result (λ e. IsTextsFault e (strings_of kind) views.now buffers.now
        (valid_of validity.now)) }
{
    if let Some(bits) = validity.packed() {
        return check_values_where(kind, views, buffers, bits);
    }
    match validity {
        Validity::NonNullable => check_each_value(kind, views, buffers),
        Validity::AllValid => check_each_value(kind, views, buffers),
        Validity::AllInvalid => Ok(()),
        Validity::Array(_) => check_values_by_row(kind, views, buffers, validity),
    }
}

// Tests the values of all rows, where none is null.
#[tactic(auto, using(crate::proofs::Checked::values))]
fn check_each_value(
    kind: StringKind,
    views: &[BinaryView],
    buffers: &[Bytes],
) -> Result<(), ArrayError>
    requires { HaveValues views.now buffers.now required }
    ensures strings { OnOk result
        ((v : Valid) → HoldStrings (strings_of kind) views.now buffers.now v) }
    ensures refused { IfErr result (λ e. (v : Valid) → ((i : ℕ) → IsTrue (is_valid v i))
        → IsTextsFault e (strings_of kind) views.now buffers.now v) }
{
    for i in 0..views.len() {
        if !holds_in(kind, views, buffers, i) {
            return Err(ArrayError::NotUtf8);
        }
    }
    Ok(())
}

// Tests the values of the rows whose bit is true.
#[tactic(auto, using(crate::proofs::Checked::values))]
fn check_values_where(
    kind: StringKind,
    views: &[BinaryView],
    buffers: &[Bytes],
    bits: &BitBuffer,
) -> Result<(), ArrayError>
    requires count { length bits.now ≡ length views.now }
    requires values { HaveValues views.now buffers.now (by_array (bools bits.now required)) }
    ensures strings { OnOk result (HoldStrings (strings_of kind) views.now buffers.now
        (by_array (bools bits.now required))) }
    ensures refused { IfErr result (λ e. IsTextsFault e (strings_of kind) views.now buffers.now
        (by_array (bools bits.now required))) }
{
    for i in 0..views.len() {
        if !holds_where(kind, views, buffers, bits, i) {
            return Err(ArrayError::NotUtf8);
        }
    }
    Ok(())
}

// Tests the values row by row, for a validity of any layout.
#[tactic(auto, using(crate::proofs::Checked::values))]
fn check_values_by_row(
    kind: StringKind,
    views: &[BinaryView],
    buffers: &[Bytes],
    validity: &Validity,
) -> Result<(), ArrayError>
    requires fits { HasLength (valid_of validity.now) (length views.now) }
    requires values { HaveValues views.now buffers.now (valid_of validity.now) }
    ensures strings { OnOk result
        (HoldStrings (strings_of kind) views.now buffers.now (valid_of validity.now)) }
    ensures refused { IfErr result (λ e. IsTextsFault e (strings_of kind) views.now buffers.now
        (valid_of validity.now)) }
{
    for i in 0..views.len() {
        if !holds_at(kind, views, buffers, validity, i) {
            return Err(ArrayError::NotUtf8);
        }
    }
    Ok(())
}

// Whether the bit of the row is false or its view has a value.
#[tactic(auto, using(crate::proofs::Checked::reads))]
fn has_value_where(views: &[BinaryView], buffers: &[Bytes], bits: &BitBuffer, i: usize) -> bool
    requires within { i < length views.now }
    requires count { length bits.now ≡ length views.now }
    ensures has { result ≡ true
        → HasValueAt views.now buffers.now (by_array (bools bits.now required)) i }
    ensures valid { result ≡ false → IsTrue (is_valid (by_array (bools bits.now required)) i) }
    ensures bad { result ≡ false → HasValue (slice_index_or views.now i []) buffers.now → ⊥ }
{
    if !bits.value(i) {
        return true;
    }
    views[i].has_value(buffers)
}

// Whether the row is null or its view has a value.
#[tactic(auto, using(crate::proofs::Checked::reads))]
fn has_value_at(views: &[BinaryView], buffers: &[Bytes], validity: &Validity, i: usize) -> bool
    requires within { i < length views.now }
    requires fits { HasLength (valid_of validity.now) (length views.now) }
    ensures has { result ≡ true → HasValueAt views.now buffers.now (valid_of validity.now) i }
    ensures valid { result ≡ false → IsTrue (is_valid (valid_of validity.now) i) }
    ensures bad { result ≡ false → HasValue (slice_index_or views.now i []) buffers.now → ⊥ }
{
    if validity.is_null(i, views.len()) {
        return true;
    }
    views[i].has_value(buffers)
}

// Whether the value of the row is of the kind.
#[tactic(auto, using(crate::proofs::Checked::reads))]
fn holds_in(kind: StringKind, views: &[BinaryView], buffers: &[Bytes], i: usize) -> bool
    requires within { i < length views.now }
    requires value { HasValue (slice_index_or views.now i []) buffers.now }
    ensures holds { result ≡ true
        → IsString (strings_of kind) (value_of (slice_index_or views.now i []) buffers.now) }
    ensures kind { result ≡ false → strings_of kind ≡ texts }
    ensures other { result ≡ false
        → IsString (strings_of kind) (value_of (slice_index_or views.now i []) buffers.now) → ⊥ }
{
    is_string(kind, views[i].bytes(buffers))
}

// Whether the bit of the row is false or its value is of the kind.
fn holds_where(
    kind: StringKind,
    views: &[BinaryView],
    buffers: &[Bytes],
    bits: &BitBuffer,
    i: usize,
) -> bool
    requires within { i < length views.now }
    requires count { length bits.now ≡ length views.now }
    requires value { HasValueAt views.now buffers.now (by_array (bools bits.now required)) i }
    ensures holds { result ≡ true → HoldsAt (strings_of kind) views.now buffers.now
        (by_array (bools bits.now required)) i }
    ensures valid { result ≡ false → IsTrue (is_valid (by_array (bools bits.now required)) i) }
    ensures kind { result ≡ false → strings_of kind ≡ texts }
    ensures other { result ≡ false
        → IsString (strings_of kind) (value_of (slice_index_or views.now i []) buffers.now) → ⊥ }
{
    if !bits.value(i) {
        return true;
    }
    holds_in(kind, views, buffers, i)
}

// Whether the row is null or its value is of the kind.
fn holds_at(
    kind: StringKind,
    views: &[BinaryView],
    buffers: &[Bytes],
    validity: &Validity,
    i: usize,
) -> bool
    requires within { i < length views.now }
    requires fits { HasLength (valid_of validity.now) (length views.now) }
    requires value { HasValueAt views.now buffers.now (valid_of validity.now) i }
    ensures holds { result ≡ true → HoldsAt (strings_of kind) views.now buffers.now
        (valid_of validity.now) i }
    ensures valid { result ≡ false → IsTrue (is_valid (valid_of validity.now) i) }
    ensures kind { result ≡ false → strings_of kind ≡ texts }
    ensures other { result ≡ false
        → IsString (strings_of kind) (value_of (slice_index_or views.now i []) buffers.now) → ⊥ }
{
    if validity.is_null(i, views.len()) {
        return true;
    }
    holds_in(kind, views, buffers, i)
}

// Whether the bytes are of the kind: UTF-8 where it is `Utf8`, and any where it is `Binary`.
fn is_string(kind: StringKind, value: &[u8]) -> bool
    ensures holds { result ≡ true → IsString (strings_of kind) value.now }
    ensures kind { result ≡ false → strings_of kind ≡ texts }
    ensures other { result ≡ false → IsString (strings_of kind) value.now → ⊥ }
{
    match kind {
        StringKind::Utf8 => simdutf8::basic::from_utf8(value).is_ok(),
        StringKind::Binary => true,
    }
}
