//! Tests of the values of an array.
ghost use Rattle.std.specs.Prelude.{◌≡◌, ◌↔◌, not, map, All, IsTrue, IfErr, OnOk, MatchOption};
ghost use Rattle.vortex_model.specs.LogicalType.{nullability_of};
ghost use Rattle.vortex_dtype_ptype.specs.View.{nullability_of_flag};
ghost use Rattle.vortex_dtype_core.specs.View.{type_of};
ghost use Rattle.vortex_arrays_view.specs.declared.error.ArrayError.TheVariants.{NullInNonNullable};
ghost use Rattle.vortex_arrays_model.specs.Layout.{texts, byte_strings, type_of_strings, IsString};
ghost use Rattle.vortex_arrays_core.specs.LayoutOf.{strings_of};
ghost use Rattle.vortex_arrays_parts.specs.Values.{lent, HaveNulls, HoldsStrings, IsHeld, IsPresent};

use vortex_arrays_core::array::StringKind;
use vortex_arrays_view::error::ArrayError;
use vortex_dtype_core::dtype::DType;
use vortex_dtype_ptype::nullability::Nullability;

/// The kind of the values of a type, where they are strings or bytes.
#[tactic(auto, using(crate::proofs::TextTypes::kinds))]
pub(crate) fn string_kind(dtype: &DType) -> Option<StringKind>
    ensures { MatchOption result (¬ HoldsStrings (type_of dtype.now))
        (λ kind. type_of dtype.now
        ≡ type_of_strings (strings_of kind) (nullability_of (type_of dtype.now))) }
{
    if dtype.is_utf8() {
        return Some(StringKind::Utf8);
    }
    if dtype.is_binary() {
        return Some(StringKind::Binary);
    }
    None
}

/// Tests that no value is missing in a type without null.
pub(crate) fn check_nulls(
    nullability: Nullability,
    values: &[Option<&[u8]>],
) -> Result<(), ArrayError>
    ensures fits { OnOk result
        (HaveNulls (nullability_of_flag nullability) (map lent values.now)) }
    ensures refused { IfErr result (λ e. (e ≡ NullInNonNullable)
        × (¬ HaveNulls (nullability_of_flag nullability) (map lent values.now))) }
{
    match nullability {
        Nullability::Nullable => Ok(()),
        Nullability::NonNullable => {
            if are_present(values) {
                Ok(())
            } else {
                Err(ArrayError::NullInNonNullable)
            }
        }
    }
}

/// Whether no value is missing.
#[tactic(auto, using(crate::proofs::RowLemmas::present))]
pub(crate) fn are_present(values: &[Option<&[u8]>]) -> bool
    ensures { IsTrue result ↔ All IsPresent (map lent values.now) }
{
    for value in values {
        if value.is_none() {
            return false;
        }
    }
    true
}

/// Whether each value is of the kind: UTF-8 where it is `Utf8`.
pub(crate) fn are_held(kind: StringKind, values: &[Option<&[u8]>]) -> bool
    requires { All (IsHeld byte_strings) (map lent values.now) }
    ensures held { IsTrue result → All (IsHeld (strings_of kind)) (map lent values.now) }
    ensures kind { IsTrue (not result) → strings_of kind ≡ texts }
    ensures other { IsTrue (not result) → ¬ All (IsHeld texts) (map lent values.now) }
{
    match kind {
        StringKind::Binary => true,
        StringKind::Utf8 => are_texts(values),
    }
}

// Whether each value that is not missing is UTF-8.
#[tactic(auto, using(crate::proofs::RowLemmas::held))]
fn are_texts(values: &[Option<&[u8]>]) -> bool
    ensures held { IsTrue result → All (IsHeld texts) (map lent values.now) }
    ensures other { IsTrue (not result) → ¬ All (IsHeld texts) (map lent values.now) }
{
    for value in values {
        let is_text = is_text(*value);
        if !is_text {
            return false;
        }
    }
    true
}

// Whether the value is missing or UTF-8.
fn is_text(value: Option<&[u8]>) -> bool
    ensures held { IsTrue result → IsHeld texts (lent value.entry) }
    ensures other { IsTrue (not result) → ¬ IsHeld texts (lent value.entry) }
{
    match value {
        Some(value) => simdutf8::basic::from_utf8(value).is_ok(),
        None => true,
    }
}
