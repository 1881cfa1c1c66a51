//! Validity and casts of values without values inside.
ghost use Rattle.std.specs.Prelude.{◌≡◌, ◌≢◌, true, false, None, is_ok, IfOk, IfErr, IsErrOf};
ghost use Rattle.vortex_model.specs.Content.{content_of, boolean, integer, text, byte_string, raw_boolean, raw_number, raw_text, raw_byte_string};
ghost use Rattle.vortex_model.specs.Valid.{has, valid};
ghost use Rattle.vortex_model.specs.Convert.{converts};
ghost use Rattle.vortex_dtype_core.specs.View.{type_of};
ghost use Rattle.vortex_scalar_value.specs.Numbers.{raw_of_number, integer_of};
ghost use Rattle.vortex_scalar_value.specs.Parts.{items_in};
ghost use Rattle.vortex_scalar_value.specs.View.{raw_of};
ghost use Rattle.vortex_scalar_ops.specs.Converting.{is_identity_cast};

use vortex_dtype_core::dtype::DType;
use vortex_scalar_value::error::ScalarError;
use vortex_scalar_value::pvalue::PValue;
use vortex_scalar_value::scalar_value::ScalarValue;

/// Whether the type has the integer. The type is not an extension.
#[tactic(auto, using(crate::proofs::LeafValues::numbers))]
pub(crate) fn has_number(dtype: &DType, number: PValue) -> bool
    ensures { result ≡ has (type_of dtype.now) (raw_of_number number) }
{
    match dtype.as_ptype_opt() {
        Some(ptype) => number.is_of(ptype),
        None => false,
    }
}

/// Whether the type has the string. The type is not an extension.
pub(crate) fn has_text(dtype: &DType, value: &str) -> bool
    ensures { result ≡ has (type_of dtype.now) (raw_text value.now) }
{
    dtype.is_utf8()
}

/// Whether the type has the bytes. The type is not an extension.
pub(crate) fn has_bytes(dtype: &DType, bytes: &[u8]) -> bool
    ensures { result ≡ has (type_of dtype.now) (raw_byte_string bytes.now) }
{
    dtype.is_binary()
}

/// The value as one of `target`, with the same content. It has no values inside.
#[tactic(auto, using(vortex_scalar_value::proofs::Views::one_level))]
pub(crate) fn cast_leaf(
    source: &DType,
    target: &DType,
    value: &ScalarValue,
) -> Result<ScalarValue, ScalarError>
    requires kept { is_identity_cast (type_of source.now) ≡ false }
    requires leaf { items_in (raw_of value.now) ≡ None }
    ensures converts { IfOk result (λ _.
        converts (type_of source.now) (type_of target.now) (content_of (raw_of value.now)) ≡ true) }
    ensures content { IfOk result (λ new. content_of (raw_of new) ≡ content_of (raw_of value.now)) }
    ensures valid { IfOk result (λ new. valid (type_of target.now) (raw_of new) ≡ true) }
    ensures refused { IsErrOf result ScalarError.NotConvertible
        → converts (type_of source.now) (type_of target.now) (content_of (raw_of value.now))
        ≡ false }
    ensures invalid { IfErr result (λ error. error ≢ ScalarError.Invalid) }
{
    match value {
        ScalarValue::Bool(flag) => {
            if !converts_boolean(source, target, *flag) {
                return Err(ScalarError::NotConvertible);
            }
            Ok(ScalarValue::Bool(*flag))
        }
        ScalarValue::Primitive(number) => {
            let number = cast_number(source, target, *number)?;
            Ok(ScalarValue::Primitive(number))
        }
        ScalarValue::Utf8(text) => {
            if !converts_text(source, target, text.as_str()) {
                return Err(ScalarError::NotConvertible);
            }
            let text = text.clone()?;
            Ok(ScalarValue::Utf8(text))
        }
        ScalarValue::Binary(bytes) => {
            if !converts_bytes(source, target, bytes.as_slice()) {
                return Err(ScalarError::NotConvertible);
            }
            let bytes = bytes.clone()?;
            Ok(ScalarValue::Binary(bytes))
        }
        ScalarValue::Tuple(_) | ScalarValue::Union(_) | ScalarValue::Variant(_) => {
            Err(ScalarError::NotConvertible)
        }
    }
}

// Whether `target` can hold the boolean.
#[tactic(auto, using(crate::proofs::LeafValues::truths))]
fn converts_boolean(source: &DType, target: &DType, flag: bool) -> bool
    requires { is_identity_cast (type_of source.now) ≡ false }
    ensures when { result ≡ converts (type_of source.now) (type_of target.now) (boolean flag) }
    ensures valid { result ≡ true → valid (type_of target.now) (raw_boolean flag) ≡ true }
{
    source.is_boolean() && target.is_boolean()
}

// Whether `target` can hold the string.
#[tactic(auto, using(crate::proofs::LeafValues::texts))]
fn converts_text(source: &DType, target: &DType, value: &str) -> bool
    requires { is_identity_cast (type_of source.now) ≡ false }
    ensures when { result ≡ converts (type_of source.now) (type_of target.now) (text value.now) }
    ensures valid { result ≡ true → valid (type_of target.now) (raw_text value.now) ≡ true }
{
    source.is_utf8() && target.is_utf8()
}

// Whether `target` can hold the bytes.
#[tactic(auto, using(crate::proofs::LeafValues::byte_strings))]
fn converts_bytes(source: &DType, target: &DType, bytes: &[u8]) -> bool
    requires { is_identity_cast (type_of source.now) ≡ false }
    ensures when { result ≡ converts (type_of source.now) (type_of target.now)
        (byte_string bytes.now) }
    ensures valid { result ≡ true → valid (type_of target.now) (raw_byte_string bytes.now) ≡ true }
{
    source.is_binary() && target.is_binary()
}

// The integer as one of `target`.
#[tactic(auto, using(crate::proofs::LeafValues::integers))]
fn cast_number(source: &DType, target: &DType, number: PValue) -> Result<PValue, ScalarError>
    requires { is_identity_cast (type_of source.now) ≡ false }
    ensures when { is_ok result ≡ converts (type_of source.now) (type_of target.now)
        (integer (integer_of number)) }
    ensures number { IfOk result (λ new. integer_of new ≡ integer_of number) }
    ensures valid { IfOk result (λ new. valid (type_of target.now) (raw_of_number new) ≡ true) }
    ensures refused { IfErr result (λ error. error ≡ ScalarError.NotConvertible) }
{
    if !source.is_int() {
        return Err(ScalarError::NotConvertible);
    }
    let Some(ptype) = target.as_ptype_opt() else {
        return Err(ScalarError::NotConvertible);
    };
    match number.cast_to(ptype) {
        Some(new) => Ok(new),
        None => Err(ScalarError::NotConvertible),
    }
}
