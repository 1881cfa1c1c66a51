//! Leaf values, from JSON.
ghost use Rattle.std.specs.Prelude.{string_bytes};
ghost use Rattle.serde_json.specs.Data.{boolean, number, string};
ghost use Rattle.serde_json.specs.View.{number_view};
ghost use Rattle.vortex_dtype_ptype.specs.View.{number_kind_of};
ghost use Rattle.vortex_dtype_core.specs.View.{type_of};
ghost use Rattle.vortex_scalar_value.specs.View.{raw_in};
ghost use Rattle.vortex_table_request.specs.Parsed.{Gives};
ghost use Rattle.vortex_table_request.specs.Rows.{number_of, reading};

use crate::{ParseError, read_digits};
use serde_json::Number;
use std::alloc::Global;
use vortex_dtype_core::BufferString;
use vortex_dtype_core::dtype::DType;
use vortex_dtype_ptype::ptype::PType;
use vortex_scalar_value::pvalue::PValue;
use vortex_scalar_value::scalar_value::ScalarValue;

/// A boolean, for a boolean type.
#[tactic(auto, using(crate::proofs::AtKinds::leaves))]
pub(crate) fn read_boolean(dtype: &DType, truth: bool) -> Result<Option<ScalarValue>, ParseError>
    ensures { Gives raw_in result (reading (type_of dtype.now) (boolean truth)) }
{
    if dtype.is_boolean() {
        Ok(Some(ScalarValue::Bool(truth)))
    } else {
        Err(ParseError::Malformed)
    }
}

// The integer of a JSON number, if it is within the type. Float types have none.
fn read_number_of(ptype: PType, number: &Number) -> Result<Option<ScalarValue>, ParseError>
    ensures { Gives raw_in result (number_of (number_kind_of ptype) (number_view number.now)) }
{
    let whole = number.as_i128().ok_or(ParseError::Malformed)?;
    match PValue::of(ptype, whole) {
        Some(value) => Ok(Some(ScalarValue::Primitive(value))),
        None => Err(ParseError::Malformed),
    }
}

/// The integer of a JSON number, for an integer type.
pub(crate) fn read_number(dtype: &DType, digits: &Number) -> Result<Option<ScalarValue>, ParseError>
    ensures { Gives raw_in result (reading (type_of dtype.now) (number (number_view digits.now))) }
{
    match dtype.as_ptype_opt() {
        Some(ptype) => read_number_of(ptype, digits),
        None => Err(ParseError::Malformed),
    }
}

/// The string, which is consumed, or the bytes of a string of hexadecimal digits.
#[tactic(auto, using(crate::proofs::AtKinds::leaves))]
pub(crate) fn take_text(
    alloc: Global,
    dtype: &DType,
    text: String,
) -> Result<Option<ScalarValue>, ParseError>
    ensures { Gives raw_in result (reading (type_of dtype.now) (string (string_bytes text))) }
{
    if dtype.is_utf8() {
        let text = BufferString::from_string(text)?;
        return Ok(Some(ScalarValue::Utf8(text)));
    }
    if dtype.is_binary() {
        let bytes = read_digits(alloc, text.as_str())?;
        return Ok(Some(ScalarValue::Binary(bytes)));
    }
    Err(ParseError::Malformed)
}
