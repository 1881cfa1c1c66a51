//! Values as JSON. Only the growth of the buffer allocates.
ghost use Rattle.std.specs.Prelude.{◌≡◌, ◌++◌, OnOk, true, false};
ghost use Rattle.std.specs.Fmt.{signed_decimal};
ghost use Rattle.vortex_model.specs.Content.{content_of, contents_of};
ghost use Rattle.vortex_scalar_value.specs.Numbers.{integer_of};
ghost use Rattle.vortex_scalar_value.specs.View.{raw_of, raw_at, raws_in};
ghost use Rattle.vortex_table_response.specs.Text.{content_text, contents_text, numbers_text};

use crate::hexadecimal::push_bytes;
use crate::indices::{LONGEST, place_index};
use crate::type_texts::{push_comma, push_flag, push_number, push_text};
use std::alloc::AllocError;
use vortex_scalar_value::pvalue::PValue;
use vortex_scalar_value::scalar_value::ScalarValue;

// The bytes of numbers that are gathered before the buffer grows.
const GATHERED: usize = 256;

// Writes the numbers, each after a comma. Many are gathered before the buffer grows by them.
fn push_later(out: &mut Vec<u8>, numbers: &[usize]) -> Result<(), AllocError>
    ensures { OnOk result (out.new.items ≡ out.old.items ++ numbers_text true numbers.now) }
{
    let mut buf = [0; GATHERED];
    let mut at = 0;
    for n in numbers {
        if at > GATHERED - LONGEST {
            out.extend_from_slice(&buf[..at])?;
            at = 0;
        }
        at = place_index(&mut buf, at, *n);
    }
    out.extend_from_slice(&buf[..at])
}

/// Writes the numbers with commas between.
pub fn push_numbers(out: &mut Vec<u8>, numbers: &[usize]) -> Result<(), AllocError>
    ensures { OnOk result (out.new.items ≡ out.old.items ++ numbers_text false numbers.now) }
{
    match numbers {
        [] => Ok(()),
        [first, later @ ..] => {
            push_number(out, *first)?;
            push_later(out, later)?;
            Ok(())
        }
    }
}

fn push_integer(out: &mut Vec<u8>, number: PValue) -> Result<(), AllocError>
    ensures { OnOk result (out.new.items ≡ out.old.items ++ signed_decimal (integer_of number)) }
{
    match number {
        PValue::U8(n) => push_number(out, n),
        PValue::U16(n) => push_number(out, n),
        PValue::U32(n) => push_number(out, n),
        PValue::U64(n) => push_number(out, n),
        PValue::I8(n) => push_number(out, n),
        PValue::I16(n) => push_number(out, n),
        PValue::I32(n) => push_number(out, n),
        PValue::I64(n) => push_number(out, n),
    }
}

/// Writes a value: an integer, a boolean, a string, bytes as a string of hexadecimal digits, or a
/// list or a struct as an array. For a value of a union or a variant type it writes nothing.
#[tactic(auto, using(vortex_scalar_value::proofs::Views::one_level))]
#[cycle(value)]
pub fn push_value(out: &mut Vec<u8>, value: &ScalarValue) -> Result<(), AllocError>
    ensures { OnOk result (out.new.items ≡ out.old.items
        ++ content_text (content_of (raw_of value.now))) }
{
    match value {
        ScalarValue::Bool(flag) => push_flag(out, *flag),
        ScalarValue::Primitive(number) => push_integer(out, *number),
        ScalarValue::Utf8(text) => push_text(out, text.as_str().as_bytes()),
        ScalarValue::Tuple(values) => {
            out.push(b'[')?;
            push_values(out, values)?;
            out.push(b']')?;
            Ok(())
        }
        ScalarValue::Binary(bytes) => push_bytes(out, bytes.as_slice()),
        ScalarValue::Union(_) | ScalarValue::Variant(_) => Ok(()),
    }
}

#[tactic(auto, using(vortex_scalar_value::proofs::Views::one_level))]
#[cycle(value)]
fn push_values(out: &mut Vec<u8>, values: &[Option<ScalarValue>]) -> Result<(), AllocError>
    ensures { OnOk result (out.new.items ≡ out.old.items
        ++ contents_text false (contents_of (raws_in values.now))) }
{
    let mut later = false;
    for value in values {
        push_comma(out, later)?;
        match value {
            None => out.extend_from_slice(b"null")?,
            Some(value) => push_value(out, value)?,
        }
        later = true;
    }
    Ok(())
}

/// Writes a value, or `null` for none.
pub fn push_cell(out: &mut Vec<u8>, value: Option<&ScalarValue>) -> Result<(), AllocError>
    ensures { OnOk result (out.new.items ≡ out.old.items
        ++ content_text (content_of (raw_at value.entry))) }
{
    match value {
        None => out.extend_from_slice(b"null"),
        Some(value) => push_value(out, value),
    }
}
