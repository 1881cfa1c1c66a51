//! JSON strings with the shortest escapes.
ghost use Rattle.std.specs.Prelude.{◌≡◌, ◌<◌, ◌++◌, OnOk};
ghost use Rattle.std.specs.Char.{digit_char};
ghost use Rattle.json.specs.Print.{quoted, escape, escape_byte};
ghost use Rattle.vortex_table_response.specs.type_texts.Text.{is_unescaped};

use crate::type_texts::unescaped::is_plain;
use std::alloc::AllocError;

// Whether the byte needs no escape in a JSON string.
fn stands_for_itself(byte: u8) -> bool
    ensures { result ≡ is_unescaped byte }
{
    byte >= 32 && byte != b'"' && byte != b'\\'
}

// Writes a string in which nothing needs an escape, as in most.
fn push_plain(out: &mut Vec<u8>, text: &[u8]) -> Result<(), AllocError>
    requires { escape text.now ≡ text.now }
    ensures { OnOk result (out.new.items ≡ out.old.items ++ quoted text.now) }
{
    out.push(b'"')?;
    out.extend_from_slice(text)?;
    out.push(b'"')?;
    Ok(())
}

// A hexadecimal digit in lower case.
fn hex_digit(digit: u8) -> u8
    requires { digit < 16 }
    ensures { result ≡ digit_char digit }
{
    if digit < 10 { 48 + digit } else { 87 + digit }
}

// Writes the byte with its escape, if it needs one.
#[tactic(auto, unfolding(json::specs::Print::escape_byte))]
fn push_escape(out: &mut Vec<u8>, byte: u8) -> Result<(), AllocError>
    ensures { OnOk result (out.new.items ≡ out.old.items ++ escape_byte byte) }
{
    if stands_for_itself(byte) {
        out.push(byte)?;
        return Ok(());
    }
    match byte {
        b'"' => out.extend_from_slice(b"\\\""),
        b'\\' => out.extend_from_slice(b"\\\\"),
        8 => out.extend_from_slice(b"\\b"),
        9 => out.extend_from_slice(b"\\t"),
        10 => out.extend_from_slice(b"\\n"),
        12 => out.extend_from_slice(b"\\f"),
        13 => out.extend_from_slice(b"\\r"),
        _ => {
            let digits = [hex_digit(byte / 16), hex_digit(byte % 16)];
            out.extend_from_slice(b"\\u00")?;
            out.extend_from_slice(&digits)
        }
    }
}

// Writes the bytes with their escapes.
fn push_escapes(out: &mut Vec<u8>, text: &[u8]) -> Result<(), AllocError>
    ensures { OnOk result (out.new.items ≡ out.old.items ++ escape text.now) }
{
    for byte in text {
        push_escape(out, *byte)?;
    }
    Ok(())
}

// Writes any string.
fn push_escaped(out: &mut Vec<u8>, text: &[u8]) -> Result<(), AllocError>
    ensures { OnOk result (out.new.items ≡ out.old.items ++ quoted text.now) }
{
    out.push(b'"')?;
    push_escapes(out, text)?;
    out.push(b'"')?;
    Ok(())
}

/// Writes a UTF-8 string, given as bytes, with quotes and escapes. After an `Err` the buffer's
/// content is unspecified.
pub fn push_text(out: &mut Vec<u8>, text: &[u8]) -> Result<(), AllocError>
    ensures { OnOk result (out.new.items ≡ out.old.items ++ quoted text.now) }
{
    if is_plain(text) {
        push_plain(out, text)
    } else {
        push_escaped(out, text)
    }
}
