//! Bytes as a JSON string of hexadecimal digits.
ghost use Rattle.std.specs.Prelude.{◌≡◌, [], ◌∷◌, ◌++◌, OnOk};
ghost use Rattle.hex.specs.Hex.{encode_lower};
ghost use Rattle.vortex_table_response.specs.Text.{bytes_text};

use std::alloc::AllocError;

const DIGITS: &[u8; 16] = b"0123456789abcdef";

// The two hexadecimal digits of a byte, in lower case.
#[tactic(auto, unfolding(hex::specs::Hex::encode_with))]
fn digits_of(byte: u8) -> [u8; 2]
    ensures { result ≡ encode_lower (byte ∷ []) }
{
    [DIGITS[(byte / 16) as usize], DIGITS[(byte % 16) as usize]]
}

// Writes two digits for each byte, directly into the buffer.
#[tactic(auto, unfolding(hex::specs::Hex::encode_with))]
fn push_digits(out: &mut Vec<u8>, bytes: &[u8]) -> Result<(), AllocError>
    ensures { OnOk result (out.new.items ≡ out.old.items ++ encode_lower bytes.now) }
{
    for byte in bytes {
        out.extend_from_slice(&digits_of(*byte))?;
    }
    Ok(())
}

/// Writes bytes as a JSON string of hexadecimal digits. After an `Err` the buffer's content is
/// unspecified.
pub fn push_bytes(out: &mut Vec<u8>, bytes: &[u8]) -> Result<(), AllocError>
    ensures { OnOk result (out.new.items ≡ out.old.items ++ bytes_text bytes.now) }
{
    out.push(b'"')?;
    push_digits(out, bytes)?;
    out.push(b'"')?;
    Ok(())
}
