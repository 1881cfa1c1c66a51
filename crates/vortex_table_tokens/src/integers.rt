//! Integers of JSON numbers, which come as strings.
ghost use Rattle.std.specs.Prelude.{◌≡◌, ◌<◌, ◌==◌, true, false, Some, IfOk, IsTrue, length, slice_index};
ghost use Rattle.std.specs.Str.Parse.{digits_value, IsNumeral};
ghost use Rattle.fast_float.specs.Text.{scan};
ghost use Rattle.serde_json.specs.Find.{of_integer};
ghost use Rattle.serde_json.specs.Read.{number_of, number_from};

use crate::give_up::GiveUp;
use fast_float::parse_u64;

fn has_minus(bytes: &[u8]) -> bool
    ensures value { result ≡ (slice_index bytes.now 0 == 45) }
    ensures some { IsTrue result → 0 < length bytes.now }
{
    !bytes.is_empty() && bytes[0] == b'-'
}

fn has_plus(bytes: &[u8]) -> bool
    ensures { result ≡ (slice_index bytes.now 0 == 43) }
{
    !bytes.is_empty() && bytes[0] == b'+'
}

// The integer of these digits, if it fits in 64 bits. Nothing else may be there.
#[tactic(auto, using(crate::proofs::Digits::digits_alone))]
fn read_digits(bytes: &[u8]) -> Result<u64, GiveUp>
    ensures digits { IfOk result (λ n. IsNumeral 10 bytes.now) }
    ensures value { IfOk result (λ n. digits_value 10 bytes.now ≡ n) }
{
    if has_plus(bytes) {
        return Err(GiveUp);
    }
    match parse_u64(bytes) {
        Ok(number) => Ok(number),
        Err(_) => Err(GiveUp),
    }
}

#[tactic(auto, using(crate::proofs::Digits::unsigned_read))]
fn unsigned_of(bytes: &[u8]) -> Result<i128, GiveUp>
    ensures { IfOk result (λ z. number_from false (scan bytes.now) ≡ Some (of_integer z)) }
{
    let number = read_digits(bytes)?;
    Ok(i128::from(number))
}

#[tactic(auto, using(crate::proofs::Digits::negative_read))]
fn negative_of(bytes: &[u8]) -> Result<i128, GiveUp>
    ensures { IfOk result (λ z. number_from true (scan bytes.now) ≡ Some (of_integer z)) }
{
    let number = read_digits(bytes)?;
    if number > 0 && number <= 1 << 63 {
        Ok(-i128::from(number))
    } else {
        Err(GiveUp)
    }
}

/// The integer of these digits with or without a minus, if it fits in 64 bits. `-0` is none.
pub(crate) fn read_integer(text: &str) -> Result<i128, GiveUp>
    ensures { IfOk result (λ z. number_of text.now ≡ Some (of_integer z)) }
{
    let bytes = text.as_bytes();
    if has_minus(bytes) {
        negative_of(&bytes[1..])
    } else {
        unsigned_of(bytes)
    }
}
