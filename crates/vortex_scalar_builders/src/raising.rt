//! Strings raised at the last character that can be.
ghost use Rattle.std.specs.Prelude.{◌≡◌, [], ◌∷◌, ◌++◌, chars, string_bytes, IsUtf8, IfOk, IfSome, MatchOption, option_map};
ghost use Rattle.std.specs.Str.{encode_utf8_all};
ghost use Rattle.vortex_model_table.specs.Bounds.{IsRaise, IsRaised, CannotBeRaised};

use crate::characters::next_character;
use std::alloc::{AllocError, Global};

// A string without its last character, and that character.
fn split_last(text: &str) -> Option<(&str, char)>
    ensures parts { MatchOption result (chars text.now ≡ []) (λ p. chars text.now ≡ chars p.0.now
        ++ p.1 ∷ []) }
    ensures utf8 { IfSome result (λ p. IsUtf8 p.0.now) }
{
    let mut letters = text.chars();
    match letters.next_back() {
        None => None,
        Some(last) => Some((letters.as_str(), last)),
    }
}

// The string before the last character that can be raised, and what that character is raised to.
fn split_raised(text: &str) -> Option<(&str, char)>
    ensures parts { MatchOption result (CannotBeRaised (chars text.now))
        (λ p. IsRaised (chars text.now) (chars p.0.now ++ p.1 ∷ [])) }
    ensures utf8 { IfSome result (λ p. IsUtf8 p.0.now) }
{
    let mut rest = text;
    while let Some((front, last)) = split_last(rest) {
        if let Some(higher) = next_character(last) {
            return Some((front, higher));
        }
        rest = front;
    }
    None
}

fn with_last(alloc: Global, front: &str, last: char) -> Result<String, AllocError>
    ensures { IfOk result (λ made. string_bytes made
        ≡ encode_utf8_all (chars front.now ++ last ∷ [])) }
{
    let mut made = String::with_capacity(alloc, front.len() + last.len_utf8())?;
    made.push_str(front)?;
    made.push(last)?;
    Ok(made)
}

/// The string with the last character that can be raised replaced by the next higher one of as many
/// bytes, and the characters after it dropped. `None` where no character can be raised.
pub fn raise(alloc: Global, text: &str) -> Result<Option<String>, AllocError>
    ensures { IfOk result (λ raised. IsRaise text.now (option_map string_bytes raised)) }
{
    match split_raised(text) {
        None => Ok(None),
        Some((front, higher)) => {
            let raised = with_last(alloc, front, higher)?;
            Ok(Some(raised))
        }
    }
}
