//! What a LIKE pattern shows about strings that match it: the whole string, or a prefix.
//!
//! A bare `%` or `_` is a wildcard. A backslash and the character after it spell that character,
//! `%`, `_` and the backslash too.
ghost use Rattle.std.specs.Prelude.{◌≡◌, ◌∷◌, ◌++◌, [], map, chars, option_map, is_some, IsUtf8, string_bytes, length, ◌<◌, IfOk, IfSome, IfNone, MatchOption};
ghost use Rattle.vortex_model_table.specs.Rewrite.{letter, sign_of, signs_of, shape_of};
ghost use Rattle.vortex_stats_rules.specs.Patterns.{sign_in, shape_in, IsUnsigned, StartsWithoutLetter};

use std::alloc::{AllocError, Global};
use std::string::String;

/// What the strings that match a pattern have in common, as Vortex's `LikeVariant`.
#[derive(Debug)]
pub(crate) enum LikeVariant {
    /// They are this string.
    Exact(String),
    /// They begin with this string.
    Prefix(String),
}

// What a pattern is made of. A letter matches itself.
#[derive(Clone, Copy, Debug)]
pub(crate) enum Sign {
    Letter(char),
    Wildcard,
}

/// The letters of a pattern: all of them where it has no wildcard, and else those before the first
/// one. `None` where a lone backslash ends the pattern.
pub(crate) fn like_variant(alloc: Global, pattern: &str) -> Result<Option<LikeVariant>, AllocError>
    ensures { IfOk result (λ variant. shape_in variant ≡ shape_of (chars pattern.now)) }
{
    let (letters, rest) = split_letters(alloc, pattern)?;
    if rest.is_empty() {
        Ok(Some(LikeVariant::Exact(letters)))
    } else if is_spelled(rest) {
        Ok(Some(LikeVariant::Prefix(letters)))
    } else {
        Ok(None)
    }
}

// The letters in front of a pattern, and the pattern after them.
fn split_letters(alloc: Global, pattern: &str) -> Result<(String, &str), AllocError>
    ensures signs { IfOk result (λ p. signs_of (chars pattern.now)
        ≡ option_map (λ signs. map letter (chars (string_bytes p.0)) ++ signs)
        (signs_of (chars p.1.now))) }
    ensures stop { IfOk result (λ p. StartsWithoutLetter (chars p.1.now)) }
    ensures utf8 { IfOk result (λ p. IsUtf8 p.1.now) }
{
    let mut letters = String::with_capacity(alloc, pattern.len())?;
    let mut rest = pattern;
    while let Some((letter, behind)) = split_letter(rest) {
        letters.push(letter)?;
        rest = behind;
    }
    Ok((letters, rest))
}

// Whether no lone backslash ends the pattern.
fn is_spelled(pattern: &str) -> bool
    ensures { result ≡ is_some (signs_of (chars pattern.now)) }
{
    let mut rest = pattern;
    while let Some((_, behind)) = split_sign(rest) {
        rest = behind;
    }
    rest.is_empty()
}

// The letter in front of a pattern, if there is one, and the pattern after it.
fn split_letter(pattern: &str) -> Option<(char, &str)>
    ensures signs { MatchOption result (StartsWithoutLetter (chars pattern.now))
        (λ p. signs_of (chars pattern.now)
        ≡ option_map (λ signs. letter p.0 ∷ signs) (signs_of (chars p.1.now))) }
    ensures shorter { IfSome result (λ p. length (chars p.1.now) < length (chars pattern.now)) }
    ensures utf8 { IfSome result (λ p. IsUtf8 p.1.now) }
{
    match split_sign(pattern) {
        Some((Sign::Letter(letter), rest)) => Some((letter, rest)),
        Some((Sign::Wildcard, _)) => None,
        None => None,
    }
}

// The first sign of a pattern, and the pattern after it. There is none in an empty pattern, and
// none where a lone backslash is left.
fn split_sign(pattern: &str) -> Option<(Sign, &str)>
    ensures signs { MatchOption result (IsUnsigned (chars pattern.now))
        (λ p. signs_of (chars pattern.now)
        ≡ option_map (λ signs. sign_in p.0 ∷ signs) (signs_of (chars p.1.now))) }
    ensures shorter { IfSome result (λ p. length (chars p.1.now) < length (chars pattern.now)) }
    ensures utf8 { IfSome result (λ p. IsUtf8 p.1.now) }
{
    match split_first(pattern) {
        None => None,
        Some(('\\', rest)) => match split_first(rest) {
            None => None,
            Some((spelled, rest)) => Some((Sign::Letter(spelled), rest)),
        },
        Some((first, rest)) => Some((sign_of(first), rest)),
    }
}

fn sign_of(character: char) -> Sign
    ensures { sign_in result ≡ sign_of character }
{
    match character {
        '%' | '_' => Sign::Wildcard,
        _ => Sign::Letter(character),
    }
}

fn split_first(text: &str) -> Option<(char, &str)>
    ensures parts { MatchOption result (chars text.now ≡ [])
        (λ p. chars text.now ≡ p.0 ∷ chars p.1.now) }
    ensures utf8 { IfSome result (λ p. IsUtf8 p.1.now) }
{
    let mut characters = text.chars();
    match characters.next() {
        None => None,
        Some(first) => Some((first, characters.as_str())),
    }
}
