//! LIKE patterns on strings.
//!
//! `%` matches any run of characters, the empty one too, `_` any one character, and each other
//! character itself, so letters keep their case. Nothing is allocated or decoded.
ghost use Rattle.std.specs.Prelude.{◌≡◌};
ghost use Rattle.vortex_model_table.specs.Like.{is_like, has_backslash};

use crate::matching::Pattern;

/// Whether the whole string matches the LIKE pattern. A backslash matches itself here; SQL engines
/// take it as an escape, so ask [`has_backslash`] first.
pub fn is_like(pattern: &str, text: &str) -> bool
    ensures { result ≡ is_like pattern.now text.now }
{
    Pattern::new(pattern.as_bytes()).is_match(text.as_bytes())
}

/// Whether the pattern has a backslash, the escape of many SQL dialects.
pub fn has_backslash(pattern: &str) -> bool
    ensures { result ≡ has_backslash pattern.now }
{
    pattern.as_bytes().contains(&b'\\')
}
