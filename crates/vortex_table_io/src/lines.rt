//! Lines in bytes.
ghost use Rattle.std.specs.Prelude.{◌≡◌, ◌↔◌, ◌∷◌, ◌++◌, MatchOption, IsTrue};
ghost use Rattle.vortex_table_io.specs.Lines.{IsOneLine};

use memchr::memchr;

/// What precedes the first LF, and what follows it. `None` where there is no LF.
pub fn split_at_lf(bytes: &[u8]) -> Option<(&[u8], &[u8])>
    ensures { MatchOption result (IsOneLine bytes.now)
        (λ p. IsOneLine p.0.now × (bytes.now ≡ p.0.now ++ 10 ∷ p.1.now)) }
{
    let at = memchr(b'\n', bytes)?;
    let (line, rest) = bytes.split_at(at);
    let (_, after) = rest.split_at(1);
    Some((line, after))
}

/// Whether no byte is an LF.
pub fn is_one_line(bytes: &[u8]) -> bool
    ensures { IsTrue result ↔ IsOneLine bytes.now }
{
    memchr(b'\n', bytes).is_none()
}
