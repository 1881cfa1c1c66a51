//! The characters of one UTF-8 length, in order.
ghost use Rattle.std.specs.Prelude.{MatchOption};
ghost use Rattle.vortex_model_table.specs.Bounds.{IsHighest, IsNext};

/// The next higher character of as many UTF-8 bytes, which skips the surrogates.
pub fn next_character(character: char) -> Option<char>
    ensures { MatchOption result (IsHighest character) (IsNext character) }
{
    match character {
        '\u{7f}' | '\u{7ff}' | '\u{ffff}' | '\u{10ffff}' => None,
        '\u{d7ff}' => Some('\u{e000}'),
        _ => char::from_u32(character as u32 + 1),
    }
}
