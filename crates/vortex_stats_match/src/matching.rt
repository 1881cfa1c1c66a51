//! LIKE patterns on strings, byte by byte.
//!
//! `%` matches any run of characters, the empty one too, `_` any one character, and each other
//! character itself, so letters keep their case. Nothing is allocated or decoded: a character is a
//! byte and those that go on with it. A pattern is matched piece by piece, where a piece ends at a
//! `%`: since the next piece may begin anywhere further on, the first position where a piece fits
//! is as good as each later one, and no earlier piece is tried again. A `_` right after a `%` takes
//! the first character, for the same reason. The bytes of a piece before its first sign are its
//! literal prefix, which a search of linear time finds. A piece without a `_` is no more than that,
//! so it fits at the first position found, or, after the last `%`, at the end of the string alone.
//! One with a `_` further on is tried wherever its literal prefix occurs: only there the time is at
//! worst the length of the string times that of the piece.
ghost use Rattle.std.specs.Prelude.{◌≡◌, List, ℕ, option_copied};
ghost use Rattle.memchr.specs.Find.{IsFirstByte, is_byte};
ghost use Rattle.vortex_model_table.specs.Like.{some_end};
ghost use Rattle.vortex_stats_match.specs.Bytes.{goes_on, begins_inside, past_char, left_by, byte_matches};
ghost use Rattle.vortex_stats_match.specs.Pieces.{behind_any, behind_ones, IsLiteralPrefix, IsPlace, Meets, MeetsLater, GoesOn, TakesOne, TakesOnes};

use memchr::memchr2;
use memchr::memmem::Finder;
use std::marker::Model;

/// How a pattern meets a string, up to the first `%` of the pattern.
enum Piece<'a, 'b> {
    /// The string begins otherwise, or goes on where the pattern ends.
    Differs,
    /// Pattern and string end together, without a `%`.
    IsWhole,
    /// A `%` was reached: the pattern after it, and what is left of the string.
    Wildcard { pattern: &'a [u8], text: &'b [u8] },
}

// Whether the byte goes on with a character, and begins none.
fn goes_on(byte: u8) -> bool
    ensures { result ≡ goes_on byte }
{
    !(byte < 128) && byte < 192
}

// Whether the bytes begin within a character.
fn begins_inside(bytes: &[u8]) -> bool
    ensures { result ≡ begins_inside bytes.now }
{
    match bytes.split_first() {
        None => false,
        Some((byte, _)) => goes_on(*byte),
    }
}

// The string from the next start of a character on.
fn past_char(text: &[u8]) -> &[u8]
    ensures { result.now ≡ past_char text.now }
{
    let mut left = text;
    while let Some((byte, rest)) = left.split_first() {
        if goes_on(*byte) {
            left = rest;
        } else {
            return left;
        }
    }
    left
}

// What the sign, no `%`, leaves of the string. `None` where the string doesn't begin so.
fn left_by(sign: u8, text: &[u8]) -> Option<&[u8]>
    ensures { option_copied result ≡ left_by sign text.now }
{
    match text.split_first() {
        None => None,
        Some((byte, rest)) => {
            if sign == b'_' {
                if goes_on(*byte) {
                    None
                } else {
                    Some(past_char(rest))
                }
            } else if sign == *byte {
                Some(rest)
            } else {
                None
            }
        }
    }
}

// Goes along pattern and string as far as the first `%`.
fn meet<'a, 'b>(pattern: &'a [u8], text: &'b [u8]) -> Piece<'a, 'b>
    ensures { Meets pattern.now text.now result }
{
    let mut signs = pattern;
    let mut left = text;
    while let Some((sign, behind)) = signs.split_first() {
        if *sign == b'%' {
            return Piece::Wildcard {
                pattern: behind,
                text: left,
            };
        }
        match left_by(*sign, left) {
            None => return Piece::Differs,
            Some(rest) => left = rest,
        }
        signs = behind;
    }
    if left.is_empty() {
        Piece::IsWhole
    } else {
        Piece::Differs
    }
}

// The pattern after its first `%`.
fn behind_any(pattern: &[u8]) -> &[u8]
    ensures { result.now ≡ behind_any pattern.now }
{
    let mut signs = pattern;
    while let Some((sign, behind)) = signs.split_first() {
        if *sign == b'%' {
            return behind;
        }
        signs = behind;
    }
    signs
}

// The pattern after the `_`s that begin it.
fn behind_ones(pattern: &[u8]) -> &[u8]
    ensures { result.now ≡ behind_ones pattern.now }
{
    let mut signs = pattern;
    while let Some((sign, behind)) = signs.split_first() {
        if *sign != b'_' {
            return signs;
        }
        signs = behind;
    }
    signs
}

// The pattern before its first `%` or `_`.
fn literal_prefix(pattern: &[u8]) -> &[u8]
    ensures { IsLiteralPrefix pattern.now result.now }
{
    match memchr2(b'%', b'_', pattern) {
        None => pattern,
        Some(end) => &pattern[..end],
    }
}

// The first index of the byte.
fn find_near(sign: u8, text: &[u8]) -> Option<usize>
    ensures { IsFirstByte (is_byte sign) text.now result }
{
    for i in 0..text.len() {
        if text[i] == sign {
            return Some(i);
        }
    }
    None
}

// A rest of the string, before which no end of it matches, by the first byte of the pattern.
fn near_place<'t>(pattern: &[u8], text: &'t [u8]) -> Option<&'t [u8]>
    ensures { GoesOn pattern.now text.now result }
{
    match pattern.split_first() {
        None => Some(text),
        Some((sign, _)) => {
            if *sign == b'%' {
                return Some(text);
            }
            if *sign == b'_' {
                return Some(text);
            }
            match find_near(*sign, text) {
                None => None,
                Some(place) => Some(&text[place..]),
            }
        }
    }
}

// A rest of the string, before which no end of it matches, by the literal prefix of the pattern. In
// a short string a look at each byte is faster than a search.
fn next_place<'t>(finder: &Finder<'_>, pattern: &[u8], text: &'t [u8]) -> Option<&'t [u8]>
    requires { IsLiteralPrefix pattern.now finder.now }
    ensures { GoesOn pattern.now text.now result }
{
    if text.len() < 40 {
        return near_place(pattern, text);
    }
    match finder.find(text) {
        None => None,
        Some(place) => Some(&text[place..]),
    }
}

// What of the string is searched: of a pattern without a sign only the end that is as long.
fn search_from<'t>(finder: &Finder<'_>, pattern: &[u8], text: &'t [u8]) -> Option<&'t [u8]>
    requires { IsLiteralPrefix pattern.now finder.now }
    ensures { GoesOn pattern.now text.now result }
{
    if finder.needle().len() < pattern.len() {
        return Some(text);
    }
    if text.len() < pattern.len() {
        return None;
    }
    Some(&text[text.len() - pattern.len()..])
}

// How the pattern meets the string at the first position where it does.
fn meet_later<'a, 'b>(finder: &Finder<'_>, pattern: &'a [u8], text: &'b [u8]) -> Piece<'a, 'b>
    requires { IsLiteralPrefix pattern.now finder.now }
    ensures { MeetsLater pattern.now text.now result }
{
    let Some(start) = search_from(finder, pattern, text) else {
        return Piece::Differs;
    };
    let mut ends = start;
    while let Some(place) = next_place(finder, pattern, ends) {
        match meet(pattern, place) {
            Piece::IsWhole => return Piece::IsWhole,
            Piece::Wildcard { pattern, text } => return Piece::Wildcard { pattern, text },
            Piece::Differs => match place.split_first() {
                None => return Piece::Differs,
                Some((_, rest)) => ends = rest,
            },
        }
    }
    Piece::Differs
}

// A `_` after a `%` takes the first character, whichever it could take: what is left of the string
// then. `None` where no end of the string matches the `_` and the pattern after it.
fn past_one<'t>(behind: &[u8], text: &'t [u8]) -> Option<&'t [u8]>
    ensures { TakesOne behind.now text.now result }
{
    if begins_inside(behind) {
        return None;
    }
    left_by(b'_', past_char(text))
}

// What is left after each `_` that the pattern begins with took a character. `None` where no end of
// the string matches the pattern.
fn past_ones<'t>(pattern: &[u8], text: &'t [u8]) -> Option<&'t [u8]>
    ensures { TakesOnes pattern.now text.now result }
{
    let mut signs = pattern;
    let mut left = text;
    while let Some((sign, behind)) = signs.split_first() {
        if *sign != b'_' {
            return Some(left);
        }
        match past_one(behind, left) {
            None => return None,
            Some(rest) => left = rest,
        }
        signs = behind;
    }
    Some(left)
}

// How a pattern after a `%` meets the string. The empty one takes all that is left.
fn meet_behind<'a, 'b>(finder: &Finder<'_>, pattern: &'a [u8], text: &'b [u8]) -> Piece<'a, 'b>
    requires { IsLiteralPrefix (behind_ones pattern.now) finder.now }
    ensures { MeetsLater pattern.now text.now result }
{
    if pattern.is_empty() {
        return Piece::IsWhole;
    }
    match past_ones(pattern, text) {
        None => Piece::Differs,
        Some(left) => meet_later(finder, behind_ones(pattern), left),
    }
}

// Whether some end of the string, the whole and the empty one too, matches the pattern.
fn has_end_like(pattern: &[u8], text: &[u8]) -> bool
    ensures { result ≡ some_end (byte_matches pattern.now) text.now }
{
    let mut pattern = pattern;
    let mut text = text;
    loop {
        let finder = Finder::new(literal_prefix(behind_ones(pattern)));
        match meet_behind(&finder, pattern, text) {
            Piece::Differs => return false,
            Piece::IsWhole => return true,
            Piece::Wildcard {
                pattern: behind,
                text: left,
            } => {
                pattern = behind;
                text = left;
            }
        }
    }
}

/// A LIKE pattern over bytes, with the search for the literal prefix of its first piece after a `%`
/// prepared for many strings.
#[derive(Drop)]
pub struct Pattern<'p> {
    bytes: &'p [u8],
    finder: Finder<'p>,
}

impl<'p> Model for Pattern<'p> {
    ghost Value = { List ℕ };

    ghost view = { λ p. p.bytes.now };

    ghost invariant = { λ p. IsLiteralPrefix (behind_ones (behind_any p.bytes.now)) p.finder };
}

impl<'p> Pattern<'p> {
    /// The pattern of these bytes.
    pub fn new(bytes: &'p [u8]) -> Pattern<'p>
        ensures { result ≡ bytes.now }
    {
        Pattern {
            bytes,
            finder: Finder::new(literal_prefix(behind_ones(behind_any(bytes)))),
        }
    }

    /// Whether the bytes match, where both are taken as UTF-8. A backslash matches itself here; SQL
    /// engines take it as an escape.
    pub fn is_match(&self, text: &[u8]) -> bool
        ensures { result ≡ byte_matches self.now text.now }
    {
        match meet(self.bytes, text) {
            Piece::Differs => false,
            Piece::IsWhole => true,
            Piece::Wildcard { pattern, text } => match meet_behind(&self.finder, pattern, text) {
                Piece::Differs => false,
                Piece::IsWhole => true,
                Piece::Wildcard { pattern, text } => has_end_like(pattern, text),
            },
        }
    }
}
