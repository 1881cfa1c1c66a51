//! JSON to print.
ghost use Rattle.std.specs.Prelude.{◌≡◌, Some};
ghost use Rattle.std.specs.Fmt.{WritesOnOk};
ghost use Rattle.vortex_table_text.specs.Writing.{shown_text};

use crate::error::TextError;
use crate::to_text::ToText;
use std::alloc::Global;
use std::{fmt, str};

/// What `{}` and `{:?}` print as its JSON text, and as `no text` where it has none. It is made anew
/// for each print, with memory from `alloc`.
#[derive(Drop)]
pub struct Shown<'a, T> {
    pub alloc: Global,
    pub value: &'a T,
}

// Writes bytes that are UTF-8.
fn write_bytes<W: fmt::Write>(f: &mut fmt::Formatter<W>, bytes: &[u8]) -> fmt::Result
    ensures { WritesOnOk W.write_str_gives f.old result bytes.now f.new }
{
    match str::from_utf8(bytes) {
        Ok(text) => f.write_str(text),
        Err(_) => Err(fmt::Error),
    }
}

fn write_text<T: ToText, W: fmt::Write>(
    shown: &Shown<'_, T>,
    f: &mut fmt::Formatter<W>,
) -> fmt::Result
    ensures { WritesOnOk W.write_str_gives f.old result
        (shown_text (T.text shown.now.value.now)) f.new }
{
    match shown.value.to_text(shown.alloc) {
        Ok(text) => write_bytes(f, &text),
        Err(TextError::NoText) => f.write_str("no text"),
        Err(TextError::Memory) => Err(fmt::Error),
    }
}

impl<T: ToText> fmt::Display for Shown<'_, T> {
    ghost output = { λ shown. Some (shown_text (T.text shown.value.now)) };

    fn fmt<W: fmt::Write>(&self, f: &mut fmt::Formatter<W>) -> fmt::Result {
        write_text(self, f)
    }
}

impl<T: ToText> fmt::Debug for Shown<'_, T> {
    ghost debug_output = { λ shown. Some (shown_text (T.text shown.value.now)) };

    fn fmt<W: fmt::Write>(&self, f: &mut fmt::Formatter<W>) -> fmt::Result {
        write_text(self, f)
    }
}
