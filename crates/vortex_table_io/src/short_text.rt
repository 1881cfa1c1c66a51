//! Short strings that are stored in the value itself.
ghost use Rattle.std.specs.Prelude.{◌≡◌, ◌≤◌, ◌+◌, ◌↔◌, [], ◌++◌, length, take, IsTrue};
ghost use Rattle.vortex_table_io.specs.Lines.{with_lf};

use std::marker::Model;

/// A string of at most 96 bytes, stored in the value itself.
#[derive(Drop)]
pub struct ShortText {
    /// The string, an LF, and unused bytes.
    line: [u8; 97],
    len: usize,
}

impl Model for ShortText {
    ghost use Rattle.std.specs.Prelude.{ℕ, List, ◌≡◌, ◌≤◌, ◌+◌, take};
    ghost use Rattle.vortex_table_io.specs.Lines.{with_lf};

    ghost Value = { List ℕ };

    ghost view = { λ t. take t.len t.line };

    ghost invariant = { λ t. (t.len ≤ 96)
        × (take (t.len + 1) t.line ≡ with_lf (take t.len t.line)) };
}

// Puts bytes and an LF after the first `at` bytes of a line.
fn put_end(line: &mut [u8], at: usize, bytes: &[u8])
    requires { at + length bytes.now + 1 ≤ length line.old }
    ensures text { take (at + length bytes.now) line.new ≡ take at line.old ++ bytes.now }
    ensures ended { take (at + length bytes.now + 1) line.new
        ≡ with_lf (take at line.old ++ bytes.now) }
{
    let end = at + bytes.len();
    line[at..end].copy_from_slice(bytes);
    line[end] = b'\n';
}

impl ShortText {
    pub fn new() -> ShortText
        ensures { result ≡ [] }
    {
        ShortText {
            line: [b'\n'; 97],
            len: 0,
        }
    }

    pub fn len(&self) -> usize
        ensures value { result ≡ length self.now }
        ensures fits { result ≤ 96 }
    {
        self.len
    }

    pub fn is_empty(&self) -> bool
        ensures { IsTrue result ↔ (self.now ≡ []) }
    {
        self.len == 0
    }

    /// Adds bytes at the end.
    pub fn push_bytes(&mut self, bytes: &[u8])
        requires { length self.old + length bytes.now ≤ 96 }
        ensures { self.new ≡ self.old ++ bytes.now }
    {
        put_end(&mut self.line, self.len, bytes);
        self.len += bytes.len();
    }

    pub fn as_bytes(&self) -> &[u8]
        ensures { result.now ≡ self.now }
    {
        &self.line[..self.len]
    }

    pub(crate) fn as_line(&self) -> &[u8]
        ensures { result.now ≡ with_lf self.now }
    {
        &self.line[..self.len + 1]
    }
}
