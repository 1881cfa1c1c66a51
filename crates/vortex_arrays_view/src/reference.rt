//! The parts of a view that has its value in a buffer.
ghost use Rattle.std.specs.Prelude.{◌≡◌, ◌+◌};

use std::ops::Range;

/// A long value: its length in bytes, its first four bytes, and where it is.
#[derive(Clone, Copy, Debug, PartialEq, Eq, Hash)]
pub struct Ref {
    pub size: u32,
    pub prefix: [u8; 4],
    pub buffer_index: u32,
    pub offset: u32,
}

impl Ref {
    /// The range of the value in its buffer, as Vortex's `Ref::as_range`.
    pub fn as_range(&self) -> Range<usize>
        ensures start { result.start ≡ self.now.offset }
        ensures end { result.end ≡ self.now.offset + self.now.size }
    {
        let start = self.offset as usize;
        start..start + self.size as usize
    }

    /// The same size and prefix, with another buffer and offset, as Vortex's
    /// `Ref::with_buffer_and_offset`.
    pub fn with_buffer_and_offset(&self, buffer_index: u32, offset: u32) -> Ref
        ensures { result ≡ record self.now { buffer_index = buffer_index; offset = offset } }
    {
        Ref {
            size: self.size,
            prefix: self.prefix,
            buffer_index,
            offset,
        }
    }
}
