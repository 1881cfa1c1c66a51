//! Readers and writers with clauses on every byte.
ghost use Rattle.std.specs.Prelude.{◌≡◌, ℕ, List, [], ◌∷◌, ◌++◌, length};
ghost use Rattle.std.specs.Io.{ReadsAtMost, WritesAtMost};
ghost use Rattle.vortex_table_io.specs.declared.call.Call.{Call};
ghost use Rattle.vortex_table_io.specs.Streams.{Adds, read_call, write_call, flush_call, has_ended, has_failed, flushed_after};

use std::io;

/// A reader whose clauses name each byte that it returned.
pub trait Source {
    /// The bytes read so far.
    ghost history: { Self → List ℕ };

    /// How the reads so far ended, in order.
    ghost calls: { Self → List Call };

    /// What no read changes, as the bytes that a source in memory was made of.
    ghost Fixed: { Type 0 };

    ghost fixed: { Self → Fixed };

    /// Reads into the start of a buffer, and returns how many bytes it read.
    fn read(&mut self, buf: &mut [u8]) -> io::Result<usize>
        ensures bound { ReadsAtMost result buf.new }
        ensures bytes { Adds (history self.old) (history self.new) result buf.new }
        ensures call { calls self.new
            ≡ calls self.old ++ read_call result (length buf.new) ∷ [] }
        ensures fixed { fixed self.new ≡ fixed self.old };

    fn ended(&self) -> bool
        ensures { result ≡ has_ended (calls self.now) };

    /// Whether a read has failed, or was interrupted.
    fn failed(&self) -> bool
        ensures { result ≡ has_failed (calls self.now) };
}

/// A writer whose clauses name each byte that it took.
pub trait Sink {
    /// The bytes written so far.
    ghost history: { Self → List ℕ };

    /// The bytes that had been written at the last flush that succeeded.
    ghost flushed: { Self → List ℕ };

    /// How the writes and flushes so far ended, in order.
    ghost calls: { Self → List Call };

    /// Writes from the start of a buffer, and returns how many bytes it wrote.
    fn write(&mut self, buf: &[u8]) -> io::Result<usize>
        ensures bound { WritesAtMost result buf.now }
        ensures bytes { Adds (history self.old) (history self.new) result buf.now }
        ensures flushed { flushed self.new ≡ flushed self.old }
        ensures call { calls self.new
            ≡ calls self.old ++ write_call result (length buf.now) ∷ [] };

    /// Passes on what was written and is still buffered.
    fn flush(&mut self) -> io::Result<()>
        ensures bytes { history self.new ≡ history self.old }
        ensures flushed { flushed self.new
            ≡ flushed_after result (history self.new) (flushed self.old) }
        ensures call { calls self.new ≡ calls self.old ++ flush_call result ∷ [] };

    /// Whether a write or a flush has failed, or a write of some bytes took none.
    fn failed(&self) -> bool
        ensures { result ≡ has_failed (calls self.now) };
}
