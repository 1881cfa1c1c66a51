//! A source of any reader, and a sink of any writer.
ghost use Rattle.std.specs.Prelude.{◌≡◌, length, [], ◌∷◌, ◌++◌};
ghost use Rattle.std.specs.Io.{ReadsAtMost, WritesAtMost};
ghost use Rattle.std.specs.Io.KnownBytes.{Keeps, ReadConsumes, WriteAppends};
ghost use Rattle.vortex_table_io.specs.Streams.{Adds, read_call, write_call, flush_call, flushed_after};

use crate::call::Call;
use crate::calls::{Calls, read_call, write_call};
use crate::log::{Log, Piece};
use crate::traits::{Sink, Source};
use std::io;
use std::io::{Read, Write};

/// A [`Source`] over any reader, and a [`Sink`] over any writer, with no buffer between. Each call
/// makes one call of the reader or writer, and returns its result. Only tests see that the call is
/// made: where its bytes aren't known, no clause of `std` shows it.
#[derive(Drop)]
pub struct Tap<T> {
    inner: T,
    log: Log,
    flushed: Log,
    calls: Calls,
}

impl<T> Tap<T> {
    ghost use Rattle.vortex_table_io.specs.Tap.{tap_inner, tap_history, tap_flushed, tap_calls};

    /// A tap on a reader or writer, with nothing read or written yet.
    pub fn new(inner: T) -> Tap<T>
        ensures inner { tap_inner result ≡ inner }
        ensures history { tap_history result ≡ [] }
        ensures flushed { tap_flushed result ≡ [] }
        ensures calls { tap_calls result ≡ [] }
    {
        Tap {
            inner,
            log: Log::new(),
            flushed: Log::new(),
            calls: Calls::new(),
        }
    }
}

impl<R: Read> Source for Tap<R> {
    ghost use Rattle.vortex_table_io.specs.Tap.{tap_inner, tap_history, tap_calls};

    ghost history = { tap_history };

    ghost calls = { tap_calls };

    // Of a reader nothing is known to stay.
    ghost Fixed = { Unit {0} };

    ghost fixed = { λ _. tt };

    // Beyond the trait's clauses: what went through is what the reader returned.
    fn read(&mut self, buf: &mut [u8]) -> io::Result<usize>
        ensures bound { ReadsAtMost result buf.new }
        ensures bytes { Adds (tap_history self.old) (tap_history self.new) result buf.new }
        ensures call { tap_calls self.new
            ≡ tap_calls self.old ++ read_call result (length buf.new) ∷ [] }
        ensures inner { ReadConsumes (R.remaining (tap_inner self.old))
            (R.remaining (tap_inner self.new)) result buf.new }
    {
        let outcome = self.inner.read(buf);
        self.calls.note(read_call(&outcome, buf.len()));
        if let Ok(n) = &outcome {
            self.log = self.log.then(&Piece { bytes: &buf[..*n] });
        }
        outcome
    }

    fn ended(&self) -> bool {
        self.calls.ended()
    }

    fn failed(&self) -> bool {
        self.calls.failed()
    }
}

impl<W: Write> Sink for Tap<W> {
    ghost use Rattle.vortex_table_io.specs.Tap.{tap_inner, tap_history, tap_flushed, tap_calls};

    ghost history = { tap_history };

    ghost flushed = { tap_flushed };

    ghost calls = { tap_calls };

    // Beyond the trait's clauses: what went through is what the writer took.
    fn write(&mut self, buf: &[u8]) -> io::Result<usize>
        ensures bound { WritesAtMost result buf.now }
        ensures bytes { Adds (tap_history self.old) (tap_history self.new) result buf.now }
        ensures flushed { tap_flushed self.new ≡ tap_flushed self.old }
        ensures call { tap_calls self.new
            ≡ tap_calls self.old ++ write_call result (length buf.now) ∷ [] }
        ensures inner { WriteAppends (W.contents (tap_inner self.old))
            (W.contents (tap_inner self.new)) result buf.now }
    {
        let outcome = self.inner.write(buf);
        self.calls.note(write_call(&outcome, buf.len()));
        if let Ok(n) = &outcome {
            self.log = self.log.then(&Piece { bytes: &buf[..*n] });
        }
        outcome
    }

    fn flush(&mut self) -> io::Result<()>
        ensures bytes { tap_history self.new ≡ tap_history self.old }
        ensures flushed { tap_flushed self.new
            ≡ flushed_after result (tap_history self.new) (tap_flushed self.old) }
        ensures call { tap_calls self.new ≡ tap_calls self.old ++ flush_call result ∷ [] }
        ensures inner { Keeps (W.contents (tap_inner self.old)) (W.contents (tap_inner self.new)) }
    {
        match self.inner.flush() {
            Ok(()) => {
                self.calls.note(Call::Flushed);
                self.flushed = self.log.then(&Piece { bytes: &[] });
                Ok(())
            }
            Err(e) => {
                self.calls.note(Call::Failed);
                Err(e)
            }
        }
    }

    fn failed(&self) -> bool {
        self.calls.failed()
    }
}
