//! A source and a sink in memory, which transfer few bytes a call and fail as asked.
ghost use Rattle.std.specs.Prelude.{◌≡◌, ◌⊎◌, ◌<◌, ◌≤◌, ◌+◌, min, length, take, drop, [], ◌∷◌, ◌++◌, true, false, IfOk, IfErr, OnOk, OnErr};
ghost use Rattle.std.specs.Io.{ReadsAtMost, WritesAtMost};
ghost use Rattle.std.specs.IoError.{error_kind};
ghost use Rattle.vortex_table_io.specs.Streams.{Adds, read_call, write_call, flush_call, flushed_after, has_ended};

use crate::call::Call;
use crate::calls::{Calls, read_call, write_call};
use crate::log::{Log, Piece};
use crate::traits::{Sink, Source};
use std::alloc::AllocError;
use std::io;
use std::io::{Error, ErrorKind};

/// A source over bytes in memory. Each read returns at most `most` bytes, and all reads after the
/// first `good` fail.
#[derive(Drop)]
pub struct MemorySource<'a> {
    all: &'a [u8],
    at: usize,
    most: usize,
    good: usize,
    calls: Calls,
    ghost in_range: { at ≤ length all.now },
    /// The end is found only after all bytes were read.
    ghost whole: { has_ended calls.log.calls ≡ true → 0 < most → at ≡ length all.now },
}

impl<'a> MemorySource<'a> {
    ghost use Rattle.vortex_table_io.specs.Memory.{source_bytes, source_most, source_good, source_history, source_calls, source_left, made_by, made_of};

    /// A source with nothing read yet.
    pub fn new(all: &'a [u8], most: usize, good: usize) -> MemorySource<'a>
        ensures bytes { source_bytes result ≡ all.now }
        ensures most { source_most result ≡ most }
        ensures good { source_good result ≡ good }
        ensures history { source_history result ≡ [] }
        ensures calls { source_calls result ≡ [] }
        ensures made { made_of result ≡ made_by all.now most }
    {
        MemorySource {
            all,
            at: 0,
            most,
            good,
            calls: Calls::new(),
        }
    }

    /// The bytes read so far: the first ones, and all of them once the end was found.
    pub fn read_so_far(&self) -> &[u8]
        ensures read { result.now ≡ source_history self.now }
        ensures first { source_bytes self.now ≡ result.now ++ source_left self.now }
        ensures whole { has_ended (source_calls self.now) ≡ true → 0 < source_most self.now
            → result.now ≡ source_bytes self.now }
    {
        let (read, _) = self.all.split_at(self.at);
        read
    }
}

fn put_front(from: &[u8], n: usize, buf: &mut [u8])
    requires { (n ≤ length from.now) × (n ≤ length buf.old) }
    ensures { take n buf.new ≡ take n from.now }
{
    buf[..n].copy_from_slice(&from[..n]);
}

impl MemorySource<'_> {
    fn give(&mut self, buf: &mut [u8]) -> usize
        ensures bound { result ≤ length buf.new }
        ensures count { result ≡ min (min self.old.most (length buf.new))
            (length (drop self.old.at self.old.all.now)) }
        ensures bytes { take self.new.at self.new.all.now
            ≡ take self.old.at self.old.all.now ++ take result buf.new }
        ensures at { self.new.at ≡ self.old.at + result }
        ensures whole { result ≡ 0 → 0 < length buf.new → 0 < self.new.most
            → self.new.at ≡ length self.new.all.now }
        ensures same { (self.new.all.now ≡ self.old.all.now) × (self.new.most ≡ self.old.most)
            × (self.new.good ≡ self.old.good) × (self.new.calls ≡ self.old.calls) }
    {
        let (_, rest) = self.all.split_at(self.at);
        let n = self.most.min(buf.len()).min(rest.len());
        put_front(rest, n, buf);
        self.at += n;
        n
    }
}

impl Source for MemorySource<'_> {
    ghost use Rattle.vortex_table_io.specs.Memory.{source_most, source_good, source_left, source_history, source_calls, Made, made_of};

    ghost history = { source_history };

    ghost calls = { source_calls };

    ghost Fixed = { Made };

    ghost fixed = { made_of };

    // Beyond the trait's clauses: how many bytes a read returns, and when it fails.
    fn read(&mut self, buf: &mut [u8]) -> io::Result<usize>
        ensures bound { ReadsAtMost result buf.new }
        ensures bytes { Adds (source_history self.old) (source_history self.new) result buf.new }
        ensures call { source_calls self.new
            ≡ source_calls self.old ++ read_call result (length buf.new) ∷ [] }
        ensures count { IfOk result (λ n. n ≡ min (min (source_most self.old) (length buf.new))
            (length (source_left self.old))) }
        ensures good { OnOk result (source_good self.old ≡ source_good self.new + 1) }
        ensures fails { OnErr result (source_good self.old ≡ 0) }
        ensures keeps { source_most self.new ≡ source_most self.old }
        ensures fixed { made_of self.new ≡ made_of self.old }
    {
        if self.good == 0 {
            self.calls.note(Call::Failed);
            return Err(Error::from(ErrorKind::Interrupted));
        }
        self.good -= 1;
        let outcome = Ok(self.give(buf));
        self.calls.note(read_call(&outcome, buf.len()));
        outcome
    }

    fn ended(&self) -> bool {
        self.calls.ended()
    }

    fn failed(&self) -> bool {
        self.calls.failed()
    }
}

/// A sink into memory. Each write takes at most `most` bytes, and all writes and flushes after the
/// first `good` fail. With `most` 0 a write takes nothing.
#[derive(Drop)]
pub struct MemorySink {
    /// What was there before, and then what was written.
    pub bytes: Vec<u8>,
    flushed: Log,
    most: usize,
    good: usize,
    flushes: bool,
    calls: Calls,
}

impl MemorySink {
    ghost use Rattle.vortex_table_io.specs.Memory.{sink_flushed, sink_calls, sink_most, sink_good, sink_flushes};

    /// A sink that appends to these bytes.
    pub fn new(bytes: Vec<u8>, most: usize, good: usize) -> MemorySink
        ensures bytes { result.bytes ≡ bytes }
        ensures flushed { sink_flushed result ≡ [] }
        ensures calls { sink_calls result ≡ [] }
        ensures limits { (sink_most result ≡ most) × (sink_good result ≡ good)
            × (sink_flushes result ≡ true) }
    {
        MemorySink {
            bytes,
            flushed: Log::new(),
            most,
            good,
            flushes: true,
            calls: Calls::new(),
        }
    }

    /// A sink that takes every byte, and whose flush fails.
    pub fn failing_flush(bytes: Vec<u8>) -> MemorySink
        ensures bytes { result.bytes ≡ bytes }
        ensures flushed { sink_flushed result ≡ [] }
        ensures calls { sink_calls result ≡ [] }
        ensures limits { (sink_most result ≡ usize.MAX) × (sink_good result ≡ usize.MAX)
            × (sink_flushes result ≡ false) }
    {
        MemorySink {
            bytes,
            flushed: Log::new(),
            most: usize::MAX,
            good: usize::MAX,
            flushes: false,
            calls: Calls::new(),
        }
    }
}

impl MemorySink {
    // Takes bytes from the start of the buffer.
    fn take(&mut self, buf: &[u8]) -> io::Result<usize>
        ensures bound { WritesAtMost result buf.now }
        ensures bytes { Adds self.old.bytes.items self.new.bytes.items result buf.now }
        ensures taken { IfOk result (λ n. n ≡ min self.old.most (length buf.now)) }
        ensures good { OnOk result (self.old.good ≡ self.new.good + 1) }
        ensures fails { IfErr result
            (λ e. (self.old.good ≡ 0) ⊎ (error_kind e ≡ ErrorKind.OutOfMemory)) }
        ensures same { (self.new.flushed ≡ self.old.flushed) × (self.new.calls ≡ self.old.calls) }
    {
        if self.good == 0 {
            return Err(Error::from(ErrorKind::BrokenPipe));
        }
        self.good -= 1;
        let n = self.most.min(buf.len());
        match self.bytes.extend_from_slice(&buf[..n]) {
            Ok(()) => Ok(n),
            Err(AllocError) => Err(Error::from(ErrorKind::OutOfMemory)),
        }
    }
}

impl Sink for MemorySink {
    ghost use Rattle.vortex_table_io.specs.Memory.{sink_flushed, sink_calls, sink_most, sink_good, sink_flushes};

    ghost history = { λ s. s.bytes.items };

    ghost flushed = { sink_flushed };

    ghost calls = { sink_calls };

    // Beyond the trait's clauses: how many bytes a write takes, and when it fails.
    fn write(&mut self, buf: &[u8]) -> io::Result<usize>
        ensures bound { WritesAtMost result buf.now }
        ensures bytes { Adds self.old.bytes.items self.new.bytes.items result buf.now }
        ensures flushed { sink_flushed self.new ≡ sink_flushed self.old }
        ensures call { sink_calls self.new
            ≡ sink_calls self.old ++ write_call result (length buf.now) ∷ [] }
        ensures taken { IfOk result (λ n. n ≡ min (sink_most self.old) (length buf.now)) }
        ensures good { OnOk result (sink_good self.old ≡ sink_good self.new + 1) }
        ensures fails { IfErr result
            (λ e. (sink_good self.old ≡ 0) ⊎ (error_kind e ≡ ErrorKind.OutOfMemory)) }
    {
        let outcome = self.take(buf);
        self.calls.note(write_call(&outcome, buf.len()));
        outcome
    }

    fn flush(&mut self) -> io::Result<()>
        ensures bytes { self.new.bytes.items ≡ self.old.bytes.items }
        ensures flushed { sink_flushed self.new
            ≡ flushed_after result self.new.bytes.items (sink_flushed self.old) }
        ensures call { sink_calls self.new ≡ sink_calls self.old ++ flush_call result ∷ [] }
        ensures good { OnOk result ((sink_good self.old ≡ sink_good self.new + 1)
            × (sink_flushes self.old ≡ true)) }
        ensures fails { OnErr result ((sink_good self.old ≡ 0) ⊎ (sink_flushes self.old ≡ false)) }
    {
        if self.good == 0 || !self.flushes {
            self.calls.note(Call::Failed);
            return Err(Error::from(ErrorKind::BrokenPipe));
        }
        self.good -= 1;
        self.calls.note(Call::Flushed);
        self.flushed = Log::new().then(&Piece { bytes: &self.bytes });
        Ok(())
    }

    fn failed(&self) -> bool {
        self.calls.failed()
    }
}
