//! The calls of a source or a sink.
ghost use Rattle.std.specs.Prelude.{◌≡◌, [], ◌∷◌, ◌++◌};
ghost use Rattle.vortex_table_io.specs.Streams.{has_ended, has_failed, read_call, write_call};

use crate::call::Call;
use crate::log::CallLog;
use std::io;

/// The calls so far, and whether a read has found the end or a call has failed.
#[derive(Drop)]
pub(crate) struct Calls {
    pub(crate) log: CallLog,
    ended: bool,
    failed: bool,
    ghost ended_is: { ended ≡ has_ended log.calls },
    ghost failed_is: { failed ≡ has_failed log.calls },
}

// How a read into a buffer of this length ended.
pub(crate) fn read_call(outcome: &io::Result<usize>, room: usize) -> Call
    ensures { result ≡ read_call outcome.now room }
{
    match outcome {
        Ok(0) if room > 0 => Call::AtEnd,
        Ok(_) => Call::Passed,
        Err(_) => Call::Failed,
    }
}

// How a write of this many bytes ended.
pub(crate) fn write_call(outcome: &io::Result<usize>, len: usize) -> Call
    ensures { result ≡ write_call outcome.now len }
{
    match outcome {
        Ok(0) if len > 0 => Call::Failed,
        Ok(_) => Call::Passed,
        Err(_) => Call::Failed,
    }
}

impl Calls {
    pub(crate) fn new() -> Calls
        ensures { result.log.calls ≡ [] }
    {
        Calls {
            log: CallLog::new(),
            ended: false,
            failed: false,
        }
    }

    pub(crate) fn note(&mut self, call: Call)
        ensures { self.new.log.calls ≡ self.old.log.calls ++ call ∷ [] }
    {
        self.log = self.log.then(&call);
        match call {
            Call::AtEnd => self.ended = true,
            Call::Failed => self.failed = true,
            Call::Passed | Call::Flushed => {}
        }
    }

    pub(crate) fn ended(&self) -> bool
        ensures { result ≡ has_ended self.now.log.calls }
    {
        self.ended
    }

    pub(crate) fn failed(&self) -> bool
        ensures { result ≡ has_failed self.now.log.calls }
    {
        self.failed
    }
}
