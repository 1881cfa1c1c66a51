//! A table with a log of the lines that changed it.
ghost use Rattle.std.specs.Prelude.{◌≡◌, ◌++◌, OnOk, OnErr, IfOk, IsErrOf};
ghost use Rattle.vortex_table_io.specs.Lines.{IsOneLine, with_lf};
ghost use Rattle.example_service.specs.Code.{states-prop};
ghost use Rattle.example_service.specs.Log.{start, state_of, replayed, whole_lines, with_line, IsAccepted, AreAccepted};
ghost use Rattle.example_service.specs.Served.{IsRefused, HasRefused};
ghost use Rattle.vortex_table_run.specs.State.{table_in};

use std::alloc::{AllocError, Global};
use vortex_table::run::{LineHandler, Response, Session, bad_line, is_one_line, split_at_lf};

// Adds a line with its LF, or nothing.
fn push_line(log: &mut Vec<u8>, line: &[u8]) -> Result<(), AllocError>
    ensures ok { OnOk result (log.new.items ≡ log.old.items ++ with_lf line.now) }
    ensures err { OnErr result (log.new.items ≡ log.old.items) }
{
    let end = log.len();
    log.extend_from_slice(line)?;
    match log.push(b'\n') {
        Ok(()) => Ok(()),
        Err(failed) => {
            log.truncate(end);
            Err(failed.into())
        }
    }
}

/// Why a log isn't replayed.
#[derive(Clone, Copy, Debug, PartialEq, Eq, Drop)]
pub enum ReplayError {
    /// Memory ran out.
    Memory,
    /// A line was not answered by `{"ok":true}`.
    Refused,
}

/// A table, or none yet, and a log of the lines that changed it, each with an LF.
///
/// It is a [`LineHandler`], so `run_lines` serves it over any source and sink. A line goes into the
/// log where its answer is `{"ok":true}`, as that of each command that may change the table is.
#[derive(Drop)]
pub struct Service {
    session: Session,
    log: Vec<u8>,
    ghost leads: { replayed log.items ≡ state_of (table_in session) log.items } by { states-prop
        (replayed log.items) (state_of (table_in session) log.items) },
}

impl Service {
    ghost use Rattle.example_service.specs.View.{state_in};

    /// A service without a table, whose log is empty.
    pub fn new(alloc: Global) -> Service
        ensures { state_in result ≡ start }
    {
        Service {
            session: Session::new(alloc),
            log: Vec::new(alloc),
        }
    }

    /// The log, to be kept where it outlives the service.
    pub fn log(&self) -> &[u8]
        ensures log { result.now ≡ (state_in self.now).log }
        ensures same { replayed result.now ≡ state_in self.now }
    {
        &self.log
    }

    // Answers a line of a log, and logs it.
    fn take_in(&mut self, alloc: Global, line: &[u8], out: &mut Vec<u8>) -> Result<(), ReplayError>
        requires { IsOneLine line.now }
        ensures run { OnOk result (state_in self.new ≡ with_line (state_in self.old) line.now) }
        ensures accepted { OnOk result (IsAccepted (state_in self.old).table line.now) }
        ensures refused { IsErrOf result ReplayError.Refused
            → IsRefused (state_in self.old).table line.now }
    {
        let response = self.answer(alloc, line, out);
        if response.is_ok(out) {
            Ok(())
        } else if response.lacks_memory(out) {
            Err(ReplayError::Memory)
        } else {
            Err(ReplayError::Refused)
        }
    }

    /// The service that a log leads to, as after a crash. What follows the last LF was cut, and is
    /// left out.
    ///
    /// The log of a service is replayed unless memory runs out, or a total is passed in the layouts
    /// that its rows have now.
    pub fn replay(alloc: Global, log: &[u8]) -> Result<Service, ReplayError>
        ensures same { IfOk result (λ s. state_in s ≡ replayed log.now) }
        ensures accepted { OnOk result (AreAccepted start.table (whole_lines log.now)) }
        ensures refused { IsErrOf result ReplayError.Refused
            → HasRefused start.table (whole_lines log.now) }
    {
        let mut service = Service::new(alloc);
        let mut out = Vec::new(alloc);
        let mut rest = log;
        while let Some((line, after)) = split_at_lf(rest) {
            service.take_in(alloc, line, &mut out)?;
            rest = after;
        }
        Ok(service)
    }
}

impl LineHandler for Service {
    ghost use Rattle.vortex_table_io.specs.Responses.{Says};
    ghost use Rattle.example_service.specs.Log.{State};
    ghost use Rattle.example_service.specs.Served.{ServiceAnswers, may_lack};
    ghost use Rattle.example_service.specs.View.{state_in};

    ghost State = { State };

    ghost view = { state_in };

    ghost answers = { ServiceAnswers };

    /// The line is logged before it is tried, and taken back where it is refused, as nothing can
    /// fail once the table has changed.
    fn answer(&mut self, alloc: Global, line: &[u8], out: &mut Vec<u8>) -> Response
        ensures { Says ServiceAnswers (state_in self.old) line.now result out.new.items
            (state_in self.new) }
    {
        if !is_one_line(line) {
            return Response::Short(bad_line());
        }
        let end = self.log.len();
        if let Err(AllocError) = push_line(&mut self.log, line) {
            return Response::NoMemory;
        }
        let response = self.session.answer(alloc, line, out);
        if !response.is_ok(out) {
            self.log.truncate(end);
        }
        response
    }

    ghost may_lack_memory = { may_lack };
}
