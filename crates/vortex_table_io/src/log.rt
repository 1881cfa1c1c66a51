//! Lists of bytes and of calls that only clauses read.
ghost use Rattle.std.specs.Prelude.{◌≡◌, ℕ, List, [], ◌∷◌, ◌++◌};
ghost use Rattle.std.specs.Borrow.{ftrue};
ghost use Rattle.vortex_table_io.specs.declared.call.Call.{Call};

use crate::call::Call;
use std::marker::Model;

/// The bytes that went through. It is zero-sized, and its methods do nothing at run time.
///
/// Nothing ties the bytes to memory: the contract that makes each log from the one before gives
/// them. So code that is generic over a [`Source`](crate::Source) learns from each read what that
/// read returned.
#[derive(Drop)]
pub struct Log {
    pub ghost bytes: { List ℕ },
}

impl Model for Log {
    ghost also_owns = { λ _. ftrue };
}

/// Bytes to add to a log.
#[derive(Clone, Copy, Drop)]
pub struct Piece<'a> {
    pub bytes: &'a [u8],
}

impl Log {
    #[inline(always)]
    pub fn new() -> Log
        ensures { result.bytes ≡ [] }
    {
        Log {}
    }

    /// The log with these bytes added.
    #[inline(always)]
    pub fn then(&self, _piece: &Piece<'_>) -> Log
        ensures { result.bytes ≡ self.now.bytes ++ _piece.now.bytes.now }
    {
        Log {}
    }
}

/// How the calls so far ended. Like a [`Log`] it is zero-sized, and its methods do nothing at run
/// time.
#[derive(Drop)]
pub struct CallLog {
    pub ghost calls: { List Call },
}

impl Model for CallLog {
    ghost also_owns = { λ _. ftrue };
}

impl CallLog {
    #[inline(always)]
    pub fn new() -> CallLog
        ensures { result.calls ≡ [] }
    {
        CallLog {}
    }

    /// The log with this call added.
    #[inline(always)]
    pub fn then(&self, _call: &Call) -> CallLog
        ensures { result.calls ≡ self.now.calls ++ _call.now ∷ [] }
    {
        CallLog {}
    }
}
