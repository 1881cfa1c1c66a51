//! The line that is being read.
ghost use Rattle.std.specs.Prelude.{◌≡◌, ◌≢◌, ◌<◌, ◌↔◌, ℕ, List, [], ◌++◌, length, None, IfOk, IsTrue};
ghost use Rattle.vortex_table_io.specs.Lines.{IsOneLine};

use crate::log::{Log, Piece};
use std::alloc::{AllocError, Global};

/// The line so far. It is lost where memory for it ran out.
#[derive(Drop)]
pub(crate) struct LineBuffer {
    bytes: Vec<u8>,
    lost: Option<AllocError>,
    /// All bytes of the line, also where it is lost.
    line: Log,
    ghost kept: { lost ≡ None → bytes.items ≡ line.bytes },
    ghost one_line: { IsOneLine line.bytes },
    ghost not_empty: { lost ≢ None → 0 < length line.bytes },
}

impl LineBuffer {
    pub(crate) fn new(alloc: Global) -> LineBuffer
        ensures { result.line.bytes ≡ [] }
    {
        LineBuffer {
            bytes: Vec::new(alloc),
            lost: None,
            line: Log::new(),
        }
    }

    pub(crate) fn add(&mut self, alloc: Global, piece: &[u8])
        requires { IsOneLine piece.now }
        ensures { self.new.line.bytes ≡ self.old.line.bytes ++ piece.now }
    {
        if piece.is_empty() {
            return;
        }
        self.line = self.line.then(&Piece { bytes: piece });
        if self.lost.is_some() {
            return;
        }
        if let Err(refusal) = self.bytes.extend_from_slice(piece) {
            self.lost = Some(refusal);
            self.bytes = Vec::new(alloc);
        }
    }

    pub(crate) fn clear(&mut self)
        ensures { self.new.line.bytes ≡ [] }
    {
        self.bytes.clear();
        self.lost = None;
        self.line = Log::new();
    }

    pub(crate) fn is_empty(&self) -> bool
        ensures { IsTrue result ↔ (self.now.line.bytes ≡ []) }
    {
        self.lost.is_none() && self.bytes.is_empty()
    }

    /// The line, or the error that lost it.
    pub(crate) fn whole(&self) -> Result<&[u8], AllocError>
        ensures { IfOk result (λ line. line.now ≡ self.now.line.bytes) }
    {
        match self.lost {
            None => Ok(&self.bytes),
            Some(refusal) => Err(refusal),
        }
    }
}
