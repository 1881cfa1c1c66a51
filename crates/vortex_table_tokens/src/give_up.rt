//! Why a line isn't read from its tokens.
use json::Invalid;
use std::alloc::{AllocError, AllocFailed};
use vortex_table_columns::DoesNotFit;
use vortex_table_request::ParseError;

/// The line has another form, or memory ran out. Whether the line is a command is open.
#[derive(Clone, Copy, Debug, PartialEq, Eq, Drop)]
pub(crate) struct GiveUp;

impl From<AllocError> for GiveUp {
    fn from(_refused: AllocError) -> GiveUp {
        GiveUp
    }
}

impl<T: Drop> From<AllocFailed<T>> for GiveUp {
    fn from(_refused: AllocFailed<T>) -> GiveUp {
        GiveUp
    }
}

impl From<ParseError> for GiveUp {
    fn from(_refused: ParseError) -> GiveUp {
        GiveUp
    }
}

impl From<Invalid> for GiveUp {
    fn from(_refused: Invalid) -> GiveUp {
        GiveUp
    }
}

impl From<DoesNotFit> for GiveUp {
    fn from(_refused: DoesNotFit) -> GiveUp {
        GiveUp
    }
}
