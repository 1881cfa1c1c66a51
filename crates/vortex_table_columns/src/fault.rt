//! Why a column takes no cell, or becomes no array.
use std::alloc::{AllocError, AllocFailed};

/// A cell doesn't fit its column, or memory ran out.
#[derive(Clone, Copy, Debug, PartialEq, Eq, Drop)]
pub struct DoesNotFit;

impl From<AllocError> for DoesNotFit {
    fn from(_refused: AllocError) -> DoesNotFit {
        DoesNotFit
    }
}

impl<T: Drop> From<AllocFailed<T>> for DoesNotFit {
    fn from(_refused: AllocFailed<T>) -> DoesNotFit {
        DoesNotFit
    }
}
