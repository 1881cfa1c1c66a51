//! Why there is no JSON text.
ghost use Rattle.std.specs.Prelude.{◌≡◌};
ghost use Rattle.vortex_table_text.specs.declared.error.TextError.TheVariants.{Memory};

use std::alloc::{AllocError, AllocFailed};
use thiserror::Error;

/// Why there is no JSON text.
#[derive(Clone, Copy, Debug, PartialEq, Eq, Drop, Error)]
pub enum TextError {
    /// Memory ran out.
    #[error("out of memory")]
    Memory,
    /// A type in it has no JSON text, as a float or decimal type.
    #[error("a type in it has no JSON text")]
    NoText,
}

impl From<AllocError> for TextError {
    ghost from_gives = { λ _ e. e ≡ Memory };

    fn from(_error: AllocError) -> TextError {
        TextError::Memory
    }
}

impl<T: Drop> From<AllocFailed<T>> for TextError {
    ghost from_gives = { λ _ e. e ≡ Memory };

    fn from(_failed: AllocFailed<T>) -> TextError {
        TextError::Memory
    }
}
