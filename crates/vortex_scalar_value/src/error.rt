//! The errors of calls on scalars.
ghost use Rattle.std.specs.Prelude.{◌≡◌};
ghost use Rattle.vortex_scalar_value.specs.declared.error.ScalarError.TheVariants.{Memory};
ghost use Rattle.vortex_scalar_value.specs.Errors.{number_of_error, name_of_error};

use std::alloc::{AllocError, AllocFailed};
use thiserror::Error;

/// Why a call on scalars is refused. The discriminants are the numbers of the errors.
#[derive(Clone, Copy, Debug, PartialEq, Eq, Drop, Error)]
pub enum ScalarError {
    /// Memory could not be allocated.
    #[error("out of memory")]
    Memory = 1,
    /// The value is not valid for the type.
    #[error("the type does not have the value")]
    Invalid = 2,
    /// The type can't hold the value.
    #[error("the type cannot hold the value")]
    NotConvertible = 3,
}

impl ScalarError {
    /// The number of the error, from 1.
    pub fn number(self) -> u8
        ensures { result ≡ number_of_error self }
    {
        self as u8
    }

    /// The name of the error's variant.
    pub fn name(self) -> &'static str
        ensures { result.now ≡ name_of_error self }
    {
        match self {
            ScalarError::Memory => "Memory",
            ScalarError::Invalid => "Invalid",
            ScalarError::NotConvertible => "NotConvertible",
        }
    }
}

impl From<AllocError> for ScalarError {
    ghost from_gives = { λ _ e. e ≡ Memory };

    fn from(_error: AllocError) -> ScalarError {
        ScalarError::Memory
    }
}

impl<T: Drop> From<AllocFailed<T>> for ScalarError {
    ghost from_gives = { λ _ e. e ≡ Memory };

    fn from(_error: AllocFailed<T>) -> ScalarError {
        ScalarError::Memory
    }
}
