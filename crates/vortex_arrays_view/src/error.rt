//! The errors of arrays.
ghost use Rattle.std.specs.Prelude.{◌≡◌};
ghost use Rattle.vortex_arrays_view.specs.declared.error.ArrayError.TheVariants.{Memory};
ghost use Rattle.vortex_arrays_view.specs.Errors.{number_of_error, name_of_error};

use std::alloc::{AllocError, AllocFailed};
use thiserror::Error;

/// Why an array can't be made or read. Where there are several reasons, `WrongType` goes first, and
/// then the lowest number.
#[derive(Clone, Copy, Debug, PartialEq, Eq, Drop, Error)]
pub enum ArrayError {
    /// Memory ran out.
    #[error("out of memory")]
    Memory = 1,
    /// An index is not the index of a row.
    #[error("the position is out of range")]
    OutOfRange = 2,
    /// Parts that belong together differ in length.
    #[error("the parts have unequal lengths")]
    LengthMismatch = 3,
    /// A null value of a type without null.
    #[error("the type has no null")]
    NullInNonNullable = 4,
    /// A code that is not null is not the index of a value.
    #[error("a code names no value")]
    CodeOutOfRange = 5,
    /// The number of elements is not the sum of the lists' lengths.
    #[error("the lists have another number of elements")]
    ElementCount = 6,
    /// A list's range is not within the elements.
    #[error("a list lies outside the elements")]
    ViewOutOfRange = 7,
    /// The array does not have this operation.
    #[error("not implemented")]
    NotImplemented = 8,
    /// A sum or a length exceeds its type.
    #[error("a total is too large")]
    Total = 9,
    /// No field has this name.
    #[error("no such field")]
    NoSuchField = 10,
    /// A view does not refer to bytes of the buffers.
    #[error("a view has no value")]
    BadView = 11,
    /// A string is not UTF-8.
    #[error("a value is not a text")]
    NotUtf8 = 12,
    /// A part is not of the required type.
    #[error("a part has the wrong type")]
    WrongType = 13,
}

impl ArrayError {
    pub fn number(self) -> u8
        ensures { result ≡ number_of_error self }
    {
        self as u8
    }

    pub fn name(self) -> &'static str
        ensures { result.now ≡ name_of_error self }
    {
        match self {
            ArrayError::Memory => "Memory",
            ArrayError::OutOfRange => "OutOfRange",
            ArrayError::LengthMismatch => "LengthMismatch",
            ArrayError::NullInNonNullable => "NullInNonNullable",
            ArrayError::CodeOutOfRange => "CodeOutOfRange",
            ArrayError::ElementCount => "ElementCount",
            ArrayError::ViewOutOfRange => "ViewOutOfRange",
            ArrayError::NotImplemented => "NotImplemented",
            ArrayError::Total => "Total",
            ArrayError::NoSuchField => "NoSuchField",
            ArrayError::BadView => "BadView",
            ArrayError::NotUtf8 => "NotUtf8",
            ArrayError::WrongType => "WrongType",
        }
    }
}

impl From<AllocError> for ArrayError {
    ghost from_gives = { λ _ e. e ≡ Memory };

    fn from(_error: AllocError) -> ArrayError {
        ArrayError::Memory
    }
}

impl<T: Drop> From<AllocFailed<T>> for ArrayError {
    ghost from_gives = { λ _ e. e ≡ Memory };

    fn from(_error: AllocFailed<T>) -> ArrayError {
        ArrayError::Memory
    }
}
