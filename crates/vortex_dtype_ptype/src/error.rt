//! The errors of calls on types.
ghost use Rattle.std.specs.Prelude.{◌≡◌};
ghost use Rattle.vortex_dtype_ptype.specs.declared.error.DTypeError.TheVariants.{Memory};
ghost use Rattle.vortex_dtype_ptype.specs.View.{number_of_error, name_of_error};

use std::alloc::{AllocError, AllocFailed};
use thiserror::Error;

/// Why a call on types is refused. The discriminants are the numbers of the errors.
#[derive(Clone, Copy, Debug, PartialEq, Eq, Drop, Error)]
pub enum DTypeError {
    /// Memory could not be allocated.
    #[error("out of memory")]
    Memory = 1,
    /// A value of the type takes 2^64 bytes or more.
    #[error("an element is wider than can be counted")]
    Width = 2,
    /// The bytes are fewer or more than an integer of the type takes.
    #[error("the bytes are not as many as the number takes")]
    Length = 3,
    /// The struct has no field of the name.
    #[error("there is no such field")]
    NoSuchField = 4,
    /// Two structs to be merged have a field of the same name.
    #[error("a name is repeated")]
    RepeatedName = 5,
    /// The key of a map is nullable.
    #[error("the key of a map is nullable")]
    MapShape = 6,
    /// The lists of a union's names, types and tags differ in length, or two tags are equal.
    #[error("the lists of a union are unequal, or a tag is repeated")]
    UnionShape = 7,
    /// The precision or the scale of a decimal is out of range.
    #[error("the precision or scale of a decimal is out of range")]
    DecimalShape = 8,
    /// The message describes no type.
    #[error("the message is malformed")]
    Malformed = 9,
    /// An extension's plugin or vtable refuses its metadata or its storage type.
    #[error("a plugin refuses the extension")]
    Plugin = 10,
}

impl DTypeError {
    /// The number of the error, from 1.
    pub fn number(self) -> u8
        ensures { result ≡ number_of_error self }
    {
        self as u8
    }

    /// The name of the error's variant.
    pub fn name(self) -> &'static str
        ensures { result.now ≡ name_of_error self }
    {
        match self {
            DTypeError::Memory => "Memory",
            DTypeError::Width => "Width",
            DTypeError::Length => "Length",
            DTypeError::NoSuchField => "NoSuchField",
            DTypeError::RepeatedName => "RepeatedName",
            DTypeError::MapShape => "MapShape",
            DTypeError::UnionShape => "UnionShape",
            DTypeError::DecimalShape => "DecimalShape",
            DTypeError::Malformed => "Malformed",
            DTypeError::Plugin => "Plugin",
        }
    }
}

impl From<AllocError> for DTypeError {
    ghost from_gives = { λ _ e. e ≡ Memory };

    fn from(_error: AllocError) -> DTypeError {
        DTypeError::Memory
    }
}

impl<T: Drop> From<AllocFailed<T>> for DTypeError {
    ghost from_gives = { λ _ e. e ≡ Memory };

    fn from(_error: AllocFailed<T>) -> DTypeError {
        DTypeError::Memory
    }
}
