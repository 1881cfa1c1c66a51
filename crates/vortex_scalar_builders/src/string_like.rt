//! Strings that can be raised.
ghost use Rattle.std.specs.Prelude.{◌≡◌, ℕ, List, Some, chars, string_bytes, IfOk, IfErr, MatchResult};
ghost use Rattle.vortex_model_table.specs.Bounds.{IsRaise, CannotBeRaised};
ghost use Rattle.vortex_scalar_value.specs.declared.error.ScalarError.TheVariants.{Memory};

use crate::private::Sealed;
use crate::raising::raise;
use bytes::ByteStr as BufferString;
use std::alloc::Global;
use vortex_scalar_value::error::ScalarError;

/// A string that can be raised, as Vortex's `StringLike`.
pub trait StringLike: Sealed + Sized {
    // its bytes
    ghost bytes: { Self → List ℕ };

    /// The string with the last character that can be raised replaced by the next higher one of as
    /// many bytes, and the characters after it dropped. The inner `Err` returns the string where no
    /// character can be raised.
    fn increment(self, alloc: Global) -> Result<Result<Self, Self>, ScalarError>
        ensures raised { IfOk result (λ answer. MatchResult answer
            (λ raised. IsRaise (bytes self) (Some (bytes raised)))
            (λ back. (back ≡ self) × CannotBeRaised (chars (bytes self)))) }
        ensures refused { IfErr result (λ e. e ≡ Memory) };
}

impl StringLike for BufferString {
    ghost bytes = { λ t. t };

    fn increment(self, alloc: Global) -> Result<Result<BufferString, BufferString>, ScalarError> {
        match raise(alloc, self.as_str())? {
            None => Ok(Err(self)),
            Some(raised) => {
                let raised = BufferString::from_string(raised)?;
                Ok(Ok(raised))
            }
        }
    }
}

impl StringLike for String {
    ghost bytes = { string_bytes };

    fn increment(self, alloc: Global) -> Result<Result<String, String>, ScalarError> {
        match raise(alloc, self.as_str())? {
            None => Ok(Err(self)),
            Some(raised) => Ok(Ok(raised)),
        }
    }
}
