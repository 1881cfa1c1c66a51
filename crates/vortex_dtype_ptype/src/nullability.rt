//! Nullability of types.
ghost use Rattle.std.specs.Prelude.{◌≡◌};
ghost use Rattle.vortex_model.specs.LogicalType.{either_nullable, is_nullable};
ghost use Rattle.vortex_dtype_ptype.specs.View.{nullability_of_flag, is_nullable_flag};

use std::ops::{BitOr, BitOrAssign};

/// Whether null is a value of a type, as Vortex's `Nullability`.
#[derive(Clone, Copy, Debug, PartialEq, Eq)]
pub enum Nullability {
    /// No value is null.
    NonNullable,
    /// Null is a value.
    Nullable,
}

impl Nullability {
    pub fn is_nullable(self) -> bool
        ensures { result ≡ is_nullable (nullability_of_flag self) }
    {
        match self {
            Nullability::NonNullable => false,
            Nullability::Nullable => true,
        }
    }
}

/// Nullable, where one side is.
impl BitOr for Nullability {
    type Output = Nullability;

    ghost bitor_gives = { λ a b c. nullability_of_flag c
        ≡ either_nullable (nullability_of_flag a) (nullability_of_flag b) };

    fn bitor(self, other: Nullability) -> Nullability {
        match self {
            Nullability::NonNullable => other,
            Nullability::Nullable => Nullability::Nullable,
        }
    }
}

/// Nullable, where one side is.
impl BitOrAssign for Nullability {
    ghost bitor_assign_gives = { λ a b c. nullability_of_flag c
        ≡ either_nullable (nullability_of_flag a) (nullability_of_flag b) };

    fn bitor_assign(&mut self, other: Nullability) {
        *self = *self | other;
    }
}

/// `true` is nullable.
impl From<bool> for Nullability {
    ghost from_gives = { λ b n. is_nullable_flag n ≡ b };

    fn from(nullable: bool) -> Nullability {
        if nullable {
            Nullability::Nullable
        } else {
            Nullability::NonNullable
        }
    }
}

/// `true` is nullable.
impl From<Nullability> for bool {
    ghost from_gives = { λ n b. b ≡ is_nullable_flag n };

    fn from(nullability: Nullability) -> bool {
        nullability.is_nullable()
    }
}
