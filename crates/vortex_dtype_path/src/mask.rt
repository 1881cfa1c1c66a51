//! Masks: sets of paths given by one path.
ghost use Rattle.std.specs.Prelude.{◌≡◌, ◌↔◌, ◌∷◌, [], List, IsTrue, IsNone, IfSome};
ghost use Rattle.vortex_model.specs.Path.{Step};
ghost use Rattle.vortex_dtype_path.specs.View.{step_of};
ghost use Rattle.vortex_dtype_path.specs.Masks.{Denotes, StartsWith};

use crate::field::Field;
use crate::path::FieldPath;
use std::alloc::AllocError;

/// A set of paths given by one path, as Vortex's `FieldMask`.
#[derive(Drop)]
pub enum FieldMask {
    /// Every path.
    All,
    /// The path, and each that it is a prefix of.
    Prefix(FieldPath),
    /// Only the path.
    Exact(FieldPath),
}

impl FieldMask {
    /// Whether some path of the mask starts with `field`. Allocates nothing.
    pub fn starts_with_field(&self, field: &Field) -> bool
        ensures { IsTrue result ↔ StartsWith self.now (step_of field.now) }
    {
        match self {
            FieldMask::All => true,
            FieldMask::Prefix(path) => path.is_root() || path.starts_with_field(field),
            FieldMask::Exact(path) => path.starts_with_field(field),
        }
    }

    /// The mask after this first step: the rests of the paths that start with it. Allocates
    /// nothing.
    pub fn step_into(self, field: &Field) -> FieldMask
        requires { StartsWith self (step_of field.now) }
        ensures behind { (q : List Step) → Denotes result q ↔ Denotes self (step_of field.now ∷ q) }
        ensures whole { ((q : List Step) → Denotes self q) → result ≡ FieldMask.All }
    {
        match self {
            FieldMask::All => FieldMask::All,
            FieldMask::Prefix(path) => match path.step_into() {
                Some(rest) => FieldMask::Prefix(rest),
                None => FieldMask::All,
            },
            FieldMask::Exact(path) => match path.step_into() {
                Some(rest) => FieldMask::Exact(rest),
                None => unreachable!(),
            },
        }
    }

    /// The first step that all paths of the mask share, and `None` where the root is one of them.
    pub fn starting_field(&self) -> Option<&Field>
        ensures none { IsNone result ↔ Denotes self.now [] }
        ensures some { IfSome result (λ field. (s : Step) (q : List Step) → Denotes self.now (s ∷ q)
            → s ≡ step_of field.now) }
    {
        match self {
            FieldMask::All => None,
            FieldMask::Prefix(path) => path.parts().first(),
            FieldMask::Exact(path) => path.parts().first(),
        }
    }

    pub fn matches_all(&self) -> bool
        ensures { IsTrue result ↔ ((q : List Step) → Denotes self.now q) }
    {
        match self {
            FieldMask::All => true,
            FieldMask::Prefix(path) => path.is_root(),
            FieldMask::Exact(_) => false,
        }
    }

    pub fn matches_root(&self) -> bool
        ensures { IsTrue result ↔ Denotes self.now [] }
    {
        match self {
            FieldMask::All => true,
            FieldMask::Prefix(path) => path.is_root(),
            FieldMask::Exact(path) => path.is_root(),
        }
    }
}

impl Clone for FieldMask {
    ghost is_clone = { λ old new. (q : List Step) → Denotes new q ↔ Denotes old q };

    fn clone(&self) -> Result<FieldMask, AllocError> {
        match self {
            FieldMask::All => Ok(FieldMask::All),
            FieldMask::Prefix(path) => Ok(FieldMask::Prefix(path.clone()?)),
            FieldMask::Exact(path) => Ok(FieldMask::Exact(path.clone()?)),
        }
    }
}
