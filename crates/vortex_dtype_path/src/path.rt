//! Paths into types.
ghost use Rattle.std.specs.Prelude.{◌≡◌, ◌↔◌, ◌⊎◌, ◌++◌, ◌∷◌, ◌==◌, [], length, map, option_map, IsTrue, IfOk, OnOk, OnErr};
ghost use Rattle.std.specs.Cmp.{partial_equiv_from_equiv};
ghost use Rattle.vortex_model.specs.Path.{name as named};
ghost use Rattle.vortex_dtype_path.specs.Steps.{Begins, Overlap, without_first};
ghost use Rattle.vortex_dtype_path.specs.View.{step_of, steps_of, eq_path, eq_path_equiv};

use crate::field::Field;
use std::alloc::{AllocError, Global};
use vortex_dtype_ptype::field_names::FieldName;

/// The path from a type to a part of it, as Vortex's `FieldPath`. The one without steps is the
/// root.
#[derive(Drop)]
pub struct FieldPath {
    parts: Vec<Field>,
}

impl FieldPath {
    /// The path to the type itself.
    pub fn root(alloc: Global) -> FieldPath
        ensures { steps_of result ≡ [] }
    {
        FieldPath {
            parts: Vec::new(alloc),
        }
    }

    pub fn new(parts: Vec<Field>) -> FieldPath
        ensures { steps_of result ≡ map step_of parts.items }
    {
        FieldPath { parts }
    }

    pub fn from_field(alloc: Global, field: Field) -> Result<FieldPath, AllocError>
        ensures { IfOk result (λ path. steps_of path ≡ step_of field ∷ []) }
    {
        let mut parts = Vec::with_capacity(alloc, 1)?;
        parts.push(field)?;
        Ok(FieldPath { parts })
    }

    pub fn from_name(alloc: Global, name: FieldName) -> Result<FieldPath, AllocError>
        ensures { IfOk result (λ path. steps_of path ≡ named name ∷ []) }
    {
        let path = FieldPath::from_field(alloc, Field::Name(name))?;
        Ok(path)
    }

    /// The path to a field through structs, by the names of fields from the outermost inward.
    pub fn from_names(alloc: Global, names: &[&str]) -> Result<FieldPath, AllocError>
        ensures { IfOk result (λ path. steps_of path ≡ map (λ text. named text.now) names.now) }
    {
        let mut parts = Vec::with_capacity(alloc, names.len())?;
        for text in names {
            let name = FieldName::new(alloc, text)?;
            parts.push(Field::Name(name))?;
        }
        Ok(FieldPath { parts })
    }

    /// Adds a step at the end. Where memory runs out the path stays as it was.
    pub fn push(&mut self, part: Field) -> Result<(), AllocError>
        ensures ok { OnOk result (steps_of self.new ≡ steps_of self.old ++ step_of part ∷ []) }
        ensures err { OnErr result (steps_of self.new ≡ steps_of self.old) }
    {
        self.parts.push(part)?;
        Ok(())
    }

    pub fn parts(&self) -> &[Field]
        ensures { map step_of result.now ≡ steps_of self.now }
    {
        self.parts.as_slice()
    }

    pub fn is_root(&self) -> bool
        ensures { result ≡ (length (steps_of self.now) == 0) }
    {
        self.parts.is_empty()
    }

    pub fn starts_with_field(&self, field: &Field) -> bool
        ensures { IsTrue result ↔ Begins (step_of field.now ∷ []) (steps_of self.now) }
    {
        match self.parts.first() {
            Some(first) => first == field,
            None => false,
        }
    }

    /// The path without its first step, and `None` for the root. Allocates nothing.
    pub fn step_into(self) -> Option<FieldPath>
        ensures { option_map steps_of result ≡ without_first (steps_of self) }
    {
        let mut parts = self.parts;
        if parts.is_empty() {
            return None;
        }
        parts.remove(0);
        Some(FieldPath { parts })
    }

    /// Whether this path is a prefix of `other`. Each path is one of itself.
    #[tactic(auto, using(crate::proofs::Steps::begun))]
    pub fn begins(&self, other: &FieldPath) -> bool
        ensures { IsTrue result ↔ Begins (steps_of self.now) (steps_of other.now) }
    {
        other.parts.starts_with(self.parts.as_slice())
    }

    /// Whether one of the paths is a prefix of the other. Allocates nothing.
    pub fn overlap(&self, other: &FieldPath) -> bool
        ensures { IsTrue result ↔ Overlap (steps_of self.now) (steps_of other.now) }
    {
        if self.begins(other) {
            return true;
        }
        other.begins(self)
    }
}

impl From<Vec<Field>> for FieldPath {
    ghost from_gives = { λ parts path. steps_of path ≡ map step_of parts.items };

    fn from(parts: Vec<Field>) -> FieldPath {
        FieldPath::new(parts)
    }
}

impl Clone for FieldPath {
    ghost is_clone = { λ old new. steps_of new ≡ steps_of old };

    fn clone(&self) -> Result<FieldPath, AllocError> {
        let mut parts = Vec::with_capacity(*self.parts.allocator(), self.parts.len())?;
        for part in &self.parts {
            parts.push(part.clone()?)?;
        }
        Ok(FieldPath { parts })
    }
}

/// Paths are equal where their steps are.
impl PartialEq for FieldPath {
    ghost eq = { eq_path };

    ghost laws = { partial_equiv_from_equiv eq_path_equiv };

    #[tactic(auto, using(crate::proofs::Steps::steps_alike))]
    fn eq(&self, other: &FieldPath) -> bool {
        self.parts == other.parts
    }
}

impl Eq for FieldPath {
    ghost laws = { eq_path_equiv };
}

/// The path of these names, as `field_path!(in alloc; a.b)`. A `Result`, since it allocates.
#[macro_export]
macro_rules! field_path {
    (in $alloc:expr; $front:ident $(. $rest:ident)*) => {
        $crate::path::FieldPath::from_names($alloc, &[stringify!($front) $(, stringify!($rest))*])
    };
}
