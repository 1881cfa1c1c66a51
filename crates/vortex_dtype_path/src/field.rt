//! A step of a path into a type.
ghost use Rattle.std.specs.Prelude.{◌≡◌, option_copied, is_some};
ghost use Rattle.std.specs.Cmp.{partial_equiv_from_equiv};
ghost use Rattle.vortex_dtype_path.specs.Steps.{name_in};
ghost use Rattle.vortex_dtype_path.specs.View.{step_of, eq_field, eq_field_equiv};

use std::alloc::AllocError;
use vortex_dtype_ptype::field_names::FieldName;

/// A step into a type, as Vortex's `Field`.
#[derive(Drop)]
pub enum Field {
    /// To a struct's field of this name.
    Name(FieldName),
    /// To a list's elements.
    ElementType,
}

impl Field {
    /// The name of the field, and `None` for a step to elements.
    pub fn as_name(&self) -> Option<&FieldName>
        ensures { option_copied result ≡ name_in (step_of self.now) }
    {
        match self {
            Field::Name(name) => Some(name),
            Field::ElementType => None,
        }
    }

    pub fn is_named(&self) -> bool
        ensures { result ≡ is_some (name_in (step_of self.now)) }
    {
        match self {
            Field::Name(_) => true,
            Field::ElementType => false,
        }
    }
}

impl Clone for Field {
    ghost is_clone = { λ old new. step_of new ≡ step_of old };

    fn clone(&self) -> Result<Field, AllocError> {
        match self {
            Field::Name(name) => Ok(Field::Name(name.clone()?)),
            Field::ElementType => Ok(Field::ElementType),
        }
    }
}

/// Steps compare by name.
impl PartialEq for Field {
    ghost eq = { eq_field };

    ghost laws = { partial_equiv_from_equiv eq_field_equiv };

    fn eq(&self, other: &Field) -> bool {
        match (self, other) {
            (Field::Name(mine), Field::Name(theirs)) => mine == theirs,
            (Field::ElementType, Field::ElementType) => true,
            (Field::Name(_), Field::ElementType) => false,
            (Field::ElementType, Field::Name(_)) => false,
        }
    }
}

impl Eq for Field {
    ghost laws = { eq_field_equiv };
}

impl From<FieldName> for Field {
    ghost use Rattle.vortex_model.specs.Path.{name};

    ghost from_gives = { λ given field. step_of field ≡ name given };

    fn from(name: FieldName) -> Field {
        Field::Name(name)
    }
}
