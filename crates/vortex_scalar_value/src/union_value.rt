//! Values of unions.
ghost use Rattle.std.specs.Prelude.{◌≡◌, IfOk};
ghost use Rattle.vortex_model.specs.Content.{raw_tagged};
ghost use Rattle.vortex_scalar_value.specs.Parts.{tag_in, child_in};
ghost use Rattle.vortex_scalar_value.specs.View.{raw_in, raw_at, raw_of_union};

use crate::scalar_value::ScalarValue;
use std::alloc::{AllocError, Global};

/// A union's value, as Vortex's `UnionValue`: a tag, and the value of the tag's variant.
#[derive(Drop)]
#[cycle(value)]
pub struct UnionValue {
    pub(crate) type_id: i8,
    pub(crate) child: Option<Box<ScalarValue>>,
}

impl UnionValue {
    /// A union's value, of which `None` is null under the tag. Allocates a box for any other value.
    #[tactic(auto, using(crate::proofs::Views::one_level))]
    pub fn try_new(
        alloc: Global,
        type_id: i8,
        child: Option<ScalarValue>,
    ) -> Result<UnionValue, AllocError>
        ensures { IfOk result (λ made. raw_of_union made ≡ raw_tagged type_id (raw_in child)) }
    {
        match child {
            Some(child) => {
                let child = Box::new(alloc, child)?;
                Ok(UnionValue {
                    type_id,
                    child: Some(child),
                })
            }
            None => Ok(UnionValue {
                type_id,
                child: None,
            }),
        }
    }

    #[tactic(auto, using(crate::proofs::Views::one_level))]
    pub fn type_id(&self) -> i8
        ensures { result ≡ tag_in (raw_of_union self.now) }
    {
        self.type_id
    }

    /// The value under the tag. `None` is null.
    #[tactic(auto, using(crate::proofs::Views::one_level))]
    pub fn child_value(&self) -> Option<&ScalarValue>
        ensures { raw_at result ≡ child_in (raw_of_union self.now) }
    {
        match &self.child {
            Some(child) => Some(child),
            None => None,
        }
    }

    #[tactic(auto, using(crate::proofs::Views::one_level))]
    pub fn into_parts(self) -> (i8, Option<ScalarValue>)
        ensures { raw_of_union self ≡ raw_tagged result.0 (raw_in result.1) }
    {
        let UnionValue { type_id, child } = self;
        match child {
            Some(child) => (type_id, Some(Box::into_inner(child))),
            None => (type_id, None),
        }
    }
}
