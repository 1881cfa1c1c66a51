//! Types at paths.
ghost use Rattle.std.specs.Prelude.{◌≡◌, option_map, is_some, IfOk};
ghost use Rattle.vortex_dtype_core.specs.View.{type_of};
ghost use Rattle.vortex_dtype_path.specs.Resolve.{part_along, resolved};
ghost use Rattle.vortex_dtype_path.specs.View.{step_of, steps_of};

use crate::field::Field;
use crate::path::FieldPath;
use vortex_dtype_core::dtype::DType;

impl FieldPath {
    /// The type at the path, and `None` where a step is neither the name of a field of a struct nor
    /// a step to the elements of a list.
    pub fn resolve<'a>(&self, dtype: &'a DType) -> Option<&'a DType>
        ensures { option_map (λ part. type_of part.now) result
            ≡ resolved (type_of dtype.now) (steps_of self.now) }
    {
        let mut part = dtype;
        for step in self.parts() {
            part = part_along(part, step)?;
        }
        Some(part)
    }

    /// Whether the type has a part at the path. Allocates nothing.
    #[tactic(auto, using(crate::proofs::Resolved::seen))]
    pub fn exists_in(&self, dtype: &DType) -> bool
        ensures { result ≡ is_some (resolved (type_of dtype.now) (steps_of self.now)) }
    {
        self.resolve(dtype).is_some()
    }
}

// The type of the part that a step leads to.
#[tactic(auto, using(crate::proofs::Resolved::parts))]
fn part_along<'a>(dtype: &'a DType, step: &Field) -> Option<&'a DType>
    ensures { option_map (λ part. type_of part.now) result ≡ part_along (type_of dtype.now)
        (step_of step.now) }
{
    match (dtype, step) {
        (DType::Struct(fields, _), Field::Name(name)) => {
            let position = fields.find(name)?;
            fields.field_by_index(position)
        }
        (DType::List(element, _), Field::ElementType) => Some(element),
        (DType::FixedSizeList(element, _, _), Field::ElementType) => Some(element),
        (DType::Struct(_, _), Field::ElementType) => None,
        (DType::List(_, _), Field::Name(_)) => None,
        (DType::FixedSizeList(_, _, _), Field::Name(_)) => None,
        (DType::Null, _) => None,
        (DType::Bool(_), _) => None,
        (DType::Primitive(_, _), _) => None,
        (DType::Decimal(_, _), _) => None,
        (DType::Utf8(_), _) => None,
        (DType::Binary(_), _) => None,
        (DType::Map(_, _), _) => None,
        (DType::Union(_, _), _) => None,
        (DType::Variant(_), _) => None,
        (DType::Extension(_), _) => None,
    }
}
