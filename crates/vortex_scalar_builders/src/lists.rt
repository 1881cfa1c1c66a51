//! Scalars of lists.
ghost use Rattle.std.specs.Prelude.{◌≡◌};
ghost use Rattle.vortex_model.specs.LogicalType.{list};
ghost use Rattle.vortex_model.specs.Content.{raw_tuple, no_raws};
ghost use Rattle.vortex_dtype_ptype.specs.View.{nullability_of_flag};
ghost use Rattle.vortex_dtype_core.specs.View.{type_of};
ghost use Rattle.vortex_scalar_core.specs.Scalar.{scalar_type, scalar_raw};

use std::alloc::Global;
use std::rc::Rc;
use vortex_dtype_core::dtype::DType;
use vortex_dtype_ptype::nullability::Nullability;
use vortex_scalar_core::scalar::Scalar;
use vortex_scalar_value::scalar_value::ScalarValue;

#[tactic(auto, using(crate::proofs::Made::leaves))]
pub(crate) fn empty_list(alloc: Global, element: Rc<DType>, nullability: Nullability) -> Scalar
    ensures dtype { scalar_type result
        ≡ list (type_of element.value) (nullability_of_flag nullability) }
    ensures value { scalar_raw result ≡ raw_tuple no_raws }
{
    let values = ScalarValue::Tuple(Vec::new(alloc));
    Scalar::new_unchecked(DType::List(element, nullability), Some(values))
}
