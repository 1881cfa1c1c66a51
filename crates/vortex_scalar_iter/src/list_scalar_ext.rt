//! Lists by their elements in order.
ghost use Rattle.std.specs.Prelude.{◌≡◌, IsTrue, option_map};
ghost use Rattle.vortex_model.specs.Valid.{valid};
ghost use Rattle.vortex_scalar_views.specs.Forms.{Typed};
ghost use Rattle.vortex_scalar_nested.specs.Held.{raw_of_items};
ghost use Rattle.vortex_scalar_nested.specs.Nested.{typed_list};
ghost use Rattle.vortex_scalar_nested.specs.Places.{elements_of};
ghost use Rattle.vortex_scalar_iter.specs.Iterators.{elements_left};

use crate::list_elements_iter::ListElementsIter;
use vortex_scalar_nested::list_scalar::ListScalar;
use vortex_scalar_value::scalar_value::ScalarValue;

/// More calls on a `ListScalar`, which are methods of Vortex's.
pub trait ListScalarExt {
    ghost typed: { Self → Typed };

    /// Clones of the elements in order, and `None` for null.
    fn elements(&self) -> Option<ListElementsIter<'_>>
        ensures { option_map elements_left result ≡ elements_of (typed self.now) };
}

impl ListScalarExt for ListScalar<'_> {
    ghost typed = { typed_list };

    #[tactic(auto, using(crate::proofs::Elements::listed))]
    fn elements(&self) -> Option<ListElementsIter<'_>> {
        let elements = stored_elements(self)?;
        Some(ListElementsIter::new(self.element_dtype(), elements))
    }
}

// The elements, and `None` for null.
#[tactic(auto, using(vortex_scalar_nested::proofs::Elements::held))]
fn stored_elements<'a>(view: &ListScalar<'a>) -> Option<&'a [Option<ScalarValue>]>
    ensures value { raw_of_items result ≡ (typed_list view.now).1 }
    ensures is_valid { IsTrue (valid (typed_list view.now).0 (raw_of_items result)) }
{
    match view.value() {
        Some(value) => value.as_list(),
        None => None,
    }
}
