//! An iterator over the elements of a list.
ghost use Rattle.std.specs.Prelude.{◌≡◌, IsTrue, Some, IfSome, length};
ghost use Rattle.std.specs.Iterator.{UpTo, item_count};
ghost use Rattle.std.specs.Iterator.SizeHint.{IsWithinCount};
ghost use Rattle.vortex_model.specs.Valid.{all_have};
ghost use Rattle.vortex_dtype_core.specs.View.{type_of};
ghost use Rattle.vortex_scalar_value.specs.View.{raws_in};
ghost use Rattle.vortex_scalar_views.specs.Views.{typed_scalar};
ghost use Rattle.vortex_scalar_nested.specs.Places.{each_of};

use std::alloc::AllocError;
use std::iter::ExactSizeIterator;
use vortex_dtype_core::dtype::DType;
use vortex_scalar_core::scalar::Scalar;
use vortex_scalar_value::scalar_value::ScalarValue;
use vortex_scalar_views::copies::scalar_of;

/// Yields clones of a list's elements in order. After an `Err` for memory it continues with the
/// next element.
#[derive(Drop)]
pub struct ListElementsIter<'a> {
    dtype: &'a DType,
    values: &'a [Option<ScalarValue>],
    ghost is_valid: { IsTrue (all_have (type_of dtype.now) (raws_in values.now)) },
}

impl<'a> ListElementsIter<'a> {
    ghost use Rattle.vortex_scalar_iter.specs.Iterators.{elements_left};

    /// The elements, all of type `dtype`.
    pub(crate) fn new(dtype: &'a DType, values: &'a [Option<ScalarValue>]) -> ListElementsIter<'a>
        requires { IsTrue (all_have (type_of dtype.now) (raws_in values.now)) }
        ensures { elements_left result ≡ each_of (type_of dtype.now) (raws_in values.now) }
    {
        ListElementsIter { dtype, values }
    }
}

impl<'a> Iterator for ListElementsIter<'a> {
    ghost use Rattle.vortex_scalar_iter.specs.Iterators.{YieldsCopy, elements_left};

    type Item = Result<Scalar, AllocError>;

    ghost next_gives = { YieldsCopy typed_scalar elements_left };

    ghost remaining = { item_count elements_left };

    #[tactic(auto, using(crate::proofs::Elements::first_of))]
    fn next(&mut self) -> Option<Result<Scalar, AllocError>> {
        let (value, values) = self.values.split_first()?;
        let dtype = self.dtype;
        *self = ListElementsIter { dtype, values };
        Some(scalar_of(dtype, value.as_ref()))
    }

    #[tactic(auto, using(crate::proofs::Elements::counted))]
    fn size_hint(&self) -> (usize, Option<usize>)
        ensures lower { IsWithinCount result.0 (item_count elements_left self.now) }
        ensures upper { IfSome result.1 (UpTo (item_count elements_left self.now)) }
        ensures exact { (result.0 ≡ length (elements_left self.now)) × (result.1 ≡ Some result.0) }
    {
        let len = self.values.len();
        (len, Some(len))
    }
}

impl<'a> ExactSizeIterator for ListElementsIter<'a> {
    #[tactic(auto, using(crate::proofs::Elements::counted))]
    fn len(&self) -> usize {
        self.values.len()
    }
}
