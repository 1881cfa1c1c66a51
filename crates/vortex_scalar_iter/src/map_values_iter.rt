//! An iterator over the values of a map.
ghost use Rattle.std.specs.Prelude.{◌≡◌, IsTrue, Some, IfSome, length};
ghost use Rattle.std.specs.Iterator.{UpTo, item_count};
ghost use Rattle.std.specs.Iterator.SizeHint.{IsWithinCount};
ghost use Rattle.vortex_model.specs.Valid.{entries_have};
ghost use Rattle.vortex_dtype_core.specs.View.{entries_in};
ghost use Rattle.vortex_scalar_value.specs.View.{raws_in};
ghost use Rattle.vortex_scalar_views.specs.Views.{typed_scalar};
ghost use Rattle.vortex_scalar_nested.specs.Entries.{each_value};

use std::alloc::AllocError;
use std::iter::ExactSizeIterator;
use vortex_dtype_core::map_dtype::MapDType;
use vortex_scalar_core::scalar::Scalar;
use vortex_scalar_nested::copies::pair_of;
use vortex_scalar_value::scalar_value::ScalarValue;
use vortex_scalar_views::copies::scalar_of;

/// Yields clones of a map's values in the order of its entries. After an `Err` for memory it
/// continues with the next value.
#[derive(Drop)]
pub struct MapValuesIter<'a> {
    types: &'a MapDType,
    entries: &'a [Option<ScalarValue>],
    ghost is_valid: { IsTrue (entries_have (entries_in types.now).key (entries_in types.now).value
        (raws_in entries.now)) },
}

impl<'a> MapValuesIter<'a> {
    ghost use Rattle.vortex_scalar_iter.specs.Iterators.{values_left};

    /// The values of the entries, all with these key and value types.
    pub(crate) fn new(types: &'a MapDType, entries: &'a [Option<ScalarValue>]) -> MapValuesIter<'a>
        requires { IsTrue (entries_have (entries_in types.now).key (entries_in types.now).value
            (raws_in entries.now)) }
        ensures { values_left result ≡ each_value (entries_in types.now).value
            (raws_in entries.now) }
    {
        MapValuesIter { types, entries }
    }
}

impl<'a> Iterator for MapValuesIter<'a> {
    ghost use Rattle.vortex_scalar_iter.specs.Iterators.{YieldsCopy, values_left};

    type Item = Result<Scalar, AllocError>;

    ghost next_gives = { YieldsCopy typed_scalar values_left };

    ghost remaining = { item_count values_left };

    #[tactic(auto, using(crate::proofs::Entries::first_value_of))]
    fn next(&mut self) -> Option<Result<Scalar, AllocError>> {
        let (entry, entries) = self.entries.split_first()?;
        let types = self.types;
        *self = MapValuesIter { types, entries };
        match pair_of(entry.as_ref()) {
            Some((_, value)) => Some(scalar_of(types.value_dtype(), value)),
            None => unreachable!(),
        }
    }

    #[tactic(auto, using(crate::proofs::Entries::counted))]
    fn size_hint(&self) -> (usize, Option<usize>)
        ensures lower { IsWithinCount result.0 (item_count values_left self.now) }
        ensures upper { IfSome result.1 (UpTo (item_count values_left self.now)) }
        ensures exact { (result.0 ≡ length (values_left self.now)) × (result.1 ≡ Some result.0) }
    {
        let len = self.entries.len();
        (len, Some(len))
    }
}

impl<'a> ExactSizeIterator for MapValuesIter<'a> {
    #[tactic(auto, using(crate::proofs::Entries::counted))]
    fn len(&self) -> usize {
        self.entries.len()
    }
}
