//! An iterator over the entries of a map.
ghost use Rattle.std.specs.Prelude.{◌≡◌, IsTrue, IfOk, Some, IfSome, length};
ghost use Rattle.std.specs.Iterator.{UpTo, item_count};
ghost use Rattle.std.specs.Iterator.SizeHint.{IsWithinCount};
ghost use Rattle.vortex_model.specs.Valid.{valid, entries_have};
ghost use Rattle.vortex_dtype_core.specs.View.{entries_in};
ghost use Rattle.vortex_scalar_value.specs.View.{raw_at, raws_in};
ghost use Rattle.vortex_scalar_nested.specs.Entries.{typed_pair};
ghost use Rattle.vortex_scalar_iter.specs.Entries.{each_entry, typed_entry};

use std::alloc::AllocError;
use std::iter::ExactSizeIterator;
use vortex_dtype_core::map_dtype::MapDType;
use vortex_scalar_core::scalar::Scalar;
use vortex_scalar_nested::copies::pair_of;
use vortex_scalar_value::scalar_value::ScalarValue;
use vortex_scalar_views::copies::scalar_of;

/// Yields clones of the keys and values of a map's entries in order. After an `Err` for memory it
/// continues with the next entry.
#[derive(Drop)]
pub struct MapEntriesIter<'a> {
    types: &'a MapDType,
    entries: &'a [Option<ScalarValue>],
    ghost is_valid: { IsTrue (entries_have (entries_in types.now).key (entries_in types.now).value
        (raws_in entries.now)) },
}

impl<'a> MapEntriesIter<'a> {
    ghost use Rattle.vortex_scalar_iter.specs.Iterators.{entries_left};

    /// The entries, all with these key and value types.
    pub(crate) fn new(types: &'a MapDType, entries: &'a [Option<ScalarValue>]) -> MapEntriesIter<'a>
        requires { IsTrue (entries_have (entries_in types.now).key (entries_in types.now).value
            (raws_in entries.now)) }
        ensures { entries_left result ≡ each_entry (entries_in types.now) (raws_in entries.now) }
    {
        MapEntriesIter { types, entries }
    }
}

impl<'a> Iterator for MapEntriesIter<'a> {
    ghost use Rattle.vortex_scalar_iter.specs.Iterators.{YieldsCopy, entries_left};

    type Item = Result<(Scalar, Scalar), AllocError>;

    ghost next_gives = { YieldsCopy typed_entry entries_left };

    ghost remaining = { item_count entries_left };

    #[tactic(auto, using(crate::proofs::Entries::first_of))]
    fn next(&mut self) -> Option<Result<(Scalar, Scalar), AllocError>> {
        let (entry, entries) = self.entries.split_first()?;
        let types = self.types;
        *self = MapEntriesIter { types, entries };
        match pair_of(entry.as_ref()) {
            Some((key, value)) => Some(entry_of(types, key, value)),
            None => unreachable!(),
        }
    }

    #[tactic(auto, using(crate::proofs::Entries::counted))]
    fn size_hint(&self) -> (usize, Option<usize>)
        ensures lower { IsWithinCount result.0 (item_count entries_left self.now) }
        ensures upper { IfSome result.1 (UpTo (item_count entries_left self.now)) }
        ensures exact { (result.0 ≡ length (entries_left self.now)) × (result.1 ≡ Some result.0) }
    {
        let len = self.entries.len();
        (len, Some(len))
    }
}

impl<'a> ExactSizeIterator for MapEntriesIter<'a> {
    #[tactic(auto, using(crate::proofs::Entries::counted))]
    fn len(&self) -> usize {
        self.entries.len()
    }
}

// Clones of the key and the value, with clones of their types.
fn entry_of(
    types: &MapDType,
    key: Option<&ScalarValue>,
    value: Option<&ScalarValue>,
) -> Result<(Scalar, Scalar), AllocError>
    requires keys { IsTrue (valid (entries_in types.now).key (raw_at key)) }
    requires values { IsTrue (valid (entries_in types.now).value (raw_at value)) }
    ensures { IfOk result (λ entry. typed_entry entry ≡ typed_pair (entries_in types.now)
        (raw_at key.entry, raw_at value.entry)) }
{
    let key = scalar_of(types.key_dtype(), key)?;
    let value = scalar_of(types.value_dtype(), value)?;
    Ok((key, value))
}
