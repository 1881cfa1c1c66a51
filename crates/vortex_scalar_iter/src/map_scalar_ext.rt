//! Maps by their entries, keys and values in order.
ghost use Rattle.std.specs.Prelude.{◌≡◌, IsTrue, option_map};
ghost use Rattle.vortex_model.specs.Valid.{valid};
ghost use Rattle.vortex_scalar_views.specs.Forms.{Typed};
ghost use Rattle.vortex_scalar_nested.specs.Entries.{keys_of, values_of};
ghost use Rattle.vortex_scalar_nested.specs.Held.{raw_of_items};
ghost use Rattle.vortex_scalar_nested.specs.Nested.{typed_map};
ghost use Rattle.vortex_scalar_iter.specs.Entries.{entries_of_map};
ghost use Rattle.vortex_scalar_iter.specs.Iterators.{entries_left, keys_left, values_left};

use crate::map_entries_iter::MapEntriesIter;
use crate::map_keys_iter::MapKeysIter;
use crate::map_values_iter::MapValuesIter;
use vortex_scalar_nested::map_scalar::MapScalar;
use vortex_scalar_value::scalar_value::ScalarValue;

/// More calls on a `MapScalar`, which are methods of Vortex's.
pub trait MapScalarExt {
    ghost typed: { Self → Typed };

    /// Clones of the keys and values of the entries in order, and `None` for null.
    fn entries(&self) -> Option<MapEntriesIter<'_>>
        ensures { option_map entries_left result ≡ entries_of_map (typed self.now) };

    /// Clones of the keys in the order of the entries, and `None` for null.
    fn keys(&self) -> Option<MapKeysIter<'_>>
        ensures { option_map keys_left result ≡ keys_of (typed self.now) };

    /// Clones of the values in the order of the entries, and `None` for null.
    fn values(&self) -> Option<MapValuesIter<'_>>
        ensures { option_map values_left result ≡ values_of (typed self.now) };
}

impl MapScalarExt for MapScalar<'_> {
    ghost typed = { typed_map };

    #[tactic(auto, using(crate::proofs::Entries::listed))]
    fn entries(&self) -> Option<MapEntriesIter<'_>> {
        let entries = stored_entries(self)?;
        Some(MapEntriesIter::new(self.map_dtype(), entries))
    }

    #[tactic(auto, using(crate::proofs::Entries::keys_listed))]
    fn keys(&self) -> Option<MapKeysIter<'_>> {
        let entries = stored_entries(self)?;
        Some(MapKeysIter::new(self.map_dtype(), entries))
    }

    #[tactic(auto, using(crate::proofs::Entries::values_listed))]
    fn values(&self) -> Option<MapValuesIter<'_>> {
        let entries = stored_entries(self)?;
        Some(MapValuesIter::new(self.map_dtype(), entries))
    }
}

// The entries, and `None` for null.
#[tactic(auto, using(vortex_scalar_nested::proofs::Pairs::held))]
fn stored_entries<'a>(view: &MapScalar<'a>) -> Option<&'a [Option<ScalarValue>]>
    ensures value { raw_of_items result ≡ (typed_map view.now).1 }
    ensures is_valid { IsTrue (valid (typed_map view.now).0 (raw_of_items result)) }
{
    match view.value() {
        Some(value) => value.as_list(),
        None => None,
    }
}
