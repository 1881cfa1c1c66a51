//! The index of each value among distinct ones, by its key.
ghost use Rattle.std.specs.Prelude.{◌≡◌, IfOk};
ghost use Rattle.vortex_arrays_dictionary.specs.Numbering.{IsPlaced};

use std::alloc::AllocError;
use std::collections::BTreeMap;

/// The key of a value: its integer and its bytes.
pub(crate) type Key<'a> = (i128, &'a [u8]);

/// The index of the key in the map. A new key gets the next index.
pub(crate) fn place_of<'a>(
    places: &mut BTreeMap<Key<'a>, u64>,
    key: Key<'a>,
    next: u64,
) -> Result<u64, AllocError>
    ensures { IfOk result (λ place. IsPlaced places.old key.entry next places.new place) }
{
    if let Some(place) = places.get(&key) {
        return Ok(*place);
    }
    places.insert(key, next)?;
    Ok(next)
}
