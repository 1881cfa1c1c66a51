//! Items by index, and the two parts of a map's entry.
ghost use Rattle.std.specs.Prelude.{◌≡◌, option_map};
ghost use Rattle.vortex_scalar_value.specs.View.{raw_at, raws_in};
ghost use Rattle.vortex_scalar_nested.specs.Entries.{pair_in};
ghost use Rattle.vortex_scalar_nested.specs.Places.{item_at};

use vortex_scalar_value::scalar_value::ScalarValue;

/// The item at an index, and `None` past the end. Null is `Some(None)`.
#[tactic(auto, using(crate::proofs::Elements::items))]
pub(crate) fn value_at(values: &[Option<ScalarValue>], index: usize) -> Option<Option<&ScalarValue>>
    ensures { option_map raw_at result ≡ item_at (raws_in values.now) index }
{
    if index >= values.len() {
        return None;
    }
    let value = values[index].as_ref();
    Some(value)
}

/// The key and the value of an entry, each `None` where it is null. `None` for a value that isn't a
/// pair.
#[tactic(auto, using(crate::proofs::Pairs::split))]
pub fn pair_of(entry: Option<&ScalarValue>) -> Option<(Option<&ScalarValue>, Option<&ScalarValue>)>
    ensures { option_map (λ pair. (raw_at pair.0, raw_at pair.1)) result
        ≡ pair_in (raw_at entry.entry) }
{
    let items = entry?.as_list()?;
    match items {
        [key, value] => Some((key.as_ref(), value.as_ref())),
        _ => None,
    }
}
