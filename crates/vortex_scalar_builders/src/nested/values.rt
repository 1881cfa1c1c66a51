//! The values of scalars, without their types.
ghost use Rattle.std.specs.Prelude.{◌≡◌, IfOk, map};
ghost use Rattle.vortex_scalar_value.specs.View.{raw_of, raw_in};
ghost use Rattle.vortex_scalar_core.specs.Scalar.{scalar_raw};
ghost use Rattle.vortex_scalar_builders.specs.nested.Children.{raw_entry};

use std::alloc::{AllocError, Global};
use vortex_scalar_core::scalar::Scalar;
use vortex_scalar_value::scalar_value::ScalarValue;

/// The values, without their types.
pub(crate) fn values_of(children: Vec<Scalar>) -> Result<Vec<Option<ScalarValue>>, AllocError>
    ensures { IfOk result (λ values. map raw_in values.items ≡ map scalar_raw children.items) }
{
    let mut values = Vec::with_capacity(*children.allocator(), children.len())?;
    for child in children {
        values.push(into_value(child))?;
    }
    Ok(values)
}

/// The entries of a map, each a pair of a key and a value.
pub(crate) fn entries_of(
    entries: Vec<(Scalar, Scalar)>,
) -> Result<Vec<Option<ScalarValue>>, AllocError>
    ensures { IfOk result (λ values. map raw_in values.items
        ≡ map (λ entry. raw_entry (scalar_raw entry.0) (scalar_raw entry.1)) entries.items) }
{
    let alloc = *entries.allocator();
    let mut values = Vec::with_capacity(alloc, entries.len())?;
    for (key, value) in entries {
        let entry = entry_of(alloc, key, value)?;
        values.push(Some(entry))?;
    }
    Ok(values)
}

#[tactic(auto, using(vortex_scalar_value::proofs::Views::one_level))]
fn entry_of(alloc: Global, key: Scalar, value: Scalar) -> Result<ScalarValue, AllocError>
    ensures { IfOk result (λ entry. raw_of entry ≡ raw_entry (scalar_raw key) (scalar_raw value)) }
{
    // (built in one step: a failed push would drop both values, and the proof would walk them)
    let pair = vec![in alloc; into_value(key), into_value(value)]?;
    Ok(ScalarValue::Tuple(pair))
}

/// The value, without its type. `None` is null.
pub(crate) fn into_value(scalar: Scalar) -> Option<ScalarValue>
    ensures { raw_in result ≡ scalar_raw scalar }
{
    let (_, value) = scalar.into_parts();
    value
}
