//! Values of zones, and which of them are known.
ghost use Rattle.std.specs.Prelude.{◌≡◌, ◌≤◌, ◌∷◌, ◌++◌, [], length, take, OnOk};

use std::alloc::{AllocError, Global};

/// A value for each zone, in order, and for each zone whether it is known. One that isn't has any
/// value.
#[derive(Drop)]
pub struct Known<T> {
    pub values: Vec<T>,
    pub flags: Vec<bool>,
}

// Keeps the first `count` items, drops the others, and pushes the item.
fn put_behind<T: Copy + Drop>(items: &mut Vec<T>, count: usize, item: T) -> Result<(), AllocError>
    ensures kept { count ≤ length items.old.items
        → take count items.new.items ≡ take count items.old.items }
    ensures put { OnOk result (items.new.items ≡ take count items.old.items ++ item ∷ []) }
{
    items.truncate(count);
    items.push(item)?;
    Ok(())
}

impl<T: Copy + Drop> Known<T> {
    ghost use Rattle.std.specs.Prelude.{◌≡◌, ◌≤◌, ◌+◌, [], length, take, drop, OnOk};
    ghost use Rattle.vortex_table_zonemaps.specs.Known.{IsKept, IsPut};

    /// The values of no zones.
    pub fn new(alloc: Global) -> Known<T>
        ensures values { result.values.items ≡ [] }
        ensures flags { result.flags.items ≡ [] }
    {
        Known {
            values: Vec::new(alloc),
            flags: Vec::new(alloc),
        }
    }

    // Puts a value after those of the first `count` zones, which stay, also after an error. Later
    // values, which an earlier call left that ran out of memory, are dropped.
    pub(crate) fn put(&mut self, count: usize, value: T, is_known: bool) -> Result<(), AllocError>
        ensures kept { IsKept count self.old self.new }
        ensures put { OnOk result (IsPut count value is_known self.old self.new) }
    {
        put_behind(&mut self.values, count, value)?;
        put_behind(&mut self.flags, count, is_known)?;
        Ok(())
    }

    // The values of `count` neighbouring zones.
    pub(crate) fn values_in<'a>(&'a self, first: usize, count: usize) -> &'a [T]
        requires { first + count ≤ length self.now.values.items }
        ensures { result.now ≡ take count (drop first self.now.values.items) }
    {
        &self.values.as_slice()[first..first + count]
    }

    pub(crate) fn flags_in<'a>(&'a self, first: usize, count: usize) -> &'a [bool]
        requires { first + count ≤ length self.now.flags.items }
        ensures { result.now ≡ take count (drop first self.now.flags.items) }
    {
        &self.flags.as_slice()[first..first + count]
    }
}
