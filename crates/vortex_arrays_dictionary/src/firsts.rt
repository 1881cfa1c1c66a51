//! Rows numbered by the first occurrences of distinct ones.
ghost use Rattle.std.specs.Prelude.{◌≡◌, List, length, is_some, IfOk, IfSome};
ghost use Rattle.std.specs.HashMap.{get};
ghost use Rattle.std.specs.Ordering.{int_eq};
ghost use Rattle.vortex_model.specs.Content.{Content};
ghost use Rattle.vortex_arrays_model.specs.Layout.{rows_of};
ghost use Rattle.vortex_arrays_buffer.specs.PrimitiveBuffers.{integers_of};
ghost use Rattle.vortex_arrays_dictionary.specs.Columns.{is_plain_leaf};
ghost use Rattle.vortex_arrays_dictionary.specs.Firsts.{AreKeysOf, AreNumbered, IsNumberedAt, IsNumberedWhere};
ghost use Rattle.vortex_arrays_dictionary.specs.Keyed.{AreKeyed, AreAsMany};

use crate::keyed::{KeyedRows, Keys, keyed_rows};
use std::alloc::{AllocError, Global};
use std::collections::HashMap;
use std::hash::Hash;
use vortex_arrays_buffer::primitive_buffer::PrimitiveBuffer;
use vortex_arrays_core::array::ArrayRef;

/// The index of the first occurrence of each distinct row, and for each row the number of its value
/// among these, 0 for null.
#[derive(Drop)]
pub(crate) struct Firsts {
    pub(crate) places: Vec<usize>,
    pub(crate) numbers: Vec<u64>,
}

/// The rows of a plain column of booleans, integers, strings or bytes, numbered. `None` for any
/// other column.
#[tactic(auto, using(crate::proofs::KeyedLemmas::told))]
pub(crate) fn number_rows(alloc: Global, array: &ArrayRef) -> Result<Option<Firsts>, AllocError>
    ensures when { IfOk result (λ found. is_some found ≡ is_plain_leaf array.now) }
    ensures numbered { IfOk result (λ found. IfSome found
        (λ made. AreNumbered (rows_of array.now) made.places.items made.numbers.items)) }
{
    let Some(rows) = keyed_rows(alloc, array)? else {
        return Ok(None);
    };
    let made = number_keyed(alloc, &rows)?;
    Ok(Some(made))
}

// The rows numbered. The type of their keys is matched once.
fn number_keyed(alloc: Global, rows: &KeyedRows<'_>) -> Result<Firsts, AllocError>
    requires { AreAsMany rows.now }
    ensures { IfOk result (λ made. (cs : List Content) → AreKeyed rows.now cs
        → AreNumbered cs made.places.items made.numbers.items) }
{
    let present = rows.present.as_slice();
    match &rows.keys {
        Keys::Truths(keys) => number_keys(alloc, keys.as_slice(), present),
        Keys::Integers(items) => number_items(alloc, items, present),
        Keys::Bytes(keys) => number_keys(alloc, keys.as_slice(), present),
    }
}

// The rows numbered, with integers as keys. Their type is matched once.
fn number_items(
    alloc: Global,
    items: &PrimitiveBuffer,
    present: &[bool],
) -> Result<Firsts, AllocError>
    requires { length present.now ≡ length (integers_of items.now) }
    ensures { IfOk result
        (λ made. (cs : List Content) → AreKeysOf int_eq (integers_of items.now) present.now cs
        → AreNumbered cs made.places.items made.numbers.items) }
{
    match items {
        PrimitiveBuffer::U8(items) => number_keys(alloc, items.as_slice(), present),
        PrimitiveBuffer::U16(items) => number_keys(alloc, items.as_slice(), present),
        PrimitiveBuffer::U32(items) => number_keys(alloc, items.as_slice(), present),
        PrimitiveBuffer::U64(items) => number_keys(alloc, items.as_slice(), present),
        PrimitiveBuffer::I8(items) => number_keys(alloc, items.as_slice(), present),
        PrimitiveBuffer::I16(items) => number_keys(alloc, items.as_slice(), present),
        PrimitiveBuffer::I32(items) => number_keys(alloc, items.as_slice(), present),
        PrimitiveBuffer::I64(items) => number_keys(alloc, items.as_slice(), present),
    }
}

// Numbers the rows by their keys in one pass, with a map of the keys. A row that is not present is
// null.
fn number_keys<K: Copy + Eq + Hash + Drop>(
    alloc: Global,
    keys: &[K],
    present: &[bool],
) -> Result<Firsts, AllocError>
    requires { length present.now ≡ length keys.now }
    ensures { IfOk result
        (λ made. (cs : List Content) → AreKeysOf K.eq keys.now present.now cs
        → AreNumbered cs made.places.items made.numbers.items) }
{
    let mut codes = HashMap::new(alloc);
    let mut places = Vec::new(alloc);
    let mut numbers = vec![in alloc; 0; keys.len()]?;
    for i in 0..keys.len() {
        let key = keys[i];
        numbers[i] = number_or_zero(&mut codes, &mut places, key, i, present[i])?;
    }
    Ok(Firsts { places, numbers })
}

// The number of a row's key, and 0 for a null row.
fn number_or_zero<K: Copy + Eq + Hash + Drop>(
    codes: &mut HashMap<K, u64>,
    places: &mut Vec<usize>,
    key: K,
    place: usize,
    present: bool,
) -> Result<u64, AllocError>
    ensures { IfOk result
        (λ n. IsNumberedWhere K.eq (get K.eq codes.old) (get K.eq codes.new) present key place
        places.old.items places.new.items n) }
{
    if present {
        number_of(codes, places, key, place)
    } else {
        Ok(0)
    }
}

// The number of a key. A new key gets the next number, and its index is added to the first
// occurrences.
fn number_of<K: Copy + Eq + Hash + Drop>(
    codes: &mut HashMap<K, u64>,
    places: &mut Vec<usize>,
    key: K,
    place: usize,
) -> Result<u64, AllocError>
    ensures { IfOk result
        (λ n. IsNumberedAt K.eq (get K.eq codes.old) (get K.eq codes.new) key place
        places.old.items places.new.items n) }
{
    if let Some(code) = codes.get(&key) {
        return Ok(*code);
    }
    let next = places.len() as u64;
    codes.insert(key, next)?;
    places.push(place)?;
    Ok(next)
}
