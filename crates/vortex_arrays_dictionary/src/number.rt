//! The distinct values of a column, numbered in the order of first occurrences.
ghost use Rattle.std.specs.Prelude.{◌≡◌, true, map, IfOk, OnOk};
ghost use Rattle.vortex_model.specs.LogicalType.{LogicalType};
ghost use Rattle.vortex_model.specs.Kept.{is_leaf};
ghost use Rattle.vortex_scalar_value.specs.View.{raw_of, raw_at};
ghost use Rattle.vortex_arrays_dictionary.specs.Numbering.{Key as ValueKey, number_in, bytes_in, Knows, IsNumbered, IsNumberedOrNull, AreOf, IsNumbering};

use crate::places::{Key, place_of};
use std::alloc::{AllocError, Global};
use std::collections::BTreeMap;
use vortex_scalar_value::scalar_value::ScalarValue;

/// The distinct values of a column, and for each row the number of its value, 0 for null.
#[derive(Drop)]
pub(crate) struct Numbering<'a> {
    pub(crate) values: Vec<Option<&'a ScalarValue>>,
    pub(crate) numbers: Vec<u64>,
}

/// Numbers the values, which are of one leaf type, in one pass, with a map of their keys.
#[tactic(auto, using(crate::proofs::NumberLemmas::numbering))]
pub(crate) fn number_values<'a>(
    alloc: Global,
    values: &[Option<&'a ScalarValue>],
) -> Result<Numbering<'a>, AllocError>
    ensures { IfOk result
        (λ made. (k : LogicalType) → is_leaf k ≡ true → AreOf k (map raw_at values.now)
        → IsNumbering k (map raw_at values.now) (map raw_at made.values.items)
        made.numbers.items) }
{
    let mut places = BTreeMap::new(alloc);
    let mut distinct = Vec::new(alloc);
    let mut numbers = vec![in alloc; 0; values.len()]?;
    for i in 0..values.len() {
        numbers[i] = number_or_zero(&mut places, &mut distinct, values[i])?;
    }
    Ok(Numbering {
        values: distinct,
        numbers,
    })
}

// The number of a value, and 0 for null. A new value is added to the distinct ones.
#[tactic(auto, using(crate::proofs::NumberLemmas::present))]
fn number_or_zero<'a>(
    places: &mut BTreeMap<Key<'a>, u64>,
    distinct: &mut Vec<Option<&'a ScalarValue>>,
    value: Option<&'a ScalarValue>,
) -> Result<u64, AllocError>
    requires { Knows places.old (map raw_at distinct.old.items) }
    ensures known { OnOk result (Knows places.new (map raw_at distinct.new.items)) }
    ensures number { IfOk result
        (λ number. IsNumberedOrNull (map raw_at distinct.old.items) (raw_at value.entry)
        (map raw_at distinct.new.items) number) }
{
    match value {
        Some(value) => number_of(places, distinct, value),
        None => Ok(0),
    }
}

// The number of a value.
#[tactic(auto, using(crate::proofs::NumberLemmas::placing))]
fn number_of<'a>(
    places: &mut BTreeMap<Key<'a>, u64>,
    distinct: &mut Vec<Option<&'a ScalarValue>>,
    value: &'a ScalarValue,
) -> Result<u64, AllocError>
    requires { Knows places.old (map raw_at distinct.old.items) }
    ensures known { OnOk result (Knows places.new (map raw_at distinct.new.items)) }
    ensures number { IfOk result (λ number. (q : ValueKey) × IsNumbered q
        (map raw_at distinct.old.items) (raw_of value.now) (map raw_at distinct.new.items)
        number) }
{
    let key = (number_in(value), bytes_in(value));
    let next = distinct.len() as u64;
    let number = place_of(places, key, next)?;
    if number == next {
        distinct.push(Some(value))?;
    }
    Ok(number)
}

// The integer of a value, where a boolean is 0 or 1.
#[tactic(auto, using(vortex_scalar_value::proofs::Views::one_level))]
fn number_in(value: &ScalarValue) -> i128
    ensures { result ≡ number_in (raw_of value.now) }
{
    match value {
        ScalarValue::Bool(flag) => { if *flag { 1 } else { 0 } }
        ScalarValue::Primitive(number) => number.get(),
        ScalarValue::Utf8(_) | ScalarValue::Binary(_) | ScalarValue::Tuple(_) => 0,
        ScalarValue::Union(_) | ScalarValue::Variant(_) => 0,
    }
}

// The bytes of a string or of bytes.
#[tactic(auto, using(vortex_scalar_value::proofs::Views::one_level))]
fn bytes_in(value: &ScalarValue) -> &[u8]
    ensures { result.now ≡ bytes_in (raw_of value.now) }
{
    match value {
        ScalarValue::Utf8(text) => text.as_bytes().as_slice(),
        ScalarValue::Binary(bytes) => bytes.as_slice(),
        ScalarValue::Bool(_) | ScalarValue::Primitive(_) | ScalarValue::Tuple(_) => &[],
        ScalarValue::Union(_) | ScalarValue::Variant(_) => &[],
    }
}
