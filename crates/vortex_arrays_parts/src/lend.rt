//! Bytes borrowed from strings and byte strings.
ghost use Rattle.std.specs.Prelude.{◌≡◌, Some, map, option_map, IfOk, All};
ghost use Rattle.vortex_arrays_model.specs.Layout.{texts, byte_strings, IsString};
ghost use Rattle.vortex_arrays_parts.specs.Values.{lent, IsHeld, IsPresent};

use std::alloc::{AllocError, Global};
use std::convert::{AsSlice, AsStr};

/// The bytes of each item.
pub(crate) fn lend_bytes<T: AsSlice<u8>>(
    alloc: Global,
    items: &[T],
) -> Result<Vec<Option<&[u8]>>, AllocError>
    ensures values { IfOk result
        (λ all. map lent all.items ≡ map (option_map T.items) (map Some items.now)) }
    ensures held { IfOk result (λ all. All (IsHeld byte_strings) (map lent all.items)) }
    ensures present { IfOk result (λ all. All IsPresent (map lent all.items)) }
{
    items.iter().map(|item| Some(bytes_of(item))).collect(alloc)
}

/// The bytes of each item, and `None` where it is missing.
pub(crate) fn lend_some_bytes<T: AsSlice<u8>>(
    alloc: Global,
    items: &[Option<T>],
) -> Result<Vec<Option<&[u8]>>, AllocError>
    ensures values { IfOk result
        (λ all. map lent all.items ≡ map (option_map T.items) items.now) }
    ensures held { IfOk result (λ all. All (IsHeld byte_strings) (map lent all.items)) }
{
    items.iter().map(|item| bytes_of_some(item)).collect(alloc)
}

/// The bytes of each string.
pub(crate) fn lend_texts<T: AsStr>(
    alloc: Global,
    items: &[T],
) -> Result<Vec<Option<&[u8]>>, AllocError>
    ensures values { IfOk result
        (λ all. map lent all.items ≡ map (option_map T.text) (map Some items.now)) }
    ensures held { IfOk result (λ all. All (IsHeld texts) (map lent all.items)) }
    ensures present { IfOk result (λ all. All IsPresent (map lent all.items)) }
{
    items.iter().map(|item| Some(text_of(item))).collect(alloc)
}

/// The bytes of each string, and `None` where it is missing.
pub(crate) fn lend_some_texts<T: AsStr>(
    alloc: Global,
    items: &[Option<T>],
) -> Result<Vec<Option<&[u8]>>, AllocError>
    ensures values { IfOk result
        (λ all. map lent all.items ≡ map (option_map T.text) items.now) }
    ensures held { IfOk result (λ all. All (IsHeld texts) (map lent all.items)) }
{
    items.iter().map(|item| text_of_some(item)).collect(alloc)
}

// The bytes of an item, and `None` where it is missing.
fn bytes_of_some<T: AsSlice<u8>>(item: &Option<T>) -> Option<&[u8]>
    ensures value { lent result ≡ option_map T.items item.now }
    ensures held { IsHeld byte_strings (lent result) }
{
    match item {
        Some(item) => Some(bytes_of(item)),
        None => None,
    }
}

// The bytes of a string, and `None` where it is missing.
fn text_of_some<T: AsStr>(item: &Option<T>) -> Option<&[u8]>
    ensures value { lent result ≡ option_map T.text item.now }
    ensures held { IsHeld texts (lent result) }
{
    match item {
        Some(item) => Some(text_of(item)),
        None => None,
    }
}

fn bytes_of<T: AsSlice<u8>>(item: &T) -> &[u8]
    ensures value { result.now ≡ T.items item.now }
    ensures held { IsString byte_strings result.now }
{
    as_bytes(item.as_slice())
}

// The same bytes, each of which is below 256.
fn as_bytes(bytes: &[u8]) -> &[u8]
    ensures same { result.now ≡ bytes.now }
    ensures held { IsString byte_strings result.now }
{
    bytes
}

fn text_of<T: AsStr>(item: &T) -> &[u8]
    ensures value { result.now ≡ T.text item.now }
    ensures held { IsString texts result.now }
{
    item.as_str().as_bytes()
}
