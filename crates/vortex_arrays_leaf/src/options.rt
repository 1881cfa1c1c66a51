//! Integer arrays from options.
ghost use Rattle.std.specs.Prelude.{◌≡◌, ◌<◌, false, List, Option, length, map, is_some, slice_index_or, IfOk};
ghost use Rattle.std.specs.Iterator.{Drains, IsFinite};
ghost use Rattle.vortex_model.specs.LogicalType.{integer_type, nullable};
ghost use Rattle.vortex_arrays_model.specs.Layout.{bools, required, by_array, rows_of, array_type_of};
ghost use Rattle.vortex_arrays_core.specs.LayoutOf.{valid_of};
ghost use Rattle.vortex_arrays_leaf.specs.Options.{content_of_option, number_or_zero};

use crate::primitive_array::PrimitiveArray;
use std::alloc::{AllocError, Global};
use vortex_arrays_buffer::bit_buffer::BitBuffer;
use vortex_arrays_buffer::buffer::Buffer;
use vortex_arrays_buffer::element::Element;
use vortex_arrays_core::array::{ArrayRef, Validity};

impl PrimitiveArray {
    /// An array of the iterator's integers with null for each `None`, as Vortex's
    /// `PrimitiveArray::from_option_iter`. Its type is nullable even without a `None`.
    pub fn from_option_iter<T: Element, I: IntoIterator<Item = Option<T>>>(
        alloc: Global,
        items: I,
    ) -> Result<PrimitiveArray, AllocError>
        requires { (it : I.IntoIter) → I.into_iter_gives items it
            → I.IntoIter.can_next it × IsFinite (I.IntoIter.remaining it) }
        ensures { IfOk result (λ a. (it : I.IntoIter) × (xs : List (Option T))
            × I.into_iter_gives items it × Drains I.IntoIter.next_gives it xs
            × (rows_of a ≡ map (content_of_option T.integer) xs)
            × (array_type_of a ≡ integer_type T.kind nullable)) }
    {
        let items = Vec::from_iter(alloc, items)?;
        PrimitiveArray::from_options(alloc, items.as_slice())
    }

    /// An array of these integers with null for each `None`, as `from_option_iter`.
    pub fn from_options<T: Element>(
        alloc: Global,
        items: &[Option<T>],
    ) -> Result<PrimitiveArray, AllocError>
        ensures rows { IfOk result (λ a. rows_of a ≡ map (content_of_option T.integer) items.now) }
        ensures kind { IfOk result (λ a. array_type_of a ≡ integer_type T.kind nullable) }
    {
        let numbers = Buffer::from_vec(numbers_or_zero(alloc, items)?)?;
        let validity = valid_where_some(alloc, items)?;
        PrimitiveArray::new(alloc, numbers, validity)
    }
}

// Each integer, and 0 for each `None`.
fn numbers_or_zero<T: Element>(alloc: Global, items: &[Option<T>]) -> Result<Vec<T>, AllocError>
    ensures { IfOk result (λ numbers. map T.integer numbers.items
        ≡ map (number_or_zero T.integer) items.now) }
{
    items
        .iter()
        .map(|item| number_or_zero_of(*item))
        .collect(alloc)
}

// The integer, and 0 for `None`.
#[tactic(auto, using(vortex_model::proofs::Ranges::zero_within))]
fn number_or_zero_of<T: Element>(item: Option<T>) -> T
    ensures { T.integer result ≡ number_or_zero T.integer item }
{
    match item {
        Some(number) => number,
        None => match T::of(0) {
            Some(zero) => zero,
            None => unreachable!(),
        },
    }
}

// The validity whose null rows are those of `None`.
fn valid_where_some<T: Element>(alloc: Global, items: &[Option<T>]) -> Result<Validity, AllocError>
    ensures { IfOk result (λ validity. valid_of validity
        ≡ by_array (bools (map is_some items.now) required)) }
{
    let bits = are_some(alloc, items)?;
    let valid = ArrayRef::of_bools(alloc, bits, Validity::NonNullable)?;
    Ok(Validity::Array(valid))
}

// For each item, whether it is `Some`.
fn are_some<T: Element>(alloc: Global, items: &[Option<T>]) -> Result<BitBuffer, AllocError>
    ensures { IfOk result (λ there. there ≡ map is_some items.now) }
{
    BitBuffer::collect_bool(alloc, items.len(), |i| is_there(items, i))
}

fn is_there<T: Element>(items: &[Option<T>], i: usize) -> bool
    requires { i < length items.now }
    ensures { result ≡ slice_index_or (map is_some items.now) i false }
{
    items[i].is_some()
}
